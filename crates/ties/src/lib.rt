// Which kept moves hold the same content in every start (02 m), as one lent table of numbers (specs/Ties.antt): moves of one value, moves from one
// source, and what these link in a chain.
#![tactic(auto)]

ghost use Rattle.std.specs.Prelude.{◌≡◌, ℕ, ◌+◌, ◌<◌, ◌≤◌, length, get_or, eqb, ltb};
ghost use Rattle.entity.specs.Logic.{pick, and, or};
ghost use Rattle.reginfo.specs.Table.{reg_info_of};
ghost use Rattle.function.specs.Function.{num_values};
ghost use Rattle.function.specs.Known.{Checked};
ghost use Rattle.function.specs.Table.{function_of};
ghost use Rattle.group_rules.specs.Groups.{join};
ghost use Rattle.entries.specs.Table.{sorted_of};
ghost use Rattle.examine_rules.specs.Examine.{number_of, width, no_start};
ghost use Rattle.ties.specs.Ties.{kept, source_at, value_at, labels_in, by_source, by_value, noted_one, Kept, Noted, SameCells, TiedOne, Tied};

use entity::{Allocation, Value};
use entries::Entries;
use function::Function;
use reginfo::RegInfo;

pub type Ties = [u16; 12416];

// How many moves are kept, and of kept move m the source and the value.
pub fn kept(e: &Entries) -> usize
    ensures { result ≡ kept e.now }
{
    usize::from(e[1024])
}

pub fn source_at(e: &Entries, m: usize) -> Allocation
    requires { m < 128 }
    ensures { result.0 ≡ source_at e.now m }
{
    Allocation(e[m * 4])
}

pub fn value_at(e: &Entries, m: usize) -> Value
    requires { m < 128 }
    ensures { result.0 ≡ value_at e.now m }
{
    Value(e[2 + m * 4])
}

// A kept move at its source and at its value, labelled by its own number.
fn note_one(e: &Entries, x: &mut Ties, m: usize)
    requires { Kept e.now × (m < kept e.now) }
    ensures { (x.new ≡ noted_one e.now x.old m) × (length x.old ≡ 12416) }
{
    let n = m as u16;
    let v = usize::from(value_at(e, m).0);
    let s = usize::from(source_at(e, m).0);
    x[v] = n;
    x[4096 + s] = n;
    x[12288 + m] = n;
}

// Every kept move. What the table held does not matter.
fn note(e: &Entries, x: &mut Ties)
    requires { Kept e.now }
    ensures { Noted e.now x.new × ((m : ℕ) → m < kept e.now → get_or x.new (12288 + m) 0 ≡ m) }
{
    let n = kept(e);
    for i in 0..n {
        note_one(e, x, i);
    }
}

// The kept move that the cell of a kept move's source tells, and the one that the cell of its value does.
fn by_source(e: &Entries, x: &Ties, m: usize) -> usize
    requires { Kept e.now × (m < kept e.now) }
    ensures { result ≡ by_source e.now x.now m }
{
    let s = usize::from(source_at(e, m).0);
    usize::from(x[4096 + s])
}

fn by_value(e: &Entries, x: &Ties, m: usize) -> usize
    requires { Kept e.now × (m < kept e.now) }
    ensures { result ≡ by_value e.now x.now m }
{
    let v = usize::from(value_at(e, m).0);
    usize::from(x[v])
}

// What a label becomes where a and b become one.
fn joined(y: u16, a: u16, b: u16) -> u16
    ensures { result ≡ pick (or (eqb y a) (eqb y b)) (pick (ltb a b) a b) y }
{
    if y == a {
        return a.min(b);
    }
    if y == b {
        return a.min(b);
    }
    y
}

// The labels a and b of the first n kept moves become one.
fn relabel(x: &mut Ties, n: usize, a: u16, b: u16)
    requires { n ≤ 128 }
    ensures { (labels_in x.new n ≡ join a b (labels_in x.old n)) × SameCells x.old x.new }
{
    for j in 0..n {
        x[12288 + j] = joined(x[12288 + j], a, b);
    }
}

// The labels of kept moves i and k become one, unless they are.
fn join(x: &mut Ties, n: usize, i: usize, k: usize)
    requires { (n ≤ 128) × (i < n) × (k < n) }
    ensures { (labels_in x.new n ≡ join (get_or (labels_in x.old n) i 0) (get_or (labels_in x.old n) k 0) (labels_in x.old n)) × SameCells x.old x.new }
{
    let a = x[12288 + i];
    let b = x[12288 + k];
    if a == b {
        return;
    }
    relabel(x, n, a, b);
}

// A kept move joined with those that the cells of its source and of its value tell.
fn tie_one(e: &Entries, x: &mut Ties, m: usize)
    requires { Kept e.now × Noted e.now x.old × (m < kept e.now) }
    ensures { TiedOne e.now x.old x.new m }
{
    let n = kept(e);
    let s = by_source(e, x, m);
    let v = by_value(e, x, m);
    join(x, n, m, s);
    join(x, n, m, v);
}

// Every kept move. What the table held does not matter.
pub fn tie(e: &Entries, x: &mut Ties)
    requires { Kept e.now }
    ensures { Tied e.now x.new }
{
    note(e, x);
    let n = kept(e);
    for i in 0..n {
        tie_one(e, x, i);
    }
}

// Whether k is a kept move of the value.
fn is_of(e: &Entries, k: usize, v: Value) -> bool
    requires { kept e.now ≤ 128 }
    ensures { result ≡ and (ltb k (kept e.now)) (eqb (value_at e.now k) v.0) }
{
    if kept(e) <= k {
        return false;
    }
    value_at(e, k).0 == v.0
}

// The label of a value's kept moves, or a number of its own where it has none. What the cell tells is believed only of a kept move of the value: the table
// is not cleared, and a value that no move has may find anything there.
pub fn number_of(e: &Entries, x: &Ties, v: Value) -> usize
    requires { Tied e.now x.now × (v.0 < 4096) }
    ensures { (result ≡ number_of (sorted_of e.now).moves v.0) × (result < 4224) }
{
    let at = usize::from(v.0);
    let k = usize::from(x[at]);
    if is_of(e, k, v) {
        return usize::from(x[12288 + k]);
    }
    128 + at
}

// How many words a value has: as many as that register has units, which is of its bank and, by 7, not memory.
pub fn width(t: &RegInfo, f: &Function, v: Value) -> usize
    requires { Checked t.now f.now × (v.0 < num_values (function_of f.now)) }
    ensures { (result ≡ width (reg_info_of t.now) (function_of f.now) v.0) × (result ≤ 8) }
{
    let c = reginfo::stack_to_stack_class(t, function::value_bank(f, v));
    reginfo::num_reg_units(t, reginfo::order_last(t, c))
}

// Whether two kept moves with one source have values of different widths: no place holds both, so there is no start, and whatever is said of every start
// is true.
pub fn no_start(t: &RegInfo, f: &Function, e: &Entries, x: &Ties) -> bool
    requires { Checked t.now f.now × Tied e.now x.now × ((m : ℕ) → m < kept e.now → value_at e.now m < num_values (function_of f.now)) }
    ensures { result ≡ no_start (reg_info_of t.now) (function_of f.now) (sorted_of e.now).moves }
{
    let n = kept(e);
    for i in 0..n {
        let k = by_source(e, x, i);
        let a = width(t, f, value_at(e, i));
        let b = width(t, f, value_at(e, k));
        if a != b {
            return true;
        }
    }
    false
}
