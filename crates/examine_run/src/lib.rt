// The start that decides, and the machine's run from it (02 m), in a lent table of cells.
#![tactic(auto)]

ghost use Rattle.std.specs.Prelude.{◌≡◌, true, List, ℕ, ◌<◌, ◌≤◌};
ghost use Rattle.std.proofs.Math.Option.{some};
ghost use Rattle.entity.specs.Logic.{and, all_in, Anything};
ghost use Rattle.entity.specs.Place.{reg, slot, place_at};
ghost use Rattle.reginfo.specs.RegInfo.{is_memory, in_class};
ghost use Rattle.reginfo.specs.Known.{KnownPlace};
ghost use Rattle.reginfo.specs.Table.{reg_info_of};
ghost use Rattle.function.specs.Function as spec;
ghost use Rattle.function.specs.Function.{num_values, can_rematerialize, remat_class};
ghost use Rattle.function.specs.Known.{Checked};
ghost use Rattle.function.specs.Table.{function_of};
ghost use Rattle.rules.specs.Edit as rule;
ghost use Rattle.rules.specs.Sorted.{SortedOk};
ghost use Rattle.entries.specs.Table.{sorted_of};
ghost use Rattle.examine_rules.specs.Examine.{width, generic_content, generic_start};
ghost use Rattle.cells.specs.Cells.{memory_of, Short, words_in, count_in, Celled};
ghost use Rattle.ties.specs.Ties.{kept, Tied};
ghost use Rattle.examine_words.specs.Named.{named_in};
ghost use Rattle.examine_run.specs.Ran.{if, PutIf, LaidOne, edit_at, stepped, ran};

use cells::{Cells, Words};
use edit::Edit;
use entity::{Allocation, PhysReg, SpillSlot, Value};
use entries::Entries;
use function::{Function, Remat};
use reginfo::RegInfo;
use ties::Ties;

// The content of a value: from 512 on, as the words below are the units' own, and eight numbers to a label, as no register has more units.
pub fn content(t: &RegInfo, f: &Function, e: &Entries, x: &Ties, v: Value, b: &mut Words)
    requires { Checked t.now f.now × Tied e.now x.now × (v.0 < num_values (function_of f.now)) }
    ensures { (words_in b.new ≡ generic_content (reg_info_of t.now) (function_of f.now) (sorted_of e.now).moves v.0) × (count_in b.new ≡ width (reg_info_of t.now) (function_of f.now) v.0) × (count_in b.new ≤ 9) }
{
    let n = ties::width(t, f, v);
    let first = 512 + 8 * ties::number_of(e, x, v);
    for j in 0..n {
        b[1 + j] = (first + j) as u16;
    }
    b[0] = n as u16;
}

// The source of kept move m holds its value.
fn lay_one(t: &RegInfo, f: &Function, e: &Entries, x: &Ties, c: &mut Cells, b: &mut Words, m: usize)
    requires { Checked t.now f.now × Tied e.now x.now × SortedOk (reg_info_of t.now) (function_of f.now) (sorted_of e.now) × Short c.old × (m < kept e.now) }
    ensures { LaidOne (reg_info_of t.now) (function_of f.now) (sorted_of e.now).moves m (memory_of c.old) (memory_of c.new) × Short c.new × Anything b.new }
{
    let v = ties::value_at(e, m);
    let p = ties::source_at(e, m);
    content(t, f, e, x, v, b);
    cells::write(t, c, p, b);
}

// The start that stands for all. What the table held does not matter.
pub fn lay(t: &RegInfo, f: &Function, e: &Entries, x: &Ties, c: &mut Cells, b: &mut Words)
    requires { Checked t.now f.now × Tied e.now x.now × SortedOk (reg_info_of t.now) (function_of f.now) (sorted_of e.now) }
    ensures { (memory_of c.new ≡ generic_start (reg_info_of t.now) (function_of f.now) (sorted_of e.now).moves) × Short c.new × Anything b.new }
{
    cells::clear(c);
    for m in (0..ties::kept(e)).rev() {
        lay_one(t, f, e, x, c, b, m);
    }
}

fn both_memory(t: &RegInfo, to: Allocation, from: Allocation) -> bool
    requires { KnownPlace (reg_info_of t.now) (place_at to.0) × KnownPlace (reg_info_of t.now) (place_at from.0) }
    ensures { result ≡ and (is_memory (reg_info_of t.now) (place_at to.0)) (is_memory (reg_info_of t.now) (place_at from.0)) }
{
    if reginfo::is_memory(t, to) {
        return reginfo::is_memory(t, from);
    }
    false
}

// Puts the words into a place that takes so many; else false.
fn put_if(t: &RegInfo, c: &mut Cells, p: Allocation, b: &Words) -> bool
    requires { Short c.old × Celled (reg_info_of t.now) (place_at p.0) × (count_in b.now ≤ 9) }
    ensures { ((f : spec.Function) → PutIf (reg_info_of t.now) f (place_at p.0) (words_in b.now) (memory_of c.old) result (memory_of c.new)) × Short c.new }
{
    if !cells::fits(t, p, usize::from(b[0])) {
        return false;
    }
    cells::write(t, c, p, b);
    true
}

// Each kind of edit, where it can be done.
fn do_move(t: &RegInfo, c: &mut Cells, b: &mut Words, to: Allocation, from: Allocation) -> bool
    requires { Short c.old × Celled (reg_info_of t.now) (place_at to.0) × Celled (reg_info_of t.now) (place_at from.0) }
    ensures { ((f : spec.Function) (g : ℕ → List ℕ) (v : ℕ) → stepped (reg_info_of t.now) f g (rule.Move (place_at to.0) (place_at from.0) v) (memory_of c.old) ≡ if result (memory_of c.new)) × Short c.new × Anything b.new }
{
    if both_memory(t, to, from) {
        return false;
    }
    cells::read(t, c, from, b);
    put_if(t, c, to, b)
}

// Whether the value is rebuilt by a class that has the place.
fn can_remat(t: &RegInfo, f: &Function, to: Allocation, v: Value) -> bool
    requires { Checked t.now f.now × KnownPlace (reg_info_of t.now) (place_at to.0) × (v.0 < num_values (function_of f.now)) }
    ensures { result ≡ and (can_rematerialize (function_of f.now) v.0) (in_class (reg_info_of t.now) (remat_class (function_of f.now) v.0) (place_at to.0)) }
{
    match function::can_rematerialize(f, v) {
        Remat::Never => false,
        Remat::CheaperThanMove(c) => reginfo::class_has(t, c, to),
        Remat::CheaperThanLoad(c) => reginfo::class_has(t, c, to),
    }
}

fn do_remat(
    t: &RegInfo,
    f: &Function,
    e: &Entries,
    x: &Ties,
    c: &mut Cells,
    b: &mut Words,
    to: Allocation,
    v: Value,
) -> bool
    requires { Checked t.now f.now × Tied e.now x.now × Short c.old × Celled (reg_info_of t.now) (place_at to.0) × (v.0 < num_values (function_of f.now)) }
    ensures { (stepped (reg_info_of t.now) (function_of f.now) (generic_content (reg_info_of t.now) (function_of f.now) (sorted_of e.now).moves) (rule.Rematerialize (place_at to.0) v.0) (memory_of c.old) ≡ if result (memory_of c.new)) × Short c.new × Anything b.new }
{
    if !can_remat(t, f, to, v) {
        return false;
    }
    content(t, f, e, x, v, b);
    cells::write(t, c, to, b);
    true
}

fn do_spill(t: &RegInfo, c: &mut Cells, b: &mut Words, s: SpillSlot, r: PhysReg)
    requires { Short c.old × Celled (reg_info_of t.now) (slot s.0) × Celled (reg_info_of t.now) (reg r.0) × (s.0 < 8192) × (r.0 < 8192) }
    ensures { ((f : spec.Function) (g : ℕ → List ℕ) → stepped (reg_info_of t.now) f g (rule.EmergencySpill s.0 r.0) (memory_of c.old) ≡ some (memory_of c.new)) × Short c.new × Anything b.new }
{
    cells::read(t, c, Allocation::reg(r), b);
    cells::write(t, c, Allocation::spillslot(s), b);
}

fn do_reload(t: &RegInfo, c: &mut Cells, b: &mut Words, r: PhysReg, s: SpillSlot) -> bool
    requires { Short c.old × Celled (reg_info_of t.now) (slot s.0) × Celled (reg_info_of t.now) (reg r.0) × (s.0 < 8192) × (r.0 < 8192) }
    ensures { ((f : spec.Function) (g : ℕ → List ℕ) → stepped (reg_info_of t.now) f g (rule.EmergencyReload r.0 s.0) (memory_of c.old) ≡ if result (memory_of c.new)) × Short c.new × Anything b.new }
{
    cells::read(t, c, Allocation::spillslot(s), b);
    put_if(t, c, Allocation::reg(r), b)
}

// One edit, where it can be done; else false.
pub fn step(
    t: &RegInfo,
    f: &Function,
    e: &Entries,
    x: &Ties,
    c: &mut Cells,
    b: &mut Words,
    most: usize,
    word: u64,
) -> bool
    requires { Checked t.now f.now × Tied e.now x.now × Short c.old × (most ≤ 2048) × (named_in (reg_info_of t.now) (function_of f.now) most word ≡ true) }
    ensures { (stepped (reg_info_of t.now) (function_of f.now) (generic_content (reg_info_of t.now) (function_of f.now) (sorted_of e.now).moves) (edit_at word) (memory_of c.old) ≡ if result (memory_of c.new)) × Short c.new × Anything b.new }
{
    match edit::read(word) {
        Some(Edit::Move { to, from, value: _ }) => do_move(t, c, b, to, from),
        Some(Edit::Rematerialize { to, value }) => do_remat(t, f, e, x, c, b, to, value),
        Some(Edit::EmergencySpill { to, from }) => {
            do_spill(t, c, b, to, from);
            true
        }
        Some(Edit::EmergencyReload { to, from }) => do_reload(t, c, b, to, from),
        None => false,
    }
}

// All edits of a list, each of which names what there is; false where one cannot be done.
pub fn run(
    t: &RegInfo,
    f: &Function,
    e: &Entries,
    x: &Ties,
    c: &mut Cells,
    b: &mut Words,
    most: usize,
    list: &[u64],
) -> bool
    requires { Checked t.now f.now × Tied e.now x.now × Short c.old × (most ≤ 2048) × (all_in (named_in (reg_info_of t.now) (function_of f.now) most) list.now ≡ true) }
    ensures { (ran (reg_info_of t.now) (function_of f.now) (generic_content (reg_info_of t.now) (function_of f.now) (sorted_of e.now).moves) list.now (memory_of c.old) ≡ if result (memory_of c.new)) × Short c.new × Anything b.new }
{
    for word in list {
        if !step(t, f, e, x, c, b, most, *word) {
            return false;
        }
    }
    true
}
