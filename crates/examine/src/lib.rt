// Whether a list of edits does what a patch asks, from every start (02 m). One start decides: in it every word that nothing ties to another is a
// number of its own, and the machine copies words without looking at them, so what it does from there it does from every start.
#![tactic(auto)]

ghost use Rattle.std.specs.Prelude.{◌≡◌, ℕ, ◌+◌, ◌*◌, ◌<◌, ◌≤◌, eqb, get_or};
ghost use Rattle.std.proofs.Math.Option.{none};
ghost use Rattle.entity.specs.Logic.{and, no, all_in, has, indices, Anything};
ghost use Rattle.entity.specs.Place.{place_at};
ghost use Rattle.reginfo.specs.Refused.{first_of};
ghost use Rattle.reginfo.specs.Table.{reg_info_of};
ghost use Rattle.function.specs.Known.{Checked};
ghost use Rattle.function.specs.Table.{function_of};
ghost use Rattle.rules.specs.Patch.{Patch, nothing_sorted, sorted};
ghost use Rattle.rules.specs.Refusals.{entries_conditions};
ghost use Rattle.small_set.specs.Set.{set_of};
ghost use Rattle.sparse.specs.Map.{Linked};
ghost use Rattle.entries.specs.Table.{sorted_of};
ghost use Rattle.entries.specs.Known.{is_written, EntriesOk};
ghost use Rattle.examine_rules.specs.Examine.{same_words, generic_content};
ghost use Rattle.examine_rules.specs.Words.{examine_words, examine_patch};
ghost use Rattle.cells.specs.Cells.{memory_of, Short, words_in, count_in};
ghost use Rattle.ties.specs.Ties.{kept, Tied};
ghost use Rattle.examine.specs.Ends.{wrongly, kept_wrong, remats_wrong, some_wrong, unit_stays, slot_stays, remats_at, Ending};
ghost use Rattle.examine.specs.Answer.{verdict_of};

use cells::{Cells, Words};
use entity::{Allocation, AllocationUnit, RegUnit, Value};
use entries::{Added, Entries};
use function::Function;
use reginfo::RegInfo;
use small_set::RegUnitSet;
use sparse::SparseMap;
use ties::Ties;

// Yes or no, or the number by which the patch or the list is refused.
#[derive(Drop)]
pub enum Examined {
    Yes,
    No,
    Refused(u8),
}

// Whether two lists on their way have the same words.
fn same_words(b: &Words, d: &Words) -> bool
    requires { (count_in b.now ≤ 9) × (count_in d.now ≤ 9) }
    ensures { result ≡ same_words (words_in b.now) (words_in d.now) }
{
    if b[0] != d[0] {
        return false;
    }
    let n = usize::from(b[0]);
    for at in 1..1 + n {
        if b[at] != d[at] {
            return false;
        }
    }
    true
}

// Whether a place holds another content than the value's.
fn is_wrong(
    t: &RegInfo,
    f: &Function,
    e: &Entries,
    x: &Ties,
    c: &Cells,
    p: Allocation,
    v: Value,
    b: &mut Words,
    d: &mut Words,
) -> bool
    requires { Checked t.now f.now × Tied e.now x.now × Short c.now × Ending (reg_info_of t.now) (function_of f.now) (place_at p.0) v.0 }
    ensures { (result ≡ wrongly (reg_info_of t.now) (function_of f.now) (generic_content (reg_info_of t.now) (function_of f.now) (sorted_of e.now).moves) (memory_of c.now) (place_at p.0) v.0) × Anything b.new × Anything d.new }
{
    cells::read(t, c, p, b);
    examine_run::content(t, f, e, x, v, d);
    !same_words(b, d)
}

// Whether the destination of a kept move does.
fn kept_wrong(
    t: &RegInfo,
    f: &Function,
    e: &Entries,
    x: &Ties,
    c: &Cells,
    b: &mut Words,
    d: &mut Words,
) -> bool
    requires { Checked t.now f.now × Tied e.now x.now × Short c.now × ((m : ℕ) → m < kept e.now → Ending (reg_info_of t.now) (function_of f.now) (place_at (get_or e.now (1 + m * 4) 0)) (get_or e.now (2 + m * 4) 0)) }
    ensures { (result ≡ kept_wrong (reg_info_of t.now) (function_of f.now) (generic_content (reg_info_of t.now) (function_of f.now) (sorted_of e.now).moves) (memory_of c.now) (sorted_of e.now).moves) × Anything b.new × Anything d.new }
{
    let n = ties::kept(e);
    for m in 0..n {
        let p = Allocation(e[1 + m * 4]);
        let v = Value(e[2 + m * 4]);
        if is_wrong(t, f, e, x, c, p, v, b, d) {
            return true;
        }
    }
    false
}

// Whether that of a rebuild does, of those that stand from `base` on.
fn remats_wrong(
    t: &RegInfo,
    f: &Function,
    e: &Entries,
    x: &Ties,
    c: &Cells,
    base: usize,
    counter: usize,
    b: &mut Words,
    d: &mut Words,
) -> bool
    requires { Checked t.now f.now × Tied e.now x.now × Short c.now × (base ≤ 768) × (counter < 1028) × (get_or e.now counter 0 ≤ 128) × ((i : ℕ) → i < get_or e.now counter 0 → Ending (reg_info_of t.now) (function_of f.now) (place_at (get_or e.now (base + i * 2) 0)) (get_or e.now (base + 1 + i * 2) 0)) }
    ensures { (result ≡ remats_wrong (reg_info_of t.now) (function_of f.now) (generic_content (reg_info_of t.now) (function_of f.now) (sorted_of e.now).moves) (memory_of c.now) (remats_at e.now base counter)) × Anything b.new × Anything d.new }
{
    let n = usize::from(e[counter]);
    for i in 0..n {
        let p = Allocation(e[base + i * 2]);
        let v = Value(e[base + 1 + i * 2]);
        if is_wrong(t, f, e, x, c, p, v, b, d) {
            return true;
        }
    }
    false
}

// Whether nothing was written to the cell in either table.
fn untouched(c: &Cells, s: &Cells, at: usize) -> bool
    requires { at < 6656 }
    ensures { result ≡ and (eqb (get_or c.now at 0) 0) (eqb (get_or s.now at 0) 0) }
{
    if c[at] != 0 {
        return false;
    }
    s[at] == 0
}

// Whether a cell has the same list in both tables. Never inlined: the walks over all units and slots ask it of few, and with its loops in them take half as
// long again.
#[inline(never)]
fn same_list(c: &Cells, s: &Cells, at: usize, b: &mut Words, d: &mut Words) -> bool
    requires { Short c.now × Short s.now × (at < 6656) }
    ensures { (result ≡ same_words ((memory_of c.now).lists at) ((memory_of s.now).lists at)) × Anything b.new × Anything d.new }
{
    cells::get_list(c, at, b);
    cells::get_list(s, at, d);
    same_words(b, d)
}

// Whether a register unit has the same word, and the same list.
fn same_unit(c: &Cells, s: &Cells, u: usize, b: &mut Words, d: &mut Words) -> bool
    requires { Short c.now × Short s.now × (u < 512) }
    ensures { (result ≡ and (eqb ((memory_of c.now).word u) ((memory_of s.now).word u)) (same_words ((memory_of c.now).lists u) ((memory_of s.now).lists u))) × Anything b.new × Anything d.new }
{
    if cells::word_at(c, u) != cells::word_at(s, u) {
        return false;
    }
    if untouched(c, s, u) {
        return true;
    }
    same_list(c, s, u, b, d)
}

// Whether a unit is a destination's.
fn is_written(w: &SparseMap, u: usize) -> bool
    requires { Linked w.now × (u < 4608) }
    ensures { result ≡ is_written w.now u }
{
    match sparse::get(w, AllocationUnit(u as u16)) {
        Some(_) => true,
        None => false,
    }
}

// Whether a unit is a destination's, or free, or as it began.
fn unit_stays(
    w: &SparseMap,
    free: &RegUnitSet,
    c: &Cells,
    s: &Cells,
    u: usize,
    b: &mut Words,
    d: &mut Words,
) -> bool
    requires { Linked w.now × Short c.now × Short s.now × (u < 512) }
    ensures { (result ≡ unit_stays (memory_of s.now) (memory_of c.now) w.now free.now u) × Anything b.new × Anything d.new }
{
    if same_unit(c, s, u, b, d) {
        return true;
    }
    if small_set::contains(free, RegUnit(u as u16)) {
        return true;
    }
    is_written(w, u)
}

fn units_stay(
    w: &SparseMap,
    free: &RegUnitSet,
    c: &Cells,
    s: &Cells,
    b: &mut Words,
    d: &mut Words,
) -> bool
    requires { Linked w.now × Short c.now × Short s.now }
    ensures { (result ≡ all_in (unit_stays (memory_of s.now) (memory_of c.now) w.now free.now) (indices 0 512)) × Anything b.new × Anything d.new }
{
    for u in 0..512 {
        if !unit_stays(w, free, c, s, u, b, d) {
            return false;
        }
    }
    true
}

// Whether an ordinary slot is a destination, or as it began.
fn slot_stays(w: &SparseMap, c: &Cells, s: &Cells, x: usize, b: &mut Words, d: &mut Words) -> bool
    requires { Linked w.now × Short c.now × Short s.now × (x < 4096) }
    ensures { (result ≡ slot_stays (memory_of s.now) (memory_of c.now) w.now x) × Anything b.new × Anything d.new }
{
    if untouched(c, s, 512 + x) {
        return true;
    }
    if same_list(c, s, 512 + x, b, d) {
        return true;
    }
    is_written(w, 512 + x)
}

fn slots_stay(w: &SparseMap, c: &Cells, s: &Cells, n: usize, b: &mut Words, d: &mut Words) -> bool
    requires { Linked w.now × Short c.now × Short s.now × (n ≤ 4096) }
    ensures { (result ≡ all_in (slot_stays (memory_of s.now) (memory_of c.now) w.now) (indices 0 n)) × Anything b.new × Anything d.new }
{
    for x in 0..n {
        if !slot_stays(w, c, s, x, b, d) {
            return false;
        }
    }
    true
}

// Whether a destination of the patch is wrong.
fn some_wrong(
    t: &RegInfo,
    f: &Function,
    e: &Entries,
    w: &SparseMap,
    x: &Ties,
    c: &Cells,
    b: &mut Words,
    d: &mut Words,
) -> bool
    requires { Checked t.now f.now × EntriesOk t.now f.now e.now w.now × Tied e.now x.now × Short c.now }
    ensures { (result ≡ some_wrong (reg_info_of t.now) (function_of f.now) (generic_content (reg_info_of t.now) (function_of f.now) (sorted_of e.now).moves) (memory_of c.now) (sorted_of e.now)) × Anything b.new × Anything d.new }
{
    if kept_wrong(t, f, e, x, c, b, d) {
        return true;
    }
    if remats_wrong(t, f, e, x, c, 512, 1025, b, d) {
        return true;
    }
    remats_wrong(t, f, e, x, c, 768, 1026, b, d)
}

// Whether all destinations are right, and all else outside free units and the slots from N on is as it began.
fn ends_right(
    t: &RegInfo,
    f: &Function,
    e: &Entries,
    w: &SparseMap,
    free: &RegUnitSet,
    x: &Ties,
    c: &Cells,
    s: &Cells,
    b: &mut Words,
    d: &mut Words,
) -> bool
    requires { Checked t.now f.now × EntriesOk t.now f.now e.now w.now × Tied e.now x.now × Short c.now × Short s.now }
    ensures { (result ≡ and (no (some_wrong (reg_info_of t.now) (function_of f.now) (generic_content (reg_info_of t.now) (function_of f.now) (sorted_of e.now).moves) (memory_of c.now) (sorted_of e.now))) (and (all_in (unit_stays (memory_of s.now) (memory_of c.now) w.now free.now) (indices 0 512)) (all_in (slot_stays (memory_of s.now) (memory_of c.now) w.now) (indices 0 (function_of f.now).slots)))) × Anything b.new × Anything d.new }
{
    if some_wrong(t, f, e, w, x, c, b, d) {
        return false;
    }
    if !units_stay(w, free, c, s, b, d) {
        return false;
    }
    slots_stay(w, c, s, function::num_slots(f), b, d)
}

// The answer for the patch that the tables hold, of which `free` are the free units; 24 first, over the whole list.
pub fn examine(
    t: &RegInfo,
    f: &Function,
    e: &Entries,
    w: &SparseMap,
    free: &RegUnitSet,
    list: &[u64],
    most: usize,
    x: &mut Ties,
    c: &mut Cells,
    s: &mut Cells,
    b: &mut Words,
    d: &mut Words,
) -> Examined
    requires { Checked t.now f.now × EntriesOk t.now f.now e.now w.now × (most ≤ 2048) }
    ensures { ((p : Patch) → ((u : ℕ) → has u p.free ≡ set_of free.now u) → sorted_of e.now ≡ sorted (reg_info_of t.now) (function_of f.now) p → verdict_of result ≡ examine_words (reg_info_of t.now) (function_of f.now) p most list.now) × Anything x.new × Anything c.new × Anything s.new × Anything b.new × Anything d.new }
{
    if !examine_words::all_named(t, f, most, list) {
        return Examined::Refused(24);
    }
    // Where there is no start, nothing is asked of the list.
    ties::tie(e, x);
    if ties::no_start(t, f, e, x) {
        return Examined::Yes;
    }
    // Laid twice: one is run, and the other is what all else must still be at the end.
    examine_run::lay(t, f, e, x, c, b);
    examine_run::lay(t, f, e, x, s, b);
    if !examine_run::run(t, f, e, x, c, b, most, list) {
        return Examined::No;
    }
    if ends_right(t, f, e, w, free, x, c, s, b, d) {
        return Examined::Yes;
    }
    Examined::No
}

// The same, and before it the number of a patch that is not accepted. 16 and 17 are none of them, since no list and no cache is given: 1,024 is a room that
// is never too small.
pub fn examine_patch(
    t: &RegInfo,
    f: &Function,
    e: &Entries,
    w: &SparseMap,
    free: &RegUnitSet,
    list: &[u64],
    most: usize,
    x: &mut Ties,
    c: &mut Cells,
    s: &mut Cells,
    b: &mut Words,
    d: &mut Words,
) -> Examined
    requires { Checked t.now f.now × EntriesOk t.now f.now e.now w.now × (most ≤ 2048) }
    ensures { ((p : Patch) → ((u : ℕ) → has u p.free ≡ set_of free.now u) → sorted_of e.now ≡ sorted (reg_info_of t.now) (function_of f.now) p → first_of (entries_conditions (reg_info_of t.now) (function_of f.now) p.entries nothing_sorted) ≡ none → verdict_of result ≡ examine_patch (reg_info_of t.now) (function_of f.now) p most list.now) × Anything x.new × Anything c.new × Anything s.new × Anything b.new × Anything d.new }
{
    match entries::refusal(t, f, e, w, free, true, 1024) {
        Added::Refused(n) => Examined::Refused(n),
        Added::Yes => examine(t, f, e, w, free, list, most, x, c, s, b, d),
    }
}
