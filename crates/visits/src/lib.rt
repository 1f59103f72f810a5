// 01, Ordering: the tables that a visit of the kept moves works in, and its steps that need no scratch.
#![tactic(auto)]

ghost use Rattle.std.specs.Prelude.{◌≡◌, true, false, ℕ, ◌+◌, ◌<◌, ◌≤◌, length, get_or, replicate};
ghost use Rattle.entity.specs.Logic.{or, any_in};
ghost use Rattle.entity.specs.Place.{place_at};
ghost use Rattle.reginfo.specs.RegInfo.{is_memory};
ghost use Rattle.reginfo.specs.Table.{reg_info_of};
ghost use Rattle.function.specs.Function.{Function};
ghost use Rattle.rules.specs.Edit.{updated};
ghost use Rattle.rules.specs.Order.{no_move, Pending, Done, is_new, is_pending, carry, value, writers, cycle_move_sources, no_remat};
ghost use Rattle.sparse.specs.Map.{Linked};
ghost use Rattle.small_set.specs.Set.{set_of};
ghost use Rattle.carried.specs.Carried.{count_of};
ghost use Rattle.visits.specs.Marks.{moves_of, remats_of, remats_with_scratch_of, Small, uncounted, states_of, all_new, is_noted};
ghost use Rattle.visits.specs.Writers.{writer_is, kept_writer, is_open, KeptOk, Ready};
ghost use Rattle.visits.specs.Carry.{carry_for, CarriedAs};

use carried::Carried;
use entity::{Allocation, AllocationUnit, Value};
use entries::Entries;
use reginfo::RegInfo;
use small_set::RegUnitSet;
use sparse::SparseMap;

pub type States = [u8; 129];

// Of value v, the count of open moves that carry it at v, the first source at 4096 + v, the scratch at 8192 + v.
pub type Diversions = [u16; 12288];

// The kept moves.
pub fn num_kept(e: &Entries) -> usize
    ensures { result ≡ length (moves_of e.now) }
{
    usize::from(e[1024])
}

pub fn kept_source(e: &Entries, m: usize) -> Allocation
    requires { (m < length (moves_of e.now)) × (length (moves_of e.now) ≤ 128) }
    ensures { place_at result.0 ≡ (get_or (moves_of e.now) m no_move).source }
{
    Allocation(e[m * 4])
}

pub fn kept_dest(e: &Entries, m: usize) -> Allocation
    requires { (m < length (moves_of e.now)) × (length (moves_of e.now) ≤ 128) }
    ensures { place_at result.0 ≡ (get_or (moves_of e.now) m no_move).dest }
{
    Allocation(e[1 + m * 4])
}

pub fn kept_value(e: &Entries, m: usize) -> Value
    requires { (m < length (moves_of e.now)) × (length (moves_of e.now) ≤ 128) }
    ensures { result.0 ≡ (get_or (moves_of e.now) m no_move).value }
{
    Value(e[2 + m * 4])
}

// The rebuilds without scratch, and those with.
pub fn num_remats(e: &Entries) -> usize
    ensures { result ≡ length (remats_of e.now) }
{
    usize::from(e[1025])
}

pub fn remat_dest(e: &Entries, i: usize) -> Allocation
    requires { (i < length (remats_of e.now)) × (length (remats_of e.now) ≤ 128) }
    ensures { place_at result.0 ≡ (get_or (remats_of e.now) i no_remat).dest }
{
    Allocation(e[512 + i * 2])
}

pub fn remat_value(e: &Entries, i: usize) -> Value
    requires { (i < length (remats_of e.now)) × (length (remats_of e.now) ≤ 128) }
    ensures { result.0 ≡ (get_or (remats_of e.now) i no_remat).value }
{
    Value(e[513 + i * 2])
}

pub fn num_remats_with_scratch(e: &Entries) -> usize
    ensures { result ≡ length (remats_with_scratch_of e.now) }
{
    usize::from(e[1026])
}

pub fn remat_with_scratch_dest(e: &Entries, i: usize) -> Allocation
    requires { (i < length (remats_with_scratch_of e.now)) × (length (remats_with_scratch_of e.now) ≤ 128) }
    ensures { place_at result.0 ≡ (get_or (remats_with_scratch_of e.now) i no_remat).dest }
{
    Allocation(e[768 + i * 2])
}

pub fn remat_with_scratch_value(e: &Entries, i: usize) -> Value
    requires { (i < length (remats_with_scratch_of e.now)) × (length (remats_with_scratch_of e.now) ≤ 128) }
    ensures { result.0 ≡ (get_or (remats_with_scratch_of e.now) i no_remat).value }
{
    Value(e[769 + i * 2])
}

// Whether a move has memory at either end.
pub fn has_memory(t: &RegInfo, e: &Entries, m: usize) -> bool
    requires { KeptOk (reg_info_of t.now) (moves_of e.now) × (m < length (moves_of e.now)) }
    ensures { result ≡ or (is_memory (reg_info_of t.now) (get_or (moves_of e.now) m no_move).source) (is_memory (reg_info_of t.now) (get_or (moves_of e.now) m no_move).dest) }
{
    if reginfo::is_memory(t, kept_source(e, m)) {
        return true;
    }
    reginfo::is_memory(t, kept_dest(e, m))
}

// Whether a move is not visited yet, or open.
pub fn is_new(marks: &States, m: usize) -> bool
    requires { m < 128 }
    ensures { result ≡ is_new (states_of marks.now m) }
{
    marks[m] == 0
}

pub fn is_pending(marks: &States, m: usize) -> bool
    requires { m < 128 }
    ensures { result ≡ is_pending (states_of marks.now m) }
{
    marks[m] == 1
}

// Opens a move, closes one.
pub fn set_pending(marks: &mut States, m: usize)
    requires { m < 128 }
    ensures { (states_of marks.new ≡ updated m Pending (states_of marks.old)) × (is_noted marks.new ≡ is_noted marks.old) }
{
    marks[m] = 1;
}

pub fn set_done(marks: &mut States, m: usize)
    requires { m < 128 }
    ensures { (states_of marks.new ≡ updated m Done (states_of marks.old)) × (is_noted marks.new ≡ is_noted marks.old) }
{
    marks[m] = 2;
}

// Whether the sources of the kept moves are noted.
pub fn is_noted(marks: &States) -> bool
    ensures { result ≡ is_noted marks.now }
{
    marks[128] == 1
}

pub fn set_noted(marks: &mut States)
    ensures { (states_of marks.new ≡ states_of marks.old) × (is_noted marks.new ≡ true) }
{
    marks[128] = 1;
}

// The kept move that writes a unit; a rebuild is none.
pub fn writer_of(w: &SparseMap, u: AllocationUnit) -> Option<usize>
    requires { Linked w.now × (u.0 < 4608) }
    ensures { writer_is result ≡ kept_writer w.now u.0 }
{
    let Some(x) = sparse::get(w, u) else {
        return None;
    };
    let m = usize::from(x);
    if m < 128 {
        return Some(m);
    }
    None
}

// Whether the writer of a unit is open.
fn is_open(w: &SparseMap, marks: &States, u: AllocationUnit) -> bool
    requires { Linked w.now × (u.0 < 4608) }
    ensures { result ≡ is_open (states_of marks.now) (kept_writer w.now u.0) }
{
    match writer_of(w, u) {
        Some(x) => is_pending(marks, x),
        None => false,
    }
}

// Whether a writer of a move's source is open: it closes later, is thus done before the move and overwrites what the move reads.
pub fn has_open_writer(t: &RegInfo, e: &Entries, w: &SparseMap, marks: &States, m: usize) -> bool
    requires { Ready (reg_info_of t.now) e.now w.now × (m < length (moves_of e.now)) }
    ensures { (f : Function) → result ≡ any_in (λ x. is_pending (states_of marks.now x)) (writers (reg_info_of t.now) f (moves_of e.now) m) }
{
    let p = kept_source(e, m);
    let n = reginfo::num_place_units(t, p);
    for j in 0..n {
        if is_open(w, marks, reginfo::place_unit(t, p, j)) {
            return true;
        }
    }
    false
}

// The writer of a unit, if it is open and does not carry the value yet, carries it. Gives how many more do. A writer of two of the source's units
// counts once, since it lets go once.
fn carry_one(w: &SparseMap, marks: &States, c: &mut Carried, u: AllocationUnit, v: Value) -> u16
    requires { Linked w.now × (u.0 < 4608) × (count_of c.old < 1024) }
    ensures { CarriedAs (states_of marks.now) v.0 c.old c.new result 1 (carry_for v.0 (states_of marks.now) (kept_writer w.now u.0)) }
{
    let Some(x) = writer_of(w, u) else {
        return 0;
    };
    if !is_pending(marks, x) {
        return 0;
    }
    if carried::carries(c, x, v) {
        return 0;
    }
    carried::add(c, x, v);
    1
}

// Each open writer of a move's source that does not carry the move's value yet carries it. Gives how many more do. All of them are counted: the
// copy into the scratch must be done before each, so that the diversion ends at the one that closes last.
pub fn carry(
    t: &RegInfo,
    e: &Entries,
    w: &SparseMap,
    marks: &States,
    c: &mut Carried,
    m: usize,
) -> u16
    requires { Ready (reg_info_of t.now) e.now w.now × (m < length (moves_of e.now)) × (count_of c.old + 8 ≤ 1024) }
    ensures { (f : Function) → CarriedAs (states_of marks.now) (value (reg_info_of t.now) f (moves_of e.now) m) c.old c.new result 8 (carry (value (reg_info_of t.now) f (moves_of e.now) m) (states_of marks.now) (writers (reg_info_of t.now) f (moves_of e.now) m)) }
{
    let p = kept_source(e, m);
    let v = kept_value(e, m);
    let n = reginfo::num_place_units(t, p);
    let mut added: u16 = 0;
    for j in 0..n {
        added = added + carry_one(w, marks, c, reginfo::place_unit(t, p, j), v);
    }
    added
}

// Notes the source units of the kept moves, which no scratch of a diversion may have. What the set held does not matter.
pub fn note_sources(t: &RegInfo, e: &Entries, sources: &mut RegUnitSet)
    requires { KeptOk (reg_info_of t.now) (moves_of e.now) }
    ensures { (f : Function) → set_of sources.new ≡ cycle_move_sources (reg_info_of t.now) f (moves_of e.now) }
{
    small_set::clear(sources);
    let n = num_kept(e);
    for m in 0..n {
        search::insert_units(t, sources, kept_source(e, m));
    }
}

// No move is visited, no source noted, and no value of a kept move carried, whatever the tables held. The other cells of d stay as they are.
pub fn start(e: &Entries, d: &mut Diversions, marks: &mut States)
    requires { Small (moves_of e.now) }
    ensures { (states_of marks.new ≡ all_new) × (is_noted marks.new ≡ false) × ((i : ℕ) → i < length (moves_of e.now) → get_or d.new (get_or (moves_of e.now) i no_move).value 0 ≡ 0) × (marks.new ≡ replicate 129 0) × (d.new ≡ uncounted (moves_of e.now) d.old) }
{
    *marks = [0; 129];
    let n = num_kept(e);
    for i in 0..n {
        let v = kept_value(e, i);
        let at = usize::from(v.0);
        d[at] = 0;
    }
}
