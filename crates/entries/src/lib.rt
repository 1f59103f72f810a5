// A patch under construction: its kept moves, its rebuilds and what refuses them (2, 9 to 16, 21), in one lent table (specs/Table.antt), and the
// writer of each unit: kept move m as m, a rebuild as 128. Here entries are added; writing.rt has what an entry writes, index.rt the index of
// sources, refusals.rt what refuses the whole patch.
#![tactic(auto)]

mod index;
mod refusals;
mod writing;

ghost use Rattle.std.specs.Prelude.{◌≡◌, false, List, ℕ, ◌<◌, ltb, leb, length};
ghost use Rattle.std.proofs.Math.Option.{none, some};
ghost use Rattle.entity.specs.Logic.{pick, and, no};
ghost use Rattle.entity.specs.Place.{place_at};
ghost use Rattle.reginfo.specs.RegInfo.{in_class, place_units};
ghost use Rattle.reginfo.specs.Known.{KnownMembers};
ghost use Rattle.reginfo.specs.Table.{reg_info_of};
ghost use Rattle.function.specs.Function.{num_values};
ghost use Rattle.function.specs.Table.{function_of};
ghost use Rattle.rules.specs.Patch.{move, remat, names_place, becomes_remat, needs_scratch, nothing_sorted};
ghost use Rattle.entries.specs.Table.{sorted_of, remat_as};
ghost use Rattle.function.specs.Known.{Checked};
ghost use Rattle.entries.specs.Known.{Writable, Roomy, NamedRemat, NamedMove, PassedMove, EntriesOk};
ghost use Rattle.entries.specs.Answers.{added_of, fate_of, AddedAs, RemattedAs};

use entity::{Allocation, RegClass, Value};
use function::{Function, Remat};
use index::{index_source, stamp};
pub use refusals::{last_overlaps, refusal};
use reginfo::RegInfo;
use sparse::SparseMap;
use writing::{count_entry, is_dropped, keep, note_writes, put_remat};

pub type Entries = [u16; 1541];

// An entry's or a patch's answer; the number is 01's.
#[derive(Drop)]
pub enum Added {
    Yes,
    Refused(u8),
}

// A move is kept, unless it is rebuilt, with scratch or without.
// An enum of its own, since `Option<bool>` would name neither.
#[derive(Drop)]
enum Fate {
    Kept,
    Remat(bool),
}

// A patch with no entry, and with a stamp that the patch before it had not. What the tables held does not matter.
pub fn new_parallel_move(e: &mut Entries, w: &mut SparseMap)
    ensures { (sorted_of e.new ≡ nothing_sorted) × ((t f : List ℕ) → EntriesOk t f e.new w.new) }
{
    let next = stamp(e) + 1;
    e[1540] = next as u16;
    e[1024] = 0;
    e[1025] = 0;
    e[1026] = 0;
    e[1027] = 0;
    sparse::clear(w);
}

// Rebuilds a value, with scratch or without, unless a unit of the destination is written already.
// 12 comes of itself: a unit has one writer. A rebuild is never dropped, even if it equals another: only a kept move is.
fn new_remat(
    t: &RegInfo,
    e: &mut Entries,
    w: &mut SparseMap,
    scratch: bool,
    dest: Allocation,
    v: Value,
) -> Added
    requires { Roomy e.old w.old × Writable (reg_info_of t.now) (place_at dest.0) }
    ensures { RemattedAs e.old w.old e.new w.new (place_units (reg_info_of t.now) (place_at dest.0)) scratch (remat_as dest.0 v.0) (added_of result) }
{
    if note_writes(t, w, dest, 128) {
        put_remat(e, scratch, dest, v);
        return Added::Yes;
    }
    Added::Refused(12)
}

// What becomes of a move. A rebuild saves the load of a source that is memory; else it pays only if it is cheaper than the move and needs no scratch.
fn move_fate(t: &RegInfo, f: &Function, source: Allocation, dest: Allocation, v: Value) -> Fate
    requires { Checked t.now f.now × (v.0 < num_values (function_of f.now)) × Writable (reg_info_of t.now) (place_at source.0) × Writable (reg_info_of t.now) (place_at dest.0) }
    ensures { fate_of result ≡ pick (becomes_remat (reg_info_of t.now) (function_of f.now) (place_at source.0) (place_at dest.0) v.0) (some (needs_scratch (reg_info_of t.now) (function_of f.now) (place_at dest.0) v.0)) none }
{
    match function::can_rematerialize(f, v) {
        Remat::Never => Fate::Kept,
        Remat::CheaperThanMove(c) => {
            let direct = reginfo::class_has(t, c, dest);
            if direct {
                return Fate::Remat(false);
            }
            if reginfo::is_memory(t, source) {
                return Fate::Remat(true);
            }
            Fate::Kept
        }
        Remat::CheaperThanLoad(c) => {
            let memory = reginfo::is_memory(t, source);
            if memory {
                let direct = reginfo::class_has(t, c, dest);
                return Fate::Remat(!direct);
            }
            Fate::Kept
        }
    }
}

// Keeps or drops a move that is not rebuilt and not refused before 12. The writes are noted first, since 12 is tested before 21; where 21 refuses the
// move, they are taken back, so that the next entry finds the patch without it.
fn place_kept(
    t: &RegInfo,
    f: &Function,
    e: &mut Entries,
    w: &mut SparseMap,
    source: Allocation,
    dest: Allocation,
    v: Value,
) -> Added
    requires { Checked t.now f.now × EntriesOk t.now f.now e.old w.old × PassedMove (reg_info_of t.now) (function_of f.now) (sorted_of e.old) (place_at source.0) (place_at dest.0) v.0 × (becomes_remat (reg_info_of t.now) (function_of f.now) (place_at source.0) (place_at dest.0) v.0 ≡ false) }
    ensures { AddedAs t.now f.now e.old w.old e.new w.new (move (place_at source.0) (place_at dest.0) v.0) (added_of result) }
{
    let before = sparse::len(w);
    let m = e[1024];
    if note_writes(t, w, dest, m) {
        if index_source(t, e, source) {
            sparse::shorten(w, before);
            return Added::Refused(21);
        }
        keep(e, source, dest, v);
        return Added::Yes;
    }
    if is_dropped(t, e, w, source, dest, v) {
        count_entry(e);
        return Added::Yes;
    }
    Added::Refused(12)
}

// Keeps, rebuilds or drops a move that is not refused before 12.
fn place_move(
    t: &RegInfo,
    f: &Function,
    e: &mut Entries,
    w: &mut SparseMap,
    source: Allocation,
    dest: Allocation,
    v: Value,
) -> Added
    requires { Checked t.now f.now × EntriesOk t.now f.now e.old w.old × PassedMove (reg_info_of t.now) (function_of f.now) (sorted_of e.old) (place_at source.0) (place_at dest.0) v.0 }
    ensures { AddedAs t.now f.now e.old w.old e.new w.new (move (place_at source.0) (place_at dest.0) v.0) (added_of result) }
{
    match move_fate(t, f, source, dest, v) {
        Fate::Kept => place_kept(t, f, e, w, source, dest, v),
        Fate::Remat(scratch) => new_remat(t, e, w, scratch, dest, v),
    }
}

// Whether a place code names a register or one of the function's slots.
pub fn names_place(t: &RegInfo, f: &Function, code: u32) -> bool
    requires { Checked t.now f.now }
    ensures { result ≡ names_place (reg_info_of t.now) (function_of f.now) (place_at code) }
{
    let regs = reginfo::num_regs(t) as u16;
    let slots = function::num_slots(f) as u16;
    Allocation::read(code, regs, slots).is_some()
}

// Whether a place and a value are the function's.
fn names_remat(t: &RegInfo, f: &Function, dest: u32, value: u32) -> bool
    requires { Checked t.now f.now }
    ensures { result ≡ and (names_place (reg_info_of t.now) (function_of f.now) (place_at dest)) (ltb value (num_values (function_of f.now))) }
{
    if !names_place(t, f, dest) {
        return false;
    }
    (value as usize) < function::num_values(f)
}

// Tests a move from 9 on, and adds it.
fn add_named_move(
    t: &RegInfo,
    f: &Function,
    e: &mut Entries,
    w: &mut SparseMap,
    source: Allocation,
    dest: Allocation,
    v: Value,
) -> Added
    requires { Checked t.now f.now × EntriesOk t.now f.now e.old w.old × NamedMove (reg_info_of t.now) (function_of f.now) (sorted_of e.old) (place_at source.0) (place_at dest.0) v.0 }
    ensures { AddedAs t.now f.now e.old w.old e.new w.new (move (place_at source.0) (place_at dest.0) v.0) (added_of result) }
{
    let bank = function::value_bank(f, v);
    if !reginfo::of_bank(t, source, bank) {
        return Added::Refused(9);
    }
    if !reginfo::of_bank(t, dest, bank) {
        return Added::Refused(9);
    }
    // It would count among the writers of its own source. Tested even where the move would become a rebuild.
    if source == dest {
        return Added::Refused(10);
    }
    place_move(t, f, e, w, source, dest, v)
}

// 15: whether no entry can be added any more.
pub fn is_full(e: &Entries) -> bool
    ensures { result ≡ leb 128 (sorted_of e.now).count }
{
    128 <= usize::from(e[1027])
}

// Adds a move, or answers the number by which it is refused and leaves what the tables stand for.
pub fn add_move(
    t: &RegInfo,
    f: &Function,
    e: &mut Entries,
    w: &mut SparseMap,
    source: u32,
    dest: u32,
    value: u32,
) -> Added
    requires { Checked t.now f.now × EntriesOk t.now f.now e.old w.old }
    ensures { AddedAs t.now f.now e.old w.old e.new w.new (move (place_at source) (place_at dest) value) (added_of result) }
{
    // Before anything is read of the entry, as 01 says; behind it the tables have room for one more.
    if is_full(e) {
        return Added::Refused(15);
    }
    if !names_place(t, f, source) {
        return Added::Refused(2);
    }
    if !names_remat(t, f, dest, value) {
        return Added::Refused(2);
    }
    add_named_move(
        t,
        f,
        e,
        w,
        Allocation(source as u16),
        Allocation(dest as u16),
        Value(value as u16),
    )
}

// Rebuilds a value of the class.
fn new_remat_in(
    t: &RegInfo,
    e: &mut Entries,
    w: &mut SparseMap,
    c: RegClass,
    dest: Allocation,
    v: Value,
) -> Added
    requires { Roomy e.old w.old × Writable (reg_info_of t.now) (place_at dest.0) × KnownMembers t.now c.0 }
    ensures { RemattedAs e.old w.old e.new w.new (place_units (reg_info_of t.now) (place_at dest.0)) (no (in_class (reg_info_of t.now) c.0 (place_at dest.0))) (remat_as dest.0 v.0) (added_of result) }
{
    let direct = reginfo::class_has(t, c, dest);
    new_remat(t, e, w, !direct, dest, v)
}

// Tests a rebuild from 9 on, and adds it.
fn add_named_remat(
    t: &RegInfo,
    f: &Function,
    e: &mut Entries,
    w: &mut SparseMap,
    dest: Allocation,
    v: Value,
) -> Added
    requires { Checked t.now f.now × EntriesOk t.now f.now e.old w.old × NamedRemat (reg_info_of t.now) (function_of f.now) (sorted_of e.old) (place_at dest.0) v.0 }
    ensures { AddedAs t.now f.now e.old w.old e.new w.new (remat (place_at dest.0) v.0) (added_of result) }
{
    let bank = function::value_bank(f, v);
    if !reginfo::of_bank(t, dest, bank) {
        return Added::Refused(9);
    }
    match function::can_rematerialize(f, v) {
        Remat::Never => Added::Refused(11),
        Remat::CheaperThanMove(c) => new_remat_in(t, e, w, c, dest, v),
        Remat::CheaperThanLoad(c) => new_remat_in(t, e, w, c, dest, v),
    }
}

// Adds a rebuild, or answers the number by which it is refused and leaves the tables as they were.
pub fn add_remat(
    t: &RegInfo,
    f: &Function,
    e: &mut Entries,
    w: &mut SparseMap,
    dest: u32,
    value: u32,
) -> Added
    requires { Checked t.now f.now × EntriesOk t.now f.now e.old w.old }
    ensures { AddedAs t.now f.now e.old w.old e.new w.new (remat (place_at dest) value) (added_of result) }
{
    if is_full(e) {
        return Added::Refused(15);
    }
    if !names_remat(t, f, dest, value) {
        return Added::Refused(2);
    }
    add_named_remat(t, f, e, w, Allocation(dest as u16), Value(value as u16))
}
