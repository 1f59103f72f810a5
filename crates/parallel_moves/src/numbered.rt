// A patch whose entries are given as numbers: they are added, and it is resolved. What is no entry is added as a rebuild of a value that there is not:
// so it gets 15 or 2 as any entry does, and every list of numbers is a patch of the rules.
ghost use Rattle.std.specs.Prelude.{◌+◌, ◌≤◌, length, get_or};
ghost use Rattle.entity.specs.Logic.{Anything};
ghost use Rattle.function.specs.Known.{Checked};
ghost use Rattle.entries.specs.Known.{EntriesOk, free_in};
ghost use Rattle.entries.specs.Answers.{added_of, AddedAs};
ghost use Rattle.parallel_moves.specs.Given.{entry_of, entries_of, GrantOk, CacheOk};
ghost use Rattle.parallel_moves.specs.Answers.{ResolvesPatch, ResolvesPatchGranted};
ghost use Rattle.parallel_moves.specs.Steps.{AllAdded};

use crate::{Grant, Resolved, own_grant, resolve_granted};
use carried::Carried;
use edit::Edits;
use entries::{Added, Entries};
use function::Function;
use reginfo::RegInfo;
use scratch::Diversions;
use slots::{EmergencySpillSlotCache, Slots};
use small_set::RegUnitSet;
use sparse::SparseMap;
use visits::States;

// The entry that stands at `at`.
pub fn add_entry(
    t: &RegInfo,
    f: &Function,
    e: &mut Entries,
    w: &mut SparseMap,
    numbers: &[u32],
    at: usize,
) -> Added
    requires { Checked t.now f.now × EntriesOk t.now f.now e.old w.old × (at + 4 ≤ length numbers.now) }
    ensures { AddedAs t.now f.now e.old w.old e.new w.new (entry_of (get_or numbers.now at 0) (get_or numbers.now (at + 1) 0) (get_or numbers.now (at + 2) 0) (get_or numbers.now (at + 3) 0)) (added_of result) }
{
    match numbers[at] {
        0 => entries::add_move(
            t,
            f,
            e,
            w,
            numbers[at + 1],
            numbers[at + 2],
            numbers[at + 3],
        ),
        1 => entries::add_remat(t, f, e, w, numbers[at + 1], numbers[at + 2]),
        _ => entries::add_remat(t, f, e, w, 0, 4294967295),
    }
}

// Adds every entry, or answers the number by which the first is refused.
pub fn add_entries(
    t: &RegInfo,
    f: &Function,
    e: &mut Entries,
    w: &mut SparseMap,
    numbers: &[u32],
) -> Added
    requires { Checked t.now f.now × EntriesOk t.now f.now e.old w.old }
    ensures { AllAdded t.now f.now e.old e.new w.new (entries_of numbers.now) (added_of result) }
{
    let n = numbers.len();
    for i in 0..n / 4 {
        if let Added::Refused(r) = add_entry(t, f, e, w, numbers, i * 4) {
            return Added::Refused(r);
        }
    }
    if n % 4 != 0 {
        return entries::add_remat(t, f, e, w, 0, 4294967295);
    }
    Added::Yes
}

// Resolves under a grant a patch whose free units are the set `available` and whose entries are given as numbers, four to an entry: 0 source destination
// value, or 1 destination value and a number that is not read. If `given` is false, no unit is free, whatever the set holds.
pub fn resolve_patch_granted(
    g: Grant,
    t: &RegInfo,
    f: &Function,
    numbers: &[u32],
    cache: &mut EmergencySpillSlotCache,
    list: &mut [u64],
    given: bool,
    e: &mut Entries,
    w: &mut SparseMap,
    available: &mut RegUnitSet,
    sources: &mut RegUnitSet,
    edits: &mut Edits,
    slots: &mut Slots,
    d: &mut Diversions,
    marks: &mut States,
    c: &mut Carried,
) -> Resolved
    requires { Checked t.now f.now × GrantOk f.now g cache.old }
    ensures resolves_patch_granted { ResolvesPatchGranted g t.now f.now (free_in given available.old) numbers.now result list.old list.new cache.old cache.new }
    ensures anything { Anything e.new × Anything w.new × Anything available.new × Anything sources.new × Anything edits.new × Anything slots.new × Anything d.new × Anything marks.new × Anything c.new }
{
    entries::new_parallel_move(e, w);
    if let Added::Refused(n) = add_entries(t, f, e, w, numbers) {
        return Resolved::Refused(n);
    }
    resolve_granted(
        g, t, f, e, w, cache, list, given, available, sources, edits, slots, d, marks, c,
    )
}

// The same of a function alone.
pub fn resolve_patch(
    t: &RegInfo,
    f: &Function,
    numbers: &[u32],
    cache: &mut EmergencySpillSlotCache,
    list: &mut [u64],
    given: bool,
    e: &mut Entries,
    w: &mut SparseMap,
    available: &mut RegUnitSet,
    sources: &mut RegUnitSet,
    edits: &mut Edits,
    slots: &mut Slots,
    d: &mut Diversions,
    marks: &mut States,
    c: &mut Carried,
) -> Resolved
    requires { Checked t.now f.now × CacheOk f.now cache.old }
    ensures resolves_patch { ResolvesPatch t.now f.now (free_in given available.old) numbers.now result list.old list.new cache.old cache.new }
    ensures anything { Anything e.new × Anything w.new × Anything available.new × Anything sources.new × Anything edits.new × Anything slots.new × Anything d.new × Anything marks.new × Anything c.new }
{
    let g = own_grant(f, cache);
    resolve_patch_granted(
        g, t, f, numbers, cache, list, given, e, w, available, sources, edits, slots, d, marks, c,
    )
}
