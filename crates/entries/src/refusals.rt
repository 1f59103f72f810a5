// 13, 14, 16: what refuses a patch whose entries are all added.
ghost use Rattle.std.specs.Prelude.{◌≡◌, false, ℕ, ◌<◌, ◌≤◌, length};
ghost use Rattle.entity.specs.Logic.{any_in, has};
ghost use Rattle.entity.specs.Place.{place_at};
ghost use Rattle.reginfo.specs.RegInfo.{num_classes};
ghost use Rattle.reginfo.specs.Refused.{Accepted, first_of};
ghost use Rattle.reginfo.specs.Known.{KnownPlace};
ghost use Rattle.reginfo.specs.Table.{reg_info_of};
ghost use Rattle.function.specs.Function.{remat_class};
ghost use Rattle.function.specs.Table.{function_of};
ghost use Rattle.rules.specs.Patch.{bound, last_overlaps, patch_conditions, Patch};
ghost use Rattle.rules.specs.Sorted.{RematOk, SortedOk};
ghost use Rattle.small_set.specs.Set.{set_of};
ghost use Rattle.sparse.specs.Map.{keys_of, Linked};
ghost use Rattle.entries.specs.Table.{sorted_of, remat_as};
ghost use Rattle.function.specs.Known.{Checked};
ghost use Rattle.entries.specs.Known.{free_in, is_free, last_clashes, EntriesOk};
ghost use Rattle.entries.specs.Answers.{added_of};

use crate::{Added, Entries};
use entity::{Allocation, AllocationUnit, AllocationUnitKind, RegClass, Value};
use function::{Function, Remat};
use reginfo::RegInfo;
use small_set::RegUnitSet;
use sparse::SparseMap;

fn is_free(free: &RegUnitSet, u: AllocationUnit) -> bool
    ensures { result ≡ is_free free.now u.0 }
{
    match u.kind() {
        AllocationUnitKind::Reg(r) => small_set::contains(free, r),
        AllocationUnitKind::SpillSlot(_) => false,
    }
}

// 13: whether a free unit is a destination's: one that has a writer. Edits are found from the last to the first, and a free unit is a scratch from
// the last on: so it could be written again behind the destination's write. Where none is given, neither the set nor a key is looked at.
fn free_destination(w: &SparseMap, free: &RegUnitSet, given: bool) -> bool
    requires { Linked w.now }
    ensures { result ≡ any_in (is_free (free_in given free.now)) (keys_of w.now) }
{
    if !given {
        return false;
    }
    let n = sparse::len(w);
    for j in 0..n {
        if is_free(free, sparse::key_at(w, j)) {
            return true;
        }
    }
    false
}

// Whether the class has no slots and the last of its order overlaps the place. That register is what a rebuild evicts if nothing else is to be had, and
// its reload, which stands last, would undo the destination. Whether it comes to that is not asked: 14 depends on the entry alone, not on what is free.
fn last_clashes(t: &RegInfo, c: RegClass, dest: Allocation) -> bool
    requires { Accepted (reg_info_of t.now) × (c.0 < num_classes (reg_info_of t.now)) × KnownPlace (reg_info_of t.now) (place_at dest.0) }
    ensures { result ≡ last_clashes (reg_info_of t.now) c.0 (place_at dest.0) }
{
    if reginfo::class_includes_spillslots(t, c) {
        return false;
    }
    let last = reginfo::order_last(t, c);
    reginfo::overlaps_reg(t, dest, last)
}

fn remat_clashes(t: &RegInfo, f: &Function, dest: Allocation, v: Value) -> bool
    requires { Checked t.now f.now × RematOk (reg_info_of t.now) (function_of f.now) false (remat_as dest.0 v.0) }
    ensures { result ≡ last_clashes (reg_info_of t.now) (remat_class (function_of f.now) v.0) (place_at dest.0) }
{
    match function::can_rematerialize(f, v) {
        Remat::Never => false,
        Remat::CheaperThanMove(c) => last_clashes(t, c, dest),
        Remat::CheaperThanLoad(c) => last_clashes(t, c, dest),
    }
}

// 14: whether a rebuild with scratch has a destination that the last of its class's order overlaps.
pub fn last_overlaps(t: &RegInfo, f: &Function, e: &Entries) -> bool
    requires { Checked t.now f.now × SortedOk (reg_info_of t.now) (function_of f.now) (sorted_of e.now) × (length (sorted_of e.now).remats_with_scratch ≤ 128) }
    ensures { result ≡ last_overlaps (reg_info_of t.now) (function_of f.now) (sorted_of e.now) }
{
    let n = usize::from(e[1026]);
    for i in 0..n {
        let dest = Allocation(e[768 + i * 2]);
        let v = Value(e[769 + i * 2]);
        if remat_clashes(t, f, dest, v) {
            return true;
        }
    }
    false
}

// How many edits the patch can need: a kept move two, the save and reload of an evicted register, and the same again for the copy of its diversion; a
// rebuild with scratch a rebuild beside such four; a rebuild without one.
fn edit_bound(e: &Entries) -> usize
    ensures { result ≡ bound (sorted_of e.now) }
{
    let kept = usize::from(e[1024]);
    let remats = usize::from(e[1025]);
    let scratch = usize::from(e[1026]);
    8 * kept + (5 * scratch + remats)
}

// 13, 14, 16: the number by which the patch is refused, where the lent list has `room`. Its free units are those of the set, if `given`; else
// it has none, whatever the set holds.
pub fn refusal(
    t: &RegInfo,
    f: &Function,
    e: &Entries,
    w: &SparseMap,
    free: &RegUnitSet,
    given: bool,
    room: usize,
) -> Added
    requires { Checked t.now f.now × EntriesOk t.now f.now e.now w.now }
    ensures { (p : Patch) → ((u : ℕ) → has u p.free ≡ set_of (free_in given free.now) u) → added_of result ≡ first_of (patch_conditions (reg_info_of t.now) (function_of f.now) p room (sorted_of e.now)) }
{
    if free_destination(w, free, given) {
        return Added::Refused(13);
    }
    if last_overlaps(t, f, e) {
        return Added::Refused(14);
    }
    if room < edit_bound(e) {
        return Added::Refused(16);
    }
    Added::Yes
}
