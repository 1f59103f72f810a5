// One function's calls by groups (02 k), patch by patch, beside those of crate `calls`: of a function alone, and under a grant.
#![tactic(auto)]

ghost use Rattle.std.specs.Prelude.{length};
ghost use Rattle.entity.specs.Logic.{Anything};
ghost use Rattle.reginfo.specs.Table.{reg_info_of};
ghost use Rattle.function.specs.Known.{Checked};
ghost use Rattle.function.specs.Table.{function_of};
ghost use Rattle.slots.specs.Stacks.{cache_of};
ghost use Rattle.rules.specs.Refusals.{with_limit};
ghost use Rattle.parallel_moves.specs.Given.{with_made, GrantOk, CacheOk};
ghost use Rattle.parallel_moves.specs.Answers.{Gives, GivesGranted};
ghost use Rattle.group_calls.specs.Call.{call_by_groups};

use carried::Carried;
use edit::Edits;
use entries::{Added, Entries};
use function::Function;
use groups::{Labels, Owners};
use parallel_moves::{Grant, Resolved};
use reginfo::RegInfo;
use scratch::Diversions;
use slots::{EmergencySpillSlotCache, Slots};
use small_set::RegUnitSet;
use sparse::SparseMap;
use visits::States;

// Resolves by groups a patch of free units, rising, and of entries as numbers, four to an entry. Asked is as for `calls::resolve`.
pub fn resolve_groups(
    t: &RegInfo,
    f: &Function,
    free: &[u32],
    numbers: &[u32],
    cache: &mut EmergencySpillSlotCache,
    list: &mut [u64],
    units: &mut RegUnitSet,
    e: &mut Entries,
    w: &mut SparseMap,
    available: &mut RegUnitSet,
    sources: &mut RegUnitSet,
    edits: &mut Edits,
    slots: &mut Slots,
    d: &mut Diversions,
    marks: &mut States,
    c: &mut Carried,
    owners: &mut Owners,
    labels: &mut Labels,
    next: &mut Labels,
    common: &mut RegUnitSet,
    work: &mut EmergencySpillSlotCache,
    joined: &mut [u64; 1024],
) -> Resolved
    requires { Checked t.now f.now × CacheOk f.now cache.old }
    ensures gives { Gives f.now (call_by_groups (reg_info_of t.now) (function_of f.now) free.now numbers.now (length list.old) (cache_of cache.old)) result list.old list.new cache.old cache.new }
    ensures anything { Anything units.new × Anything e.new × Anything w.new × Anything available.new × Anything sources.new × Anything edits.new × Anything slots.new × Anything d.new × Anything marks.new × Anything c.new }
    ensures anything_2 { Anything owners.new × Anything labels.new × Anything next.new × Anything common.new × Anything work.new × Anything joined.new }
{
    if let Added::Refused(k) = calls::take_free(t, free, units) {
        return Resolved::Refused(k);
    }
    let given = calls::some_given(free);
    grouping::resolve_groups(
        t, f, numbers, cache, list, given, units, e, w, available, sources, edits, slots, d, marks,
        c, owners, labels, next, common, work, joined,
    )
}

// The same under a grant.
pub fn resolve_groups_granted(
    g: Grant,
    t: &RegInfo,
    f: &Function,
    free: &[u32],
    numbers: &[u32],
    cache: &mut EmergencySpillSlotCache,
    list: &mut [u64],
    units: &mut RegUnitSet,
    e: &mut Entries,
    w: &mut SparseMap,
    available: &mut RegUnitSet,
    sources: &mut RegUnitSet,
    edits: &mut Edits,
    slots: &mut Slots,
    d: &mut Diversions,
    marks: &mut States,
    c: &mut Carried,
    owners: &mut Owners,
    labels: &mut Labels,
    next: &mut Labels,
    common: &mut RegUnitSet,
    work: &mut EmergencySpillSlotCache,
    joined: &mut [u64; 1024],
) -> Resolved
    requires { Checked t.now f.now × GrantOk f.now g cache.old }
    ensures gives_granted { GivesGranted f.now g (call_by_groups (reg_info_of t.now) (with_limit (reg_info_of t.now) (function_of f.now) g.limit) free.now numbers.now (length list.old) (with_made g.made (cache_of cache.old))) result list.old list.new cache.old cache.new }
    ensures anything { Anything units.new × Anything e.new × Anything w.new × Anything available.new × Anything sources.new × Anything edits.new × Anything slots.new × Anything d.new × Anything marks.new × Anything c.new }
    ensures anything_2 { Anything owners.new × Anything labels.new × Anything next.new × Anything common.new × Anything work.new × Anything joined.new }
{
    if let Added::Refused(k) = calls::take_free(t, free, units) {
        return Resolved::Refused(k);
    }
    let given = calls::some_given(free);
    grouping::resolve_groups_granted(
        g, t, f, numbers, cache, list, given, units, e, w, available, sources, edits, slots, d,
        marks, c, owners, labels, next, common, work, joined,
    )
}
