// The static library for C and Rust of `groups_c`: a patch of an opened function resolved by groups (02 k). The function here is that library's of
// the same name, with the same clauses. What it shares with resolving is compiled into each archive.
#![tactic(auto)]

ghost use Rattle.std.specs.Prelude.{length};
ghost use Rattle.entity.specs.Logic.{Anything};
ghost use Rattle.reginfo.specs.Table.{reg_info_of};
ghost use Rattle.function.specs.Known.{Checked};
ghost use Rattle.function.specs.Table.{function_of};
ghost use Rattle.slots.specs.Stacks.{cache_of};
ghost use Rattle.parallel_moves.specs.Given.{CacheOk};
ghost use Rattle.group_calls.specs.Call.{call_by_groups};
ghost use Rattle.groups_c.specs.Called.{CalledAs};

use carried::Carried;
use edit::Edits;
use entries::Entries;
use function::Function;
use groups::{Labels, Owners};
use reginfo::RegInfo;
use scratch::Diversions;
use slots::{EmergencySpillSlotCache, Slots};
use small_set::RegUnitSet;
use sparse::SparseMap;
use visits::States;

#[unsafe(no_mangle)]
pub extern "C" fn parallel_moves_resolve_groups_5(
    target: &RegInfo,
    function: &Function,
    free: &[u32],
    numbers: &[u32],
    cache: &mut EmergencySpillSlotCache,
    list: &mut [u64],
    refusal: &mut u8,
    position: &mut u16,
    units: &mut RegUnitSet,
    entries: &mut Entries,
    writers: &mut SparseMap,
    available: &mut RegUnitSet,
    sources: &mut RegUnitSet,
    edits: &mut Edits,
    slots: &mut Slots,
    diverted: &mut Diversions,
    marks: &mut States,
    carried: &mut Carried,
    owners: &mut Owners,
    labels: &mut Labels,
    next: &mut Labels,
    common: &mut RegUnitSet,
    work: &mut EmergencySpillSlotCache,
    joined: &mut [u64; 1024],
) -> usize
    requires { Checked target.now function.now × CacheOk function.now cache.old }
    ensures called_as { CalledAs function.now (call_by_groups (reg_info_of target.now) (function_of function.now) free.now numbers.now (length list.old) (cache_of cache.old)) result refusal.new position.old position.new list.old list.new cache.old cache.new }
    ensures anything { Anything units.new × Anything entries.new × Anything writers.new × Anything available.new × Anything sources.new × Anything edits.new × Anything slots.new × Anything diverted.new × Anything marks.new × Anything carried.new }
    ensures anything_2 { Anything owners.new × Anything labels.new × Anything next.new × Anything common.new × Anything work.new × Anything joined.new }
{
    groups_c::parallel_moves_resolve_groups_5(
        target, function, free, numbers, cache, list, refusal, position, units, entries, writers,
        available, sources, edits, slots, diverted, marks, carried, owners, labels, next, common,
        work, joined,
    )
}
