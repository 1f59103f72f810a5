// The static library for C and Rust of `asking_c`: patches of an opened function asked for, and their answers taken (02 g). Each function here is
// that library's of the same name, with the same clauses. What it shares with resolving is compiled into each archive.
#![tactic(auto)]

ghost use Rattle.entity.specs.Logic.{Anything};
ghost use Rattle.std.specs.Prelude.{◌≡◌, length};
ghost use Rattle.reginfo.specs.Table.{reg_info_of};
ghost use Rattle.function.specs.Known.{Checked};
ghost use Rattle.function.specs.Table.{function_of};
ghost use Rattle.slots.specs.Stacks.{cache_of, stamp_of};
ghost use Rattle.parallel_moves.specs.Given.{CacheOk};
ghost use Rattle.parallel_moves.specs.Answers.{CanTake};
ghost use Rattle.calls.specs.Call.{call_of};
ghost use Rattle.asking_c.specs.Asked.{AskedAs, TakenAs};

use carried::Carried;
use edit::Edits;
use entries::Entries;
use function::Function;
use reginfo::RegInfo;
use scratch::Diversions;
use slots::{EmergencySpillSlotCache, Slots};
use small_set::RegUnitSet;
use sparse::SparseMap;
use visits::States;

#[unsafe(no_mangle)]
pub extern "C" fn parallel_moves_ask_5(
    target: &RegInfo,
    function: &Function,
    free: &[u32],
    numbers: &[u32],
    cache: &EmergencySpillSlotCache,
    list: &mut [u64],
    refusal: &mut u8,
    made: &mut u16,
    position: &mut u16,
    stamp: &mut u64,
    entries: &mut Entries,
    writers: &mut SparseMap,
    available: &mut RegUnitSet,
    sources: &mut RegUnitSet,
    edits: &mut Edits,
    slots: &mut Slots,
    diverted: &mut Diversions,
    marks: &mut States,
    carried: &mut Carried,
) -> usize
    requires { Checked target.now function.now × CacheOk function.now cache.now }
    ensures asked_as { AskedAs function.now (call_of (reg_info_of target.now) (function_of function.now) free.now numbers.now (length list.old) (cache_of cache.now)) result refusal.new made.old made.new position.old position.new stamp.old stamp.new list.old list.new cache.now slots.new }
    ensures anything { Anything entries.new × Anything writers.new × Anything available.new × Anything sources.new × Anything edits.new × Anything diverted.new × Anything marks.new × Anything carried.new }
{
    asking_c::parallel_moves_ask_5(
        target, function, free, numbers, cache, list, refusal, made, position, stamp, entries,
        writers, available, sources, edits, slots, diverted, marks, carried,
    )
}

#[unsafe(no_mangle)]
pub extern "C" fn parallel_moves_take_5(
    made: u16,
    stamp: u64,
    slots: &Slots,
    cache: &mut EmergencySpillSlotCache,
) -> u8
    requires { stamp ≡ stamp_of cache.old → CanTake slots.now cache.old }
    ensures { TakenAs made stamp slots.now cache.old result cache.new }
{
    asking_c::parallel_moves_take_5(made, stamp, slots, cache)
}
