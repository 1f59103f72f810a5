// The library for C and Rust, which `asking_c_exports` exports: patches of an opened function asked for, and their answers taken (02 g). What the
// working tables held does not matter.
#![tactic(auto)]

ghost use Rattle.entity.specs.Logic.{Anything};
ghost use Rattle.std.specs.Prelude.{◌≡◌, length};
ghost use Rattle.reginfo.specs.Table.{reg_info_of};
ghost use Rattle.function.specs.Known.{Checked};
ghost use Rattle.function.specs.Table.{function_of};
ghost use Rattle.slots.specs.Stacks.{cache_of, stamp_of};
ghost use Rattle.parallel_moves.specs.Given.{CacheOk};
ghost use Rattle.parallel_moves.specs.Answers.{CanTake};
ghost use Rattle.calls.specs.Call.{call_of};
ghost use Rattle.asking_c.specs.Asked.{AskedAs, TakenAs};

use carried::Carried;
use edit::Edits;
use entries::Entries;
use function::Function;
use parallel_moves::{Asked, Preview, TakeAnswer};
use reginfo::RegInfo;
use scratch::Diversions;
use slots::{EmergencySpillSlotCache, Slots};
use small_set::RegUnitSet;
use sparse::SparseMap;
use visits::States;

// Asks for a patch, given as to `parallel_moves_resolve`, and changes no cache: answers how many edits stand at the front of `list`, and sets
// `refusal` to 01's number or 0 and, unless it is refused, `made` to the slots that the function has once the answer is taken, `position` to the
// greatest position that its searches met, and `stamp`. Taking needs `made`, `stamp` and the table `slots` as it is left.
pub fn parallel_moves_ask_5(
    target: &RegInfo,
    function: &Function,
    free: &[u32],
    numbers: &[u32],
    cache: &EmergencySpillSlotCache,
    list: &mut [u64],
    refusal: &mut u8,
    made: &mut u16,
    position: &mut u16,
    stamp: &mut u64,
    entries: &mut Entries,
    writers: &mut SparseMap,
    available: &mut RegUnitSet,
    sources: &mut RegUnitSet,
    edits: &mut Edits,
    slots: &mut Slots,
    diverted: &mut Diversions,
    marks: &mut States,
    carried: &mut Carried,
) -> usize
    requires { Checked target.now function.now × CacheOk function.now cache.now }
    ensures asked_as { AskedAs function.now (call_of (reg_info_of target.now) (function_of function.now) free.now numbers.now (length list.old) (cache_of cache.now)) result refusal.new made.old made.new position.old position.new stamp.old stamp.new list.old list.new cache.now slots.new }
    ensures anything { Anything entries.new × Anything writers.new × Anything available.new × Anything sources.new × Anything edits.new × Anything diverted.new × Anything marks.new × Anything carried.new }
{
    match calls::ask(
        target, function, free, numbers, cache, list, entries, writers, available, sources, edits,
        slots, diverted, marks, carried,
    ) {
        Asked::Ready(count, a) => {
            *refusal = 0;
            *made = a.made;
            *position = a.position;
            *stamp = a.stamp;
            count
        }
        Asked::Refused(number) => {
            *refusal = number;
            0
        }
    }
}

// Takes what was asked for: the cache becomes what resolving that patch would have made it. Answers 0; or first 20, the cache as it was, where it has
// taken an answer or resolved a patch since the asking. Asked is that `made`, `stamp` and `slots` are as the asking left them, and the cache as the
// last call on it left it.
pub fn parallel_moves_take_5(
    made: u16,
    stamp: u64,
    slots: &Slots,
    cache: &mut EmergencySpillSlotCache,
) -> u8
    requires { stamp ≡ stamp_of cache.old → CanTake slots.now cache.old }
    ensures { TakenAs made stamp slots.now cache.old result cache.new }
{
    let a = Preview {
        made,
        position: 0,
        stamp,
    };
    match parallel_moves::take(a, slots, cache) {
        TakeAnswer::Yes => 0,
        TakeAnswer::Refused(number) => number,
    }
}
