// The library for C and Rust, patch by patch, which `calls_c_exports` exports: a function opened, with prices and without, its patches one call
// each, how many slots were made, and the L to plan with. What the working tables held does not matter. Asked is of `parallel_moves_resolve` only:
// what `parallel_moves_open` and the calls after it left.
#![tactic(auto)]

ghost use Rattle.entity.specs.Logic.{Anything};
ghost use Rattle.std.specs.Prelude.{◌≡◌, length};
ghost use Rattle.reginfo.specs.Table.{reg_info_of};
ghost use Rattle.function.specs.Known.{Checked};
ghost use Rattle.function.specs.Table.{function_of};
ghost use Rattle.slots.specs.Stacks.{cache_of};
ghost use Rattle.parallel_moves.specs.Given.{CacheOk};
ghost use Rattle.price.specs.Price.{prices_in};
ghost use Rattle.job_rules.specs.Priced.{opening_priced};
ghost use Rattle.calls.specs.Opening.{opened, opened_priced};
ghost use Rattle.calls.specs.Call.{call_of};
ghost use Rattle.calls_c.specs.Called.{OpenedBy, CountedBy, PlannedBy, CalledAs};

use calls::Opened;
use carried::Carried;
use edit::Edits;
use entries::Entries;
use function::Function;
use number::Number;
use parallel_moves::Resolved;
use reginfo::RegInfo;
use scratch::Diversions;
use slots::{EmergencySpillSlotCache, Slots};
use small_set::RegUnitSet;
use sparse::SparseMap;
use visits::States;

// Opens the target and the function that the bytes are, with its number of kept evictions, for `parallel_moves_resolve`: answers 0, or 01's number:
// 22, tested before the bytes, for one other than 1 or 2.
pub fn parallel_moves_open_5(
    kept_evictions: u32,
    bytes: &[u8],
    target: &mut RegInfo,
    function: &mut Function,
    cache: &mut EmergencySpillSlotCache,
) -> u8
    ensures { OpenedBy (opened kept_evictions bytes.now) result target.new function.new cache.old cache.new }
{
    match calls::open(kept_evictions, bytes, target, function, cache) {
        Opened::Yes => 0,
        Opened::Refused(k) => k,
    }
}

// 02 e: the same of a target with these prices, of M, R, S and L: 19, after 7 and before the function's first number, for one over 65,535.
pub fn parallel_moves_open_priced_5(
    kept_evictions: u32,
    prices: &[u32; 4],
    bytes: &[u8],
    target: &mut RegInfo,
    function: &mut Function,
    cache: &mut EmergencySpillSlotCache,
) -> u8
    ensures { OpenedBy (opened_priced (prices_in prices.now) kept_evictions bytes.now) result target.new function.new cache.old cache.new }
{
    let p = price::prices_of(prices);
    match calls::open_priced(kept_evictions, p, bytes, target, function, cache) {
        Opened::Yes => 0,
        Opened::Refused(k) => k,
    }
}

// 02 e: how many patches a job with these prices, of M, R, S and L, says that it has, and `refusal` set to 0; or 0, and the number by which its
// opening is refused: 19, after 7 and before the function's first number, for a price over 65,535. `target` and `function` are worked in.
pub fn parallel_moves_priced_job_5(
    kept_evictions: u32,
    prices: &[u32; 4],
    bytes: &[u8],
    refusal: &mut u8,
    target: &mut RegInfo,
    function: &mut Function,
) -> u32
    ensures counted_by { CountedBy (opening_priced (prices_in prices.now) kept_evictions bytes.now) result refusal.new }
    ensures anything { Anything target.new × Anything function.new }
{
    let p = price::prices_of(prices);
    match job::read_priced_opening(kept_evictions, p, bytes, target, function) {
        Number::Refused(k) => {
            *refusal = k;
            0
        }
        Number::Is(count, _) => {
            *refusal = 0;
            count
        }
    }
}

// 02 j: the L to plan with: with it no patch of the function that the bytes are gets 17. The bytes are as for `parallel_moves_open`, with any L. Sets
// `refusal` to 0, or to the number that `parallel_moves_open` answers, and then answers 0. `target` and `function` are worked in.
pub fn parallel_moves_enough_slots_5(
    kept_evictions: u32,
    bytes: &[u8],
    refusal: &mut u8,
    target: &mut RegInfo,
    function: &mut Function,
) -> u16
    ensures planned_by { PlannedBy (opened kept_evictions bytes.now) result refusal.new }
    ensures anything { Anything target.new × Anything function.new }
{
    match calls::open_tables(kept_evictions, bytes, target, function) {
        Opened::Yes => {
            *refusal = 0;
            enough_slots::enough_slots(target, function)
        }
        Opened::Refused(k) => {
            *refusal = k;
            0
        }
    }
}

// One patch of free units, rising, and of entries as numbers, four to an entry: answers how many edits stand at the front of `list`, and sets
// `refusal` to 01's number or 0, and `position`, unless it is refused, to the greatest position that its searches met. Asked is that target, function
// and cache are as `parallel_moves_open` left them when it answered 0, the cache as the last call on it left it: "nothing else writes the cache
// between calls".
pub fn parallel_moves_resolve_5(
    target: &RegInfo,
    function: &Function,
    free: &[u32],
    numbers: &[u32],
    cache: &mut EmergencySpillSlotCache,
    list: &mut [u64],
    refusal: &mut u8,
    position: &mut u16,
    entries: &mut Entries,
    writers: &mut SparseMap,
    available: &mut RegUnitSet,
    sources: &mut RegUnitSet,
    edits: &mut Edits,
    slots: &mut Slots,
    diverted: &mut Diversions,
    marks: &mut States,
    carried: &mut Carried,
) -> usize
    requires { Checked target.now function.now × CacheOk function.now cache.old }
    ensures called_as { CalledAs function.now (call_of (reg_info_of target.now) (function_of function.now) free.now numbers.now (length list.old) (cache_of cache.old)) result refusal.new position.old position.new list.old list.new cache.old cache.new }
    ensures anything { Anything entries.new × Anything writers.new × Anything available.new × Anything sources.new × Anything edits.new × Anything slots.new × Anything diverted.new × Anything marks.new × Anything carried.new }
{
    match calls::resolve(
        target, function, free, numbers, cache, list, entries, writers, available, sources, edits,
        slots, diverted, marks, carried,
    ) {
        Resolved::Edits(count, met) => {
            *refusal = 0;
            *position = met;
            count
        }
        Resolved::Refused(number) => {
            *refusal = number;
            0
        }
    }
}

// How many emergency slots the function has.
pub fn parallel_moves_made_5(cache: &EmergencySpillSlotCache) -> u16
    ensures { result ≡ (cache_of cache.now).made }
{
    slots::made(cache)
}
