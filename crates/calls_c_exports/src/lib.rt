// The static library for C and Rust of `calls_c`, patch by patch: a function opened, with prices and without, its patches one call each, how many
// slots were made, and the L to plan with. Each function here is that library's of the same name, with the same clauses.
#![tactic(auto)]

ghost use Rattle.entity.specs.Logic.{Anything};
ghost use Rattle.std.specs.Prelude.{◌≡◌, length};
ghost use Rattle.reginfo.specs.Table.{reg_info_of};
ghost use Rattle.function.specs.Known.{Checked};
ghost use Rattle.function.specs.Table.{function_of};
ghost use Rattle.slots.specs.Stacks.{cache_of};
ghost use Rattle.parallel_moves.specs.Given.{CacheOk};
ghost use Rattle.price.specs.Price.{prices_in};
ghost use Rattle.job_rules.specs.Priced.{opening_priced};
ghost use Rattle.calls.specs.Opening.{opened, opened_priced};
ghost use Rattle.calls.specs.Call.{call_of};
ghost use Rattle.calls_c.specs.Called.{OpenedBy, CountedBy, PlannedBy, CalledAs};

use carried::Carried;
use edit::Edits;
use entries::Entries;
use function::Function;
use reginfo::RegInfo;
use scratch::Diversions;
use slots::{EmergencySpillSlotCache, Slots};
use small_set::RegUnitSet;
use sparse::SparseMap;
use visits::States;

#[unsafe(no_mangle)]
pub extern "C" fn parallel_moves_open_5(
    kept_evictions: u32,
    bytes: &[u8],
    target: &mut RegInfo,
    function: &mut Function,
    cache: &mut EmergencySpillSlotCache,
) -> u8
    ensures { OpenedBy (opened kept_evictions bytes.now) result target.new function.new cache.old cache.new }
{
    calls_c::parallel_moves_open_5(kept_evictions, bytes, target, function, cache)
}

#[unsafe(no_mangle)]
pub extern "C" fn parallel_moves_open_priced_5(
    kept_evictions: u32,
    prices: &[u32; 4],
    bytes: &[u8],
    target: &mut RegInfo,
    function: &mut Function,
    cache: &mut EmergencySpillSlotCache,
) -> u8
    ensures { OpenedBy (opened_priced (prices_in prices.now) kept_evictions bytes.now) result target.new function.new cache.old cache.new }
{
    calls_c::parallel_moves_open_priced_5(kept_evictions, prices, bytes, target, function, cache)
}

#[unsafe(no_mangle)]
pub extern "C" fn parallel_moves_priced_job_5(
    kept_evictions: u32,
    prices: &[u32; 4],
    bytes: &[u8],
    refusal: &mut u8,
    target: &mut RegInfo,
    function: &mut Function,
) -> u32
    ensures counted_by { CountedBy (opening_priced (prices_in prices.now) kept_evictions bytes.now) result refusal.new }
    ensures anything { Anything target.new × Anything function.new }
{
    calls_c::parallel_moves_priced_job_5(kept_evictions, prices, bytes, refusal, target, function)
}

#[unsafe(no_mangle)]
pub extern "C" fn parallel_moves_enough_slots_5(
    kept_evictions: u32,
    bytes: &[u8],
    refusal: &mut u8,
    target: &mut RegInfo,
    function: &mut Function,
) -> u16
    ensures planned_by { PlannedBy (opened kept_evictions bytes.now) result refusal.new }
    ensures anything { Anything target.new × Anything function.new }
{
    calls_c::parallel_moves_enough_slots_5(kept_evictions, bytes, refusal, target, function)
}

#[unsafe(no_mangle)]
pub extern "C" fn parallel_moves_resolve_5(
    target: &RegInfo,
    function: &Function,
    free: &[u32],
    numbers: &[u32],
    cache: &mut EmergencySpillSlotCache,
    list: &mut [u64],
    refusal: &mut u8,
    position: &mut u16,
    entries: &mut Entries,
    writers: &mut SparseMap,
    available: &mut RegUnitSet,
    sources: &mut RegUnitSet,
    edits: &mut Edits,
    slots: &mut Slots,
    diverted: &mut Diversions,
    marks: &mut States,
    carried: &mut Carried,
) -> usize
    requires { Checked target.now function.now × CacheOk function.now cache.old }
    ensures called_as { CalledAs function.now (call_of (reg_info_of target.now) (function_of function.now) free.now numbers.now (length list.old) (cache_of cache.old)) result refusal.new position.old position.new list.old list.new cache.old cache.new }
    ensures anything { Anything entries.new × Anything writers.new × Anything available.new × Anything sources.new × Anything edits.new × Anything slots.new × Anything diverted.new × Anything marks.new × Anything carried.new }
{
    calls_c::parallel_moves_resolve_5(
        target, function, free, numbers, cache, list, refusal, position, entries, writers,
        available, sources, edits, slots, diverted, marks, carried,
    )
}

#[unsafe(no_mangle)]
pub extern "C" fn parallel_moves_made_5(cache: &EmergencySpillSlotCache) -> u16
    ensures { result ≡ (cache_of cache.now).made }
{
    calls_c::parallel_moves_made_5(cache)
}
