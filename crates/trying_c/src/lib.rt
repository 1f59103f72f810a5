// The library for C and Rust: one and two kept evictions compared on patches drawn from a seed (02 n). Nothing is asked of a caller.
#![tactic(auto)]

ghost use Rattle.std.specs.Prelude.{◌≡◌};
ghost use Rattle.entity.specs.Logic.{Anything};
ghost use Rattle.price.specs.Price.{prices_in};
ghost use Rattle.job_tries.specs.Tries.{asked, TriedBy};

use carried::Carried;
use edit::Edits;
use entries::Entries;
use function::Function;
use reginfo::RegInfo;
use scratch::Diversions;
use slots::{EmergencySpillSlotCache, Slots};
use small_set::RegUnitSet;
use sparse::SparseMap;
use trying::Tally;
use visits::States;

// Draws so many patches of a function from a seed, counts what becomes of them with one kept eviction and with two, and answers 0. Each table
// has the accepted patches, their M, R, S and L, the evictions, the total price, and from cell 7 on the refusals by number. Or it answers a number,
// and both tables are left as they were: 2 for a count of patches outside 1 to 1,024, then that of the function, 19 after 7 for a price over 65,535.
// The bytes are a target and a function, as for `parallel_moves_open`, or a whole job, which is read to its end and not resolved: 1 to 15, 21 and 8 then.
#[unsafe(no_mangle)]
pub extern "C" fn parallel_moves_try_5(
    job: &[u8],
    prices: &[u32; 4],
    seed: u32,
    patches: u32,
    one: &mut Tally,
    two: &mut Tally,
    target: &mut RegInfo,
    function: &mut Function,
    cache: &mut EmergencySpillSlotCache,
    entries: &mut Entries,
    writers: &mut SparseMap,
    available: &mut RegUnitSet,
    sources: &mut RegUnitSet,
    edits: &mut Edits,
    slots: &mut Slots,
    diverted: &mut Diversions,
    marks: &mut States,
    carried: &mut Carried,
) -> u8
    ensures tried_by { TriedBy (asked (prices_in prices.now) patches job.now) (prices_in prices.now) seed patches result one.old two.old one.new two.new }
    ensures anything { Anything target.new × Anything function.new × Anything cache.new × Anything entries.new × Anything writers.new × Anything available.new × Anything sources.new × Anything edits.new × Anything slots.new × Anything diverted.new × Anything marks.new × Anything carried.new }
{
    let p = price::prices_of(prices);
    job_tries::try_job(
        p, job, seed, patches, one, two, target, function, cache, entries, writers, available,
        sources, edits, slots, diverted, marks, carried,
    )
}
