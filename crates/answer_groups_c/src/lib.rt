// The library for C and Rust: a whole job answered by groups (02 k). It stands in an archive of its own, so that what it shares with answering and
// with patches by groups is compiled into each. What the working tables held does not matter, and nothing is asked of what is lent.
#![tactic(auto)]

ghost use Rattle.entity.specs.Logic.{Anything};
ghost use Rattle.std.specs.Prelude.{length};
ghost use Rattle.answer.specs.Answered.{AnsweredAs};
ghost use Rattle.answer_groups.specs.Job.{job_by_groups_in};

use answer::Whole;
use carried::Carried;
use edit::Edits;
use entries::Entries;
use function::Function;
use groups::{Labels, Owners};
use patch_numbers::Numbers;
use reginfo::RegInfo;
use scratch::Diversions;
use slots::{EmergencySpillSlotCache, Slots};
use small_set::RegUnitSet;
use sparse::SparseMap;
use visits::States;

// A whole job of a function with so many kept evictions, each patch by groups: answers how many words the patches that were resolved have, and sets
// `refusal` to 01's number or 0: 22, tested before the job, for a setting other than 1 or 2; 16 at a patch for which too few words are left.
#[unsafe(no_mangle)]
pub extern "C" fn parallel_moves_answer_groups_5(
    kept_evictions: u32,
    bytes: &[u8],
    words: &mut [u64],
    refusal: &mut u8,
    target: &mut RegInfo,
    function: &mut Function,
    cache: &mut EmergencySpillSlotCache,
    free: &mut RegUnitSet,
    entries: &mut Entries,
    writers: &mut SparseMap,
    available: &mut RegUnitSet,
    sources: &mut RegUnitSet,
    edits: &mut Edits,
    slots: &mut Slots,
    diverted: &mut Diversions,
    marks: &mut States,
    carried: &mut Carried,
    owners: &mut Owners,
    labels: &mut Labels,
    next: &mut Labels,
    common: &mut RegUnitSet,
    work: &mut EmergencySpillSlotCache,
    joined: &mut [u64; 1024],
    numbers: &mut Numbers,
) -> usize
    ensures answered_as { AnsweredAs words.old (job_by_groups_in (length words.old) kept_evictions bytes.now) result refusal.new words.new }
    ensures anything { Anything target.new × Anything function.new × Anything cache.new × Anything free.new × Anything entries.new × Anything writers.new × Anything available.new × Anything sources.new × Anything edits.new × Anything slots.new × Anything diverted.new × Anything marks.new × Anything carried.new }
    ensures anything_2 { Anything owners.new × Anything labels.new × Anything next.new × Anything common.new × Anything work.new × Anything joined.new × Anything numbers.new }
{
    match answer_groups::answer_job(
        kept_evictions,
        bytes,
        words,
        target,
        function,
        cache,
        free,
        entries,
        writers,
        available,
        sources,
        edits,
        slots,
        diverted,
        marks,
        carried,
        owners,
        labels,
        next,
        common,
        work,
        joined,
        numbers,
    ) {
        Whole::Answered(n) => {
            *refusal = 0;
            n
        }
        Whole::Refused(k, n) => {
            *refusal = k;
            n
        }
    }
}
