// The library for C and Rust, whole jobs: a job answered as words, and their text. What the working tables held does not matter, and nothing is asked
// of what is lent.
#![tactic(auto)]

ghost use Rattle.entity.specs.Logic.{Anything};
ghost use Rattle.std.specs.Prelude.{length};
ghost use Rattle.answer_text.specs.Lines.{answer_text, Printed};
ghost use Rattle.answer.specs.Room.{job_in};
ghost use Rattle.answer.specs.Answered.{AnsweredAs};

use answer::Whole;
use carried::Carried;
use edit::Edits;
use entries::Entries;
use function::Function;
use reginfo::RegInfo;
use scratch::Diversions;
use slots::{EmergencySpillSlotCache, Slots};
use small_set::RegUnitSet;
use sparse::SparseMap;
use visits::States;

// A whole job of a function with so many kept evictions: answers how many words the patches that were resolved have, and sets `refusal` to 01's
// number or 0: 22, tested before the job, for a setting other than 1 or 2; 16 at a patch for which too few words are left.
#[unsafe(no_mangle)]
pub extern "C" fn parallel_moves_answer_5(
    kept_evictions: u32,
    bytes: &[u8],
    words: &mut [u64],
    refusal: &mut u8,
    target: &mut RegInfo,
    function: &mut Function,
    cache: &mut EmergencySpillSlotCache,
    free: &mut RegUnitSet,
    entries: &mut Entries,
    writers: &mut SparseMap,
    available: &mut RegUnitSet,
    sources: &mut RegUnitSet,
    edits: &mut Edits,
    slots: &mut Slots,
    diverted: &mut Diversions,
    marks: &mut States,
    carried: &mut Carried,
) -> usize
    ensures answered_as { AnsweredAs words.old (job_in (length words.old) kept_evictions bytes.now) result refusal.new words.new }
    ensures anything { Anything target.new × Anything function.new × Anything cache.new × Anything free.new × Anything entries.new × Anything writers.new × Anything available.new × Anything sources.new × Anything edits.new × Anything slots.new × Anything diverted.new × Anything marks.new × Anything carried.new }
{
    match answer::answer_job(
        kept_evictions,
        bytes,
        words,
        target,
        function,
        cache,
        free,
        entries,
        writers,
        available,
        sources,
        edits,
        slots,
        diverted,
        marks,
        carried,
    ) {
        Whole::Answered(n) => {
            *refusal = 0;
            n
        }
        Whole::Refused(k, n) => {
            *refusal = k;
            n
        }
    }
}

// The text of an answer, as the program `resolve` prints it: answers its length, or 0 where `text` is too short and holds the lines that fit.
#[unsafe(no_mangle)]
pub extern "C" fn parallel_moves_text_5(words: &[u64], refusal: u8, text: &mut [u8]) -> usize
    ensures { Printed text.old text.new (answer_text words.now refusal) result }
{
    answer_text::put_answer(text, words, refusal)
}
