// The library for C and Rust: a list of edits examined (02 m), for a patch of a job or of an opened function. Nothing is asked of a caller, but of the
// calls for an opened function that target and function are as their opening left them.
#![tactic(auto)]

ghost use Rattle.std.specs.Prelude.{◌≡◌, ◌≤◌};
ghost use Rattle.entity.specs.Logic.{Anything};
ghost use Rattle.reginfo.specs.Table.{reg_info_of};
ghost use Rattle.function.specs.Known.{Checked};
ghost use Rattle.function.specs.Table.{function_of};
ghost use Rattle.examine.specs.Answer.{verdict_of};
ghost use Rattle.job_examine.specs.Job.{examine_job, examine_job_in};
ghost use Rattle.examine_c.specs.Answer.{ToldAs};
ghost use Rattle.examine_c.specs.Call.{examine_call, examine_call_in};

use cells::{Cells, Words};
use entries::{Added, Entries};
use examine::Examined;
use function::Function;
use reginfo::RegInfo;
use small_set::RegUnitSet;
use sparse::SparseMap;
use ties::Ties;

// 1 is yes, 0 no and 2 refused, with the number, which else is 0.
fn told(r: Examined, refusal: &mut u8) -> u8
    ensures { ToldAs (verdict_of r) result refusal.new }
{
    match r {
        Examined::Yes => {
            *refusal = 0;
            1
        }
        Examined::No => {
            *refusal = 0;
            0
        }
        Examined::Refused(k) => {
            *refusal = k;
            2
        }
    }
}

// Whether the words do what a patch of a job asks, from every start: 1 if they do, 0 if from some start they do not, and 2 with the number by which
// the job, the patch or, with 24, the list is refused; the number is 0 where none is. Patches are counted from 0; those before it are read and not
// resolved, those behind it are not read; a number that the job has no patch of is 2. The list may have any length.
#[unsafe(no_mangle)]
pub extern "C" fn parallel_moves_examine_5(
    job: &[u8],
    patch: u32,
    words: &[u64],
    refusal: &mut u8,
    target: &mut RegInfo,
    function: &mut Function,
    free: &mut RegUnitSet,
    entries: &mut Entries,
    writers: &mut SparseMap,
    ties: &mut Ties,
    cells: &mut Cells,
    start: &mut Cells,
    held: &mut Words,
    asked: &mut Words,
) -> u8
    ensures told_as { ToldAs (examine_job patch words.now job.now) result refusal.new }
    ensures anything { Anything target.new × Anything function.new × Anything free.new × Anything entries.new × Anything writers.new × Anything ties.new × Anything cells.new × Anything start.new × Anything held.new × Anything asked.new }
{
    let r = job_examine::examine_job(
        job, patch, words, target, function, free, entries, writers, ties, cells, start, held,
        asked,
    );
    told(r, refusal)
}

// The same for a formula of a shared frame: slots below N plus the frame's limit may be named. A limit over 2,048 is 2, tested first.
#[unsafe(no_mangle)]
pub extern "C" fn parallel_moves_examine_in_5(
    limit: u32,
    job: &[u8],
    patch: u32,
    words: &[u64],
    refusal: &mut u8,
    target: &mut RegInfo,
    function: &mut Function,
    free: &mut RegUnitSet,
    entries: &mut Entries,
    writers: &mut SparseMap,
    ties: &mut Ties,
    cells: &mut Cells,
    start: &mut Cells,
    held: &mut Words,
    asked: &mut Words,
) -> u8
    ensures told_as { ToldAs (examine_job_in limit patch words.now job.now) result refusal.new }
    ensures anything { Anything target.new × Anything function.new × Anything free.new × Anything entries.new × Anything writers.new × Anything ties.new × Anything cells.new × Anything start.new × Anything held.new × Anything asked.new }
{
    let r = job_examine::examine_job_in(
        limit, job, patch, words, target, function, free, entries, writers, ties, cells, start,
        held, asked,
    );
    told(r, refusal)
}

// A list for the patch of free units, rising, and of entries as numbers, four to an entry, as `parallel_moves_resolve` has it: its free units are
// tested first, then its entries, then the patch, then the list. What the tables held does not matter.
fn examine_call(
    t: &RegInfo,
    f: &Function,
    free: &[u32],
    numbers: &[u32],
    list: &[u64],
    most: usize,
    units: &mut RegUnitSet,
    e: &mut Entries,
    w: &mut SparseMap,
    x: &mut Ties,
    c: &mut Cells,
    start: &mut Cells,
    b: &mut Words,
    d: &mut Words,
) -> Examined
    requires { Checked t.now f.now × (most ≤ 2048) }
    ensures result_value { verdict_of result ≡ examine_call (reg_info_of t.now) (function_of f.now) free.now numbers.now most list.now }
    ensures anything { Anything units.new × Anything e.new × Anything w.new × Anything x.new × Anything c.new × Anything start.new × Anything b.new × Anything d.new }
{
    if let Added::Refused(k) = calls::take_free(t, free, units) {
        return Examined::Refused(k);
    }
    entries::new_parallel_move(e, w);
    if let Added::Refused(k) = parallel_moves::add_entries(t, f, e, w, numbers) {
        return Examined::Refused(k);
    }
    examine::examine_patch(t, f, e, w, units, list, most, x, c, start, b, d)
}

// Whether the words do what a patch of an opened function asks, from every start: answered as by `parallel_moves_examine`, slots below N + L may be
// named. The patch is given as to `parallel_moves_resolve`, and gets the same numbers but 16 and 17: neither a list to fill nor a cache is lent.
// Asked is that target and function are as `parallel_moves_open` left them when it answered 0.
#[unsafe(no_mangle)]
pub extern "C" fn parallel_moves_examine_opened_5(
    target: &RegInfo,
    function: &Function,
    free: &[u32],
    numbers: &[u32],
    words: &[u64],
    refusal: &mut u8,
    units: &mut RegUnitSet,
    entries: &mut Entries,
    writers: &mut SparseMap,
    ties: &mut Ties,
    cells: &mut Cells,
    start: &mut Cells,
    held: &mut Words,
    asked: &mut Words,
) -> u8
    requires { Checked target.now function.now }
    ensures told_as { ToldAs (examine_call (reg_info_of target.now) (function_of function.now) free.now numbers.now (function_of function.now).limit words.now) result refusal.new }
    ensures anything { Anything units.new × Anything entries.new × Anything writers.new × Anything ties.new × Anything cells.new × Anything start.new × Anything held.new × Anything asked.new }
{
    let most = function::slot_limit(function);
    let r = examine_call(
        target, function, free, numbers, words, most, units, entries, writers, ties, cells, start,
        held, asked,
    );
    told(r, refusal)
}

// The same for an opened formula of a shared frame: slots below N plus the frame's limit may be named. A limit over 2,048 is 2, tested first.
#[unsafe(no_mangle)]
pub extern "C" fn parallel_moves_examine_formula_5(
    limit: u32,
    target: &RegInfo,
    function: &Function,
    free: &[u32],
    numbers: &[u32],
    words: &[u64],
    refusal: &mut u8,
    units: &mut RegUnitSet,
    entries: &mut Entries,
    writers: &mut SparseMap,
    ties: &mut Ties,
    cells: &mut Cells,
    start: &mut Cells,
    held: &mut Words,
    asked: &mut Words,
) -> u8
    requires { Checked target.now function.now }
    ensures told_as { ToldAs (examine_call_in (reg_info_of target.now) (function_of function.now) limit free.now numbers.now words.now) result refusal.new }
    ensures anything { Anything units.new × Anything entries.new × Anything writers.new × Anything ties.new × Anything cells.new × Anything start.new × Anything held.new × Anything asked.new }
{
    if 2048 < limit {
        return told(Examined::Refused(2), refusal);
    }
    let r = examine_call(
        target,
        function,
        free,
        numbers,
        words,
        limit as usize,
        units,
        entries,
        writers,
        ties,
        cells,
        start,
        held,
        asked,
    );
    told(r, refusal)
}
