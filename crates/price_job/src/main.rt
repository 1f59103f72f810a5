// The program `price_job SETTING M R S L [runs ..]`: reads a job on standard input and prints what each of its patches costs with these prices and,
// where run counts are given, one for each patch, the run count and the product; after a number the last line is `refused` and the number. An
// argument that is no decimal number, or is missing, counts as outside its range, and more run counts than a job has patches are 2; what is expected
// is then said on standard error too. So is what could not be read or written.
#![tactic(auto)]

ghost use Rattle.std.specs.Prelude.{◌≡◌, true, ◌≤◌, length, take};
ghost use Rattle.entity.specs.Logic.{Anything};
ghost use Rattle.price.specs.Price.{in_range};
ghost use Rattle.print.specs.Put.{Put};
ghost use Rattle.price_job.specs.Text.{runs_fit, prices_done, job_prices};

use answer::Whole;
use carried::Carried;
use edit::Edits;
use entries::Entries;
use function::Function;
use number::Number;
use price::Prices;
use reginfo::RegInfo;
use scratch::Diversions;
use slots::{EmergencySpillSlotCache, Slots};
use small_set::RegUnitSet;
use sparse::SparseMap;
use std::rt::Env;
use visits::States;

// Whether there are no run counts, or one for each patch.
fn runs_fit(given: usize, patches: u32) -> bool
    ensures { result ≡ runs_fit given patches }
{
    if given == 0 {
        return true;
    }
    given == patches as usize
}

// The lines of a job's patches, of which the prices and the opening are taken.
fn put_priced(
    kept_evictions: u32,
    p: Prices,
    runs: &[u64],
    s: &[u8],
    out: &mut [u8],
    words: &mut [u64],
    t: &mut RegInfo,
    f: &mut Function,
    cache: &mut EmergencySpillSlotCache,
    free: &mut RegUnitSet,
    e: &mut Entries,
    w: &mut SparseMap,
    available: &mut RegUnitSet,
    sources: &mut RegUnitSet,
    edits: &mut Edits,
    slots: &mut Slots,
    d: &mut Diversions,
    marks: &mut States,
    c: &mut Carried,
) -> usize
    requires { (in_range p ≡ true) × (length words.old ≡ 132096) × (length out.old ≡ 131072) }
    ensures put { Put out.old out.new 0 (prices_done p runs.now kept_evictions s.now) result }
    ensures anything { Anything words.new × Anything t.new × Anything f.new × Anything cache.new × Anything free.new × Anything e.new × Anything w.new × Anything available.new × Anything sources.new × Anything edits.new × Anything slots.new × Anything d.new × Anything marks.new × Anything c.new }
{
    match answer::answer_job(
        kept_evictions,
        s,
        words,
        t,
        f,
        cache,
        free,
        e,
        w,
        available,
        sources,
        edits,
        slots,
        d,
        marks,
        c,
    ) {
        Whole::Answered(n) => price_text::put_edges(out, p, runs, &words[..n], 0),
        Whole::Refused(k, n) => price_text::put_edges(out, p, runs, &words[..n], k),
    }
}

// All that is printed of a job.
fn put_job(
    kept_evictions: u32,
    p: Prices,
    runs: &[u64],
    s: &[u8],
    out: &mut [u8],
    words: &mut [u64],
    t: &mut RegInfo,
    f: &mut Function,
    cache: &mut EmergencySpillSlotCache,
    free: &mut RegUnitSet,
    e: &mut Entries,
    w: &mut SparseMap,
    available: &mut RegUnitSet,
    sources: &mut RegUnitSet,
    edits: &mut Edits,
    slots: &mut Slots,
    d: &mut Diversions,
    marks: &mut States,
    c: &mut Carried,
) -> usize
    requires { (length words.old ≡ 132096) × (length out.old ≡ 131072) }
    ensures put { Put out.old out.new 0 (job_prices p runs.now kept_evictions s.now) result }
    ensures anything { Anything words.new × Anything t.new × Anything f.new × Anything cache.new × Anything free.new × Anything e.new × Anything w.new × Anything available.new × Anything sources.new × Anything edits.new × Anything slots.new × Anything d.new × Anything marks.new × Anything c.new }
{
    match job::read_priced_opening(kept_evictions, p, s, t, f) {
        Number::Refused(k) => print::put_refused(out, 0, k as usize),
        Number::Is(count, _) => {
            if !runs_fit(runs.len(), count) {
                return print::put_refused(out, 0, 2);
            }
            put_priced(
                kept_evictions,
                p,
                runs,
                s,
                out,
                words,
                t,
                f,
                cache,
                free,
                e,
                w,
                available,
                sources,
                edits,
                slots,
                d,
                marks,
                c,
            )
        }
    }
}

// The number that the program's argument i is.
fn number_at<E: Env>(rt: &E, i: usize) -> u64 {
    let mut arg = [0u8; 64];
    let n = arguments::word(rt, i, &mut arg);
    arguments::number_in(&arg[..n])
}

// The run counts that follow the prices, as many as there is room for.
fn read_runs<E: Env>(rt: &E, runs: &mut [u64]) -> usize
    ensures { (result ≤ length runs.new) × (result ≡ length (take result runs.new)) }
{
    let given = arguments::count(rt);
    for n in 0..runs.len() {
        if given <= n + 6 {
            return n;
        }
        runs[n] = number_at(rt, n + 6);
    }
    runs.len()
}

// What the program expects, where its words, its name counted, are too few or too many.
fn expect(words: usize) {
    if words < 6 {
        io::write_all(
            2,
            b"price_job expects: SETTING M R S L [runs of each patch]\n",
        );
    }
    if 1030 < words {
        io::write_all(
            2,
            b"price_job expects: SETTING M R S L [runs of each patch]\n",
        );
    }
}

fn main(rt: HostRuntime) {
    let mut job = [0u8; 65537];
    // one more than a job has patches
    let mut runs = [0u64; 1025];
    let mut out = [0u8; 131072];
    let mut words = [0u64; 132096];
    let mut t = [0u16; 107520];
    let mut f = [0u16; 16388];
    let mut cache = [0u16; 65600];
    let mut free = [false; 512];
    let mut e = [0u16; 1541];
    let mut w = [0u16; 6657];
    let mut available = [false; 512];
    let mut sources = [false; 512];
    let mut edits = [0u64; 1025];
    let mut slots = [0u16; 32835];
    let mut d = [0u16; 12288];
    let mut marks = [0u8; 129];
    let mut c = [0u16; 2049];
    let kept_evictions = arguments::narrow(number_at(&rt, 1));
    let p = Prices {
        moves: arguments::narrow(number_at(&rt, 2)),
        remats: arguments::narrow(number_at(&rt, 3)),
        spills: arguments::narrow(number_at(&rt, 4)),
        reloads: arguments::narrow(number_at(&rt, 5)),
    };
    let given = read_runs(&rt, &mut runs);
    expect(arguments::count(&rt));
    let n = match streams::read_all(&mut rt.stdin(), &mut job) {
        Ok(n) => n,
        Err(error) => {
            let _ = eprintln!(rt; "price_job: standard input cannot be read: {error}");
            return;
        }
    };
    let m = put_job(
        kept_evictions,
        p,
        &runs[..given],
        &job[..n],
        &mut out,
        &mut words,
        &mut t,
        &mut f,
        &mut cache,
        &mut free,
        &mut e,
        &mut w,
        &mut available,
        &mut sources,
        &mut edits,
        &mut slots,
        &mut d,
        &mut marks,
        &mut c,
    );
    if let Err(error) = streams::write_all(&mut rt.stdout(), &out[..m]) {
        let _ = eprintln!(rt; "price_job: standard output cannot be written: {error}");
    }
}
