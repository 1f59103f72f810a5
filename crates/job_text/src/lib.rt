// The text of a job's answer, patch by patch, put behind what a lent buffer holds; and how long an answer can be. Whoever writes what the buffer
// holds goes on with `emptied`. What the working tables held does not matter.
#![tactic(auto)]

ghost use Rattle.std.specs.Prelude.{◌≡◌, false, ◌+◌, ◌<◌, ◌≤◌, length, take, drop};
ghost use Rattle.entity.specs.Logic.{Anything};
ghost use Rattle.function.specs.Table.{function_of};
ghost use Rattle.print.specs.Put.{Put};
ghost use Rattle.print.specs.Words.{words_text};
ghost use Rattle.answer_text.specs.Lines.{refusal_text};
ghost use Rattle.job_text.specs.Standing.{starting, written_out, to_go, most_bytes, end_text, Ends, Stands};

use carried::Carried;
use edit::Edits;
use entries::Entries;
use function::Function;
use job::Step;
use number::Number;
use reginfo::RegInfo;
use scratch::Diversions;
use slots::{EmergencySpillSlotCache, Slots};
use small_set::RegUnitSet;
use sparse::SparseMap;
use visits::States;

// How far a job's text has come.
#[derive(Drop)]
pub struct Progress {
    // where the next patch stands, how many patches are left, and the number of the next one
    pub at: usize,
    pub left: usize,
    pub k: usize,
    // how many bytes were written, and how many the buffer holds
    pub written: usize,
    pub held: usize,
    // nothing more is to come
    pub ended: bool,
}

// The lines of patch k, which has at most 1,024 edits.
fn put_patch(
    out: &mut [u8],
    n: usize,
    k: usize,
    list: &[u64; 1024],
    count: usize,
    made: usize,
) -> usize
    requires { (n + 20480 ≤ length out.old) × (k < 4294967296) × (count ≤ 1024) × (made < 65536) }
    ensures { Put out.old out.new n (words_text k (take count list.now) made) result × (result ≤ n + 20480) }
{
    print::put_patch(out, n, k, list, count, made)
}

// Nothing is written yet, and the buffer is empty.
fn begun(at: usize, left: usize) -> Progress
    ensures { result ≡ starting at left }
{
    Progress {
        at,
        left,
        k: 1,
        written: 0,
        held: 0,
        ended: false,
    }
}

// Nothing more is to come.
fn end(mut p: Progress) -> Progress
    ensures { Ends p result × (result.held ≡ p.held) }
{
    p.ended = true;
    p
}

// The last line after a refusal, 0 being none.
fn refuse(mut p: Progress, out: &mut [u8], number: u8) -> Progress
    requires { p.held + 20480 ≤ length out.old }
    ensures { Ends p result × Put out.old out.new p.held (refusal_text number) result.held }
{
    if number == 0 {
        return end(p);
    }
    let n = p.held;
    p.held = print::put_refused(out, n, usize::from(number));
    end(p)
}

// After the last patch: 8 if bytes are left over.
fn finish(p: Progress, out: &mut [u8], s: &[u8], at: usize) -> Progress
    requires { p.held + 20480 ≤ length out.old }
    ensures { Ends p result × Put out.old out.new p.held (end_text (drop at s.now)) result.held }
{
    if at < s.len() {
        return refuse(p, out, 8);
    }
    end(p)
}

// The next patch: answered, and its lines put; or how the job ends.
pub fn next(
    t: &RegInfo,
    f: &Function,
    s: &[u8],
    p: Progress,
    cache: &mut EmergencySpillSlotCache,
    list: &mut [u64; 1024],
    free: &mut RegUnitSet,
    e: &mut Entries,
    w: &mut SparseMap,
    available: &mut RegUnitSet,
    sources: &mut RegUnitSet,
    edits: &mut Edits,
    slots: &mut Slots,
    d: &mut Diversions,
    marks: &mut States,
    c: &mut Carried,
    out: &mut [u8],
) -> Progress
    requires { Stands (function_of f.now).kept t.now f.now s.now cache.old out.old p × (p.ended ≡ false) × (p.held + 20480 ≤ length out.old) }
    ensures stands { Stands (function_of f.now).kept t.now f.now s.now cache.new out.new result × (result.written ≡ p.written) × (to_go result < to_go p) }
    ensures anything { Anything list.new × Anything free.new × Anything e.new × Anything w.new × Anything available.new × Anything sources.new × Anything edits.new × Anything slots.new × Anything d.new × Anything marks.new × Anything c.new }
{
    let at = p.at;
    let left = p.left;
    if left == 0 {
        return finish(p, out, s, at);
    }
    match job::answer_patch(
        t, f, s, at, cache, list, free, e, w, available, sources, edits, slots, d, marks, c,
    ) {
        Step::Refused(number) => refuse(p, out, number),
        Step::Edits(count, _, next) => {
            let made = usize::from(slots::made(cache));
            let n = p.held;
            let k = p.k;
            let held = put_patch(out, n, k, list, count, made);
            Progress {
                at: next,
                left: left - 1,
                k: k + 1,
                written: p.written,
                held,
                ended: false,
            }
        }
    }
}

// The opening of a job of a function with so many kept evictions: read, and its refusal put if there is one, 22 first, for a setting other than 1
// or 2. `t`, `f` and `cache` are working tables too.
pub fn start(
    kept_evictions: u32,
    s: &[u8],
    t: &mut RegInfo,
    f: &mut Function,
    cache: &mut EmergencySpillSlotCache,
    out: &mut [u8],
) -> Progress
    requires { 20480 ≤ length out.old }
    ensures { Stands kept_evictions t.new f.new s.now cache.new out.new result × (result.written ≡ 0) }
{
    match job::read_opening(kept_evictions, s, t, f) {
        Number::Refused(number) => refuse(begun(0, 0), out, number),
        Number::Is(count, at) => {
            slots::clear(cache);
            begun(at, count as usize)
        }
    }
}

// Goes on after what the buffer held was written.
pub fn emptied(mut p: Progress) -> Progress
    requires { p.written + p.held ≤ most_bytes }
    ensures { result ≡ written_out p }
{
    p.written = p.written + p.held;
    p.held = 0;
    p
}
