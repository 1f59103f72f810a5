// A whole job answered into lent words: for each patch a head and its edits. What the working tables held does not matter.
#![tactic(auto)]

ghost use Rattle.std.specs.Prelude.{◌≡◌, ◌<◌, ◌≤◌, length, drop};
ghost use Rattle.entity.specs.Logic.{Anything};
ghost use Rattle.reginfo.specs.Table.{reg_info_of};
ghost use Rattle.function.specs.Known.{Checked};
ghost use Rattle.function.specs.Table.{function_of};
ghost use Rattle.rules.specs.Patch.{resolve};
ghost use Rattle.slots.specs.Stacks.{cache_of};
ghost use Rattle.parallel_moves.specs.Given.{CacheOk};
ghost use Rattle.answer_text.specs.Heads.{head_word};
ghost use Rattle.answer.specs.Room.{patches_in, job_in};
ghost use Rattle.answer.specs.Whole.{behind_head, Next, Wholly};

use carried::Carried;
use edit::Edits;
use entries::Entries;
use function::Function;
use job::Step;
use number::Number;
use reginfo::RegInfo;
use scratch::Diversions;
use slots::{EmergencySpillSlotCache, Slots};
use small_set::RegUnitSet;
use sparse::SparseMap;
use visits::States;

// How many words the patches that were resolved have, after a refusal too.
#[derive(Drop)]
pub enum Whole {
    Answered(usize),
    Refused(u8, usize),
}

// Where the next patch stands and how many words there are then; or why there is none.
#[derive(Drop)]
pub enum Onward {
    At(usize, usize),
    Refused(u8),
}

// The word before a patch's edits: how many they are, how many slots the function has made, and the greatest position that the patch met. Its kind is 0,
// so that it is no edit.
pub fn head(count: usize, made: usize, position: usize) -> u64
    requires { (count ≤ 1024) × (made < 65536) × (position < 65536) }
    ensures { result ≡ head_word count made position }
{
    ((position as u64 * 65536 + made as u64) * 65536 + count as u64) * 8
}

// Where the words behind the head at n begin: where no word is left for it, at the end.
pub fn behind(n: usize, len: usize) -> usize
    requires { n ≤ len }
    ensures { result ≡ behind_head n len }
{
    if n < len {
        return n + 1;
    }
    n
}

// The patch at an offset: read, and resolved into the words behind its head; then the head is put. The list lent to its call is what is left there.
fn answer_next(
    t: &RegInfo,
    f: &Function,
    s: &[u8],
    at: usize,
    cache: &mut EmergencySpillSlotCache,
    free: &mut RegUnitSet,
    e: &mut Entries,
    w: &mut SparseMap,
    available: &mut RegUnitSet,
    sources: &mut RegUnitSet,
    edits: &mut Edits,
    slots: &mut Slots,
    d: &mut Diversions,
    marks: &mut States,
    c: &mut Carried,
    words: &mut [u64],
    n: usize,
) -> Onward
    requires { Checked t.now f.now × CacheOk f.now cache.old × (n ≤ length words.old) }
    ensures next { Next resolve t.now f.now s.now at cache.old cache.new words.old words.new n result }
    ensures anything { Anything free.new × Anything e.new × Anything w.new × Anything available.new × Anything sources.new × Anything edits.new × Anything slots.new × Anything d.new × Anything marks.new × Anything c.new }
{
    let from = behind(n, words.len());
    match job::answer_patch(
        t,
        f,
        s,
        at,
        cache,
        &mut words[from..],
        free,
        e,
        w,
        available,
        sources,
        edits,
        slots,
        d,
        marks,
        c,
    ) {
        Step::Refused(k) => Onward::Refused(k),
        Step::Edits(count, met, next) => {
            // A patch without edits fits an empty list, but its head needs a word.
            if from == n {
                return Onward::Refused(16);
            }
            words[n] = head(count, usize::from(slots::made(cache)), usize::from(met));
            Onward::At(next, from + count)
        }
    }
}

// The patches of a job, from an offset on.
fn answer_patches(
    t: &RegInfo,
    f: &Function,
    s: &[u8],
    from: usize,
    count: u32,
    cache: &mut EmergencySpillSlotCache,
    free: &mut RegUnitSet,
    e: &mut Entries,
    w: &mut SparseMap,
    available: &mut RegUnitSet,
    sources: &mut RegUnitSet,
    edits: &mut Edits,
    slots: &mut Slots,
    d: &mut Diversions,
    marks: &mut States,
    c: &mut Carried,
    words: &mut [u64],
) -> Whole
    requires { Checked t.now f.now × CacheOk f.now cache.old }
    ensures wholly { Wholly words.old (patches_in resolve (reg_info_of t.now) (function_of f.now) count (cache_of cache.old) (length words.old) (drop from s.now)) result words.new }
    ensures anything { Anything cache.new × Anything free.new × Anything e.new × Anything w.new × Anything available.new × Anything sources.new × Anything edits.new × Anything slots.new × Anything d.new × Anything marks.new × Anything c.new }
{
    let mut at = from;
    let mut n = 0;
    for _done in 0..count {
        match answer_next(
            t, f, s, at, cache, free, e, w, available, sources, edits, slots, d, marks, c, words, n,
        ) {
            Onward::Refused(k) => {
                return Whole::Refused(k, n);
            }
            Onward::At(next, m) => {
                at = next;
                n = m;
            }
        }
    }
    if at < s.len() {
        return Whole::Refused(8, n);
    }
    Whole::Answered(n)
}

// A whole job of a function with so many kept evictions; 22 first, for a setting other than 1 or 2. `t`, `f` and `cache` are working tables too.
pub fn answer_job(
    kept_evictions: u32,
    s: &[u8],
    words: &mut [u64],
    t: &mut RegInfo,
    f: &mut Function,
    cache: &mut EmergencySpillSlotCache,
    free: &mut RegUnitSet,
    e: &mut Entries,
    w: &mut SparseMap,
    available: &mut RegUnitSet,
    sources: &mut RegUnitSet,
    edits: &mut Edits,
    slots: &mut Slots,
    d: &mut Diversions,
    marks: &mut States,
    c: &mut Carried,
) -> Whole
    ensures wholly { Wholly words.old (job_in (length words.old) kept_evictions s.now) result words.new }
    ensures anything { Anything t.new × Anything f.new × Anything cache.new × Anything free.new × Anything e.new × Anything w.new × Anything available.new × Anything sources.new × Anything edits.new × Anything slots.new × Anything d.new × Anything marks.new × Anything c.new }
{
    match job::read_opening(kept_evictions, s, t, f) {
        Number::Refused(k) => Whole::Refused(k, 0),
        Number::Is(count, at) => {
            slots::clear(cache);
            answer_patches(
                t, f, s, at, count, cache, free, e, w, available, sources, edits, slots, d, marks,
                c, words,
            )
        }
    }
}
