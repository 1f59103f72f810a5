// A whole job by groups (02 k): each of its patches is read, resolved by its groups and put into lent words. What the working tables held does not
// matter.
#![tactic(auto)]

ghost use Rattle.std.specs.Prelude.{◌≡◌, List, ℕ, ◌*◌, ◌≤◌, length, drop, take};
ghost use Rattle.entity.specs.Logic.{has, Anything};
ghost use Rattle.reginfo.specs.Table.{reg_info_of};
ghost use Rattle.function.specs.Known.{Checked};
ghost use Rattle.function.specs.Table.{function_of};
ghost use Rattle.small_set.specs.Set.{set_of};
ghost use Rattle.rules.specs.Patch.{Patch};
ghost use Rattle.slots.specs.Stacks.{cache_of};
ghost use Rattle.number.specs.Read.{got};
ghost use Rattle.parallel_moves.specs.Given.{Numbered, CacheOk};
ghost use Rattle.group_rules.specs.Groups.{resolve_by_groups};
ghost use Rattle.job_patch.specs.Patches.{patch};
ghost use Rattle.job.specs.Steps.{CallAt, StepAt};
ghost use Rattle.answer.specs.Room.{patches_in};
ghost use Rattle.answer.specs.Whole.{Next as NextAs, Wholly};
ghost use Rattle.answer_groups.specs.Job.{job_by_groups_in};

use answer::{Onward, Whole};
use carried::Carried;
use edit::Edits;
use entries::Entries;
use function::Function;
use groups::{Labels, Owners};
use job::Step;
use number::Number;
use parallel_moves::Resolved;
use patch_numbers::Numbers;
use reading::Next;
use reginfo::RegInfo;
use scratch::Diversions;
use slots::{EmergencySpillSlotCache, Slots};
use small_set::RegUnitSet;
use sparse::SparseMap;
use visits::States;

// Resolves by groups the patch whose free units are the set `free` and whose n entries' numbers stand at the front of the table; the next patch
// stands at `after`.
fn resolve_kept(
    t: &RegInfo,
    f: &Function,
    free: &RegUnitSet,
    numbers: &[u32],
    n: u32,
    after: usize,
    cache: &mut EmergencySpillSlotCache,
    list: &mut [u64],
    e: &mut Entries,
    w: &mut SparseMap,
    available: &mut RegUnitSet,
    sources: &mut RegUnitSet,
    edits: &mut Edits,
    slots: &mut Slots,
    d: &mut Diversions,
    marks: &mut States,
    c: &mut Carried,
    owners: &mut Owners,
    labels: &mut Labels,
    next: &mut Labels,
    common: &mut RegUnitSet,
    work: &mut EmergencySpillSlotCache,
    joined: &mut [u64; 1024],
) -> Step
    requires { Checked t.now f.now × CacheOk f.now cache.old × (n ≤ 128) × (n * 4 ≤ length numbers.now) }
    ensures call_at { (p : Patch) → Numbered free.now (take (n * 4) numbers.now) p → CallAt f.now (resolve_by_groups (reg_info_of t.now) (function_of f.now) p (length list.old) (cache_of cache.old)) after result list.old list.new cache.old cache.new }
    ensures anything { Anything e.new × Anything w.new × Anything available.new × Anything sources.new × Anything edits.new × Anything slots.new × Anything d.new × Anything marks.new × Anything c.new }
    ensures anything_2 { Anything owners.new × Anything labels.new × Anything next.new × Anything common.new × Anything work.new × Anything joined.new }
{
    let m = n as usize * 4;
    match grouping::resolve_groups(
        t,
        f,
        &numbers[..m],
        cache,
        list,
        true,
        free,
        e,
        w,
        available,
        sources,
        edits,
        slots,
        d,
        marks,
        c,
        owners,
        labels,
        next,
        common,
        work,
        joined,
    ) {
        Resolved::Refused(k) => Step::Refused(k),
        Resolved::Edits(count, met) => Step::Edits(count, met, after),
    }
}

// The patch at an offset, which was read with these free units; the next one stands at `after`. Its entries are read once more, as numbers: the first
// reading tests them and finds their refusals in their order, but keeps what became of them, and groups are made of what was given.
fn resolve_read(
    t: &RegInfo,
    f: &Function,
    s: &[u8],
    at: usize,
    free: &RegUnitSet,
    after: usize,
    cache: &mut EmergencySpillSlotCache,
    list: &mut [u64],
    e: &mut Entries,
    w: &mut SparseMap,
    available: &mut RegUnitSet,
    sources: &mut RegUnitSet,
    edits: &mut Edits,
    slots: &mut Slots,
    d: &mut Diversions,
    marks: &mut States,
    c: &mut Carried,
    owners: &mut Owners,
    labels: &mut Labels,
    next: &mut Labels,
    common: &mut RegUnitSet,
    work: &mut EmergencySpillSlotCache,
    joined: &mut [u64; 1024],
    numbers: &mut Numbers,
) -> Step
    requires { Checked t.now f.now × CacheOk f.now cache.old }
    ensures call_at { (p : Patch) (rest : List ℕ) → patch (reg_info_of t.now) (function_of f.now) (drop at s.now) ≡ got p rest → ((u : ℕ) → has u p.free ≡ set_of free.now u) → CallAt f.now (resolve_by_groups (reg_info_of t.now) (function_of f.now) p (length list.old) (cache_of cache.old)) after result list.old list.new cache.old cache.new }
    ensures anything { Anything e.new × Anything w.new × Anything available.new × Anything sources.new × Anything edits.new × Anything slots.new × Anything d.new × Anything marks.new × Anything c.new }
    ensures anything_2 { Anything owners.new × Anything labels.new × Anything next.new × Anything common.new × Anything work.new × Anything joined.new × Anything numbers.new }
{
    match patch_numbers::read_numbers(s, at, numbers) {
        Number::Refused(k) => Step::Refused(k),
        Number::Is(n, _) => {
            resolve_kept(
                t, f, free, numbers, n, after, cache, list, e, w, available, sources, edits, slots,
                d, marks, c, owners, labels, next, common, work, joined,
            )
        }
    }
}

// The patch at an offset: read, and resolved by groups.
fn answer_patch(
    t: &RegInfo,
    f: &Function,
    s: &[u8],
    at: usize,
    cache: &mut EmergencySpillSlotCache,
    list: &mut [u64],
    free: &mut RegUnitSet,
    e: &mut Entries,
    w: &mut SparseMap,
    available: &mut RegUnitSet,
    sources: &mut RegUnitSet,
    edits: &mut Edits,
    slots: &mut Slots,
    d: &mut Diversions,
    marks: &mut States,
    c: &mut Carried,
    owners: &mut Owners,
    labels: &mut Labels,
    next: &mut Labels,
    common: &mut RegUnitSet,
    work: &mut EmergencySpillSlotCache,
    joined: &mut [u64; 1024],
    numbers: &mut Numbers,
) -> Step
    requires { Checked t.now f.now × CacheOk f.now cache.old }
    ensures step_at { StepAt resolve_by_groups t.now f.now s.now (patch (reg_info_of t.now) (function_of f.now) (drop at s.now)) result list.old list.new cache.old cache.new }
    ensures anything { Anything free.new × Anything e.new × Anything w.new × Anything available.new × Anything sources.new × Anything edits.new × Anything slots.new × Anything d.new × Anything marks.new × Anything c.new }
    ensures anything_2 { Anything owners.new × Anything labels.new × Anything next.new × Anything common.new × Anything work.new × Anything joined.new × Anything numbers.new }
{
    match job_patch::read_patch(t, f, s, at, free, e, w) {
        Next::Refused(k) => Step::Refused(k),
        Next::At(after) => resolve_read(
            t, f, s, at, free, after, cache, list, e, w, available, sources, edits, slots, d,
            marks, c, owners, labels, next, common, work, joined, numbers,
        ),
    }
}

// The patch at an offset, its words: those of its edits behind its head. The list lent to its call is what is left there.
fn answer_next(
    t: &RegInfo,
    f: &Function,
    s: &[u8],
    at: usize,
    cache: &mut EmergencySpillSlotCache,
    free: &mut RegUnitSet,
    e: &mut Entries,
    w: &mut SparseMap,
    available: &mut RegUnitSet,
    sources: &mut RegUnitSet,
    edits: &mut Edits,
    slots: &mut Slots,
    d: &mut Diversions,
    marks: &mut States,
    c: &mut Carried,
    owners: &mut Owners,
    labels: &mut Labels,
    next: &mut Labels,
    common: &mut RegUnitSet,
    work: &mut EmergencySpillSlotCache,
    joined: &mut [u64; 1024],
    numbers: &mut Numbers,
    words: &mut [u64],
    n: usize,
) -> Onward
    requires { Checked t.now f.now × CacheOk f.now cache.old × (n ≤ length words.old) }
    ensures next_as { NextAs resolve_by_groups t.now f.now s.now at cache.old cache.new words.old words.new n result }
    ensures anything { Anything free.new × Anything e.new × Anything w.new × Anything available.new × Anything sources.new × Anything edits.new × Anything slots.new × Anything d.new × Anything marks.new × Anything c.new }
    ensures anything_2 { Anything owners.new × Anything labels.new × Anything next.new × Anything common.new × Anything work.new × Anything joined.new × Anything numbers.new }
{
    let from = answer::behind(n, words.len());
    match answer_patch(
        t,
        f,
        s,
        at,
        cache,
        &mut words[from..],
        free,
        e,
        w,
        available,
        sources,
        edits,
        slots,
        d,
        marks,
        c,
        owners,
        labels,
        next,
        common,
        work,
        joined,
        numbers,
    ) {
        Step::Refused(k) => Onward::Refused(k),
        Step::Edits(count, met, after) => {
            if from == n {
                return Onward::Refused(16);
            }
            words[n] = answer::head(count, usize::from(slots::made(cache)), usize::from(met));
            Onward::At(after, from + count)
        }
    }
}

// The patches of a job, from an offset on.
fn answer_patches(
    t: &RegInfo,
    f: &Function,
    s: &[u8],
    from: usize,
    count: u32,
    cache: &mut EmergencySpillSlotCache,
    free: &mut RegUnitSet,
    e: &mut Entries,
    w: &mut SparseMap,
    available: &mut RegUnitSet,
    sources: &mut RegUnitSet,
    edits: &mut Edits,
    slots: &mut Slots,
    d: &mut Diversions,
    marks: &mut States,
    c: &mut Carried,
    owners: &mut Owners,
    labels: &mut Labels,
    next: &mut Labels,
    common: &mut RegUnitSet,
    work: &mut EmergencySpillSlotCache,
    joined: &mut [u64; 1024],
    numbers: &mut Numbers,
    words: &mut [u64],
) -> Whole
    requires { Checked t.now f.now × CacheOk f.now cache.old }
    ensures wholly { Wholly words.old (patches_in resolve_by_groups (reg_info_of t.now) (function_of f.now) count (cache_of cache.old) (length words.old) (drop from s.now)) result words.new }
    ensures anything { Anything cache.new × Anything free.new × Anything e.new × Anything w.new × Anything available.new × Anything sources.new × Anything edits.new × Anything slots.new × Anything d.new × Anything marks.new × Anything c.new }
    ensures anything_2 { Anything owners.new × Anything labels.new × Anything next.new × Anything common.new × Anything work.new × Anything joined.new × Anything numbers.new }
{
    let mut at = from;
    let mut n = 0;
    for _done in 0..count {
        match answer_next(
            t, f, s, at, cache, free, e, w, available, sources, edits, slots, d, marks, c, owners,
            labels, next, common, work, joined, numbers, words, n,
        ) {
            Onward::Refused(k) => {
                return Whole::Refused(k, n);
            }
            Onward::At(after, m) => {
                at = after;
                n = m;
            }
        }
    }
    if at < s.len() {
        return Whole::Refused(8, n);
    }
    Whole::Answered(n)
}

// A whole job of a function with so many kept evictions, as `answer::answer_job`, each patch by groups. `t`, `f` and `cache` are working tables too.
pub fn answer_job(
    kept_evictions: u32,
    s: &[u8],
    words: &mut [u64],
    t: &mut RegInfo,
    f: &mut Function,
    cache: &mut EmergencySpillSlotCache,
    free: &mut RegUnitSet,
    e: &mut Entries,
    w: &mut SparseMap,
    available: &mut RegUnitSet,
    sources: &mut RegUnitSet,
    edits: &mut Edits,
    slots: &mut Slots,
    d: &mut Diversions,
    marks: &mut States,
    c: &mut Carried,
    owners: &mut Owners,
    labels: &mut Labels,
    next: &mut Labels,
    common: &mut RegUnitSet,
    work: &mut EmergencySpillSlotCache,
    joined: &mut [u64; 1024],
    numbers: &mut Numbers,
) -> Whole
    ensures wholly { Wholly words.old (job_by_groups_in (length words.old) kept_evictions s.now) result words.new }
    ensures anything { Anything t.new × Anything f.new × Anything cache.new × Anything free.new × Anything e.new × Anything w.new × Anything available.new × Anything sources.new × Anything edits.new × Anything slots.new × Anything d.new × Anything marks.new × Anything c.new }
    ensures anything_2 { Anything owners.new × Anything labels.new × Anything next.new × Anything common.new × Anything work.new × Anything joined.new × Anything numbers.new }
{
    match job::read_opening(kept_evictions, s, t, f) {
        Number::Refused(k) => Whole::Refused(k, 0),
        Number::Is(count, at) => {
            slots::clear(cache);
            answer_patches(
                t, f, s, at, count, cache, free, e, w, available, sources, edits, slots, d, marks,
                c, owners, labels, next, common, work, joined, numbers, words,
            )
        }
    }
}
