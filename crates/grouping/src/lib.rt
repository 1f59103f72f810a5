// A patch resolved group by group (02 k), on a copy of the cache and into a list of its own, so that a group that is out of slots leaves the caller's
// list and cache as they were.
#![tactic(auto)]

ghost use Rattle.std.specs.Prelude.{◌≡◌, false, ℕ, ◌<◌, ◌≤◌, eqb, length, get_or};
ghost use Rattle.entity.specs.Logic.{Anything};
ghost use Rattle.reginfo.specs.Table.{reg_info_of};
ghost use Rattle.function.specs.Known.{Checked};
ghost use Rattle.small_set.specs.Set.{set_of};
ghost use Rattle.entries.specs.Answers.{added_of};
ghost use Rattle.entries.specs.Known.{free_in};
ghost use Rattle.slots.specs.Stacks.{cache_of, CacheFits};
ghost use Rattle.parallel_moves.specs.Given.{with_made, GrantOk, CacheOk};
ghost use Rattle.groups.specs.Given.{KnownEntries};
ghost use Rattle.groups.specs.Linked.{GroupAt};
ghost use Rattle.groups.specs.Free.{CommonAs, FreeAs};
ghost use Rattle.grouping.specs.Copied.{StackCopied, StacksCopied, Written};
ghost use Rattle.grouping.specs.Answers.{TestedAs, Laid, PartAdded, rest, PartGives, Passed, PartsGive, HandedOver, GroupsGranted, Groups};

use carried::Carried;
use edit::Edits;
use entries::{Added, Entries};
use function::Function;
use groups::{Labels, Owners};
use parallel_moves::{Grant, Resolved};
use reginfo::RegInfo;
use scratch::Diversions;
use slots::{EmergencySpillSlotCache, Slots};
use small_set::RegUnitSet;
use sparse::SparseMap;
use visits::States;

// A stack of the cache as another has it.
fn copy_stack(from: &EmergencySpillSlotCache, to: &mut EmergencySpillSlotCache, z: usize)
    requires { CacheFits from.now × (z < 32) }
    ensures { StackCopied from.now to.old to.new z }
{
    let depth = usize::from(from[z]);
    for i in 0..depth {
        to[64 + z * 2048 + i] = from[64 + z * 2048 + i];
    }
    to[z] = depth as u16;
}

// All of them. Neither the slots made nor the stamp is copied: in a frame the counter is the frame's, and a call by groups is one patch, whatever the
// groups raise the copy's stamp to.
fn copy_stacks(from: &EmergencySpillSlotCache, to: &mut EmergencySpillSlotCache)
    requires { CacheFits from.now }
    ensures { StacksCopied from.now to.old to.new }
{
    for z in 0..32 {
        copy_stack(from, to, z);
    }
}

// What is tested of the whole patch before any group runs: its entries, then 13, 14 and 16. So the patch gets the number that it would get whole, and
// the bound is that of all its entries.
fn whole_refusal(
    t: &RegInfo,
    f: &Function,
    numbers: &[u32],
    free: &RegUnitSet,
    given: bool,
    room: usize,
    e: &mut Entries,
    w: &mut SparseMap,
) -> Added
    requires { Checked t.now f.now × (given ≡ false → (u : ℕ) → set_of free.now u ≡ false) }
    ensures { TestedAs t.now f.now free.now numbers.now room (added_of result) × Anything e.new × Anything w.new }
{
    entries::new_parallel_move(e, w);
    if let Added::Refused(n) = parallel_moves::add_entries(t, f, e, w, numbers) {
        return Added::Refused(n);
    }
    entries::refusal(t, f, e, w, free, given, room)
}

// Which entries belong together, and which units are free for all groups.
fn lay(
    t: &RegInfo,
    numbers: &[u32],
    free: &RegUnitSet,
    owners: &mut Owners,
    labels: &mut Labels,
    next: &mut Labels,
    common: &mut RegUnitSet,
)
    requires { KnownEntries (reg_info_of t.now) numbers.now }
    ensures { Laid t.now numbers.now free.now labels.new next.new common.new × Anything owners.new }
{
    groups::label(t, numbers, owners, labels);
    groups::link(labels, numbers.len() / 4, next);
    groups::common_free(t, numbers, free, common);
}

// A patch of the entries of the group whose first is `first`, or the number by which one is refused: none is, once the whole patch has passed (`OnlySlots`
// of group_rules).
fn add_part(
    t: &RegInfo,
    f: &Function,
    numbers: &[u32],
    next: &Labels,
    first: usize,
    e: &mut Entries,
    w: &mut SparseMap,
) -> Added
    requires { Checked t.now f.now × KnownEntries (reg_info_of t.now) numbers.now × GroupAt (reg_info_of t.now) numbers.now next.now first }
    ensures { PartAdded t.now f.now numbers.now first e.new w.new (added_of result) }
{
    entries::new_parallel_move(e, w);
    let mut k = first;
    // Kept a `while`: each entry of a group names the next, and nothing is counted.
    while k < 128 {
        if let Added::Refused(n) = parallel_moves::add_entry(t, f, e, w, numbers, k * 4) {
            return Added::Refused(n);
        }
        k = usize::from(next[k]);
    }
    Added::Yes
}

// The free units of the group whose first entry is `first`, where any is given; else the set is left as it is.
fn part_given(
    given: bool,
    t: &RegInfo,
    numbers: &[u32],
    free: &RegUnitSet,
    common: &RegUnitSet,
    next: &Labels,
    first: usize,
    available: &mut RegUnitSet,
)
    requires { KnownEntries (reg_info_of t.now) numbers.now × CommonAs (reg_info_of t.now) numbers.now free.now common.now × GroupAt (reg_info_of t.now) numbers.now next.now first × (given ≡ false → (u : ℕ) → set_of free.now u ≡ false) }
    ensures { FreeAs (reg_info_of t.now) numbers.now free.now first (free_in given available.new) }
{
    if !given {
        return;
    }
    groups::part_free(t, numbers, free, common, next, first, available);
}

// "each is resolved as a patch of its entries alone": the group whose first entry is `first`, on the working cache. Its edits go to the front of the
// list.
fn resolve_part(
    limit: u16,
    t: &RegInfo,
    f: &Function,
    numbers: &[u32],
    given: bool,
    free: &RegUnitSet,
    common: &RegUnitSet,
    next: &Labels,
    first: usize,
    work: &mut EmergencySpillSlotCache,
    list: &mut [u64],
    e: &mut Entries,
    w: &mut SparseMap,
    available: &mut RegUnitSet,
    sources: &mut RegUnitSet,
    edits: &mut Edits,
    slots: &mut Slots,
    d: &mut Diversions,
    marks: &mut States,
    c: &mut Carried,
) -> Resolved
    requires { Checked t.now f.now × KnownEntries (reg_info_of t.now) numbers.now × GroupAt (reg_info_of t.now) numbers.now next.now first × CommonAs (reg_info_of t.now) numbers.now free.now common.now × (given ≡ false → (u : ℕ) → set_of free.now u ≡ false) × GrantOk f.now (rest limit work.old) work.old }
    ensures part_gives { PartGives limit t.now f.now free.now numbers.now first result list.old list.new work.old work.new }
    ensures anything { Anything e.new × Anything w.new × Anything available.new × Anything sources.new × Anything edits.new × Anything slots.new × Anything d.new × Anything marks.new × Anything c.new }
{
    if let Added::Refused(n) = add_part(t, f, numbers, next, first, e, w) {
        return Resolved::Refused(n);
    }
    part_given(given, t, numbers, free, common, next, first, available);
    let g = Grant {
        made: slots::made(work),
        limit: limit,
    };
    parallel_moves::resolve_granted(
        g, t, f, e, w, work, list, given, available, sources, edits, slots, d, marks, c,
    )
}

// Whether an entry is the first of its group.
fn is_first(labels: &Labels, i: usize) -> bool
    requires { i < 128 }
    ensures { result ≡ eqb (get_or labels.now i 0) i }
{
    usize::from(labels[i]) == i
}

// "Groups go in the order of their first entry"; "a 17 in one refuses them all": then neither the working cache nor `joined` matters.
fn resolve_parts(
    limit: u16,
    t: &RegInfo,
    f: &Function,
    numbers: &[u32],
    given: bool,
    free: &RegUnitSet,
    common: &RegUnitSet,
    labels: &Labels,
    next: &Labels,
    work: &mut EmergencySpillSlotCache,
    joined: &mut [u64],
    e: &mut Entries,
    w: &mut SparseMap,
    available: &mut RegUnitSet,
    sources: &mut RegUnitSet,
    edits: &mut Edits,
    slots: &mut Slots,
    d: &mut Diversions,
    marks: &mut States,
    c: &mut Carried,
) -> Resolved
    requires { Checked t.now f.now × KnownEntries (reg_info_of t.now) numbers.now × Laid t.now numbers.now free.now labels.now next.now common.now × (given ≡ false → (u : ℕ) → set_of free.now u ≡ false) × GrantOk f.now (rest limit work.old) work.old × Passed limit t.now f.now free.now numbers.now × (length joined.old ≡ 1024) }
    ensures parts_give { PartsGive limit t.now f.now free.now numbers.now result joined.new work.old work.new }
    ensures anything { Anything e.new × Anything w.new × Anything available.new × Anything sources.new × Anything edits.new × Anything slots.new × Anything d.new × Anything marks.new × Anything c.new }
{
    let n = numbers.len() / 4;
    let mut count: usize = 0;
    let mut met: u16 = 0;
    for i in 0..n {
        if !is_first(labels, i) {
            continue;
        }
        match resolve_part(
            limit,
            t,
            f,
            numbers,
            given,
            free,
            common,
            next,
            i,
            work,
            &mut joined[count..],
            e,
            w,
            available,
            sources,
            edits,
            slots,
            d,
            marks,
            c,
        ) {
            Resolved::Refused(k) => return Resolved::Refused(k),
            Resolved::Edits(m, p) => {
                count += m;
                met = met.max(p);
            }
        }
    }
    Resolved::Edits(count, met)
}

// The working cache of a call: the cache's stacks, and so many slots made.
fn begin(made: u16, cache: &EmergencySpillSlotCache, work: &mut EmergencySpillSlotCache)
    requires { CacheFits cache.now }
    ensures { (cache_of work.new ≡ with_made made (cache_of cache.now)) × CacheFits work.new }
{
    copy_stacks(cache, work);
    slots::raise(work, made);
}

// The first n words go to the front of the list.
fn write(words: &[u64], n: usize, list: &mut [u64])
    requires { (n ≤ length words.now) × (n ≤ length list.old) }
    ensures { Written words.now n list.old list.new }
{
    for i in 0..n {
        list[i] = words[i];
    }
}

// "The groups' edits are joined in that order": the words go out, and the cache becomes what the groups left. Its stamp is its own, raised by one: a
// call by groups is one patch, with no group too.
fn hand_over(
    joined: &[u64],
    n: usize,
    work: &EmergencySpillSlotCache,
    list: &mut [u64],
    cache: &mut EmergencySpillSlotCache,
)
    requires { (n ≤ length joined.now) × (n ≤ length list.old) × CacheFits work.now }
    ensures { HandedOver joined.now n work.now list.old cache.old list.new cache.new }
{
    write(joined, n, list);
    copy_stacks(work, cache);
    slots::raise(cache, slots::made(work));
}

// Resolves by groups, under a grant, a patch whose free units are the set `free` and whose entries are given as numbers. On a refusal the list and the
// cache are left as they were. If `given` is false, no unit is free. What the working tables hold does not matter.
pub fn resolve_groups_granted(
    g: Grant,
    t: &RegInfo,
    f: &Function,
    numbers: &[u32],
    cache: &mut EmergencySpillSlotCache,
    list: &mut [u64],
    given: bool,
    free: &RegUnitSet,
    e: &mut Entries,
    w: &mut SparseMap,
    available: &mut RegUnitSet,
    sources: &mut RegUnitSet,
    edits: &mut Edits,
    slots: &mut Slots,
    d: &mut Diversions,
    marks: &mut States,
    c: &mut Carried,
    owners: &mut Owners,
    labels: &mut Labels,
    next: &mut Labels,
    common: &mut RegUnitSet,
    work: &mut EmergencySpillSlotCache,
    joined: &mut [u64; 1024],
) -> Resolved
    requires { Checked t.now f.now × GrantOk f.now g cache.old × (given ≡ false → (u : ℕ) → set_of free.now u ≡ false) }
    ensures groups_granted { GroupsGranted g t.now f.now free.now numbers.now result list.old list.new cache.old cache.new }
    ensures anything { Anything e.new × Anything w.new × Anything available.new × Anything sources.new × Anything edits.new × Anything slots.new × Anything d.new × Anything marks.new × Anything c.new }
    ensures anything_2 { Anything owners.new × Anything labels.new × Anything next.new × Anything common.new × Anything work.new × Anything joined.new }
{
    if let Added::Refused(n) = whole_refusal(t, f, numbers, free, given, list.len(), e, w) {
        return Resolved::Refused(n);
    }
    lay(t, numbers, free, owners, labels, next, common);
    begin(g.made, cache, work);
    match resolve_parts(
        g.limit, t, f, numbers, given, free, common, labels, next, work, joined, e, w, available,
        sources, edits, slots, d, marks, c,
    ) {
        Resolved::Refused(k) => Resolved::Refused(k),
        Resolved::Edits(n, met) => {
            hand_over(joined, n, work, list, cache);
            Resolved::Edits(n, met)
        }
    }
}

// The same of a function alone.
pub fn resolve_groups(
    t: &RegInfo,
    f: &Function,
    numbers: &[u32],
    cache: &mut EmergencySpillSlotCache,
    list: &mut [u64],
    given: bool,
    free: &RegUnitSet,
    e: &mut Entries,
    w: &mut SparseMap,
    available: &mut RegUnitSet,
    sources: &mut RegUnitSet,
    edits: &mut Edits,
    slots: &mut Slots,
    d: &mut Diversions,
    marks: &mut States,
    c: &mut Carried,
    owners: &mut Owners,
    labels: &mut Labels,
    next: &mut Labels,
    common: &mut RegUnitSet,
    work: &mut EmergencySpillSlotCache,
    joined: &mut [u64; 1024],
) -> Resolved
    requires { Checked t.now f.now × CacheOk f.now cache.old × (given ≡ false → (u : ℕ) → set_of free.now u ≡ false) }
    ensures groups { Groups t.now f.now free.now numbers.now result list.old list.new cache.old cache.new }
    ensures anything { Anything e.new × Anything w.new × Anything available.new × Anything sources.new × Anything edits.new × Anything slots.new × Anything d.new × Anything marks.new × Anything c.new }
    ensures anything_2 { Anything owners.new × Anything labels.new × Anything next.new × Anything common.new × Anything work.new × Anything joined.new }
{
    let g = parallel_moves::own_grant(f, cache);
    resolve_groups_granted(
        g, t, f, numbers, cache, list, given, free, e, w, available, sources, edits, slots, d,
        marks, c, owners, labels, next, common, work, joined,
    )
}
