// `resolve` of a patch, built of entries or given as numbers (numbered.rt), under a grant of slots; a patch that is asked for and taken (asking.rt);
// and demand 3 of every list of such calls.
#![tactic(auto)]

mod asking;
mod numbered;

ghost use Rattle.std.specs.Prelude.{◌≡◌, ◌≤◌};
ghost use Rattle.entity.specs.Logic.{Anything};
ghost use Rattle.small_set.specs.Set.{set_of};
ghost use Rattle.function.specs.Known.{Checked};
ghost use Rattle.function.specs.Table.{function_of};
ghost use Rattle.entries.specs.Known.{EntriesOk, free_in};
ghost use Rattle.scratch.specs.Promises.{tables};
ghost use Rattle.parallel_moves.specs.Given.{own, GrantOk, CacheOk};
ghost use Rattle.parallel_moves.specs.Answers.{Resolves, ResolvesGranted};
ghost use Rattle.parallel_moves.specs.Steps.{Ran, CanHandOver, HandedOver};

pub use asking::{Asked, Preview, TakeAnswer, ask_granted, ask_patch_granted, take};
use carried::Carried;
use edit::Edits;
use entries::{Added, Entries};
use function::Function;
pub use numbered::{add_entries, add_entry, resolve_patch, resolve_patch_granted};
use reginfo::RegInfo;
use scratch::{Diversions, ScratchAllocator};
use slots::{EmergencySpillSlotCache, Slots};
use small_set::RegUnitSet;
use sparse::SparseMap;
use visits::States;

// The counter that slot numbers come from, and how far it may go. Given beside the cache, since formulas that share a frame have a cache each and one
// counter for all (02 l).
#[derive(Clone, Copy)]
pub struct Grant {
    pub made: u16,
    pub limit: u16,
}

// How many edits were handed out and the greatest position met, or 01's number.
#[derive(Drop)]
pub enum Resolved {
    Edits(usize, u16),
    Refused(u8),
}

// What a function alone is granted.
pub fn own_grant(f: &Function, cache: &EmergencySpillSlotCache) -> Grant
    requires { (function_of f.now).limit ≤ 2048 }
    ensures { result ≡ own f.now cache.now }
{
    Grant {
        made: slots::made(cache),
        limit: function::slot_limit(f) as u16,
    }
}

// The edits of a patch, whatever the limit on slots. The units that are available at first are the patch's free ones. Edits are found from the last to
// the first: rebuilds read no place, so they stand last, and their destinations are scratch for all before them; those without scratch are found first,
// as they give scratch to those with.
fn run(
    g: Grant,
    t: &RegInfo,
    f: &Function,
    cache: &EmergencySpillSlotCache,
    e: &Entries,
    w: &SparseMap,
    available: &mut RegUnitSet,
    sources: &mut RegUnitSet,
    edits: &mut Edits,
    slots: &mut Slots,
    d: &mut Diversions,
    marks: &mut States,
    c: &mut Carried,
) -> ScratchAllocator
    requires { Checked t.now f.now × EntriesOk t.now f.now e.now w.now × GrantOk f.now g cache.now }
    ensures ran { Ran t.now f.now cache.now e.now g.made available.old result (tables edits.new available.new slots.new) }
    ensures anything { Anything sources.new × Anything d.new × Anything marks.new × Anything c.new }
{
    edit::clear(edits);
    slots::begin(slots, cache);
    let k = ScratchAllocator::new(g.made);
    let direct = remats::remats(k, t, e, available, edits);
    let rematted = remats::remats_with_scratch(
        direct, t, f, cache, e, available, sources, edits, slots,
    );
    visiting::moves(
        rematted, t, f, cache, e, w, available, sources, edits, slots, d, marks, c,
    )
}

// Makes the set that of the patch's free units: where none is given, it is cleared. Only here, since a patch that is refused or has rebuilds alone
// does not read it.
fn settle(given: bool, available: &mut RegUnitSet)
    ensures { set_of available.new ≡ set_of (free_in given available.old) }
{
    if given {
        return;
    }
    small_set::clear(available);
}

// The same, with the free units of the set, if `given`; else with none, whatever the set holds.
fn run_given(
    g: Grant,
    given: bool,
    t: &RegInfo,
    f: &Function,
    cache: &EmergencySpillSlotCache,
    e: &Entries,
    w: &SparseMap,
    available: &mut RegUnitSet,
    sources: &mut RegUnitSet,
    edits: &mut Edits,
    slots: &mut Slots,
    d: &mut Diversions,
    marks: &mut States,
    c: &mut Carried,
) -> ScratchAllocator
    requires { Checked t.now f.now × EntriesOk t.now f.now e.now w.now × GrantOk f.now g cache.now }
    ensures ran { Ran t.now f.now cache.now e.now g.made (free_in given available.old) result (tables edits.new available.new slots.new) }
    ensures anything { Anything sources.new × Anything d.new × Anything marks.new × Anything c.new }
{
    settle(given, available);
    run(
        g, t, f, cache, e, w, available, sources, edits, slots, d, marks, c,
    )
}

// Resolves a patch under a grant, built of entries and with the set `available` as its free units: its edits go to the front of the lent list. On a
// refusal the list and the cache are left as they were. If `given` is false, no unit is free, whatever the
// set holds. What the other working tables hold does not matter.
pub fn resolve_granted(
    g: Grant,
    t: &RegInfo,
    f: &Function,
    e: &Entries,
    w: &SparseMap,
    cache: &mut EmergencySpillSlotCache,
    list: &mut [u64],
    given: bool,
    available: &mut RegUnitSet,
    sources: &mut RegUnitSet,
    edits: &mut Edits,
    slots: &mut Slots,
    d: &mut Diversions,
    marks: &mut States,
    c: &mut Carried,
) -> Resolved
    requires { Checked t.now f.now × EntriesOk t.now f.now e.now w.now × GrantOk f.now g cache.old }
    ensures resolves_granted { ResolvesGranted g t.now f.now (free_in given available.old) e.now result list.old list.new cache.old cache.new }
    ensures anything { Anything available.new × Anything sources.new × Anything edits.new × Anything slots.new × Anything d.new × Anything marks.new × Anything c.new }
{
    if let Added::Refused(n) = entries::refusal(t, f, e, w, available, given, list.len()) {
        return Resolved::Refused(n);
    }
    // Rebuilds without scratch need no register, no slot and no order: they go out at once. The stamp is raised all the same, since a patch is resolved
    // and what was asked for before it must not be taken (02 g).
    if remats::only_remats(e) {
        let n = remats::hand_out(t, e, list);
        slots::raise(cache, g.made);
        return Resolved::Edits(n, 0);
    }
    let k = run_given(
        g, given, t, f, cache, e, w, available, sources, edits, slots, d, marks, c,
    );
    hand_over(k, g.limit, cache, list, edits, slots)
}

// The same of a function alone.
pub fn resolve_available(
    t: &RegInfo,
    f: &Function,
    e: &Entries,
    w: &SparseMap,
    cache: &mut EmergencySpillSlotCache,
    list: &mut [u64],
    given: bool,
    available: &mut RegUnitSet,
    sources: &mut RegUnitSet,
    edits: &mut Edits,
    slots: &mut Slots,
    d: &mut Diversions,
    marks: &mut States,
    c: &mut Carried,
) -> Resolved
    requires { Checked t.now f.now × EntriesOk t.now f.now e.now w.now × CacheOk f.now cache.old }
    ensures resolves { Resolves t.now f.now (free_in given available.old) e.now result list.old list.new cache.old cache.new }
    ensures anything { Anything available.new × Anything sources.new × Anything edits.new × Anything slots.new × Anything d.new × Anything marks.new × Anything c.new }
{
    let g = own_grant(f, cache);
    resolve_granted(
        g, t, f, e, w, cache, list, given, available, sources, edits, slots, d, marks, c,
    )
}

// The same with the free units in a set of their own, which is only read. What the working tables hold does not matter.
pub fn resolve(
    t: &RegInfo,
    f: &Function,
    e: &Entries,
    w: &SparseMap,
    free: &RegUnitSet,
    cache: &mut EmergencySpillSlotCache,
    list: &mut [u64],
    available: &mut RegUnitSet,
    sources: &mut RegUnitSet,
    edits: &mut Edits,
    slots: &mut Slots,
    d: &mut Diversions,
    marks: &mut States,
    c: &mut Carried,
) -> Resolved
    requires { Checked t.now f.now × EntriesOk t.now f.now e.now w.now × CacheOk f.now cache.old }
    ensures resolves { Resolves t.now f.now free.now e.now result list.old list.new cache.old cache.new }
    ensures anything { Anything available.new × Anything sources.new × Anything edits.new × Anything slots.new × Anything d.new × Anything marks.new × Anything c.new }
{
    small_set::copy_from(available, free);
    resolve_available(
        t, f, e, w, cache, list, true, available, sources, edits, slots, d, marks, c,
    )
}

// 17 where more slots were made than may be; else the edits go out and the cache becomes what the patch left. One test at the end is enough: a slot is
// made only where its stack is empty, so more than the limit were made exactly where one was needed with that many made already, and until then the run
// is the same (`by-limit` of `rules`). No step before can fail, and nothing of the caller's is written before this, so a refusal leaves list and cache.
fn hand_over(
    k: ScratchAllocator,
    limit: u16,
    cache: &mut EmergencySpillSlotCache,
    list: &mut [u64],
    edits: &Edits,
    slots: &Slots,
) -> Resolved
    requires { CanHandOver limit cache.old list.old k edits.now slots.now }
    ensures { HandedOver limit cache.old list.old k edits.now slots.now result list.new cache.new }
{
    let made = k.made();
    if limit < made {
        return Resolved::Refused(17);
    }
    let n = edit::hand_out(edits, list);
    slots::commit(slots, cache, made);
    Resolved::Edits(n, slots::met(slots))
}
