// 02 g: a patch asked for, whose answer may be taken later.
ghost use Rattle.std.specs.Prelude.{◌≡◌};
ghost use Rattle.entity.specs.Logic.{Anything};
ghost use Rattle.function.specs.Known.{Checked};
ghost use Rattle.entries.specs.Known.{EntriesOk, free_in};
ghost use Rattle.slots.specs.Stacks.{stamp_of};
ghost use Rattle.parallel_moves.specs.Given.{GrantOk};
ghost use Rattle.parallel_moves.specs.Answers.{CanTake, AsksGranted, AsksPatchGranted, Takes};
ghost use Rattle.parallel_moves.specs.Steps.{CanHandOver, Shown};

use crate::numbered::add_entries;
use crate::{Grant, run_given};
use carried::Carried;
use edit::Edits;
use entries::{Added, Entries};
use function::Function;
use reginfo::RegInfo;
use scratch::{Diversions, ScratchAllocator};
use slots::{EmergencySpillSlotCache, Slots};
use small_set::RegUnitSet;
use sparse::SparseMap;
use visits::States;

// What a take needs beside the table of slots that the asking left: the slots made then, the greatest position met, and the cache's stamp at
// the asking. The table alone is not enough: it says what changes in the cache's stacks, and so means something only of the cache that was asked.
#[derive(Clone, Copy)]
pub struct Preview {
    pub made: u16,
    pub position: u16,
    pub stamp: u64,
}

// How many edits were handed out and what to take, or 01's number.
#[derive(Drop)]
pub enum Asked {
    Ready(usize, Preview),
    Refused(u8),
}

// Whether an answer was taken, or 20.
#[derive(Drop)]
pub enum TakeAnswer {
    Yes,
    Refused(u8),
}

// Asks for a patch under a grant, built of entries and with the set `available` as its free units: its edits go to the front of the lent list,
// and the table of slots keeps what a take makes of the cache, which is only read. The run is that of `resolve_granted`: a patch never writes the cache
// before it is committed, so asking is resolving without the commit.
pub fn ask_granted(
    g: Grant,
    t: &RegInfo,
    f: &Function,
    e: &Entries,
    w: &SparseMap,
    cache: &EmergencySpillSlotCache,
    list: &mut [u64],
    given: bool,
    available: &mut RegUnitSet,
    sources: &mut RegUnitSet,
    edits: &mut Edits,
    slots: &mut Slots,
    d: &mut Diversions,
    marks: &mut States,
    c: &mut Carried,
) -> Asked
    requires { Checked t.now f.now × EntriesOk t.now f.now e.now w.now × GrantOk f.now g cache.now }
    ensures asks_granted { AsksGranted g t.now f.now (free_in given available.old) e.now result list.old list.new cache.now slots.new }
    ensures anything { Anything available.new × Anything sources.new × Anything edits.new × Anything d.new × Anything marks.new × Anything c.new }
{
    if let Added::Refused(n) = entries::refusal(t, f, e, w, available, given, list.len()) {
        return Asked::Refused(n);
    }
    // Nothing changes in the stacks, and the table must say so to a take.
    if remats::only_remats(e) {
        slots::begin(slots, cache);
        let n = remats::hand_out(t, e, list);
        let stamp = slots::stamp(cache);
        return Asked::Ready(
            n,
            Preview {
                made: g.made,
                position: 0,
                stamp,
            },
        );
    }
    let k = run_given(
        g, given, t, f, cache, e, w, available, sources, edits, slots, d, marks, c,
    );
    show(k, g.limit, cache, list, edits, slots)
}

// 17 where more slots were made than may be; else the edits go out, and nothing is committed.
fn show(
    k: ScratchAllocator,
    limit: u16,
    cache: &EmergencySpillSlotCache,
    list: &mut [u64],
    edits: &Edits,
    slots: &Slots,
) -> Asked
    requires { CanHandOver limit cache.now list.old k edits.now slots.now }
    ensures { Shown limit cache.now list.old k edits.now slots.now result list.new }
{
    let count = k.made();
    if limit < count {
        return Asked::Refused(17);
    }
    let length = edit::hand_out(edits, list);
    let position = slots::met(slots);
    let stamp = slots::stamp(cache);
    Asked::Ready(
        length,
        Preview {
            made: count,
            position,
            stamp,
        },
    )
}

// Takes what was asked for: the cache becomes what resolving would have made it. First 20, where the cache's stamp is not that of the asking.
// Asked is that the table of slots is as the asking left it and the cache as its last call. Every patch that is settled raises the stamp, also one that
// leaves the stacks alone: so the same stamp means the same cache, and the commit makes of it what resolving here and now would.
pub fn take(a: Preview, slots: &Slots, cache: &mut EmergencySpillSlotCache) -> TakeAnswer
    requires { a.stamp ≡ stamp_of cache.old → CanTake slots.now cache.old }
    ensures { Takes a slots.now cache.old result cache.new }
{
    if slots::stamp(cache) != a.stamp {
        return TakeAnswer::Refused(20);
    }
    slots::commit(slots, cache, a.made);
    TakeAnswer::Yes
}

// Asks under a grant for a patch given as numbers, as `resolve_patch_granted` has it.
pub fn ask_patch_granted(
    g: Grant,
    t: &RegInfo,
    f: &Function,
    numbers: &[u32],
    cache: &EmergencySpillSlotCache,
    list: &mut [u64],
    given: bool,
    e: &mut Entries,
    w: &mut SparseMap,
    available: &mut RegUnitSet,
    sources: &mut RegUnitSet,
    edits: &mut Edits,
    slots: &mut Slots,
    d: &mut Diversions,
    marks: &mut States,
    c: &mut Carried,
) -> Asked
    requires { Checked t.now f.now × GrantOk f.now g cache.now }
    ensures asks_patch_granted { AsksPatchGranted g t.now f.now (free_in given available.old) numbers.now result list.old list.new cache.now slots.new }
    ensures anything { Anything e.new × Anything w.new × Anything available.new × Anything sources.new × Anything edits.new × Anything d.new × Anything marks.new × Anything c.new }
{
    entries::new_parallel_move(e, w);
    if let Added::Refused(n) = add_entries(t, f, e, w, numbers) {
        return Asked::Refused(n);
    }
    ask_granted(
        g, t, f, e, w, cache, list, given, available, sources, edits, slots, d, marks, c,
    )
}
