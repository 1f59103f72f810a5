// 01, Ordering: the rebuilds of a patch, those without scratch and those with.
#![tactic(auto)]

ghost use Rattle.std.specs.Prelude.{◌≡◌, true, false, [], ◌∷◌, ◌++◌, map, ◌+◌, ◌*◌, ◌<◌, ◌≤◌, length, get_or, drop};
ghost use Rattle.entity.specs.Place.{place_at};
ghost use Rattle.function.specs.Function.{remat_cost, remat_class, can_rematerialize};
ghost use Rattle.function.specs.Table.{function_of};
ghost use Rattle.function.specs.Known.{KnownValue, Checked};
ghost use Rattle.rules.specs.Edit.{each};
ghost use Rattle.rules.specs.Order.{remat_with_scratch, no_remat};
ghost use Rattle.rules.specs.Sorted.{RematOk};
ghost use Rattle.edit.specs.Buffer.{count_of};
ghost use Rattle.entries.specs.Table.{remat_as, sorted_of};
ghost use Rattle.scratch.specs.State.{T, F, Fits, Movable};
ghost use Rattle.scratch.specs.Promises.{tables};
ghost use Rattle.visits.specs.Marks.{remats_of, remats_with_scratch_of};
ghost use Rattle.edit.specs.Word.{word_of};
ghost use Rattle.remats.specs.Remats.{RematsFit, RematsOk, Rematted, through_scratch, Through, RemattedWithScratch, only_remats, last_first};

use edit::Edits;
use entity::{Allocation, RegBank, RegClass, Value};
use entries::Entries;
use function::{Function, Remat};
use reginfo::RegInfo;
use scratch::ScratchAllocator;
use slots::{EmergencySpillSlotCache, Slots};
use small_set::RegUnitSet;

// The rebuild class of a value that can be rebuilt.
fn remat_class(f: &Function, v: Value) -> RegClass
    requires { KnownValue (function_of f.now) v.0 × (remat_cost (function_of f.now) v.0 ≤ 2) × (can_rematerialize (function_of f.now) v.0 ≡ true) }
    ensures { result.0 ≡ remat_class (function_of f.now) v.0 }
{
    match function::can_rematerialize(f, v) {
        Remat::Never => RegClass(0),
        Remat::CheaperThanMove(c) => c,
        Remat::CheaperThanLoad(c) => c,
    }
}

// Rebuild i, which needs no scratch.
fn remat(
    k: ScratchAllocator,
    t: &RegInfo,
    e: &Entries,
    available: &mut RegUnitSet,
    edits: &mut Edits,
    i: usize,
) -> ScratchAllocator
    requires { RematsFit t.now (remats_of e.now) × (i < length (remats_of e.now)) × (count_of edits.old < 1024) }
    ensures { Rematted t.now (get_or (remats_of e.now) i no_remat ∷ []) k edits.old available.old result edits.new available.new }
{
    let to = visits::remat_dest(e, i);
    let v = visits::remat_value(e, i);
    edit::push_remat(edits, to, v);
    k.make_available(t, available, to)
}

// The rebuilds without scratch, in their order.
pub fn remats(
    k: ScratchAllocator,
    t: &RegInfo,
    e: &Entries,
    available: &mut RegUnitSet,
    edits: &mut Edits,
) -> ScratchAllocator
    requires { RematsFit t.now (remats_of e.now) × (count_of edits.old + length (remats_of e.now) ≤ 1024) }
    ensures { Rematted t.now (remats_of e.now) k edits.old available.old result edits.new available.new }
{
    let n = visits::num_remats(e);
    let mut q = k;
    for i in 0..n {
        q = remat(q, t, e, available, edits, i);
    }
    q
}

// The scratch moved to the destination, and the rebuild into the scratch; a slot is put back.
fn through_scratch(
    k: ScratchAllocator,
    t: &RegInfo,
    f: &Function,
    cache: &EmergencySpillSlotCache,
    available: &mut RegUnitSet,
    sources: &RegUnitSet,
    edits: &mut Edits,
    slots: &mut Slots,
    b: RegBank,
    to: Allocation,
    p: Allocation,
    v: Value,
) -> ScratchAllocator
    requires { Movable t.now f.now b.0 to.0 p.0 v.0 × Fits 0 1 5 t.now k edits.old slots.old cache.now }
    ensures { Through t.now f.now cache.now k (tables edits.old available.old slots.old) result (tables edits.new available.new slots.new) (through_scratch (T t.now) (F f.now) b.0 (place_at to.0) (place_at p.0) v.0) }
{
    let moved = k.move_edits(t, f, cache, available, sources, edits, slots, b, to, p, v);
    edit::push_remat(edits, p, v);
    let released = moved.release_place(t, f, slots, b, p);
    released.make_available(t, available, to)
}

// A rebuild that needs a scratch.
fn remat_with_scratch(
    k: ScratchAllocator,
    t: &RegInfo,
    f: &Function,
    cache: &EmergencySpillSlotCache,
    available: &mut RegUnitSet,
    sources: &RegUnitSet,
    edits: &mut Edits,
    slots: &mut Slots,
    to: Allocation,
    v: Value,
) -> ScratchAllocator
    requires { Checked t.now f.now × RematOk (T t.now) (function_of f.now) false (remat_as to.0 v.0) × Fits 0 2 13 t.now k edits.old slots.old cache.now }
    ensures { RemattedWithScratch t.now f.now cache.now 1 k (tables edits.old available.old slots.old) result (tables edits.new available.new slots.new) (remat_with_scratch (T t.now) (F f.now) (remat_as to.0 v.0)) }
{
    let c = remat_class(f, v);
    let b = reginfo::bank_for_class(t, c);
    let brought = k.unevict_for_reg(t, f, cache, edits, slots, to);
    let found = brought.get_scratch_reg(t, f, cache, available, sources, false, edits, slots, b, c);
    let p = found.place;
    let next = found.allocator;
    through_scratch(
        next, t, f, cache, available, sources, edits, slots, b, to, p, v,
    )
}

// The rebuilds with scratch, in their order.
pub fn remats_with_scratch(
    k: ScratchAllocator,
    t: &RegInfo,
    f: &Function,
    cache: &EmergencySpillSlotCache,
    e: &Entries,
    available: &mut RegUnitSet,
    sources: &RegUnitSet,
    edits: &mut Edits,
    slots: &mut Slots,
) -> ScratchAllocator
    requires { RematsOk t.now f.now (remats_with_scratch_of e.now) × Fits 0 2 (5 * length (remats_with_scratch_of e.now) + 8) t.now k edits.old slots.old cache.now }
    ensures { RemattedWithScratch t.now f.now cache.now (length (remats_with_scratch_of e.now)) k (tables edits.old available.old slots.old) result (tables edits.new available.new slots.new) (each (remat_with_scratch (T t.now) (F f.now)) (remats_with_scratch_of e.now)) }
{
    let n = visits::num_remats_with_scratch(e);
    let mut q = k;
    for i in 0..n {
        let to = visits::remat_with_scratch_dest(e, i);
        let v = visits::remat_with_scratch_value(e, i);
        q = remat_with_scratch(q, t, f, cache, available, sources, edits, slots, to, v);
    }
    q
}

// Whether a patch has rebuilds without scratch only.
pub fn only_remats(e: &Entries) -> bool
    ensures { result ≡ only_remats (sorted_of e.now) }
{
    if visits::num_kept(e) == 0 {
        return visits::num_remats_with_scratch(e) == 0;
    }
    false
}

// The words of the rebuilds without scratch, the last one first; what stands past them stays as it is.
pub fn hand_out(t: &RegInfo, e: &Entries, list: &mut [u64]) -> usize
    requires { RematsFit t.now (remats_of e.now) × (length (remats_of e.now) ≤ length list.old) }
    ensures { (result ≡ length (remats_of e.now)) × (list.new ≡ map word_of (last_first (remats_of e.now) (length (remats_of e.now))) ++ drop (length (remats_of e.now)) list.old) }
{
    let n = visits::num_remats(e);
    for at in 0..n {
        let i = n - 1 - at;
        let to = visits::remat_dest(e, i);
        let v = visits::remat_value(e, i);
        list[at] = edit::remat_word(to, v);
    }
    n
}
