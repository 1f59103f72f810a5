// 01, Ordering: how a visited move closes. Its writers are visited; it is emitted, and what it carries is let go.
#![tactic(auto)]

ghost use Rattle.std.specs.Prelude.{◌≡◌, true, List, ℕ, suc, ◌<◌, length};
ghost use Rattle.entity.specs.Place.{place_at};
ghost use Rattle.function.specs.Function.{value_bank};
ghost use Rattle.small_set.specs.Set.{set_of};
ghost use Rattle.rules.specs.Edit.{updated};
ghost use Rattle.rules.specs.Scratch.{do_move};
ghost use Rattle.rules.specs.Order.{ParallelMoves, Done, cycle_move_sources, value, dest, lead, undivert_all, close};
ghost use Rattle.carried.specs.Carried.{count_of};
ghost use Rattle.scratch.specs.State.{T, F, Fits};
ghost use Rattle.scratch.specs.Promises.{tables, Moved};
ghost use Rattle.visits.specs.Marks.{moves_of, states_of, is_noted};
ghost use Rattle.visits.specs.Writers.{KeptOk};
ghost use Rattle.closing.specs.State.{work, MovesOk, Given, Emits};
ghost use Rattle.closing.specs.Steps.{lead_diverted, Gone, Leads, Led, LetsGo, RowGone, Closes};

use carried::Carried;
use edit::Edits;
use entity::Allocation;
use entries::Entries;
use function::Function;
use reginfo::RegInfo;
use scratch::{Diversions, ScratchAllocator};
use slots::{EmergencySpillSlotCache, Slots};
use small_set::RegUnitSet;
use sparse::SparseMap;
use visits::States;

// Notes the source units of the kept moves, once a patch.
fn sources_noted(t: &RegInfo, e: &Entries, sources: &mut RegUnitSet, marks: &mut States)
    requires { KeptOk (T t.now) (moves_of e.now) }
    ensures { (states_of marks.new ≡ states_of marks.old) × (is_noted marks.new ≡ true) × ((f : List ℕ) → (is_noted marks.old ≡ true → set_of sources.old ≡ cycle_move_sources (T t.now) (F f) (moves_of e.now)) → set_of sources.new ≡ cycle_move_sources (T t.now) (F f) (moves_of e.now)) }
{
    if visits::is_noted(marks) {
        return;
    }
    visits::note_sources(t, e, sources);
    visits::set_noted(marks);
}

// Emits a move from a place.
fn emit(
    k: ScratchAllocator,
    t: &RegInfo,
    f: &Function,
    cache: &EmergencySpillSlotCache,
    e: &Entries,
    available: &mut RegUnitSet,
    sources: &RegUnitSet,
    edits: &mut Edits,
    slots: &mut Slots,
    m: usize,
    from: Allocation,
) -> ScratchAllocator
    requires { Emits t.now f.now e.now m from.0 × Fits 0 1 4 t.now k edits.old slots.old cache.now }
    ensures { Moved t.now f.now cache.now k (tables edits.old available.old slots.old) result (tables edits.new available.new slots.new) (do_move (T t.now) (F f.now) (value_bank (F f.now) (value (T t.now) (F f.now) (moves_of e.now) m)) (dest (T t.now) (F f.now) (moves_of e.now) m) (place_at from.0) (value (T t.now) (F f.now) (moves_of e.now) m)) }
{
    let v = visits::kept_value(e, m);
    let b = function::value_bank(f, v);
    let to = visits::kept_dest(e, m);
    k.do_move(
        t, f, cache, available, sources, edits, slots, b, to, from, v,
    )
}

// A writer of the source is open: the move is emitted from the scratch of its value.
fn emit_diverted(
    k: ScratchAllocator,
    t: &RegInfo,
    f: &Function,
    cache: &EmergencySpillSlotCache,
    e: &Entries,
    w: &SparseMap,
    available: &mut RegUnitSet,
    sources: &mut RegUnitSet,
    edits: &mut Edits,
    slots: &mut Slots,
    d: &mut Diversions,
    marks: &mut States,
    c: &mut Carried,
    m: usize,
) -> ScratchAllocator
    requires { Given t.now f.now e.now w.now × (m < length (moves_of e.now)) × ((p : ParallelMoves) × Leads t.now f.now cache.now e.now m p k (work edits.old available.old slots.old sources.old d.old marks.old c.old)) }
    ensures { (states_of marks.new ≡ states_of marks.old) × ((p : ParallelMoves) → Leads t.now f.now cache.now e.now m p k (work edits.old available.old slots.old sources.old d.old marks.old c.old) → Led t.now f.now cache.now e.now (lead_diverted (T t.now) (F f.now) (moves_of e.now) m) p (work edits.old available.old slots.old sources.old d.old marks.old c.old) result (work edits.new available.new slots.new sources.new d.new marks.new c.new)) }
{
    sources_noted(t, e, sources, marks);
    let added = visits::carry(t, e, w, marks, c, m);
    let v = visits::kept_value(e, m);
    let source = visits::kept_source(e, m);
    let got = k.divert(
        t, f, cache, available, sources, edits, slots, d, added, v, source,
    );
    let p = got.place;
    let next = got.allocator;
    emit(next, t, f, cache, e, available, sources, edits, slots, m, p)
}

// Emits a move that has just closed, from its source or, if a writer of that is still open, from the scratch of its value.
fn lead(
    k: ScratchAllocator,
    t: &RegInfo,
    f: &Function,
    cache: &EmergencySpillSlotCache,
    e: &Entries,
    w: &SparseMap,
    available: &mut RegUnitSet,
    sources: &mut RegUnitSet,
    edits: &mut Edits,
    slots: &mut Slots,
    d: &mut Diversions,
    marks: &mut States,
    c: &mut Carried,
    m: usize,
) -> ScratchAllocator
    requires { Given t.now f.now e.now w.now × (m < length (moves_of e.now)) × ((p : ParallelMoves) × Leads t.now f.now cache.now e.now m p k (work edits.old available.old slots.old sources.old d.old marks.old c.old)) }
    ensures { (states_of marks.new ≡ states_of marks.old) × ((p : ParallelMoves) → Leads t.now f.now cache.now e.now m p k (work edits.old available.old slots.old sources.old d.old marks.old c.old) → Led t.now f.now cache.now e.now (lead (T t.now) (F f.now) (moves_of e.now) m) p (work edits.old available.old slots.old sources.old d.old marks.old c.old) result (work edits.new available.new slots.new sources.new d.new marks.new c.new)) }
{
    if visits::has_open_writer(t, e, w, marks, m) {
        return emit_diverted(
            k, t, f, cache, e, w, available, sources, edits, slots, d, marks, c, m,
        );
    }
    let from = visits::kept_source(e, m);
    emit(k, t, f, cache, e, available, sources, edits, slots, m, from)
}

// A row of the move: its value loses one.
fn undivert_row(
    k: ScratchAllocator,
    t: &RegInfo,
    f: &Function,
    cache: &EmergencySpillSlotCache,
    available: &mut RegUnitSet,
    sources: &RegUnitSet,
    edits: &mut Edits,
    slots: &mut Slots,
    d: &mut Diversions,
    c: &Carried,
    m: usize,
    i: usize,
) -> ScratchAllocator
    requires { (e : List ℕ) × (marks : List ℕ) × (p : ParallelMoves) × (n : ℕ) × MovesOk t.now f.now e × LetsGo t.now f.now cache.now e m i (suc n) p k (work edits.old available.old slots.old sources.now d.old marks c.now) }
    ensures { (e marks : List ℕ) (p : ParallelMoves) (n : ℕ) → MovesOk t.now f.now e → LetsGo t.now f.now cache.now e m i (suc n) p k (work edits.old available.old slots.old sources.now d.old marks c.now) → RowGone t.now f.now cache.now e m i n p (work edits.old available.old slots.old sources.now d.old marks c.now) result (work edits.new available.new slots.new sources.now d.new marks c.now) }
{
    if carried::row_move(c, i) != m {
        return k;
    }
    let v = carried::row_value(c, i);
    k.undivert(t, f, cache, available, sources, edits, slots, d, v)
}

// The values that the move carries each lose one, in the order received.
fn undivert_all(
    k: ScratchAllocator,
    t: &RegInfo,
    f: &Function,
    cache: &EmergencySpillSlotCache,
    available: &mut RegUnitSet,
    sources: &RegUnitSet,
    edits: &mut Edits,
    slots: &mut Slots,
    d: &mut Diversions,
    c: &Carried,
    m: usize,
) -> ScratchAllocator
    requires { (e : List ℕ) × (marks : List ℕ) × (p : ParallelMoves) × MovesOk t.now f.now e × LetsGo t.now f.now cache.now e m 0 (count_of c.now) p k (work edits.old available.old slots.old sources.now d.old marks c.now) }
    ensures { (e marks : List ℕ) (p : ParallelMoves) → MovesOk t.now f.now e → LetsGo t.now f.now cache.now e m 0 (count_of c.now) p k (work edits.old available.old slots.old sources.now d.old marks c.now) → Gone t.now f.now cache.now e (undivert_all (T t.now) (F f.now) (moves_of e) m (p.diverted.values m)) p result (work edits.new available.new slots.new sources.now d.new marks c.now) }
{
    let mut q = k;
    let n = carried::len(c);
    for i in 0..n {
        q = undivert_row(q, t, f, cache, available, sources, edits, slots, d, c, m, i);
    }
    q
}

// Closes an open move.
pub fn close(
    k: ScratchAllocator,
    t: &RegInfo,
    f: &Function,
    cache: &EmergencySpillSlotCache,
    e: &Entries,
    w: &SparseMap,
    available: &mut RegUnitSet,
    sources: &mut RegUnitSet,
    edits: &mut Edits,
    slots: &mut Slots,
    d: &mut Diversions,
    marks: &mut States,
    c: &mut Carried,
    m: usize,
) -> ScratchAllocator
    requires { Given t.now f.now e.now w.now × (m < length (moves_of e.now)) × ((p : ParallelMoves) × Closes t.now f.now cache.now e.now m p k (work edits.old available.old slots.old sources.old d.old marks.old c.old)) }
    ensures { (states_of marks.new ≡ updated m Done (states_of marks.old)) × ((p : ParallelMoves) → Closes t.now f.now cache.now e.now m p k (work edits.old available.old slots.old sources.old d.old marks.old c.old) → Gone t.now f.now cache.now e.now (close (T t.now) (F f.now) (moves_of e.now) m) p result (work edits.new available.new slots.new sources.new d.new marks.new c.new)) }
{
    visits::set_done(marks, m);
    let led = lead(
        k, t, f, cache, e, w, available, sources, edits, slots, d, marks, c, m,
    );
    undivert_all(led, t, f, cache, available, sources, edits, slots, d, c, m)
}
