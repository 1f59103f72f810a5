// 01, Ordering: the kept moves in depth. Visiting a move calls the walk over its writers, which calls the visit.
#![tactic(auto)]

ghost use Rattle.std.specs.Prelude.{◌≡◌, true, reverse, ◌*◌, ◌<◌, length};
ghost use Rattle.entity.specs.Logic.{indices, Anything};
ghost use Rattle.rules.specs.Edit.{each};
ghost use Rattle.rules.specs.Order.{ParallelMoves, is_new, writers, visit, visit_unless_memory};
ghost use Rattle.scratch.specs.State.{T, F, Fits};
ghost use Rattle.scratch.specs.Promises.{tables};
ghost use Rattle.visits.specs.Marks.{moves_of, states_of};
ghost use Rattle.closing.specs.State.{work, Given};
ghost use Rattle.visiting.specs.Steps.{Visits, Visited, Passed, Moves};

use carried::Carried;
use edit::Edits;
use entries::Entries;
use function::Function;
use reginfo::RegInfo;
use scratch::{Diversions, ScratchAllocator};
use slots::{EmergencySpillSlotCache, Slots};
use small_set::RegUnitSet;
use sparse::SparseMap;
use visits::States;

// Visits a new move: its writers first, and then it closes. Edits are made backwards: emitted after those that overwrite its source, the move is
// done before them. It is open meanwhile, by which a cycle is known.
#[cycle(visit_walk)]
fn visit(
    k: ScratchAllocator,
    t: &RegInfo,
    f: &Function,
    cache: &EmergencySpillSlotCache,
    e: &Entries,
    w: &SparseMap,
    available: &mut RegUnitSet,
    sources: &mut RegUnitSet,
    edits: &mut Edits,
    slots: &mut Slots,
    d: &mut Diversions,
    marks: &mut States,
    c: &mut Carried,
    m: usize,
) -> ScratchAllocator
    requires { Given t.now f.now e.now w.now × (m < length (moves_of e.now)) × (is_new (states_of marks.old m) ≡ true) × ((p : ParallelMoves) × Visits t.now f.now cache.now e.now p k (work edits.old available.old slots.old sources.old d.old marks.old c.old)) }
    ensures { Visited t.now f.now cache.now e.now (λ depth. visit (T t.now) (F f.now) (moves_of e.now) depth m) k (work edits.old available.old slots.old sources.old d.old marks.old c.old) result (work edits.new available.new slots.new sources.new d.new marks.new c.new) }
{
    visits::set_pending(marks, m);
    let walked = walk(
        k, t, f, cache, e, w, available, sources, edits, slots, d, marks, c, m,
    );
    closing::close(
        walked, t, f, cache, e, w, available, sources, edits, slots, d, marks, c, m,
    )
}

// Visits the new writers of a move's source units: each unit may have its own, and all must be visited for a cycle to be seen. Last unit first,
// as the original takes them off its stack.
#[cycle(visit_walk)]
fn walk(
    k: ScratchAllocator,
    t: &RegInfo,
    f: &Function,
    cache: &EmergencySpillSlotCache,
    e: &Entries,
    w: &SparseMap,
    available: &mut RegUnitSet,
    sources: &mut RegUnitSet,
    edits: &mut Edits,
    slots: &mut Slots,
    d: &mut Diversions,
    marks: &mut States,
    c: &mut Carried,
    m: usize,
) -> ScratchAllocator
    requires { Given t.now f.now e.now w.now × (m < length (moves_of e.now)) × ((p : ParallelMoves) × Visits t.now f.now cache.now e.now p k (work edits.old available.old slots.old sources.old d.old marks.old c.old)) }
    ensures { Visited t.now f.now cache.now e.now (λ depth. each (visit (T t.now) (F f.now) (moves_of e.now) depth) (reverse (writers (T t.now) (F f.now) (moves_of e.now) m))) k (work edits.old available.old slots.old sources.old d.old marks.old c.old) result (work edits.new available.new slots.new sources.new d.new marks.new c.new) }
{
    let p = visits::kept_source(e, m);
    let mut q = k;
    let n = reginfo::num_place_units(t, p);
    for j in (0..n).rev() {
        let u = reginfo::place_unit(t, p, j);
        let Some(x) = visits::writer_of(w, u) else {
            continue;
        };
        if !visits::is_new(marks, x) {
            continue;
        }
        q = visit(
            q, t, f, cache, e, w, available, sources, edits, slots, d, marks, c, x,
        );
    }
    q
}

// A new root of the first pass, which skips those with memory at either end. The registers that the others write are then available when a move
// from memory to memory wants a scratch. A writer with memory is visited all the same, since its reader waits for it.
fn visit_unless_memory(
    k: ScratchAllocator,
    t: &RegInfo,
    f: &Function,
    cache: &EmergencySpillSlotCache,
    e: &Entries,
    w: &SparseMap,
    available: &mut RegUnitSet,
    sources: &mut RegUnitSet,
    edits: &mut Edits,
    slots: &mut Slots,
    d: &mut Diversions,
    marks: &mut States,
    c: &mut Carried,
    m: usize,
) -> ScratchAllocator
    requires { Given t.now f.now e.now w.now × (m < length (moves_of e.now)) × (is_new (states_of marks.old m) ≡ true) × ((p : ParallelMoves) × Visits t.now f.now cache.now e.now p k (work edits.old available.old slots.old sources.old d.old marks.old c.old)) }
    ensures { Passed t.now f.now cache.now e.now (visit_unless_memory (T t.now) (F f.now) (moves_of e.now) m) k (work edits.old available.old slots.old sources.old d.old marks.old c.old) result (work edits.new available.new slots.new sources.new d.new marks.new c.new) }
{
    if visits::has_memory(t, e, m) {
        return k;
    }
    visit(
        k, t, f, cache, e, w, available, sources, edits, slots, d, marks, c, m,
    )
}

fn first_pass(
    k: ScratchAllocator,
    t: &RegInfo,
    f: &Function,
    cache: &EmergencySpillSlotCache,
    e: &Entries,
    w: &SparseMap,
    available: &mut RegUnitSet,
    sources: &mut RegUnitSet,
    edits: &mut Edits,
    slots: &mut Slots,
    d: &mut Diversions,
    marks: &mut States,
    c: &mut Carried,
) -> ScratchAllocator
    requires { Given t.now f.now e.now w.now × ((p : ParallelMoves) × Visits t.now f.now cache.now e.now p k (work edits.old available.old slots.old sources.old d.old marks.old c.old)) }
    ensures { Passed t.now f.now cache.now e.now (each (visit_unless_memory (T t.now) (F f.now) (moves_of e.now)) (indices 0 (length (moves_of e.now)))) k (work edits.old available.old slots.old sources.old d.old marks.old c.old) result (work edits.new available.new slots.new sources.new d.new marks.new c.new) }
{
    let n = visits::num_kept(e);
    let mut q = k;
    for m in 0..n {
        if !visits::is_new(marks, m) {
            continue;
        }
        q = visit_unless_memory(
            q, t, f, cache, e, w, available, sources, edits, slots, d, marks, c, m,
        );
    }
    q
}

fn second_pass(
    k: ScratchAllocator,
    t: &RegInfo,
    f: &Function,
    cache: &EmergencySpillSlotCache,
    e: &Entries,
    w: &SparseMap,
    available: &mut RegUnitSet,
    sources: &mut RegUnitSet,
    edits: &mut Edits,
    slots: &mut Slots,
    d: &mut Diversions,
    marks: &mut States,
    c: &mut Carried,
) -> ScratchAllocator
    requires { Given t.now f.now e.now w.now × ((p : ParallelMoves) × Visits t.now f.now cache.now e.now p k (work edits.old available.old slots.old sources.old d.old marks.old c.old)) }
    ensures { Passed t.now f.now cache.now e.now (each (visit (T t.now) (F f.now) (moves_of e.now) (length (moves_of e.now))) (indices 0 (length (moves_of e.now)))) k (work edits.old available.old slots.old sources.old d.old marks.old c.old) result (work edits.new available.new slots.new sources.new d.new marks.new c.new) }
{
    let n = visits::num_kept(e);
    let mut q = k;
    for m in 0..n {
        if !visits::is_new(marks, m) {
            continue;
        }
        q = visit(
            q, t, f, cache, e, w, available, sources, edits, slots, d, marks, c, m,
        );
    }
    q
}

// The kept moves in two passes; at the end the evicted register is saved: emitted last, the save is done first, before all uses of the scratch.
// What d, marks, c and sources held does not matter.
pub fn moves(
    k: ScratchAllocator,
    t: &RegInfo,
    f: &Function,
    cache: &EmergencySpillSlotCache,
    e: &Entries,
    w: &SparseMap,
    available: &mut RegUnitSet,
    sources: &mut RegUnitSet,
    edits: &mut Edits,
    slots: &mut Slots,
    d: &mut Diversions,
    marks: &mut States,
    c: &mut Carried,
) -> ScratchAllocator
    requires { Given t.now f.now e.now w.now × Fits 0 2 (8 * length (moves_of e.now)) t.now k edits.old slots.old cache.now }
    ensures moves { Moves t.now f.now cache.now e.now k (tables edits.old available.old slots.old) result (tables edits.new available.new slots.new) }
    ensures anything { Anything sources.new × Anything d.new × Anything marks.new × Anything c.new }
{
    visits::start(e, d, marks);
    carried::clear(c);
    let first = first_pass(
        k, t, f, cache, e, w, available, sources, edits, slots, d, marks, c,
    );
    let second = second_pass(
        first, t, f, cache, e, w, available, sources, edits, slots, d, marks, c,
    );
    second.unevict_all(t, f, cache, edits, slots)
}
