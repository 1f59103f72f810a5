// The edits of a move, memory to memory through a scratch, and a scratch put back.
ghost use Rattle.std.specs.Prelude.{◌≡◌, Bool, true, List, ℕ, ◌<◌};
ghost use Rattle.entity.specs.Logic.{and};
ghost use Rattle.entity.specs.Place.{place_at};
ghost use Rattle.reginfo.specs.RegInfo.{num_banks, spillslot_size, is_memory};
ghost use Rattle.reginfo.specs.Known.{KnownPlace};
ghost use Rattle.rules.specs.Scratch.{make_available, make_unavailable, move_edits, do_move, release_place};
ghost use Rattle.slots.specs.Stacks.{SlotsFit};
ghost use Rattle.function.specs.Known.{Checked};
ghost use Rattle.scratch.specs.State.{T, F, allocator_of, Fits, PlaceFits, Movable};
ghost use Rattle.scratch.specs.Promises.{tables, Moved, Released};

use crate::ScratchAllocator;
use edit::Edits;
use entity::{Allocation, AllocationKind, RegBank, Value};
use function::Function;
use reginfo::RegInfo;
use slots::{EmergencySpillSlotCache, Slots};
use small_set::RegUnitSet;

// Whether both places are memory.
fn both_memory(t: &RegInfo, p: Allocation, q: Allocation) -> bool
    requires { KnownPlace (T t.now) (place_at p.0) × KnownPlace (T t.now) (place_at q.0) }
    ensures { result ≡ and (is_memory (T t.now) (place_at p.0)) (is_memory (T t.now) (place_at q.0)) }
{
    if reginfo::is_memory(t, p) {
        return reginfo::is_memory(t, q);
    }
    false
}

impl ScratchAllocator {
    // Memory to memory goes through a scratch of the stack class.
    fn through_scratch(
        mut self,
        t: &RegInfo,
        f: &Function,
        cache: &EmergencySpillSlotCache,
        available: &RegUnitSet,
        sources: &RegUnitSet,
        edits: &mut Edits,
        slots: &mut Slots,
        b: RegBank,
        to: Allocation,
        from: Allocation,
        v: Value,
    ) -> Self
        requires { Movable t.now f.now b.0 to.0 from.0 v.0 × (and (is_memory (T t.now) (place_at to.0)) (is_memory (T t.now) (place_at from.0)) ≡ true) × Fits 0 1 4 t.now self edits.old slots.old cache.now }
        ensures { Moved t.now f.now cache.now self (tables edits.old available.now slots.old) result (tables edits.new available.now slots.new) (move_edits (T t.now) (F f.now) b.0 (place_at to.0) (place_at from.0) v.0) }
    {
        let c = reginfo::stack_to_stack_class(t, b);
        let found = self.get_scratch_reg(
            t, f, cache, available, sources, false, edits, slots, b, c,
        );
        let p = found.place;
        let k = found.allocator;
        edit::push_move(edits, to, p, v);
        edit::push_move(edits, p, from, v);
        k
    }

    // The edit or edits of a move.
    pub fn move_edits(
        mut self,
        t: &RegInfo,
        f: &Function,
        cache: &EmergencySpillSlotCache,
        available: &RegUnitSet,
        sources: &RegUnitSet,
        edits: &mut Edits,
        slots: &mut Slots,
        b: RegBank,
        to: Allocation,
        from: Allocation,
        v: Value,
    ) -> Self
        requires { Movable t.now f.now b.0 to.0 from.0 v.0 × Fits 0 1 4 t.now self edits.old slots.old cache.now }
        ensures { Moved t.now f.now cache.now self (tables edits.old available.now slots.old) result (tables edits.new available.now slots.new) (move_edits (T t.now) (F f.now) b.0 (place_at to.0) (place_at from.0) v.0) }
    {
        if both_memory(t, to, from) {
            return self.through_scratch(
                t, f, cache, available, sources, edits, slots, b, to, from, v,
            );
        }
        edit::push_move(edits, to, from, v);
        self
    }

    // Marks the units of a move's ends.
    fn mark_ends(
        mut self,
        t: &RegInfo,
        available: &mut RegUnitSet,
        to: Allocation,
        from: Allocation,
    ) -> Self
        requires { KnownPlace (T t.now) (place_at to.0) × KnownPlace (T t.now) (place_at from.0) }
        ensures { (result ≡ self) × ((f cache edits slots : List ℕ) → allocator_of t.now result edits available.new slots cache ≡ make_unavailable (T t.now) (F f) (place_at from.0) (make_available (T t.now) (F f) (place_at to.0) (allocator_of t.now self edits available.old slots cache))) }
    {
        let marked = self.make_available(t, available, to);
        marked.make_unavailable(t, available, from)
    }

    // Emits a move, and marks the units of its ends.
    pub fn do_move(
        mut self,
        t: &RegInfo,
        f: &Function,
        cache: &EmergencySpillSlotCache,
        available: &mut RegUnitSet,
        sources: &RegUnitSet,
        edits: &mut Edits,
        slots: &mut Slots,
        b: RegBank,
        to: Allocation,
        from: Allocation,
        v: Value,
    ) -> Self
        requires { Movable t.now f.now b.0 to.0 from.0 v.0 × Fits 0 1 4 t.now self edits.old slots.old cache.now }
        ensures { Moved t.now f.now cache.now self (tables edits.old available.old slots.old) result (tables edits.new available.new slots.new) (do_move (T t.now) (F f.now) b.0 (place_at to.0) (place_at from.0) v.0) }
    {
        let then = self.unevict_for_ends(t, f, cache, edits, slots, to, from);
        let through = both_memory(t, to, from);
        if through {
            let moved = then.through_scratch(
                t, f, cache, available, sources, edits, slots, b, to, from, v,
            );
            return moved.mark_ends(t, available, to, from);
        }
        edit::push_move(edits, to, from, v);
        then.mark_ends(t, available, to, from)
    }

    // Puts a scratch back if it is a slot.
    pub fn release_place(
        mut self,
        t: &RegInfo,
        f: &Function,
        slots: &mut Slots,
        b: RegBank,
        p: Allocation,
    ) -> Self
        requires { Checked t.now f.now × (b.0 < num_banks (T t.now)) × PlaceFits t.now p.0 × SlotsFit 1023 slots.old }
        ensures { (cache edits : List ℕ) (available : List Bool) → Released t.now f.now cache self (tables edits available slots.old) result (tables edits available slots.new) (release_place (T t.now) (F f.now) (spillslot_size (T t.now) b.0) (place_at p.0)) }
    {
        let AllocationKind::SpillSlot(s) = p.kind() else {
            return self;
        };
        slots::release(slots, reginfo::spillslot_size(t, b), s);
        self
    }
}
