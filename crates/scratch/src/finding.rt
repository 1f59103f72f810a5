// A scratch of a class: a usable register of its order, else an emergency slot, a register held already, or the order's last, evicted.
ghost use Rattle.std.specs.Prelude.{Bool, List, [], ◌∷◌, ℕ, ◌<◌, ◌≤◌};
ghost use Rattle.reginfo.specs.RegInfo.{num_banks, num_classes};
ghost use Rattle.rules.specs.Scratch.{slot_scratch, evict_last, reuse, get_scratch_reg};
ghost use Rattle.search.specs.Search.{barred_by};
ghost use Rattle.function.specs.Known.{Checked};
ghost use Rattle.scratch.specs.State.{T, F, evicted_in, held_of, evicted_of, Stocked, HeldFits, owed, Fits, Evictable};
ghost use Rattle.scratch.specs.Promises.{tables, failing, Acquired, Found};

use crate::{Evicted, Held, ScratchAllocator};
use edit::Edits;
use entity::{Allocation, RegBank, RegClass, SpillSlot};
use function::Function;
use reginfo::RegInfo;
use slots::{EmergencySpillSlotCache, Slots};
use small_set::RegUnitSet;

// What a search found, the position that it reports, and the allocator after it.
#[derive(Drop)]
pub struct Scratch {
    pub place: Allocation,
    pub position: u16,
    pub allocator: ScratchAllocator,
}

#[derive(Drop)]
pub struct Taken {
    pub slot: SpillSlot,
    pub allocator: ScratchAllocator,
}

impl ScratchAllocator {
    // Takes the slot of a size last put back, else makes one.
    fn acquire(
        mut self,
        t: &RegInfo,
        f: &Function,
        cache: &EmergencySpillSlotCache,
        slots: &mut Slots,
        z: usize,
    ) -> Taken
        requires { Checked t.now f.now × (z < 32) × Stocked self slots.old cache.now }
        ensures { Acquired t.now f.now cache.now z self slots.old result slots.new }
    {
        if let Some(s) = slots::acquire(slots, cache, z) {
            return Taken {
                slot: s,
                allocator: self,
            };
        }
        let n = function::num_slots(f) + usize::from(self.made());
        self.packed += 1;
        Taken {
            slot: SpillSlot(n as u16),
            allocator: self,
        }
    }

    // An emergency slot as scratch; n is the position to report, here and below.
    fn slot_scratch(
        mut self,
        t: &RegInfo,
        f: &Function,
        cache: &EmergencySpillSlotCache,
        slots: &mut Slots,
        b: RegBank,
        n: u16,
    ) -> Scratch
        requires { Checked t.now f.now × (b.0 < num_banks (T t.now)) × Stocked self slots.old cache.now }
        ensures { (edits : List ℕ) (available : List Bool) → Found t.now f.now cache.now self (tables edits available slots.old) result (tables edits available slots.new) (slot_scratch (T t.now) (F f.now) n b.0) }
    {
        let got = self.acquire(t, f, cache, slots, reginfo::spillslot_size(t, b));
        let s = got.slot;
        let k = got.allocator;
        Scratch {
            place: Allocation::spillslot(s),
            position: n,
            allocator: k,
        }
    }

    // Evicts the last register of a class's order into a slot, and emits its reload.
    fn evict_last(
        mut self,
        t: &RegInfo,
        f: &Function,
        cache: &EmergencySpillSlotCache,
        edits: &mut Edits,
        slots: &mut Slots,
        b: RegBank,
        c: RegClass,
        n: u16,
    ) -> Scratch
        requires { Evictable t.now f.now b.0 c.0 × (owed (evicted_in self) ≤ 1) × Fits 0 1 2 t.now self edits.old slots.old cache.now }
        ensures { (available : List Bool) → Found t.now f.now cache.now self (tables edits.old available slots.old) result (tables edits.new available slots.new) (evict_last (T t.now) (F f.now) n b.0 c.0) }
    {
        let z = reginfo::spillslot_size(t, b);
        let got = self.acquire(t, f, cache, slots, z);
        let s = got.slot;
        let k = got.allocator;
        let r = reginfo::order_last(t, c);
        edit::push_reload(edits, r, s);
        let held = k.hold(Held {
            reg: r,
            slot: s,
            bank: b,
        });
        Scratch {
            place: Allocation::reg(r),
            position: n,
            allocator: held,
        }
    }

    // Makes room, and evicts the order's last.
    fn evict(
        mut self,
        t: &RegInfo,
        f: &Function,
        cache: &EmergencySpillSlotCache,
        edits: &mut Edits,
        slots: &mut Slots,
        b: RegBank,
        c: RegClass,
        n: u16,
    ) -> Scratch
        requires { Evictable t.now f.now b.0 c.0 × Fits 0 1 2 t.now self edits.old slots.old cache.now }
        ensures { (available : List Bool) → Found t.now f.now cache.now self (tables edits.old available slots.old) result (tables edits.new available slots.new) (reuse (T t.now) (F f.now) [] n b.0 c.0) }
    {
        let k = self.make_room(t, f, cache, edits, slots, b, c);
        k.evict_last(t, f, cache, edits, slots, b, c, n)
    }

    // A held register if it is a member of the class, else the order's last.
    fn reuse_held(
        mut self,
        t: &RegInfo,
        f: &Function,
        cache: &EmergencySpillSlotCache,
        edits: &mut Edits,
        slots: &mut Slots,
        b: RegBank,
        c: RegClass,
        n: u16,
        e: Held,
    ) -> Scratch
        requires { Evictable t.now f.now b.0 c.0 × HeldFits (T t.now) e × Fits 0 1 2 t.now self edits.old slots.old cache.now }
        ensures { (available : List Bool) → Found t.now f.now cache.now self (tables edits.old available slots.old) result (tables edits.new available slots.new) (reuse (T t.now) (F f.now) (held_of (T t.now) e ∷ []) n b.0 c.0) }
    {
        if reginfo::class_has_reg(t, c, e.reg) {
            return Scratch {
                place: Allocation::reg(e.reg),
                position: n,
                allocator: self,
            };
        }
        self.evict(t, f, cache, edits, slots, b, c, n)
    }

    // The newer of two if it is a member of the class, else the older, else the order's last.
    fn reuse_of_two(
        mut self,
        t: &RegInfo,
        f: &Function,
        cache: &EmergencySpillSlotCache,
        edits: &mut Edits,
        slots: &mut Slots,
        b: RegBank,
        c: RegClass,
        n: u16,
        newer: Held,
        older: Held,
    ) -> Scratch
        requires { Evictable t.now f.now b.0 c.0 × HeldFits (T t.now) newer × HeldFits (T t.now) older × Fits 0 1 2 t.now self edits.old slots.old cache.now }
        ensures { (available : List Bool) → Found t.now f.now cache.now self (tables edits.old available slots.old) result (tables edits.new available slots.new) (reuse (T t.now) (F f.now) (held_of (T t.now) newer ∷ held_of (T t.now) older ∷ []) n b.0 c.0) }
    {
        if reginfo::class_has_reg(t, c, newer.reg) {
            return Scratch {
                place: Allocation::reg(newer.reg),
                position: n,
                allocator: self,
            };
        }
        self.reuse_held(t, f, cache, edits, slots, b, c, n, older)
    }

    // The newest held member of the class, else the order's last.
    fn reuse(
        mut self,
        t: &RegInfo,
        f: &Function,
        cache: &EmergencySpillSlotCache,
        edits: &mut Edits,
        slots: &mut Slots,
        b: RegBank,
        c: RegClass,
        n: u16,
    ) -> Scratch
        requires { Evictable t.now f.now b.0 c.0 × Fits 0 1 2 t.now self edits.old slots.old cache.now }
        ensures { (available : List Bool) → Found t.now f.now cache.now self (tables edits.old available slots.old) result (tables edits.new available slots.new) (reuse (T t.now) (F f.now) (evicted_of (T t.now) (evicted_in self)) n b.0 c.0) }
    {
        let e = self.evicted();
        match e {
            Evicted::Nothing => self.evict(t, f, cache, edits, slots, b, c, n),
            Evicted::One(newer) => self.reuse_held(t, f, cache, edits, slots, b, c, n, newer),
            Evicted::Two(newer, older) => self.reuse_of_two(
                t, f, cache, edits, slots, b, c, n, newer, older,
            ),
        }
    }

    // Failing the class's order, whose length is then the position: a slot or an evicted register.
    fn or_scratch(
        mut self,
        t: &RegInfo,
        f: &Function,
        cache: &EmergencySpillSlotCache,
        edits: &mut Edits,
        slots: &mut Slots,
        b: RegBank,
        c: RegClass,
    ) -> Scratch
        requires { Checked t.now f.now × (b.0 < num_banks (T t.now)) × (c.0 < num_classes (T t.now)) × Fits 0 1 2 t.now self edits.old slots.old cache.now }
        ensures { (available : List Bool) → Found t.now f.now cache.now self (tables edits.old available slots.old) result (tables edits.new available slots.new) (failing t.now f.now b.0 c.0) }
    {
        let n = reginfo::order_len(t, c) as u16;
        slots::meet(slots, n);
        if reginfo::class_includes_spillslots(t, c) {
            return self.slot_scratch(t, f, cache, slots, b, n);
        }
        self.reuse(t, f, cache, edits, slots, b, c, n)
    }

    // A scratch of a class: the first register of its order that is usable, failing that a slot or an evicted register.
    // For a cycle no source unit of a kept move is used.
    pub fn get_scratch_reg(
        mut self,
        t: &RegInfo,
        f: &Function,
        cache: &EmergencySpillSlotCache,
        available: &RegUnitSet,
        sources: &RegUnitSet,
        cycle: bool,
        edits: &mut Edits,
        slots: &mut Slots,
        b: RegBank,
        c: RegClass,
    ) -> Scratch
        requires { Checked t.now f.now × (b.0 < num_banks (T t.now)) × (c.0 < num_classes (T t.now)) × Fits 0 1 2 t.now self edits.old slots.old cache.now }
        ensures { Found t.now f.now cache.now self (tables edits.old available.now slots.old) result (tables edits.new available.now slots.new) (get_scratch_reg (T t.now) (F f.now) b.0 c.0 (barred_by cycle sources.now)) }
    {
        let found = search::first_usable(t, available, sources, cycle, c);
        if let Some((r, i)) = found {
            slots::meet(slots, i);
            return Scratch {
                place: Allocation::reg(r),
                position: i,
                allocator: self,
            };
        }
        self.or_scratch(t, f, cache, edits, slots, b, c)
    }
}
