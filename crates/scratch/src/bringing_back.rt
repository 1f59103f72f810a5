// Evicted registers brought back: all, those that overlap a place or a move's ends, or as many as make room for one more.
ghost use Rattle.std.specs.Prelude.{◌≡◌, Bool, List, pred, ◌≤◌};
ghost use Rattle.entity.specs.Logic.{or};
ghost use Rattle.entity.specs.Place.{place_at, reg};
ghost use Rattle.reginfo.specs.RegInfo.{last_in_order, overlap};
ghost use Rattle.reginfo.specs.Known.{KnownPlace, KnownUnits};
ghost use Rattle.rules.specs.Scratch.{unevict_all, unevict_but, unevict_for_reg, make_room};
ghost use Rattle.function.specs.Table.{function_of};
ghost use Rattle.function.specs.Known.{Checked};
ghost use Rattle.scratch.specs.State.{T, F, evicted_in, HeldFits, owed, Fits, Evictable};
ghost use Rattle.scratch.specs.Promises.{tables, unevict_for_ends, Back, Brought};

use crate::{Evicted, Held, ScratchAllocator};
use edit::Edits;
use entity::{Allocation, PhysReg, RegBank, RegClass};
use function::Function;
use reginfo::RegInfo;
use slots::{EmergencySpillSlotCache, Slots};

// Whether a move's source or its destination overlaps a register.
fn overlaps_end(t: &RegInfo, to: Allocation, from: Allocation, r: PhysReg) -> bool
    requires { KnownPlace (T t.now) (place_at to.0) × KnownPlace (T t.now) (place_at from.0) × KnownUnits (T t.now) r.0 }
    ensures { result ≡ or (overlap (T t.now) (place_at from.0) (reg r.0)) (overlap (T t.now) (place_at to.0) (reg r.0)) }
{
    if reginfo::overlaps_reg(t, from, r) {
        return true;
    }
    reginfo::overlaps_reg(t, to, r)
}

impl ScratchAllocator {
    // Brings back a register that the record no longer has: emits its save and puts its slot back.
    fn bring_back(
        mut self,
        t: &RegInfo,
        f: &Function,
        cache: &EmergencySpillSlotCache,
        edits: &mut Edits,
        slots: &mut Slots,
        e: Held,
    ) -> Self
        requires { Checked t.now f.now × HeldFits (T t.now) e × Fits 0 0 1 t.now self edits.old slots.old cache.now }
        ensures { (available : List Bool) → Back t.now f.now cache.now e self (tables edits.old available slots.old) result (tables edits.new available slots.new) }
    {
        edit::push_spill(edits, e.slot, e.reg);
        slots::release(slots, reginfo::spillslot_size(t, e.bank), e.slot);
        self
    }

    // The older of two is brought back, and the newer stays.
    fn unevict_older(
        mut self,
        t: &RegInfo,
        f: &Function,
        cache: &EmergencySpillSlotCache,
        edits: &mut Edits,
        slots: &mut Slots,
        newer: Held,
        older: Held,
    ) -> Self
        requires { Checked t.now f.now × (evicted_in self ≡ Evicted.Two newer older) × Fits 0 0 0 t.now self edits.old slots.old cache.now }
        ensures { (available : List Bool) → Brought t.now f.now cache.now self (tables edits.old available slots.old) result (tables edits.new available slots.new) (unevict_but (T t.now) (F f.now) 1) }
    {
        let k = self.one(newer);
        k.bring_back(t, f, cache, edits, slots, older)
    }

    // Brings back all, the older first.
    pub fn unevict_all(
        mut self,
        t: &RegInfo,
        f: &Function,
        cache: &EmergencySpillSlotCache,
        edits: &mut Edits,
        slots: &mut Slots,
    ) -> Self
        requires { Checked t.now f.now × Fits 0 0 0 t.now self edits.old slots.old cache.now }
        ensures { (available : List Bool) → Brought t.now f.now cache.now self (tables edits.old available slots.old) result (tables edits.new available slots.new) (unevict_all (T t.now) (F f.now)) }
    {
        let e = self.evicted();
        let k = self.none();
        match e {
            Evicted::Nothing => self,
            Evicted::One(newer) => k.bring_back(t, f, cache, edits, slots, newer),
            Evicted::Two(newer, older) => {
                let left = k.bring_back(t, f, cache, edits, slots, older);
                left.bring_back(t, f, cache, edits, slots, newer)
            }
        }
    }

    // Of two those that overlap the place are brought back, the older first.
    fn unevict_of_two(
        mut self,
        t: &RegInfo,
        f: &Function,
        cache: &EmergencySpillSlotCache,
        edits: &mut Edits,
        slots: &mut Slots,
        p: Allocation,
        newer: Held,
        older: Held,
    ) -> Self
        requires { Checked t.now f.now × KnownPlace (T t.now) (place_at p.0) × (evicted_in self ≡ Evicted.Two newer older) × Fits 0 0 0 t.now self edits.old slots.old cache.now }
        ensures { (available : List Bool) → Brought t.now f.now cache.now self (tables edits.old available slots.old) result (tables edits.new available slots.new) (unevict_for_reg (T t.now) (F f.now) (place_at p.0)) }
    {
        let met = reginfo::overlaps_reg(t, p, newer.reg);
        if reginfo::overlaps_reg(t, p, older.reg) {
            if met {
                return self.unevict_all(t, f, cache, edits, slots);
            }
            return self.unevict_older(t, f, cache, edits, slots, newer, older);
        }
        if met {
            let k = self.one(older);
            return k.bring_back(t, f, cache, edits, slots, newer);
        }
        self
    }

    // Brings back those that overlap the place.
    pub fn unevict_for_reg(
        mut self,
        t: &RegInfo,
        f: &Function,
        cache: &EmergencySpillSlotCache,
        edits: &mut Edits,
        slots: &mut Slots,
        p: Allocation,
    ) -> Self
        requires { Checked t.now f.now × KnownPlace (T t.now) (place_at p.0) × Fits 0 0 0 t.now self edits.old slots.old cache.now }
        ensures { (available : List Bool) → Brought t.now f.now cache.now self (tables edits.old available slots.old) result (tables edits.new available slots.new) (unevict_for_reg (T t.now) (F f.now) (place_at p.0)) }
    {
        let e = self.evicted();
        match e {
            Evicted::Nothing => self,
            Evicted::One(newer) => {
                if reginfo::overlaps_reg(t, p, newer.reg) {
                    return self.unevict_all(t, f, cache, edits, slots);
                }
                self
            }
            Evicted::Two(newer, older) => self.unevict_of_two(
                t, f, cache, edits, slots, p, newer, older,
            ),
        }
    }

    // Brings back those that overlap a move's source, then those that overlap its destination.
    pub(crate) fn unevict_for_ends(
        mut self,
        t: &RegInfo,
        f: &Function,
        cache: &EmergencySpillSlotCache,
        edits: &mut Edits,
        slots: &mut Slots,
        to: Allocation,
        from: Allocation,
    ) -> Self
        requires { Checked t.now f.now × KnownPlace (T t.now) (place_at to.0) × KnownPlace (T t.now) (place_at from.0) × Fits 0 0 0 t.now self edits.old slots.old cache.now }
        ensures { (available : List Bool) → Brought t.now f.now cache.now self (tables edits.old available slots.old) result (tables edits.new available slots.new) (unevict_for_ends (T t.now) (F f.now) (place_at to.0) (place_at from.0)) }
    {
        let e = self.evicted();
        match e {
            Evicted::Nothing => self,
            Evicted::One(newer) => {
                if overlaps_end(t, to, from, newer.reg) {
                    return self.unevict_all(t, f, cache, edits, slots);
                }
                self
            }
            Evicted::Two(_, _) => {
                let first = self.unevict_for_reg(t, f, cache, edits, slots, from);
                first.unevict_for_reg(t, f, cache, edits, slots, to)
            }
        }
    }

    // As few are left as the function keeps beside a new one: none, or one.
    fn unevict_rest(
        mut self,
        t: &RegInfo,
        f: &Function,
        cache: &EmergencySpillSlotCache,
        edits: &mut Edits,
        slots: &mut Slots,
    ) -> Self
        requires { Checked t.now f.now × Fits 0 0 0 t.now self edits.old slots.old cache.now }
        ensures { (available : List Bool) → Brought t.now f.now cache.now self (tables edits.old available slots.old) result (tables edits.new available slots.new) (unevict_but (T t.now) (F f.now) (pred (function_of f.now).kept)) }
    {
        if function::kept_evictions(f) == 1 {
            return self.unevict_all(t, f, cache, edits, slots);
        }
        let e = self.evicted();
        match e {
            Evicted::Nothing => self,
            Evicted::One(_) => self,
            Evicted::Two(newer, older) => {
                self.unevict_older(t, f, cache, edits, slots, newer, older)
            }
        }
    }

    // Before the last register of a class's order is evicted, those that overlap it are brought back, and then the older if two are still held.
    pub(crate) fn make_room(
        mut self,
        t: &RegInfo,
        f: &Function,
        cache: &EmergencySpillSlotCache,
        edits: &mut Edits,
        slots: &mut Slots,
        b: RegBank,
        c: RegClass,
    ) -> Self
        requires { Evictable t.now f.now b.0 c.0 × Fits 0 0 0 t.now self edits.old slots.old cache.now }
        ensures result_bound { owed (evicted_in result) ≤ 1 }
        ensures brought { (available : List Bool) → Brought t.now f.now cache.now self (tables edits.old available slots.old) result (tables edits.new available slots.new) (make_room (T t.now) (F f.now) (last_in_order (T t.now) c.0)) }
    {
        let e = self.evicted();
        let Evicted::Nothing = e else {
            let last = reginfo::order_last(t, c);
            let k = self.unevict_for_reg(t, f, cache, edits, slots, Allocation::reg(last));
            return k.unevict_rest(t, f, cache, edits, slots);
        };
        self
    }
}
