// The target as one lent table of numbers (specs/Table.antt), read by accessors; its rules 3 to 7 as definitions; overlap. An accessor asks that its
// register, class or bank is one of the target's, and that there are no more of them than the limits allow.
#![tactic(auto)]

ghost use Rattle.std.specs.Prelude.{◌≡◌, ◌<◌, ◌≤◌, length, get_or};
ghost use Rattle.entity.specs.Logic.{has, meets};
ghost use Rattle.entity.specs.Place.{reg, slot, place_at, same_place};
ghost use Rattle.reginfo.specs.RegInfo.{num_banks, num_regs, num_classes, spillslot_size, top_level_class, stack_to_stack_class, is_memory_reg, bank_for_reg, reg_units, bank_for_class, includes_spillslots, class_members, allocation_order, last_in_order, place_units, overlap, is_memory, in_class, of_bank};
ghost use Rattle.reginfo.specs.Table.{reg_info_of};
ghost use Rattle.reginfo.specs.Known.{KnownReg, KnownClass, KnownBank, KnownUnits, KnownPlace, KnownMembers};

use entity::{
    Allocation, AllocationKind, AllocationUnit, PhysReg, RegBank, RegClass, RegUnit, SpillSlot,
};

pub type RegInfo = [u16; 107520];

// How many units, banks, registers and classes there are.
pub fn num_units(t: &RegInfo) -> usize
    ensures { result ≡ (reg_info_of t.now).units }
{
    usize::from(t[8736])
}

pub fn num_banks(t: &RegInfo) -> usize
    ensures { result ≡ num_banks (reg_info_of t.now) }
{
    usize::from(t[8737])
}

pub fn num_regs(t: &RegInfo) -> usize
    ensures { result ≡ num_regs (reg_info_of t.now) }
{
    usize::from(t[8738])
}

pub fn num_classes(t: &RegInfo) -> usize
    ensures { result ≡ num_classes (reg_info_of t.now) }
{
    usize::from(t[8739])
}

// Bank data.
pub fn spillslot_size(t: &RegInfo, b: RegBank) -> usize
    requires { KnownBank (reg_info_of t.now) b.0 }
    ensures { result ≡ spillslot_size (reg_info_of t.now) b.0 }
{
    let i = usize::from(b.0);
    usize::from(t[8704 + i * 4])
}

pub fn top_level_class(t: &RegInfo, b: RegBank) -> RegClass
    requires { KnownBank (reg_info_of t.now) b.0 }
    ensures { result.0 ≡ top_level_class (reg_info_of t.now) b.0 }
{
    let i = usize::from(b.0);
    RegClass(t[8705 + i * 4])
}

pub fn stack_to_stack_class(t: &RegInfo, b: RegBank) -> RegClass
    requires { KnownBank (reg_info_of t.now) b.0 }
    ensures { result.0 ≡ stack_to_stack_class (reg_info_of t.now) b.0 }
{
    let i = usize::from(b.0);
    RegClass(t[8706 + i * 4])
}

// Registers.
pub fn is_memory_reg(t: &RegInfo, r: PhysReg) -> bool
    requires { KnownReg (reg_info_of t.now) r.0 }
    ensures { result ≡ is_memory_reg (reg_info_of t.now) r.0 }
{
    let i = usize::from(r.0);
    usize::from(t[i * 16]) == 1
}

pub fn bank_for_reg(t: &RegInfo, r: PhysReg) -> RegBank
    requires { KnownReg (reg_info_of t.now) r.0 }
    ensures { result.0 ≡ bank_for_reg (reg_info_of t.now) r.0 }
{
    let i = usize::from(r.0);
    RegBank(t[1 + i * 16])
}

pub fn num_reg_units(t: &RegInfo, r: PhysReg) -> usize
    requires { KnownReg (reg_info_of t.now) r.0 }
    ensures { result ≡ length (reg_units (reg_info_of t.now) r.0) }
{
    let i = usize::from(r.0);
    usize::from(t[2 + i * 16])
}

// Unit j of a register.
pub fn reg_unit(t: &RegInfo, r: PhysReg, j: usize) -> RegUnit
    requires { KnownReg (reg_info_of t.now) r.0 × (j < length (reg_units (reg_info_of t.now) r.0)) × (j < 8) }
    ensures { result.0 ≡ get_or (reg_units (reg_info_of t.now) r.0) j 0 }
{
    let i = usize::from(r.0);
    RegUnit(t[8 + i * 16 + j])
}

// Classes.
pub fn bank_for_class(t: &RegInfo, c: RegClass) -> RegBank
    requires { KnownClass (reg_info_of t.now) c.0 }
    ensures { result.0 ≡ bank_for_class (reg_info_of t.now) c.0 }
{
    let i = usize::from(c.0);
    RegBank(t[8192 + i * 8])
}

pub fn class_includes_spillslots(t: &RegInfo, c: RegClass) -> bool
    requires { KnownClass (reg_info_of t.now) c.0 }
    ensures { result ≡ includes_spillslots (reg_info_of t.now) c.0 }
{
    let i = usize::from(c.0);
    usize::from(t[8193 + i * 8]) == 1
}

pub fn num_members(t: &RegInfo, c: RegClass) -> usize
    requires { KnownClass (reg_info_of t.now) c.0 }
    ensures { result ≡ length (class_members (reg_info_of t.now) c.0) }
{
    let i = usize::from(c.0);
    usize::from(t[8194 + i * 8])
}

// Member p of a class, in the order listed.
pub fn class_member(t: &RegInfo, c: RegClass, p: usize) -> PhysReg
    requires { KnownClass (reg_info_of t.now) c.0 × (p < length (class_members (reg_info_of t.now) c.0)) × (p < 512) }
    ensures { result.0 ≡ get_or (class_members (reg_info_of t.now) c.0) p 0 }
{
    let i = usize::from(c.0);
    PhysReg(t[9216 + i * 512 + p])
}

pub fn order_len(t: &RegInfo, c: RegClass) -> usize
    requires { KnownClass (reg_info_of t.now) c.0 }
    ensures { result ≡ length (allocation_order (reg_info_of t.now) c.0) }
{
    let i = usize::from(c.0);
    usize::from(t[8195 + i * 8])
}

// Register p of a class's order.
pub fn order_at(t: &RegInfo, c: RegClass, p: usize) -> PhysReg
    requires { KnownClass (reg_info_of t.now) c.0 × (p < length (allocation_order (reg_info_of t.now) c.0)) × (p < 512) }
    ensures { result.0 ≡ get_or (allocation_order (reg_info_of t.now) c.0) p 0 }
{
    let i = usize::from(c.0);
    PhysReg(t[41984 + i * 512 + p])
}

// The last register of a class's order.
pub fn order_last(t: &RegInfo, c: RegClass) -> PhysReg
    requires { KnownClass (reg_info_of t.now) c.0 × (0 < length (allocation_order (reg_info_of t.now) c.0)) × (length (allocation_order (reg_info_of t.now) c.0) ≤ 512) }
    ensures { result.0 ≡ last_in_order (reg_info_of t.now) c.0 }
{
    let n = order_len(t, c);
    order_at(t, c, n - 1)
}

// Whether a register is a member of a class: the index says where it would stand.
pub fn class_has_reg(t: &RegInfo, c: RegClass, r: PhysReg) -> bool
    requires { KnownMembers t.now c.0 × (r.0 < 512) }
    ensures { result ≡ has r.0 (class_members (reg_info_of t.now) c.0) }
{
    let i = usize::from(c.0);
    let j = usize::from(r.0);
    let p = usize::from(t[74752 + i * 512 + j]);
    if p < num_members(t, c) {
        let m = class_member(t, c, p);
        return m == r;
    }
    false
}

// Whether a register has a unit.
pub fn has_unit(t: &RegInfo, r: PhysReg, u: RegUnit) -> bool
    requires { KnownReg (reg_info_of t.now) r.0 × (length (reg_units (reg_info_of t.now) r.0) ≤ 8) }
    ensures { result ≡ has u.0 (reg_units (reg_info_of t.now) r.0) }
{
    let n = num_reg_units(t, r);
    for j in 0..n {
        let v = reg_unit(t, r, j);
        if u == v {
            return true;
        }
    }
    false
}

// Whether two registers share a unit: the second's units are walked.
pub fn regs_overlap(t: &RegInfo, a: PhysReg, b: PhysReg) -> bool
    requires { KnownReg (reg_info_of t.now) a.0 × (length (reg_units (reg_info_of t.now) a.0) ≤ 8) × KnownReg (reg_info_of t.now) b.0 × (length (reg_units (reg_info_of t.now) b.0) ≤ 8) }
    ensures { (result ≡ meets (reg_units (reg_info_of t.now) a.0) (reg_units (reg_info_of t.now) b.0)) × (result ≡ meets (reg_units (reg_info_of t.now) b.0) (reg_units (reg_info_of t.now) a.0)) }
{
    let n = num_reg_units(t, b);
    for k in 0..n {
        let u = reg_unit(t, b, k);
        if has_unit(t, a, u) {
            return true;
        }
    }
    false
}

// Places.
pub fn is_memory(t: &RegInfo, p: Allocation) -> bool
    requires { KnownPlace (reg_info_of t.now) (place_at p.0) }
    ensures { result ≡ is_memory (reg_info_of t.now) (place_at p.0) }
{
    match p.kind() {
        AllocationKind::PhysReg(r) => is_memory_reg(t, r),
        AllocationKind::SpillSlot(_) => true,
    }
}

// 01: a slot is of no bank and always passes.
pub fn of_bank(t: &RegInfo, p: Allocation, b: RegBank) -> bool
    requires { KnownPlace (reg_info_of t.now) (place_at p.0) }
    ensures { result ≡ of_bank (reg_info_of t.now) b.0 (place_at p.0) }
{
    match p.kind() {
        AllocationKind::PhysReg(r) => {
            let o = bank_for_reg(t, r);
            o == b
        }
        AllocationKind::SpillSlot(_) => true,
    }
}

pub fn class_has(t: &RegInfo, c: RegClass, p: Allocation) -> bool
    requires { KnownMembers t.now c.0 × KnownPlace (reg_info_of t.now) (place_at p.0) }
    ensures { result ≡ in_class (reg_info_of t.now) c.0 (place_at p.0) }
{
    match p.kind() {
        AllocationKind::PhysReg(r) => class_has_reg(t, c, r),
        AllocationKind::SpillSlot(_) => class_includes_spillslots(t, c),
    }
}

// A place's units.
pub fn num_place_units(t: &RegInfo, p: Allocation) -> usize
    requires { KnownPlace (reg_info_of t.now) (place_at p.0) }
    ensures { result ≡ length (place_units (reg_info_of t.now) (place_at p.0)) }
{
    match p.kind() {
        AllocationKind::PhysReg(r) => num_reg_units(t, r),
        AllocationKind::SpillSlot(_) => 1,
    }
}

pub fn place_unit(t: &RegInfo, p: Allocation, j: usize) -> AllocationUnit
    requires { KnownPlace (reg_info_of t.now) (place_at p.0) × (j < length (place_units (reg_info_of t.now) (place_at p.0))) }
    ensures { result.0 ≡ get_or (place_units (reg_info_of t.now) (place_at p.0)) j 0 }
{
    match p.kind() {
        AllocationKind::PhysReg(r) => AllocationUnit::reg(reg_unit(t, r, j)),
        AllocationKind::SpillSlot(s) => AllocationUnit::spillslot(s),
    }
}

// Whether a place overlaps a register.
pub fn overlaps_reg(t: &RegInfo, p: Allocation, r: PhysReg) -> bool
    requires { KnownPlace (reg_info_of t.now) (place_at p.0) × KnownUnits (reg_info_of t.now) r.0 }
    ensures { (result ≡ overlap (reg_info_of t.now) (place_at p.0) (reg r.0)) × (result ≡ overlap (reg_info_of t.now) (reg r.0) (place_at p.0)) }
{
    match p.kind() {
        AllocationKind::PhysReg(a) => regs_overlap(t, a, r),
        AllocationKind::SpillSlot(_) => false,
    }
}

// Whether a place is the slot.
fn is_slot(p: Allocation, s: SpillSlot) -> bool
    ensures { result ≡ same_place (place_at p.0) (slot s.0) }
{
    match p.kind() {
        AllocationKind::PhysReg(_) => false,
        AllocationKind::SpillSlot(q) => q == s,
    }
}

// Whether two places share a unit.
pub fn overlap(t: &RegInfo, p: Allocation, q: Allocation) -> bool
    requires { KnownPlace (reg_info_of t.now) (place_at p.0) × KnownPlace (reg_info_of t.now) (place_at q.0) }
    ensures { (result ≡ overlap (reg_info_of t.now) (place_at p.0) (place_at q.0)) × (result ≡ overlap (reg_info_of t.now) (place_at q.0) (place_at p.0)) }
{
    match q.kind() {
        AllocationKind::PhysReg(r) => overlaps_reg(t, p, r),
        AllocationKind::SpillSlot(s) => is_slot(p, s),
    }
}
