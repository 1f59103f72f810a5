// The test of a lent target: accepted, or the least number of 2 to 7 whose condition holds. It writes the index of each class's members, and no other
// cell.
#![tactic(auto)]

ghost use Rattle.std.specs.Prelude.{OnOk, ◌≡◌, true, false, [], ◌∷◌, ◌<◌, ◌≤◌, ◌+◌, ◌*◌, length};
ghost use Rattle.entity.specs.Logic.{has, twice, cells};
ghost use Rattle.reginfo.specs.RegInfo.{RegInfo, num_regs, num_classes, reg_units, class_members, allocation_order};
ghost use Rattle.reginfo.specs.Table.{reg_info_of, IndexedAt, Indexed};
ghost use Rattle.reginfo.specs.Refused.{some_below, refused_if, first_of, target_refusal, outside_limits, listed_twice, unequal_widths, foreign_member, shared_memory, unfit_class};
ghost use Rattle.target_check.specs.Checked.{rule_of, number_of, SameBelow, twice_in};

use entity::{PhysReg, RegClass};
use reginfo::{RegInfo, num_classes, num_members, num_reg_units, num_regs, order_at, order_len};
use target_limits::{cells_twice, members_from, outside_limits, units_from};
use target_rules::{foreign_member, shared_memory, unequal_widths, unfit_class};

// Why a target is refused: the rules 2 to 7.
#[derive(Clone, Copy, PartialEq, Eq)]
pub enum TargetError {
    OutsideLimits,
    ListedTwice,
    UnequalWidths,
    ForeignMember,
    SharedMemory,
    UnfitClass,
}

impl TargetError {
    // The number of the rule.
    pub fn number(self) -> u8
        ensures { result ≡ rule_of self }
    {
        match self {
            TargetError::OutsideLimits => 2,
            TargetError::ListedTwice => 3,
            TargetError::UnequalWidths => 4,
            TargetError::ForeignMember => 5,
            TargetError::SharedMemory => 6,
            TargetError::UnfitClass => 7,
        }
    }
}

// 3: a register's units.
fn units_twice(t: &RegInfo, r: PhysReg) -> bool
    requires { (outside_limits (reg_info_of t.now) ≡ false) × (r.0 < num_regs (reg_info_of t.now)) }
    ensures { result ≡ twice (reg_units (reg_info_of t.now) r.0) }
{
    let at = units_from(r);
    let n = num_reg_units(t, r);
    cells_twice(t, at, n)
}

fn regs_twice(t: &RegInfo) -> bool
    requires { outside_limits (reg_info_of t.now) ≡ false }
    ensures { result ≡ some_below (num_regs (reg_info_of t.now)) (λ r. twice (reg_units (reg_info_of t.now) r)) }
{
    (0..num_regs(t)).any(|i| units_twice(t, PhysReg(i as u16)))
}

// A class's order; the registers seen in it are marked.
fn order_twice(t: &RegInfo, c: RegClass) -> bool
    requires { (outside_limits (reg_info_of t.now) ≡ false) × (c.0 < num_classes (reg_info_of t.now)) }
    ensures { result ≡ twice (allocation_order (reg_info_of t.now) c.0) }
{
    let mut seen = [false; 512];
    let n = order_len(t, c);
    for p in 0..n {
        let r = usize::from(order_at(t, c, p).0);
        if seen[r] {
            return true;
        }
        seen[r] = true;
    }
    false
}

// Where the index of a class's members begins.
fn index_from(c: RegClass) -> usize
    requires { c.0 < 64 }
    ensures { result ≡ 74752 + c.0 * 512 }
{
    74752 + usize::from(c.0) * 512
}

// A register is among the first p members of a class, which the index points at.
fn stands_before(t: &RegInfo, c: RegClass, p: usize, r: PhysReg) -> bool
    requires { (c.0 < 64) × (p ≤ 512) × (r.0 < 512) × IndexedAt t.now c.0 p }
    ensures { result ≡ has r.0 (cells t.now (9216 + c.0 * 512) p) }
{
    let j = usize::from(r.0);
    let q = usize::from(t[index_from(c) + j]);
    if p <= q {
        return false;
    }
    usize::from(t[members_from(c) + q]) == j
}

// A class's members go into the index; one that is there already is listed twice.
fn index_members(t: &mut RegInfo, c: RegClass) -> bool
    requires { (outside_limits (reg_info_of t.old) ≡ false) × (c.0 < num_classes (reg_info_of t.old)) }
    ensures { (result ≡ twice (class_members (reg_info_of t.old) c.0)) × SameBelow (74752 + c.0 * 512) t.old t.new × (result ≡ false → IndexedAt t.new c.0 (length (class_members (reg_info_of t.old) c.0))) }
{
    let n = num_members(t, c);
    let at = members_from(c);
    let index = index_from(c);
    for p in 0..n {
        let r = t[at + p];
        if stands_before(t, c, p, PhysReg(r)) {
            return true;
        }
        t[index + usize::from(r)] = p as u16;
    }
    false
}

fn class_twice(t: &mut RegInfo, c: RegClass) -> bool
    requires { (outside_limits (reg_info_of t.old) ≡ false) × (c.0 < num_classes (reg_info_of t.old)) }
    ensures { (result ≡ twice_in (reg_info_of t.old) c.0) × SameBelow (74752 + c.0 * 512) t.old t.new × (result ≡ false → IndexedAt t.new c.0 (length (class_members (reg_info_of t.old) c.0))) }
{
    if index_members(t, c) {
        return true;
    }
    order_twice(t, c)
}

fn classes_twice(t: &mut RegInfo) -> bool
    requires { outside_limits (reg_info_of t.old) ≡ false }
    ensures { (result ≡ some_below (num_classes (reg_info_of t.old)) (twice_in (reg_info_of t.old))) × SameBelow 74752 t.old t.new × (result ≡ false → Indexed t.new) }
{
    for i in 0..num_classes(t) {
        if class_twice(t, RegClass(i as u16)) {
            return true;
        }
    }
    false
}

#[tactic(auto, unfolding(reginfo::specs::Refused::listed_twice))]
fn listed_twice(t: &mut RegInfo) -> bool
    requires { outside_limits (reg_info_of t.old) ≡ false }
    ensures { (result ≡ listed_twice (reg_info_of t.old)) × SameBelow 74752 t.old t.new × (result ≡ false → Indexed t.new) }
{
    if regs_twice(t) {
        return true;
    }
    classes_twice(t)
}

// The first of the rules 4 to 7 that is broken.
#[tactic(auto, unfolding(reginfo::specs::Refused::first_of))]
fn broken_rule(t: &RegInfo) -> Result<(), TargetError>
    requires { (outside_limits (reg_info_of t.now) ≡ false) × Indexed t.now }
    ensures { number_of result ≡ first_of (refused_if 4 (unequal_widths (reg_info_of t.now)) ∷ refused_if 5 (foreign_member (reg_info_of t.now)) ∷ refused_if 6 (shared_memory (reg_info_of t.now)) ∷ refused_if 7 (unfit_class (reg_info_of t.now)) ∷ []) }
{
    if unequal_widths(t) {
        return Err(TargetError::UnequalWidths);
    }
    if foreign_member(t) {
        return Err(TargetError::ForeignMember);
    }
    if shared_memory(t) {
        return Err(TargetError::SharedMemory);
    }
    if unfit_class(t) {
        return Err(TargetError::UnfitClass);
    }
    Ok(())
}

// 01: the target of a lent table is accepted, or refused with the least number whose rule it breaks.
// Only the index of members is written, and of an accepted target it is right; of a refused one it holds anything.
#[tactic(auto, unfolding(reginfo::specs::Refused::target_refusal, reginfo::specs::Refused::first_of))]
pub fn check(t: &mut RegInfo) -> Result<(), TargetError>
    ensures number { number_of result ≡ target_refusal (reg_info_of t.old) }
    ensures kept { SameBelow 74752 t.old t.new }
    ensures target { reg_info_of t.new ≡ reg_info_of t.old }
    ensures index { OnOk result (Indexed t.new) }
{
    if outside_limits(t) {
        return Err(TargetError::OutsideLimits);
    }
    if listed_twice(t) {
        return Err(TargetError::ListedTwice);
    }
    broken_rule(t)
}
