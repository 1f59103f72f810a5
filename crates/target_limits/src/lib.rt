// The limits of a target, tested over a lent table of any numbers. Each test is a condition of reginfo's specs/Refused.antt.
#![tactic(auto)]

ghost use Rattle.std.specs.Prelude.{◌≡◌, true, false, ◌<◌, ◌≤◌, ◌+◌, ◌*◌, length};
ghost use Rattle.entity.specs.Logic.{no, has, twice, cells};
ghost use Rattle.reginfo.specs.RegInfo.{num_banks, num_regs, num_classes, reg_memory, class_slots, reg_units, class_members, allocation_order};
ghost use Rattle.reginfo.specs.Table.{reg_info_of};
ghost use Rattle.reginfo.specs.Known.{KnownReg, KnownClass, KnownBank};
ghost use Rattle.reginfo.specs.Refused.{some_below, within, all_below, order_total, counts_fit, bank_fits, reg_fits, class_fits, outside_limits};
ghost use Rattle.target_limits.specs.Fits.{list_fits};

use entity::{PhysReg, RegBank, RegClass};
use reginfo::{
    RegInfo, bank_for_class, bank_for_reg, num_banks, num_classes, num_members, num_reg_units,
    num_regs, num_units, order_len, spillslot_size, stack_to_stack_class, top_level_class,
};

// The n cells from `at` on are all below the bound.
pub fn cells_below(t: &RegInfo, at: usize, n: usize, bound: usize) -> bool
    requires { at + n ≤ 107520 }
    ensures { result ≡ all_below bound (cells t.now at n) }
{
    for i in 0..n {
        if bound <= usize::from(t[at + i]) {
            return false;
        }
    }
    true
}

// The number is among the n cells from `at` on.
pub fn cells_has(t: &RegInfo, at: usize, n: usize, x: usize) -> bool
    requires { at + n ≤ 107520 }
    ensures { result ≡ has x (cells t.now at n) }
{
    for i in 0..n {
        if x == usize::from(t[at + i]) {
            return true;
        }
    }
    false
}

// A number is listed twice among the n cells from `at` on.
pub fn cells_twice(t: &RegInfo, at: usize, n: usize) -> bool
    requires { at + n ≤ 107520 }
    ensures { result ≡ twice (cells t.now at n) }
{
    for i in 0..n {
        if cells_has(t, at + i + 1, n - i - 1, usize::from(t[at + i])) {
            return true;
        }
    }
    false
}

// Where a register's units, a class's members and its order begin.
pub fn units_from(r: PhysReg) -> usize
    requires { r.0 < 512 }
    ensures { result ≡ 8 + r.0 * 16 }
{
    8 + usize::from(r.0) * 16
}

pub fn members_from(c: RegClass) -> usize
    requires { c.0 < 64 }
    ensures { result ≡ 9216 + c.0 * 512 }
{
    9216 + usize::from(c.0) * 512
}

pub fn order_from(c: RegClass) -> usize
    requires { c.0 < 64 }
    ensures { result ≡ 41984 + c.0 * 512 }
{
    41984 + usize::from(c.0) * 512
}

// The flags as numbers, which the accessors only compare with 1.
fn memory_flag(t: &RegInfo, r: PhysReg) -> usize
    requires { KnownReg (reg_info_of t.now) r.0 }
    ensures { result ≡ reg_memory (reg_info_of t.now) r.0 }
{
    let i = usize::from(r.0);
    usize::from(t[i * 16])
}

fn slots_flag(t: &RegInfo, c: RegClass) -> usize
    requires { KnownClass (reg_info_of t.now) c.0 }
    ensures { result ≡ class_slots (reg_info_of t.now) c.0 }
{
    let i = usize::from(c.0);
    usize::from(t[8193 + i * 8])
}

// 01: "units 1 to 512, banks 1 to 8, registers 1 to 512, classes 1 to 64".
fn within(low: usize, high: usize, n: usize) -> bool
    ensures { result ≡ within low high n }
{
    if n < low {
        return false;
    }
    n <= high
}

#[tactic(auto, unfolding(reginfo::specs::Refused::counts_fit))]
fn counts_fit(t: &RegInfo) -> bool
    ensures { result ≡ counts_fit (reg_info_of t.now) }
{
    if !within(1, 512, num_units(t)) {
        return false;
    }
    if !within(1, 8, num_banks(t)) {
        return false;
    }
    if !within(1, 512, num_regs(t)) {
        return false;
    }
    within(1, 64, num_classes(t))
}

// A bank: its size and its two classes.
#[tactic(auto, unfolding(reginfo::specs::Refused::bank_fits))]
fn bank_fits(t: &RegInfo, b: RegBank) -> bool
    requires { KnownBank (reg_info_of t.now) b.0 }
    ensures { result ≡ bank_fits (reg_info_of t.now) b.0 }
{
    if 31 < spillslot_size(t, b) {
        return false;
    }
    let n = num_classes(t);
    let top = top_level_class(t, b);
    if n <= usize::from(top.0) {
        return false;
    }
    let stack = stack_to_stack_class(t, b);
    usize::from(stack.0) < n
}

// A register: a flag, a bank, and 1 to 8 units.
fn units_below(t: &RegInfo, r: PhysReg) -> bool
    requires { KnownReg (reg_info_of t.now) r.0 × (length (reg_units (reg_info_of t.now) r.0) ≤ 8) }
    ensures { result ≡ all_below (reg_info_of t.now).units (reg_units (reg_info_of t.now) r.0) }
{
    let at = units_from(r);
    let n = num_reg_units(t, r);
    let bound = num_units(t);
    cells_below(t, at, n, bound)
}

#[tactic(auto, unfolding(reginfo::specs::Refused::reg_fits))]
fn reg_fits(t: &RegInfo, r: PhysReg) -> bool
    requires { KnownReg (reg_info_of t.now) r.0 }
    ensures { result ≡ reg_fits (reg_info_of t.now) r.0 }
{
    if 1 < memory_flag(t, r) {
        return false;
    }
    let b = bank_for_reg(t, r);
    if num_banks(t) <= usize::from(b.0) {
        return false;
    }
    if !within(1, 8, num_reg_units(t, r)) {
        return false;
    }
    units_below(t, r)
}

// A class: a bank, a flag, and two lists of registers.
fn members_fit(t: &RegInfo, c: RegClass) -> bool
    requires { KnownClass (reg_info_of t.now) c.0 }
    ensures { result ≡ list_fits (reg_info_of t.now) (class_members (reg_info_of t.now) c.0) }
{
    let n = num_members(t, c);
    if 512 < n {
        return false;
    }
    let at = members_from(c);
    let bound = num_regs(t);
    cells_below(t, at, n, bound)
}

fn order_fits(t: &RegInfo, c: RegClass) -> bool
    requires { KnownClass (reg_info_of t.now) c.0 }
    ensures { result ≡ list_fits (reg_info_of t.now) (allocation_order (reg_info_of t.now) c.0) }
{
    let n = order_len(t, c);
    if 512 < n {
        return false;
    }
    let at = order_from(c);
    let bound = num_regs(t);
    cells_below(t, at, n, bound)
}

#[tactic(auto, unfolding(reginfo::specs::Refused::class_fits))]
fn class_fits(t: &RegInfo, c: RegClass) -> bool
    requires { KnownClass (reg_info_of t.now) c.0 }
    ensures { result ≡ class_fits (reg_info_of t.now) c.0 }
{
    let b = bank_for_class(t, c);
    if num_banks(t) <= usize::from(b.0) {
        return false;
    }
    if 1 < slots_flag(t, c) {
        return false;
    }
    if !members_fit(t, c) {
        return false;
    }
    order_fits(t, c)
}

// Some bank, register or class does not fit.
fn banks_unfit(t: &RegInfo) -> bool
    requires { num_banks (reg_info_of t.now) ≤ 8 }
    ensures { result ≡ some_below (num_banks (reg_info_of t.now)) (λ b. no (bank_fits (reg_info_of t.now) b)) }
{
    (0..num_banks(t)).any(|i| !bank_fits(t, RegBank(i as u16)))
}

fn regs_unfit(t: &RegInfo) -> bool
    requires { num_regs (reg_info_of t.now) ≤ 512 }
    ensures { result ≡ some_below (num_regs (reg_info_of t.now)) (λ r. no (reg_fits (reg_info_of t.now) r)) }
{
    (0..num_regs(t)).any(|i| !reg_fits(t, PhysReg(i as u16)))
}

fn classes_unfit(t: &RegInfo) -> bool
    requires { num_classes (reg_info_of t.now) ≤ 64 }
    ensures { result ≡ some_below (num_classes (reg_info_of t.now)) (λ c. no (class_fits (reg_info_of t.now) c)) }
{
    (0..num_classes(t)).any(|i| !class_fits(t, RegClass(i as u16)))
}

// The order entries over all classes, of which each has at most 512.
fn order_total(t: &RegInfo) -> usize
    requires { (num_classes (reg_info_of t.now) ≤ 64) × (some_below (num_classes (reg_info_of t.now)) (λ c. no (class_fits (reg_info_of t.now) c)) ≡ false) }
    ensures { result ≡ order_total (reg_info_of t.now).classes }
{
    let mut n: usize = 0;
    for i in 0..num_classes(t) {
        n += order_len(t, RegClass(i as u16));
    }
    n
}

// 01: the target is outside a limit, and so refused with 2.
#[tactic(auto, unfolding(reginfo::specs::Refused::outside_limits))]
pub fn outside_limits(t: &RegInfo) -> bool
    ensures { result ≡ outside_limits (reg_info_of t.now) }
{
    if !counts_fit(t) {
        return true;
    }
    if banks_unfit(t) {
        return true;
    }
    if regs_unfit(t) {
        return true;
    }
    if classes_unfit(t) {
        return true;
    }
    4096 < order_total(t)
}
