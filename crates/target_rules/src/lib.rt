// The rules 4 to 7 of a target, tested over a lent table whose target is within the limits.
#![tactic(auto)]

ghost use Rattle.std.specs.Prelude.{◌≡◌, true, false, ◌<◌, ◌≤◌, ◌+◌, length};
ghost use Rattle.entity.specs.Logic.{any_in, cells};
ghost use Rattle.reginfo.specs.RegInfo.{num_banks, num_regs, num_classes, bank_for_class, class_members, allocation_order, is_memory_reg};
ghost use Rattle.reginfo.specs.Table.{reg_info_of, Indexed};
ghost use Rattle.reginfo.specs.Refused.{some_below, all_below, outside_limits, unequal_widths, foreign_member, shared_memory, unfit_class};
ghost use Rattle.target_rules.specs.Rules.{Widths, foreign_to, no_member, foreign_class, foreign_bank, unfit_bank, unfit_order};
ghost use Rattle.target_rules.specs.UnitKinds.{kind_of, NotedAt, Differs, Noted};

use entity::{PhysReg, RegBank, RegClass, RegUnit};
use reginfo::{
    RegInfo, bank_for_class, bank_for_reg, class_has_reg, class_includes_spillslots, is_memory_reg,
    num_banks, num_classes, num_members, num_reg_units, num_regs, order_last, order_len, reg_unit,
    stack_to_stack_class, top_level_class,
};
use target_limits::{members_from, order_from};

// 4: the registers of a bank that are not memory have equally many units, a memory register one. `widths` has the width of each bank's registers
// before r that are not memory, 0 where there is none. It notes that of a bank's first such register, and answers whether r's is its bank's, or one.
fn width_agrees(t: &RegInfo, r: PhysReg, widths: &mut [usize; 8]) -> bool
    requires { (outside_limits (reg_info_of t.now) ≡ false) × (r.0 < num_regs (reg_info_of t.now)) × Widths (reg_info_of t.now) widths.old r.0 }
    ensures same { result ≡ true → Widths (reg_info_of t.now) widths.new (r.0 + 1) }
    ensures other { result ≡ false → unequal_widths (reg_info_of t.now) ≡ true }
{
    let n = num_reg_units(t, r);
    let memory = is_memory_reg(t, r);
    if memory {
        return n == 1;
    }
    let b = bank_for_reg(t, r);
    let at = usize::from(b.0);
    if widths[at] == 0 {
        widths[at] = n;
        return true;
    }
    widths[at] == n
}

pub fn unequal_widths(t: &RegInfo) -> bool
    requires { outside_limits (reg_info_of t.now) ≡ false }
    ensures { result ≡ unequal_widths (reg_info_of t.now) }
{
    let mut widths = [0usize; 8];
    for i in 0..num_regs(t) {
        if !width_agrees(t, PhysReg(i as u16), &mut widths) {
            return true;
        }
    }
    false
}

// 5: a class's members are of its bank. Of the registers at the n cells from `at` on, one is not.
fn regs_foreign(t: &RegInfo, at: usize, n: usize, b: RegBank) -> bool
    requires { (outside_limits (reg_info_of t.now) ≡ false) × (at + n ≤ 107520) × (all_below (num_regs (reg_info_of t.now)) (cells t.now at n) ≡ true) }
    ensures { result ≡ any_in (foreign_to (reg_info_of t.now) b.0) (cells t.now at n) }
{
    for i in 0..n {
        let o = bank_for_reg(t, PhysReg(t[at + i]));
        if o != b {
            return true;
        }
    }
    false
}

fn members_foreign(t: &RegInfo, c: RegClass) -> bool
    requires { (outside_limits (reg_info_of t.now) ≡ false) × (c.0 < num_classes (reg_info_of t.now)) }
    ensures { result ≡ any_in (foreign_to (reg_info_of t.now) (bank_for_class (reg_info_of t.now) c.0)) (class_members (reg_info_of t.now) c.0) }
{
    let b = bank_for_class(t, c);
    let at = members_from(c);
    let n = num_members(t, c);
    regs_foreign(t, at, n, b)
}

// An order lists members only. The index of the members is right.
fn order_foreign(t: &RegInfo, c: RegClass) -> bool
    requires { (outside_limits (reg_info_of t.now) ≡ false) × (c.0 < num_classes (reg_info_of t.now)) × Indexed t.now }
    ensures { result ≡ any_in (no_member (reg_info_of t.now) c.0) (allocation_order (reg_info_of t.now) c.0) }
{
    let at = order_from(c);
    for i in 0..order_len(t, c) {
        if !class_has_reg(t, c, PhysReg(t[at + i])) {
            return true;
        }
    }
    false
}

fn class_foreign(t: &RegInfo, c: RegClass) -> bool
    requires { (outside_limits (reg_info_of t.now) ≡ false) × (c.0 < num_classes (reg_info_of t.now)) × Indexed t.now }
    ensures { result ≡ foreign_class (reg_info_of t.now) c.0 }
{
    if members_foreign(t, c) {
        return true;
    }
    order_foreign(t, c)
}

fn classes_foreign(t: &RegInfo) -> bool
    requires { (outside_limits (reg_info_of t.now) ≡ false) × Indexed t.now }
    ensures { result ≡ some_below (num_classes (reg_info_of t.now)) (foreign_class (reg_info_of t.now)) }
{
    (0..num_classes(t)).any(|i| class_foreign(t, RegClass(i as u16)))
}

// A bank's two classes are of that bank.
fn bank_foreign(t: &RegInfo, b: RegBank) -> bool
    requires { (outside_limits (reg_info_of t.now) ≡ false) × (b.0 < num_banks (reg_info_of t.now)) }
    ensures { result ≡ foreign_bank (reg_info_of t.now) b.0 }
{
    let top = top_level_class(t, b);
    let x = bank_for_class(t, top);
    if x != b {
        return true;
    }
    let stack = stack_to_stack_class(t, b);
    let y = bank_for_class(t, stack);
    if y != b {
        return true;
    }
    false
}

fn banks_foreign(t: &RegInfo) -> bool
    requires { outside_limits (reg_info_of t.now) ≡ false }
    ensures { result ≡ some_below (num_banks (reg_info_of t.now)) (foreign_bank (reg_info_of t.now)) }
{
    (0..num_banks(t)).any(|i| bank_foreign(t, RegBank(i as u16)))
}

#[tactic(auto, unfolding(reginfo::specs::Refused::foreign_member))]
pub fn foreign_member(t: &RegInfo) -> bool
    requires { (outside_limits (reg_info_of t.now) ≡ false) × Indexed t.now }
    ensures { result ≡ foreign_member (reg_info_of t.now) }
{
    if classes_foreign(t) {
        return true;
    }
    banks_foreign(t)
}

// 6: a memory register shares no unit with one that isn't memory. A table has a kind for each unit: 0 where no register
// so far lists it, 1 where one that isn't memory does, 2 where a memory register does.
fn kind_of(t: &RegInfo, r: PhysReg) -> u8
    requires { (outside_limits (reg_info_of t.now) ≡ false) × (r.0 < num_regs (reg_info_of t.now)) }
    ensures { result ≡ kind_of (reg_info_of t.now) r.0 }
{
    if is_memory_reg(t, r) {
        return 2;
    }
    1
}

// The unit has the kind; where it had none, it gets it.
fn unit_agrees(kinds: &mut [u8; 512], u: RegUnit, kind: u8) -> bool
    requires { u.0 < 512 }
    ensures { (result ≡ true → NotedAt kinds.old kinds.new u.0 kind) × (result ≡ false → Differs kinds.old u.0 kind) }
{
    let i = usize::from(u.0);
    let k = kinds[i];
    if k == kind {
        return true;
    }
    if k == 0 {
        kinds[i] = kind;
        return true;
    }
    false
}

// The register's units have its kind; one that has the other kind is shared.
fn units_agree(t: &RegInfo, r: PhysReg, kinds: &mut [u8; 512]) -> bool
    requires { (outside_limits (reg_info_of t.now) ≡ false) × (r.0 < num_regs (reg_info_of t.now)) × Noted (reg_info_of t.now) r.0 kinds.old }
    ensures { (result ≡ true → Noted (reg_info_of t.now) (r.0 + 1) kinds.new) × (result ≡ false → shared_memory (reg_info_of t.now) ≡ true) }
{
    let kind = kind_of(t, r);
    let n = num_reg_units(t, r);
    for j in 0..n {
        let u = reg_unit(t, r, j);
        if !unit_agrees(kinds, u, kind) {
            return false;
        }
    }
    true
}

pub fn shared_memory(t: &RegInfo) -> bool
    requires { outside_limits (reg_info_of t.now) ≡ false }
    ensures { result ≡ shared_memory (reg_info_of t.now) }
{
    let mut kinds = [0u8; 512];
    for i in 0..num_regs(t) {
        if !units_agree(t, PhysReg(i as u16), &mut kinds) {
            return true;
        }
    }
    false
}

// 7: the order of a stack class has no memory register. At the n cells from `at` on there is one.
fn any_memory(t: &RegInfo, at: usize, n: usize) -> bool
    requires { (outside_limits (reg_info_of t.now) ≡ false) × (at + n ≤ 107520) × (all_below (num_regs (reg_info_of t.now)) (cells t.now at n) ≡ true) }
    ensures { result ≡ any_in (λ r. is_memory_reg (reg_info_of t.now) r) (cells t.now at n) }
{
    for i in 0..n {
        if is_memory_reg(t, PhysReg(t[at + i])) {
            return true;
        }
    }
    false
}

fn order_memory(t: &RegInfo, c: RegClass) -> bool
    requires { (outside_limits (reg_info_of t.now) ≡ false) × (c.0 < num_classes (reg_info_of t.now)) }
    ensures { result ≡ any_in (λ r. is_memory_reg (reg_info_of t.now) r) (allocation_order (reg_info_of t.now) c.0) }
{
    let at = order_from(c);
    let n = order_len(t, c);
    any_memory(t, at, n)
}

// A top-level class includes slots, a stack class does not.
fn bank_unfit(t: &RegInfo, b: RegBank) -> bool
    requires { (outside_limits (reg_info_of t.now) ≡ false) × (b.0 < num_banks (reg_info_of t.now)) }
    ensures { result ≡ unfit_bank (reg_info_of t.now) b.0 }
{
    let top = top_level_class(t, b);
    if !class_includes_spillslots(t, top) {
        return true;
    }
    let stack = stack_to_stack_class(t, b);
    if class_includes_spillslots(t, stack) {
        return true;
    }
    order_memory(t, stack)
}

fn banks_unfit(t: &RegInfo) -> bool
    requires { outside_limits (reg_info_of t.now) ≡ false }
    ensures { result ≡ some_below (num_banks (reg_info_of t.now)) (unfit_bank (reg_info_of t.now)) }
{
    (0..num_banks(t)).any(|i| bank_unfit(t, RegBank(i as u16)))
}

// A class without slots has an order, whose last register isn't memory.
fn class_unfit(t: &RegInfo, c: RegClass) -> bool
    requires { (outside_limits (reg_info_of t.now) ≡ false) × (c.0 < num_classes (reg_info_of t.now)) }
    ensures { result ≡ unfit_order (reg_info_of t.now) c.0 }
{
    if class_includes_spillslots(t, c) {
        return false;
    }
    if order_len(t, c) == 0 {
        return true;
    }
    let last = order_last(t, c);
    is_memory_reg(t, last)
}

fn classes_unfit(t: &RegInfo) -> bool
    requires { outside_limits (reg_info_of t.now) ≡ false }
    ensures { result ≡ some_below (num_classes (reg_info_of t.now)) (unfit_order (reg_info_of t.now)) }
{
    (0..num_classes(t)).any(|i| class_unfit(t, RegClass(i as u16)))
}

#[tactic(auto, unfolding(reginfo::specs::Refused::unfit_class))]
pub fn unfit_class(t: &RegInfo) -> bool
    requires { outside_limits (reg_info_of t.now) ≡ false }
    ensures { result ≡ unfit_class (reg_info_of t.now) }
{
    if banks_unfit(t) {
        return true;
    }
    classes_unfit(t)
}
