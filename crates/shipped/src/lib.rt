// The shipped target: a constant table of 32 units and 56 registers, 192 numbers with their rule.
#![tactic(auto)]

ghost use Rattle.std.specs.Prelude.{◌≡◌, ◌+◌, ◌<◌, ◌≤◌, length, get_or};
ghost use Rattle.reginfo.specs.Table.{reg_info_of, Indexed};
ghost use Rattle.shipped.specs.Shipped.{shipped_units, shipped_row, shipped};
ghost use Rattle.shipped.specs.Table.{table, start_of};
ghost use Rattle.shipped.specs.Writes.{copied, written, rising, reg_writes, regs_writes, class_writes, bank_writes};

use entity::{PhysReg, RegBank, RegClass, RegUnit};
use reginfo::RegInfo;

// The unit lists of registers 0 to 31, 32 to 47 and 48 to 55; then for each of 32 units its three registers.
const TABLE: [u16; 192] = [
    0, // from register 0
    1, 2, 3, 4, 5, 6, 7, 8, 9, 10, 11, 12, 13, 14, 15, 16, 17, 18, 19, 20, 21, 22, 23, 24, 25, 26,
    27, 28, 29, 30, 31, 0, // from register 32
    1, 2, 3, 4, 5, 6, 7, 8, 9, 10, 11, 12, 13, 14, 15, 16, 17, 18, 19, 20, 21, 22, 23, 24, 25, 26,
    27, 28, 29, 30, 31, 0, // from register 48
    1, 2, 3, 4, 5, 6, 7, 8, 9, 10, 11, 12, 13, 14, 15, 16, 17, 18, 19, 20, 21, 22, 23, 24, 25, 26,
    27, 28, 29, 30, 31, 0, // from the row of unit 0
    32, 48, 1, 32, 48, 2, 33, 48, 3, 33, 48, 4, 34, 49, 5, 34, 49, 6, 35, 49, 7, 35, 49, 8, 36, 50,
    9, 36, 50, 10, 37, 50, 11, 37, 50, 12, 38, 51, 13, 38, 51, 14, 39, 51, 15, 39, 51, 16, 40, 52,
    17, 40, 52, 18, 41, 52, 19, 41, 52, 20, 42, 53, 21, 42, 53, 22, 43, 53, 23, 43, 53, 24, 44, 54,
    25, 44, 54, 26, 45, 54, 27, 45, 54, 28, 46, 55, 29, 46, 55, 30, 47, 55, 31, 47, 55,
];

// How many units a register has.
#[tactic(auto, unfolding(crate::specs::Shipped::shipped_units, entity::specs::Logic::indices))]
pub fn num_reg_units(r: PhysReg) -> usize
    requires { r.0 < 56 }
    ensures { result ≡ length (shipped_units r.0) }
{
    let i = usize::from(r.0);
    match i {
        0..=31 => 1,
        32..=47 => 2,
        _ => 4,
    }
}

// Where the unit list of a register stands.
#[tactic(auto, unfolding(crate::specs::Table::start_of))]
fn unit_start(r: PhysReg) -> usize
    requires { r.0 < 56 }
    ensures { result ≡ start_of r.0 }
{
    let i = usize::from(r.0);
    match i {
        0..=31 => i,
        32..=47 => i * 2 - 32,
        _ => i * 4 - 128,
    }
}

fn entry(i: usize) -> u16
    requires { i < 192 }
    ensures { result ≡ get_or table i 0 }
{
    TABLE[i]
}

// Unit j of a register.
pub fn reg_unit(r: PhysReg, j: usize) -> RegUnit
    requires { (r.0 < 56) × (j < length (shipped_units r.0)) }
    ensures { result.0 ≡ get_or (shipped_units r.0) j 0 }
{
    let at = unit_start(r) + j;
    RegUnit(entry(at))
}

// Register k of a unit's row.
pub fn unit_reg(u: RegUnit, k: usize) -> PhysReg
    requires { (u.0 < 32) × (k < 3) }
    ensures { result.0 ≡ get_or (shipped_row u.0) k 0 }
{
    let at = 96 + usize::from(u.0) * 3 + k;
    PhysReg(entry(at))
}

// The n numbers from x on, from a cell on.
fn put_rising(t: &mut RegInfo, at: usize, x: u16, n: u16)
    requires { (at + n ≤ 107520) × (x + n < 65536) }
    ensures { t.new ≡ written t.old (rising at x n) }
{
    for i in 0..n {
        t[at + usize::from(i)] = x + i;
    }
}

// The n units of a register, from a cell on, as the table lists them.
fn put_units(t: &mut RegInfo, at: usize, r: PhysReg, n: usize)
    requires { (r.0 < 56) × (n ≡ length (shipped_units r.0)) × (at + n ≤ 107520) }
    ensures { t.new ≡ written t.old (copied at (shipped_units r.0)) }
{
    for j in 0..n {
        t[at + j] = reg_unit(r, j).0;
    }
}

// A register, of the bank that its unit count says.
fn put_reg(t: &mut RegInfo, r: PhysReg)
    requires { r.0 < 56 }
    ensures { t.new ≡ written t.old (reg_writes r.0) }
{
    let i = usize::from(r.0);
    let count = num_reg_units(r);
    let n = count as u16;
    t[i * 16] = 0;
    t[1 + i * 16] = n / 2;
    t[2 + i * 16] = n;
    put_units(t, 8 + i * 16, r, count);
}

fn put_regs(t: &mut RegInfo)
    ensures { t.new ≡ written t.old (regs_writes 0 56) }
{
    for r in 0..56 {
        put_reg(t, PhysReg(r));
    }
}

// A class of the n registers from r on.
fn put_class(t: &mut RegInfo, c: RegClass, r: PhysReg, n: u16)
    requires { (c.0 < 6) × (r.0 + n ≤ 56) }
    ensures { t.new ≡ written t.old (class_writes c.0 r.0 n) }
{
    let i = usize::from(c.0);
    let first = usize::from(r.0);
    t[8192 + i * 8] = c.0 / 2;
    t[8193 + i * 8] = 1 - c.0 % 2;
    t[8194 + i * 8] = n;
    t[8195 + i * 8] = n;
    put_rising(t, 9216 + i * 512, r.0, n);
    put_rising(t, 41984 + i * 512, r.0, n);
    put_rising(t, 74752 + i * 512 + first, 0, n);
}

// A bank of the n registers from r on: its class with slots and its stack class.
fn put_bank(t: &mut RegInfo, b: RegBank, r: PhysReg, n: u16)
    requires { (b.0 < 3) × (r.0 + n ≤ 56) }
    ensures { t.new ≡ written t.old (bank_writes b.0 r.0 n) }
{
    let i = usize::from(b.0);
    let top = RegClass(b.0 * 2);
    let stack = RegClass(b.0 * 2 + 1);
    t[8704 + i * 4] = 2 + b.0;
    t[8705 + i * 4] = top.0;
    t[8706 + i * 4] = stack.0;
    put_class(t, top, r, n);
    put_class(t, stack, r, n);
}

// Writes the shipped target into a table.
pub fn fill(t: &mut RegInfo)
    ensures { (reg_info_of t.new ≡ shipped) × Indexed t.new }
{
    t[8736] = 32;
    t[8737] = 3;
    t[8738] = 56;
    t[8739] = 6;
    put_bank(t, RegBank(0), PhysReg(0), 32);
    put_bank(t, RegBank(1), PhysReg(32), 16);
    put_bank(t, RegBank(2), PhysReg(48), 8);
    put_regs(t);
}
