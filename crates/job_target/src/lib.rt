// The target, read from a job's bytes into the lent table that `reginfo` reads.
#![tactic(auto)]

ghost use Rattle.std.specs.Prelude.{◌≡◌, [], map, ◌+◌, ◌*◌, ◌<◌, ◌≤◌, length, get_or};
ghost use Rattle.entity.specs.Logic.{any_in, cells, indices};
ghost use Rattle.reginfo.specs.Table.{bank_at, reg_at, class_at, reg_info_of};
ghost use Rattle.reading.specs.Reading.{times, distinct, fresh};
ghost use Rattle.reading.specs.Answer.{ReadAt, NextAt};
ghost use Rattle.job_target.specs.Target.{reg, class, classes, unknown_class};
ghost use Rattle.job_target.specs.Answer.{TargetAt};
ghost use Rattle.job_target.specs.Held.{held, bank_held};
ghost use Rattle.job_target.specs.Steps.{with_order, with_members, with_classes, with_regs, with_banks, Put, Keeps, seen_in, NewIn, ListKept, RegKept, FewUnits, RegsKept, Earlier, ClassKept, counted_at};

use number::Number;
use reader::read;
use reading::{Next, below, between};
use reginfo::RegInfo;

// The numbers of a list that were read, one flag for each.
type Seen = [bool; 512];

// One cell is written.
fn put(t: &mut RegInfo, at: usize, x: u32)
    requires { (at < 107520) × (x < 65536) }
    ensures { Put t.old t.new at x }
{
    t[at] = x as u16;
}

// A class number as a cell holds it.
fn held(n: u32) -> u32
    ensures { (result ≡ held n) × (result < 65536) }
{
    if n < 65535 {
        return n;
    }
    65535
}

// The cells of bank b.
fn put_bank(t: &mut RegInfo, b: usize, size: u32, top: u32, stack: u32)
    requires { (b < 8) × (size < 65536) }
    ensures { (bank_at t.new b ≡ record { size = size; top = held top; stack = held stack }) × Keeps t.old t.new (8704 + b * 4) 4 }
{
    put(t, 8704 + b * 4, size);
    put(t, 8705 + b * 4, held(top));
    put(t, 8706 + b * 4, held(stack));
}

// Bank b.
fn read_bank(s: &[u8], at: usize, t: &mut RegInfo, b: usize) -> Next
    requires { b < 8 }
    ensures { NextAt bank_held s.now at (bank_at t.new b) (Keeps t.old t.new (8704 + b * 4) 4) result }
{
    match between(s, at, 0, 31) {
        Number::Refused(k) => Next::Refused(k),
        Number::Is(size, a) => match read(s, a) {
            Number::Refused(k) => Next::Refused(k),
            Number::Is(top, d) => match read(s, d) {
                Number::Refused(k) => Next::Refused(k),
                Number::Is(stack, next) => {
                    put_bank(t, b, size, top, stack);
                    Next::At(next)
                }
            },
        },
    }
}

// n banks.
fn read_bank_rows(s: &[u8], from: usize, t: &mut RegInfo, n: u32) -> Next
    requires { n ≤ 8 }
    ensures { NextAt (times n bank_held) s.now from (map (bank_at t.new) (indices 0 n)) (Keeps t.old t.new 8704 32) result }
{
    let mut at = from;
    for b in 0..n as usize {
        match read_bank(s, at, t, b) {
            Next::Refused(k) => return Next::Refused(k),
            Next::At(next) => at = next,
        }
    }
    Next::At(at)
}

// A number below the limit that is not seen yet, and is from now on.
fn read_new(s: &[u8], at: usize, limit: u32, seen: &mut Seen) -> Number
    requires { limit ≤ 512 }
    ensures { ReadAt (fresh limit (seen_in seen.old)) s.now at result × NewIn limit (seen_in seen.old) (seen_in seen.new) result }
{
    match below(s, at, limit) {
        Number::Refused(k) => Number::Refused(k),
        Number::Is(x, next) => {
            if seen[x as usize] {
                return Number::Refused(3);
            }
            seen[x as usize] = true;
            Number::Is(x, next)
        }
    }
}

// n numbers below the limit, none twice, into the cells from `start` on.
fn read_list(s: &[u8], from: usize, t: &mut RegInfo, start: usize, n: u32, limit: u32) -> Next
    requires { (start + 512 ≤ 107520) × (limit ≤ 512) }
    ensures { NextAt (distinct n limit []) s.now from (cells t.new start n) (ListKept t.old t.new start n) result }
{
    let mut seen = [false; 512];
    let mut at = from;
    for i in 0..n as usize {
        match read_new(s, at, limit, &mut seen) {
            Number::Refused(k) => return Next::Refused(k),
            Number::Is(x, next) => {
                put(t, start + i, x);
                at = next;
            }
        }
    }
    Next::At(at)
}

// The first cells of register r.
fn put_reg(t: &mut RegInfo, r: usize, memory: u32, bank: u32, n: u32)
    requires { (r < 512) × (memory < 65536) × (bank < 65536) × (n < 65536) }
    ensures { (get_or t.new (r * 16) 0 ≡ memory) × (get_or t.new (1 + r * 16) 0 ≡ bank) × (get_or t.new (2 + r * 16) 0 ≡ n) × Keeps t.old t.new (r * 16) 3 }
{
    put(t, r * 16, memory);
    put(t, 1 + r * 16, bank);
    put(t, 2 + r * 16, n);
}

// Register r.
fn read_reg(s: &[u8], at: usize, t: &mut RegInfo, r: usize, units: u32, banks: u32) -> Next
    requires { (r < 512) × (units ≤ 512) × (banks ≤ 8) }
    ensures { NextAt (reg units banks) s.now at (reg_at t.new r) (RegKept t.old t.new r) result }
{
    match below(s, at, 2) {
        Number::Refused(k) => Next::Refused(k),
        Number::Is(memory, a) => match below(s, a, banks) {
            Number::Refused(k) => Next::Refused(k),
            Number::Is(bank, d) => match between(s, d, 1, 8) {
                Number::Refused(k) => Next::Refused(k),
                Number::Is(n, e) => {
                    put_reg(t, r, memory, bank, n);
                    read_list(s, e, t, 8 + r * 16, n, units)
                }
            },
        },
    }
}

// n registers.
fn read_reg_rows(s: &[u8], from: usize, t: &mut RegInfo, n: u32, units: u32, banks: u32) -> Next
    requires { (n ≤ 512) × (units ≤ 512) × (banks ≤ 8) }
    ensures { NextAt (times n (reg units banks)) s.now from (map (reg_at t.new) (indices 0 n)) (RegsKept t.old t.new n) result }
{
    let mut at = from;
    for r in 0..n as usize {
        match read_reg(s, at, t, r, units, banks) {
            Next::Refused(k) => return Next::Refused(k),
            Next::At(next) => at = next,
        }
    }
    Next::At(at)
}

// The order of class c, whose other cells are written.
fn read_order(s: &[u8], at: usize, t: &mut RegInfo, c: usize, regs: u32, total: u32) -> Next
    requires { (c < 64) × (regs ≤ 512) × (total ≤ 4096) × (get_or t.old (8194 + c * 8) 0 ≤ 512) }
    ensures { NextAt (with_order regs total (get_or t.old (8192 + c * 8) 0) (get_or t.old (8193 + c * 8) 0) (cells t.old (9216 + c * 512) (get_or t.old (8194 + c * 8) 0))) s.now at (counted_at t.new c total) (ClassKept t.old t.new c total) result }
{
    match between(s, at, 0, 4096 - total) {
        Number::Refused(k) => Next::Refused(k),
        Number::Is(m, a) => match read_list(s, a, t, 41984 + c * 512, m, regs) {
            Next::Refused(k) => Next::Refused(k),
            Next::At(next) => {
                put(t, 8195 + c * 8, m);
                Next::At(next)
            }
        },
    }
}

// The members and the order of class c, whose bank and slots are written.
fn read_members(s: &[u8], at: usize, t: &mut RegInfo, c: usize, regs: u32, total: u32) -> Next
    requires { (c < 64) × (regs ≤ 512) × (total ≤ 4096) }
    ensures { NextAt (with_members regs total (get_or t.old (8192 + c * 8) 0) (get_or t.old (8193 + c * 8) 0)) s.now at (counted_at t.new c total) (ClassKept t.old t.new c total) result }
{
    match read(s, at) {
        Number::Refused(k) => Next::Refused(k),
        Number::Is(n, a) => match read_list(s, a, t, 9216 + c * 512, n, regs) {
            Next::Refused(k) => Next::Refused(k),
            Next::At(d) => {
                put(t, 8194 + c * 8, n);
                read_order(s, d, t, c, regs, total)
            }
        },
    }
}

// Class c, after `total` order entries.
fn read_class(
    s: &[u8],
    at: usize,
    t: &mut RegInfo,
    c: usize,
    banks: u32,
    regs: u32,
    total: u32,
) -> Next
    requires { (c < 64) × (banks ≤ 8) × (regs ≤ 512) × (total ≤ 4096) }
    ensures { NextAt (class banks regs total) s.now at (counted_at t.new c total) (ClassKept t.old t.new c total) result }
{
    match below(s, at, banks) {
        Number::Refused(k) => Next::Refused(k),
        Number::Is(bank, a) => match below(s, a, 2) {
            Number::Refused(k) => Next::Refused(k),
            Number::Is(slots, d) => {
                put(t, 8192 + c * 8, bank);
                put(t, 8193 + c * 8, slots);
                read_members(s, d, t, c, regs, total)
            }
        },
    }
}

// How many order entries class c has.
fn order_count(t: &RegInfo, c: usize) -> u32
    requires { c < 64 }
    ensures { result ≡ get_or t.now (8195 + c * 8) 0 }
{
    u32::from(t[8195 + c * 8])
}

// n classes.
fn read_class_rows(s: &[u8], from: usize, t: &mut RegInfo, n: u32, banks: u32, regs: u32) -> Next
    requires { (n ≤ 64) × (banks ≤ 8) × (regs ≤ 512) }
    ensures { NextAt (classes n banks regs 0) s.now from (map (class_at t.new) (indices 0 n)) (Earlier t.old t.new 0) result }
{
    let mut at = from;
    let mut total: u32 = 0;
    for c in 0..n as usize {
        match read_class(s, at, t, c, banks, regs, total) {
            Next::Refused(k) => return Next::Refused(k),
            Next::At(next) => {
                at = next;
                total += order_count(t, c);
            }
        }
    }
    Next::At(at)
}

// Whether bank b names a class that is not among n.
fn bank_unknown(t: &RegInfo, b: usize, n: u32) -> bool
    requires { b < 8 }
    ensures { result ≡ unknown_class n (bank_at t.now b) }
{
    if n <= u32::from(t[8705 + b * 4]) {
        return true;
    }
    n <= u32::from(t[8706 + b * 4])
}

// Whether one of the banks does.
fn unknown_class(t: &RegInfo, banks: u32, n: u32) -> bool
    requires { banks ≤ 8 }
    ensures { result ≡ any_in (unknown_class n) (map (bank_at t.now) (indices 0 banks)) }
{
    for b in 0..banks as usize {
        if bank_unknown(t, b, n) {
            return true;
        }
    }
    false
}

// From the class count on; the units, banks and registers are written.
fn read_classes(s: &[u8], at: usize, t: &mut RegInfo, banks: u32, regs: u32) -> Next
    requires { (get_or t.old 8737 0 ≡ banks) × (get_or t.old 8738 0 ≡ regs) × (banks ≤ 8) × (regs ≤ 512) × FewUnits t.old regs }
    ensures { NextAt (with_classes (get_or t.old 8736 0) banks (map (bank_at t.old) (indices 0 banks)) regs (map (reg_at t.old) (indices 0 regs))) s.now at (reg_info_of t.new) Unit result }
{
    match between(s, at, 1, 64) {
        Number::Refused(k) => Next::Refused(k),
        Number::Is(n, a) => {
            if unknown_class(t, banks, n) {
                return Next::Refused(2);
            }
            put(t, 8739, n);
            read_class_rows(s, a, t, n, banks, regs)
        }
    }
}

// From the register count on; the units and banks are written.
fn read_regs(s: &[u8], at: usize, t: &mut RegInfo, units: u32, banks: u32) -> Next
    requires { (get_or t.old 8736 0 ≡ units) × (get_or t.old 8737 0 ≡ banks) × (units ≤ 512) × (banks ≤ 8) }
    ensures { NextAt (with_regs units banks (map (bank_at t.old) (indices 0 banks))) s.now at (reg_info_of t.new) Unit result }
{
    match between(s, at, 1, 512) {
        Number::Refused(k) => Next::Refused(k),
        Number::Is(n, a) => {
            put(t, 8738, n);
            match read_reg_rows(s, a, t, n, units, banks) {
                Next::Refused(k) => Next::Refused(k),
                Next::At(d) => read_classes(s, d, t, banks, n),
            }
        }
    }
}

// From the bank count on; the units are written.
fn read_banks(s: &[u8], at: usize, t: &mut RegInfo, units: u32) -> Next
    requires { (get_or t.old 8736 0 ≡ units) × (units ≤ 512) }
    ensures { NextAt (with_banks units) s.now at (reg_info_of t.new) Unit result }
{
    match between(s, at, 1, 8) {
        Number::Refused(k) => Next::Refused(k),
        Number::Is(n, a) => {
            put(t, 8737, n);
            match read_bank_rows(s, a, t, n) {
                Next::Refused(k) => Next::Refused(k),
                Next::At(d) => read_regs(s, d, t, units, n),
            }
        }
    }
}

// The target that stands at `at`. What the table held does not matter; after a refusal it may hold anything.
pub fn read_target(s: &[u8], at: usize, t: &mut RegInfo) -> Next
    ensures { TargetAt s.now at t.new result }
{
    match between(s, at, 1, 512) {
        Number::Refused(k) => Next::Refused(k),
        Number::Is(units, a) => {
            put(t, 8736, units);
            read_banks(s, a, t, units)
        }
    }
}
