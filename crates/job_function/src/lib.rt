// The function, read from a job's bytes into the lent table that `function` reads, with its setting, which is given beside them.
#![tactic(auto)]

ghost use Rattle.std.specs.Prelude.{◌≡◌, ◌≤◌, length};
ghost use Rattle.reginfo.specs.Refused.{Accepted};
ghost use Rattle.reginfo.specs.Table.{reg_info_of};
ghost use Rattle.function.specs.Table.{function_of};
ghost use Rattle.reading.specs.Reading.{times};
ghost use Rattle.reading.specs.Answer.{NextAt};
ghost use Rattle.job_function.specs.Reads.{remat_value, value, valued};
ghost use Rattle.job_function.specs.Answer.{FunctionReadWithin, FunctionRead, RowRead, first_values};

use entity::{RegBank, RegClass};
use function::Function;
use number::Number;
use reading::{Next, below, between};
use reginfo::{RegInfo, bank_for_class, num_banks, num_classes};

// A value's bank, rebuild code and class, with the next offset, or the number of 01's refused jobs.
#[derive(Drop)]
enum Row {
    Is(RegBank, u16, RegClass, usize),
    Refused(u8),
}

// The class of a value that can be rebuilt.
fn read_remat_class(t: &RegInfo, s: &[u8], at: usize, bank: RegBank, cost: u16) -> Row
    requires { Accepted (reg_info_of t.now) }
    ensures { RowRead (remat_value (reg_info_of t.now) bank.0 cost) s.now at result }
{
    match below(s, at, num_classes(t) as u32) {
        Number::Refused(k) => Row::Refused(k),
        Number::Is(c, next) => {
            let class = RegClass(c as u16);
            let own = bank_for_class(t, class);
            if own == bank {
                return Row::Is(bank, cost, class, next);
            }
            Row::Refused(9)
        }
    }
}

// A value. One that cannot be rebuilt has class 0.
fn read_value(t: &RegInfo, s: &[u8], at: usize) -> Row
    requires { Accepted (reg_info_of t.now) }
    ensures { RowRead (value (reg_info_of t.now)) s.now at result }
{
    match below(s, at, num_banks(t) as u32) {
        Number::Refused(k) => Row::Refused(k),
        Number::Is(bank, a) => match below(s, a, 3) {
            Number::Refused(k) => Row::Refused(k),
            Number::Is(cost, b) => {
                if cost == 0 {
                    return Row::Is(RegBank(bank as u16), 0, RegClass(0), b);
                }
                read_remat_class(t, s, b, RegBank(bank as u16), cost as u16)
            }
        },
    }
}

// As many values as were counted, into the table's first rows.
fn read_values(t: &RegInfo, s: &[u8], from: usize, f: &mut Function, n: usize) -> Next
    requires { Accepted (reg_info_of t.now) × (n ≤ 4096) }
    ensures { NextAt (times n (value (reg_info_of t.now))) s.now from (first_values f.new n) Unit result }
{
    let mut at = from;
    for v in 0..n {
        match read_value(t, s, at) {
            Row::Refused(k) => return Next::Refused(k),
            Row::Is(bank, cost, class, next) => {
                f[v * 4] = bank.0;
                f[1 + v * 4] = cost;
                f[2 + v * 4] = class.0;
                at = next;
            }
        }
    }
    Next::At(at)
}

// The values, the counts beside them, and the setting.
fn read_valued(
    t: &RegInfo,
    s: &[u8],
    at: usize,
    f: &mut Function,
    n: u16,
    slots: u16,
    limit: u16,
    kept: u16,
) -> Next
    requires { Accepted (reg_info_of t.now) × (n ≤ 4096) }
    ensures { NextAt (valued (reg_info_of t.now) kept n slots limit) s.now at (function_of f.new) Unit result }
{
    match read_values(t, s, at, f, usize::from(n)) {
        Next::Refused(k) => Next::Refused(k),
        Next::At(next) => {
            f[16384] = n;
            f[16385] = slots;
            f[16386] = limit;
            f[16387] = kept;
            Next::At(next)
        }
    }
}

// Reads a function over an accepted target, its N from `least` to `most`, which is tested as it is read; `kept` is its number of kept evictions.
pub fn read_function_within(
    least: u32,
    most: u32,
    t: &RegInfo,
    s: &[u8],
    at: usize,
    f: &mut Function,
    kept: u16,
) -> Next
    requires { Accepted (reg_info_of t.now) × (most ≤ 4096) }
    ensures { FunctionReadWithin least most t.now kept s.now at f.new result }
{
    match between(s, at, 0, 4096) {
        Number::Refused(k) => Next::Refused(k),
        Number::Is(n, a) => match between(s, a, least, most) {
            Number::Refused(k) => Next::Refused(k),
            Number::Is(slots, b) => match between(s, b, 0, 2048) {
                Number::Refused(k) => Next::Refused(k),
                Number::Is(limit, c) => read_valued(
                    t,
                    s,
                    c,
                    f,
                    n as u16,
                    slots as u16,
                    limit as u16,
                    kept,
                ),
            },
        },
    }
}

// Reads a function over an accepted target; `kept` is its number of kept evictions.
pub fn read_function(t: &RegInfo, s: &[u8], at: usize, f: &mut Function, kept: u16) -> Next
    requires { Accepted (reg_info_of t.now) }
    ensures { FunctionRead t.now kept s.now at f.new result }
{
    read_function_within(0, 4096, t, s, at, f, kept)
}
