// The function as one lent table of numbers (specs/Table.antt), read by accessors: values with bank, rebuild cost and class, N and L; and its test.
// An accessor asks that its value is one of the function's, and that there are no more values than the limit allows.
#![tactic(auto)]

ghost use Rattle.std.specs.Prelude.{◌≡◌, true, ◌<◌, ◌≤◌};
ghost use Rattle.reginfo.specs.RegInfo.{num_classes};
ghost use Rattle.reginfo.specs.Table.{reg_info_of};
ghost use Rattle.function.specs.Function.{num_values, value_bank, remat_cost, remat_class, is_setting};
ghost use Rattle.function.specs.Table.{function_of};
ghost use Rattle.function.specs.Known.{KnownValue};
ghost use Rattle.function.specs.Refused.{counts_fit, value_fits, foreign_class, function_refusal};
ghost use Rattle.function.specs.Answers.{rematerialize, remat_of, number_of};

use entity::{RegBank, RegClass, Value};
use reginfo::{RegInfo, bank_for_class, num_banks, num_classes};

pub type Function = [u16; 16388];

// How a value is rebuilt, if it can be, and the class of registers that it is rebuilt in.
#[derive(Drop)]
pub enum Remat {
    Never,
    CheaperThanMove(RegClass),
    CheaperThanLoad(RegClass),
}

// Why a function is refused.
#[derive(Clone, Copy, PartialEq, Eq)]
pub enum FunctionError {
    OtherSetting,
    OutsideLimits,
    ForeignClass,
}

// How many values and ordinary slots there are, how many emergency slots may be made, and how many evictions are kept at once.
pub fn num_values(f: &Function) -> usize
    ensures { result ≡ num_values (function_of f.now) }
{
    usize::from(f[16384])
}

pub fn num_slots(f: &Function) -> usize
    ensures { result ≡ (function_of f.now).slots }
{
    usize::from(f[16385])
}

pub fn slot_limit(f: &Function) -> usize
    ensures { result ≡ (function_of f.now).limit }
{
    usize::from(f[16386])
}

pub fn kept_evictions(f: &Function) -> usize
    ensures { result ≡ (function_of f.now).kept }
{
    usize::from(f[16387])
}

// Values.
pub fn value_bank(f: &Function, v: Value) -> RegBank
    requires { KnownValue (function_of f.now) v.0 }
    ensures { result.0 ≡ value_bank (function_of f.now) v.0 }
{
    let i = usize::from(v.0);
    RegBank(f[i * 4])
}

fn remat_cost(f: &Function, v: Value) -> usize
    requires { KnownValue (function_of f.now) v.0 }
    ensures { result ≡ remat_cost (function_of f.now) v.0 }
{
    let i = usize::from(v.0);
    usize::from(f[1 + i * 4])
}

fn remat_class(f: &Function, v: Value) -> RegClass
    requires { KnownValue (function_of f.now) v.0 }
    ensures { result.0 ≡ remat_class (function_of f.now) v.0 }
{
    let i = usize::from(v.0);
    RegClass(f[2 + i * 4])
}

// The cost and the class of a value that can be rebuilt.
#[tactic(auto, unfolding(crate::specs::Answers::rematerialize))]
pub fn can_rematerialize(f: &Function, v: Value) -> Remat
    requires { KnownValue (function_of f.now) v.0 × (remat_cost (function_of f.now) v.0 ≤ 2) }
    ensures { remat_of result ≡ rematerialize (function_of f.now) v.0 }
{
    let cost = remat_cost(f, v);
    if cost == 0 {
        return Remat::Never;
    }
    let class = remat_class(f, v);
    if cost == 1 {
        return Remat::CheaperThanMove(class);
    }
    Remat::CheaperThanLoad(class)
}

// What is refused of a function. Evictions kept are one or two.
#[tactic(auto, unfolding(crate::specs::Function::is_setting))]
pub fn is_setting(n: usize) -> bool
    ensures { result ≡ is_setting n }
{
    if n == 1 {
        return true;
    }
    n == 2
}

#[tactic(auto, unfolding(crate::specs::Refused::counts_fit))]
fn counts_fit(f: &Function) -> bool
    ensures { result ≡ counts_fit (function_of f.now) }
{
    if 4096 < num_values(f) {
        return false;
    }
    if 4096 < num_slots(f) {
        return false;
    }
    slot_limit(f) <= 2048
}

#[tactic(auto, unfolding(crate::specs::Refused::value_fits))]
fn value_fits(t: &RegInfo, f: &Function, v: Value) -> bool
    requires { KnownValue (function_of f.now) v.0 }
    ensures { result ≡ value_fits (reg_info_of t.now) (function_of f.now) v.0 }
{
    let bank = value_bank(f, v);
    if num_banks(t) <= usize::from(bank.0) {
        return false;
    }
    let cost = remat_cost(f, v);
    if 2 < cost {
        return false;
    }
    if cost == 0 {
        return true;
    }
    let class = remat_class(f, v);
    usize::from(class.0) < num_classes(t)
}

// The class is read only where there is one, which has been seen to be the target's.
#[tactic(auto, unfolding(crate::specs::Refused::foreign_class))]
fn foreign_class(t: &RegInfo, f: &Function, v: Value) -> bool
    requires { KnownValue (function_of f.now) v.0 × (num_classes (reg_info_of t.now) ≤ 64) × (value_fits (reg_info_of t.now) (function_of f.now) v.0 ≡ true) }
    ensures { result ≡ foreign_class (reg_info_of t.now) (function_of f.now) v.0 }
{
    if remat_cost(f, v) == 0 {
        return false;
    }
    let bank = bank_for_class(t, remat_class(f, v));
    let own = value_bank(f, v);
    bank != own
}

// Tests a function over an accepted target, its setting first, then value by value.
#[tactic(auto, unfolding(crate::specs::Refused::function_refusal))]
pub fn check(t: &RegInfo, f: &Function) -> Result<(), FunctionError>
    requires { num_classes (reg_info_of t.now) ≤ 64 }
    ensures { number_of result ≡ function_refusal (reg_info_of t.now) (function_of f.now) }
{
    if !is_setting(kept_evictions(f)) {
        return Err(FunctionError::OtherSetting);
    }
    if !counts_fit(f) {
        return Err(FunctionError::OutsideLimits);
    }
    for i in 0..num_values(f) {
        let v = Value(i as u16);
        if !value_fits(t, f, v) {
            return Err(FunctionError::OutsideLimits);
        }
        if foreign_class(t, f, v) {
            return Err(FunctionError::ForeignClass);
        }
    }
    Ok(())
}
