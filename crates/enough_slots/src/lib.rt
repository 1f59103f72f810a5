// The emergency slots that are enough for a function, whatever its patches (02 j): "an L to plan with".
#![tactic(auto)]

ghost use Rattle.std.specs.Prelude.{◌≡◌, ◌<◌, ◌≤◌, length};
ghost use Rattle.reginfo.specs.RegInfo.{spillslot_size};
ghost use Rattle.reginfo.specs.Table.{reg_info_of};
ghost use Rattle.function.specs.Function.{num_values, value_bank};
ghost use Rattle.function.specs.Known.{Checked};
ghost use Rattle.function.specs.Table.{function_of};
ghost use Rattle.small_set.specs.Set.{set_of, inserted};
ghost use Rattle.machine.specs.Enough.{sizes_that, num_sizes, enough_slots};
ghost use Rattle.enough_slots.specs.Sizes.{AllMarked};

use entity::Value;
use function::{Function, kept_evictions, num_values, value_bank};
use reginfo::{RegInfo, spillslot_size};

// Marks the size of the slots of a value's bank.
fn mark_size(t: &RegInfo, f: &Function, v: Value, sizes: &mut [bool; 32])
    requires { Checked t.now f.now × (v.0 < num_values (function_of f.now)) }
    ensures { set_of sizes.new ≡ inserted (set_of sizes.old) (spillslot_size (reg_info_of t.now) (value_bank (function_of f.now) v.0)) }
{
    let z = spillslot_size(t, value_bank(f, v));
    sizes[z] = true;
}

// Marks those of all values' banks.
fn mark_sizes(t: &RegInfo, f: &Function, sizes: &mut [bool; 32])
    requires { Checked t.now f.now }
    ensures { AllMarked (reg_info_of t.now) (function_of f.now) sizes.old sizes.new }
{
    for i in 0..num_values(f) {
        mark_size(t, f, Value(i as u16), sizes);
    }
}

fn num_marked(sizes: &[bool; 32]) -> usize
    ensures { result ≡ sizes_that (set_of sizes.now) }
{
    let mut n: usize = 0;
    for marked in sizes {
        if *marked {
            n += 1;
        }
    }
    n
}

// How many different slot sizes the banks of its values have.
fn num_sizes(t: &RegInfo, f: &Function) -> usize
    requires { Checked t.now f.now }
    ensures { result ≡ num_sizes (reg_info_of t.now) (function_of f.now) }
{
    let mut sizes = [false; 32];
    mark_sizes(t, f, &mut sizes);
    num_marked(&sizes)
}

// So many slots for each of those sizes that no call gets 17 with them; at most 1,040. The function's own L does not matter.
pub fn enough_slots(t: &RegInfo, f: &Function) -> u16
    requires { Checked t.now f.now }
    ensures { (result ≡ enough_slots (reg_info_of t.now) (function_of f.now)) × (result ≤ 1040) }
{
    let sizes = num_sizes(t, f);
    let each = 128 + kept_evictions(f);
    (each * sizes) as u16
}
