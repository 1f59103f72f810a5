// A job read to its end and not resolved: the number by which reading refuses it, as 16 and 17 belong to resolving. What the working tables held does
// not matter.
#![tactic(auto)]

ghost use Rattle.std.specs.Prelude.{◌≡◌, drop};
ghost use Rattle.entity.specs.Logic.{Anything};
ghost use Rattle.reginfo.specs.Table.{reg_info_of};
ghost use Rattle.function.specs.Known.{Checked};
ghost use Rattle.function.specs.Table.{function_of};
ghost use Rattle.entries.specs.Answers.{added_of};
ghost use Rattle.job_numbers.specs.Numbers.{read_patches, read_job, number_of};

use entries::{Added, Entries};
use function::Function;
use number::Number;
use reading::Next;
use reginfo::RegInfo;
use small_set::RegUnitSet;
use sparse::SparseMap;

// The patches of a job, from an offset on, to its end.
pub fn check_patches(
    t: &RegInfo,
    f: &Function,
    s: &[u8],
    from: usize,
    count: u32,
    free: &mut RegUnitSet,
    e: &mut Entries,
    w: &mut SparseMap,
) -> Added
    requires { Checked t.now f.now }
    ensures result_value { added_of result ≡ number_of (read_patches (reg_info_of t.now) (function_of f.now) count (drop from s.now)) }
    ensures anything { Anything free.new × Anything e.new × Anything w.new }
{
    let mut at = from;
    for _done in 0..count {
        match job_patch::read_accepted(t, f, s, at, free, e, w) {
            Next::Refused(k) => return Added::Refused(k),
            Next::At(next) => at = next,
        }
    }
    if at < s.len() {
        return Added::Refused(8);
    }
    Added::Yes
}

// A job read to its end: the number by which reading refuses it, if it does.
pub fn check_job(
    s: &[u8],
    t: &mut RegInfo,
    f: &mut Function,
    free: &mut RegUnitSet,
    e: &mut Entries,
    w: &mut SparseMap,
) -> Added
    ensures result_value { added_of result ≡ number_of (read_job s.now) }
    ensures anything { Anything t.new × Anything f.new × Anything free.new × Anything e.new × Anything w.new }
{
    match job::read_opening(1, s, t, f) {
        Number::Refused(k) => Added::Refused(k),
        Number::Is(count, at) => check_patches(t, f, s, at, count, free, e, w),
    }
}
