// The opening of a job, and one patch after the other read and resolved.
#![tactic(auto)]

ghost use Rattle.std.specs.Prelude.{◌≡◌, true, ℕ, ◌≤◌, length, drop};
ghost use Rattle.entity.specs.Logic.{has, Anything};
ghost use Rattle.reginfo.specs.Refused.{target_refusal};
ghost use Rattle.reginfo.specs.Table.{reg_info_of};
ghost use Rattle.function.specs.Function.{is_setting};
ghost use Rattle.function.specs.Known.{Checked};
ghost use Rattle.function.specs.Table.{function_of};
ghost use Rattle.small_set.specs.Set.{set_of};
ghost use Rattle.rules.specs.Patch.{Patch, resolve_sorted, resolve};
ghost use Rattle.slots.specs.Stacks.{cache_of};
ghost use Rattle.entries.specs.Table.{sorted_of};
ghost use Rattle.entries.specs.Known.{EntriesOk};
ghost use Rattle.job_patch.specs.Patches.{unless_given, patch};
ghost use Rattle.parallel_moves.specs.Given.{CacheOk};
ghost use Rattle.job_rules.specs.Job.{beginning, opening};
ghost use Rattle.job_rules.specs.Priced.{unless_outside, beginning_priced, opening_priced};
ghost use Rattle.job_rules.specs.Formula.{with_function_within, beginning_within, opening_within};
ghost use Rattle.job.specs.Steps.{BegunAt, HeaderAt, CallAt, StepAt};

use carried::Carried;
use edit::Edits;
use entries::Entries;
use function::Function;
use number::Number;
use parallel_moves::Resolved;
use price::Prices;
use reading::Next;
use reginfo::RegInfo;
use scratch::Diversions;
use slots::{EmergencySpillSlotCache, Slots};
use small_set::RegUnitSet;
use sparse::SparseMap;
use visits::States;

// How many edits a patch has, the greatest position that it met and where the next one stands, or 01's number.
#[derive(Drop)]
pub enum Step {
    Edits(usize, u16, usize),
    Refused(u8),
}

// 4 to 7, then 19 where prices were given that are outside their range, then the function, of `kept` kept evictions, its N from `least` to `most`. The
// target is tested before the function is read, since the function's values name its banks and classes.
fn read_after_target(
    s: &[u8],
    at: usize,
    t: &mut RegInfo,
    f: &mut Function,
    kept: u16,
    in_range: bool,
    least: u32,
    most: u32,
) -> Next
    requires { (is_setting kept ≡ true) × (most ≤ 4096) }
    ensures { BegunAt s.now (unless_given (target_refusal (reg_info_of t.old)) (unless_outside in_range (with_function_within least most (reg_info_of t.old) kept (drop at s.now)))) result t.new f.new }
{
    match target_check::check(t) {
        Ok(()) => {
            if !in_range {
                return Next::Refused(19);
            }
            job_function::read_function_within(least, most, t, s, at, f, kept)
        }
        Err(error) => Next::Refused(error.number()),
    }
}

// The target and the function that the bytes begin with, its N from `least` to `most`, and 19 between them unless the prices are in their range.
fn read_beginning_if(
    in_range: bool,
    least: u32,
    most: u32,
    kept_evictions: u32,
    s: &[u8],
    t: &mut RegInfo,
    f: &mut Function,
) -> Next
    requires { most ≤ 4096 }
    ensures { BegunAt s.now (beginning_within in_range least most kept_evictions s.now) result t.new f.new }
{
    if !function::is_setting(kept_evictions as usize) {
        return Next::Refused(22);
    }
    if 65536 < s.len() {
        return Next::Refused(2);
    }
    match job_target::read_target(s, 0, t) {
        Next::Refused(k) => Next::Refused(k),
        Next::At(next) => read_after_target(
            s,
            next,
            t,
            f,
            kept_evictions as u16,
            in_range,
            least,
            most,
        ),
    }
}

// The target and the function that the bytes begin with; 22 first, for a setting other than 1 or 2. What the tables held does not matter.
pub fn read_beginning(kept_evictions: u32, s: &[u8], t: &mut RegInfo, f: &mut Function) -> Next
    ensures { BegunAt s.now (beginning kept_evictions s.now) result t.new f.new }
{
    read_beginning_if(true, 0, 4096, kept_evictions, s, t, f)
}

// The same of a target that gives these prices: 19 for one outside its range, after 7 and before the function's first number.
pub fn read_priced_beginning(
    kept_evictions: u32,
    p: Prices,
    s: &[u8],
    t: &mut RegInfo,
    f: &mut Function,
) -> Next
    ensures { BegunAt s.now (beginning_priced p kept_evictions s.now) result t.new f.new }
{
    read_beginning_if(price::in_range(p), 0, 4096, kept_evictions, s, t, f)
}

// 02 l: the same of a formula in a frame: its N from `least` to `most`, which is tested as it is read.
pub fn read_beginning_within(
    least: u32,
    most: u32,
    kept_evictions: u32,
    s: &[u8],
    t: &mut RegInfo,
    f: &mut Function,
) -> Next
    requires { most ≤ 4096 }
    ensures { BegunAt s.now (beginning_within true least most kept_evictions s.now) result t.new f.new }
{
    read_beginning_if(true, least, most, kept_evictions, s, t, f)
}

// The target, the function, its N from `least` to `most`, and the patch count, and 19 behind the target unless the prices are in their range.
fn read_opening_if(
    in_range: bool,
    least: u32,
    most: u32,
    kept_evictions: u32,
    s: &[u8],
    t: &mut RegInfo,
    f: &mut Function,
) -> Number
    requires { most ≤ 4096 }
    ensures { HeaderAt s.now (opening_within in_range least most kept_evictions s.now) result t.new f.new }
{
    match read_beginning_if(in_range, least, most, kept_evictions, s, t, f) {
        Next::Refused(k) => Number::Refused(k),
        Next::At(next) => reading::between(s, next, 1, 1024),
    }
}

// The target, the function and the patch count of a job, which goes on at the offset given; 22 first, for a setting other than 1 or 2. What the
// tables held does not matter.
pub fn read_opening(kept_evictions: u32, s: &[u8], t: &mut RegInfo, f: &mut Function) -> Number
    ensures { HeaderAt s.now (opening kept_evictions s.now) result t.new f.new }
{
    read_opening_if(true, 0, 4096, kept_evictions, s, t, f)
}

// 02 l: the same of a formula in a frame: its N from `least` to `most`, which is tested as it is read.
pub fn read_opening_within(
    least: u32,
    most: u32,
    kept_evictions: u32,
    s: &[u8],
    t: &mut RegInfo,
    f: &mut Function,
) -> Number
    requires { most ≤ 4096 }
    ensures { HeaderAt s.now (opening_within true least most kept_evictions s.now) result t.new f.new }
{
    read_opening_if(true, least, most, kept_evictions, s, t, f)
}

// The same of a target that gives these prices: 19 for one outside its range, after 7 and before the function's first number.
pub fn read_priced_opening(
    kept_evictions: u32,
    p: Prices,
    s: &[u8],
    t: &mut RegInfo,
    f: &mut Function,
) -> Number
    ensures { HeaderAt s.now (opening_priced p kept_evictions s.now) result t.new f.new }
{
    read_opening_if(price::in_range(p), 0, 4096, kept_evictions, s, t, f)
}

// Resolves the patch that the tables hold; the next one stands at `next`.
fn resolve_before(
    t: &RegInfo,
    f: &Function,
    free: &RegUnitSet,
    e: &Entries,
    w: &SparseMap,
    cache: &mut EmergencySpillSlotCache,
    list: &mut [u64],
    available: &mut RegUnitSet,
    sources: &mut RegUnitSet,
    edits: &mut Edits,
    slots: &mut Slots,
    d: &mut Diversions,
    marks: &mut States,
    c: &mut Carried,
    next: usize,
) -> Step
    requires { Checked t.now f.now × EntriesOk t.now f.now e.now w.now × CacheOk f.now cache.old }
    ensures by_index { (p : Patch) → ((u : ℕ) → has u p.free ≡ set_of free.now u) → CallAt f.now (resolve_sorted (reg_info_of t.now) (function_of f.now) p (length list.old) (cache_of cache.old) (sorted_of e.now)) next result list.old list.new cache.old cache.new }
    ensures anything { Anything available.new × Anything sources.new × Anything edits.new × Anything slots.new × Anything d.new × Anything marks.new × Anything c.new }
{
    match parallel_moves::resolve(
        t, f, e, w, free, cache, list, available, sources, edits, slots, d, marks, c,
    ) {
        Resolved::Refused(k) => Step::Refused(k),
        Resolved::Edits(n, met) => Step::Edits(n, met, next),
    }
}

// The patch at an offset: read and resolved. What the working tables held does not matter.
pub fn answer_patch(
    t: &RegInfo,
    f: &Function,
    s: &[u8],
    at: usize,
    cache: &mut EmergencySpillSlotCache,
    list: &mut [u64],
    free: &mut RegUnitSet,
    e: &mut Entries,
    w: &mut SparseMap,
    available: &mut RegUnitSet,
    sources: &mut RegUnitSet,
    edits: &mut Edits,
    slots: &mut Slots,
    d: &mut Diversions,
    marks: &mut States,
    c: &mut Carried,
) -> Step
    requires { Checked t.now f.now × CacheOk f.now cache.old }
    ensures step_at { StepAt resolve t.now f.now s.now (patch (reg_info_of t.now) (function_of f.now) (drop at s.now)) result list.old list.new cache.old cache.new }
    ensures anything { Anything free.new × Anything e.new × Anything w.new × Anything available.new × Anything sources.new × Anything edits.new × Anything slots.new × Anything d.new × Anything marks.new × Anything c.new }
{
    match job_patch::read_patch(t, f, s, at, free, e, w) {
        Next::Refused(k) => Step::Refused(k),
        Next::At(next) => resolve_before(
            t, f, free, e, w, cache, list, available, sources, edits, slots, d, marks, c, next,
        ),
    }
}
