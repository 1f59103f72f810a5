// Both settings tried on patches drawn for a job's function (02 n).
#![tactic(auto)]

ghost use Rattle.std.specs.Prelude.{◌≡◌, true, ◌≤◌, drop};
ghost use Rattle.entity.specs.Logic.{Anything};
ghost use Rattle.reginfo.specs.Table.{reg_info_of};
ghost use Rattle.function.specs.Known.{Checked};
ghost use Rattle.function.specs.Table.{function_of};
ghost use Rattle.entries.specs.Answers.{added_of};
ghost use Rattle.price.specs.Price.{in_range};
ghost use Rattle.job_tries.specs.Tries.{rest_refusal, function_asked, asked, Both, TriedBy, FunctionAt};

use carried::Carried;
use edit::Edits;
use entries::{Added, Entries};
use function::Function;
use number::Number;
use price::Prices;
use reading::Next;
use reginfo::RegInfo;
use scratch::Diversions;
use slots::{EmergencySpillSlotCache, Slots};
use small_set::RegUnitSet;
use sparse::SparseMap;
use trying::Tally;
use visits::States;

// Both settings, one after the other, from the same seed.
pub fn try_both(
    t: &RegInfo,
    f: &mut Function,
    p: Prices,
    seed: u32,
    patches: usize,
    one: &mut Tally,
    two: &mut Tally,
    cache: &mut EmergencySpillSlotCache,
    e: &mut Entries,
    w: &mut SparseMap,
    available: &mut RegUnitSet,
    sources: &mut RegUnitSet,
    edits: &mut Edits,
    slots: &mut Slots,
    d: &mut Diversions,
    marks: &mut States,
    c: &mut Carried,
)
    requires { Checked t.now f.old × (in_range p ≡ true) × (patches ≤ 1024) }
    ensures both { Both (reg_info_of t.now) (function_of f.old) p seed patches one.new two.new }
    ensures anything { Anything f.new × Anything cache.new × Anything e.new × Anything w.new × Anything available.new × Anything sources.new × Anything edits.new × Anything slots.new × Anything d.new × Anything marks.new × Anything c.new }
{
    let mut numbers = [0u32; 64];
    let mut list = [0u64; 1024];
    trying::try_setting(
        t,
        f,
        1,
        p,
        seed,
        patches,
        cache,
        one,
        &mut numbers,
        &mut list,
        e,
        w,
        available,
        sources,
        edits,
        slots,
        d,
        marks,
        c,
    );
    trying::try_setting(
        t,
        f,
        2,
        p,
        seed,
        patches,
        cache,
        two,
        &mut numbers,
        &mut list,
        e,
        w,
        available,
        sources,
        edits,
        slots,
        d,
        marks,
        c,
    );
}

// What stands behind a function: nothing, or the patches of a job, read to its end. What the working tables held does not matter.
fn check_rest(
    t: &RegInfo,
    f: &Function,
    s: &[u8],
    at: usize,
    free: &mut RegUnitSet,
    e: &mut Entries,
    w: &mut SparseMap,
) -> Added
    requires { Checked t.now f.now }
    ensures result_value { added_of result ≡ rest_refusal (reg_info_of t.now) (function_of f.now) (drop at s.now) }
    ensures anything { Anything free.new × Anything e.new × Anything w.new }
{
    if s.len() <= at {
        return Added::Yes;
    }
    match reading::between(s, at, 1, 1024) {
        Number::Refused(k) => Added::Refused(k),
        Number::Is(count, next) => job_check::check_patches(t, f, s, next, count, free, e, w),
    }
}

// The target and the function that are tried with these prices: alone, or those of a job, which is read to its end and not resolved.
pub fn read_function(
    p: Prices,
    s: &[u8],
    t: &mut RegInfo,
    f: &mut Function,
    free: &mut RegUnitSet,
    e: &mut Entries,
    w: &mut SparseMap,
) -> Added
    ensures function_at { FunctionAt p (function_asked p s.now) result t.new f.new }
    ensures anything { Anything free.new × Anything e.new × Anything w.new }
{
    match job::read_priced_beginning(1, p, s, t, f) {
        Next::Refused(k) => Added::Refused(k),
        Next::At(at) => check_rest(t, f, s, at, free, e, w),
    }
}

// Draws so many patches of a function from a seed, counts what becomes of them with one kept eviction and with two, and answers 0; or the
// number, and both tables are left as they were. What the working tables held does not matter.
pub fn try_job(
    p: Prices,
    s: &[u8],
    seed: u32,
    patches: u32,
    one: &mut Tally,
    two: &mut Tally,
    t: &mut RegInfo,
    f: &mut Function,
    cache: &mut EmergencySpillSlotCache,
    e: &mut Entries,
    w: &mut SparseMap,
    available: &mut RegUnitSet,
    sources: &mut RegUnitSet,
    edits: &mut Edits,
    slots: &mut Slots,
    d: &mut Diversions,
    marks: &mut States,
    c: &mut Carried,
) -> u8
    ensures tried_by { TriedBy (asked p patches s.now) p seed patches result one.old two.old one.new two.new }
    ensures anything { Anything t.new × Anything f.new × Anything cache.new × Anything e.new × Anything w.new × Anything available.new × Anything sources.new × Anything edits.new × Anything slots.new × Anything d.new × Anything marks.new × Anything c.new }
{
    if patches < 1 {
        return 2;
    }
    if 1024 < patches {
        return 2;
    }
    match read_function(p, s, t, f, available, e, w) {
        Added::Refused(k) => k,
        Added::Yes => {
            try_both(
                t,
                f,
                p,
                seed,
                patches as usize,
                one,
                two,
                cache,
                e,
                w,
                available,
                sources,
                edits,
                slots,
                d,
                marks,
                c,
            );
            0
        }
    }
}
