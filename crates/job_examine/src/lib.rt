// A list of words examined for one patch of a job (02 m).
#![tactic(auto)]

ghost use Rattle.std.specs.Prelude.{◌≡◌, ◌≤◌, drop};
ghost use Rattle.entity.specs.Logic.{Anything};
ghost use Rattle.reginfo.specs.Table.{reg_info_of};
ghost use Rattle.function.specs.Known.{Checked};
ghost use Rattle.function.specs.Table.{function_of};
ghost use Rattle.job_patch.specs.Steps.{PatchAt};
ghost use Rattle.examine.specs.Answer.{verdict_of};
ghost use Rattle.job_examine.specs.Job.{patch_at, examine_at, examine_job, examine_job_in};

use cells::{Cells, Words};
use entries::Entries;
use examine::Examined;
use function::Function;
use number::Number;
use reading::Next;
use reginfo::RegInfo;
use small_set::RegUnitSet;
use sparse::SparseMap;
use ties::Ties;

// The patch behind n others, which are read and tested too. What the tables held does not matter.
fn read_numbered(
    t: &RegInfo,
    f: &Function,
    s: &[u8],
    at: usize,
    n: usize,
    free: &mut RegUnitSet,
    e: &mut Entries,
    w: &mut SparseMap,
) -> Next
    requires { Checked t.now f.now }
    ensures { PatchAt t.now f.now s.now (patch_at (reg_info_of t.now) (function_of f.now) n (drop at s.now)) result free.new e.new w.new }
{
    let mut q = at;
    for _done in 0..n {
        match job_patch::read_accepted(t, f, s, q, free, e, w) {
            Next::Refused(k) => return Next::Refused(k),
            Next::At(next) => q = next,
        }
    }
    job_patch::read_patch(t, f, s, q, free, e, w)
}

// The patch numbered n of those that stand at an offset; 2 where there is none.
fn examine_numbered(
    t: &RegInfo,
    f: &Function,
    s: &[u8],
    at: usize,
    count: usize,
    n: usize,
    list: &[u64],
    most: usize,
    free: &mut RegUnitSet,
    e: &mut Entries,
    w: &mut SparseMap,
    x: &mut Ties,
    c: &mut Cells,
    start: &mut Cells,
    b: &mut Words,
    d: &mut Words,
) -> Examined
    requires { Checked t.now f.now × (most ≤ 2048) }
    ensures result_value { verdict_of result ≡ examine_at (reg_info_of t.now) (function_of f.now) count n most list.now (drop at s.now) }
    ensures anything { Anything free.new × Anything e.new × Anything w.new × Anything x.new × Anything c.new × Anything start.new × Anything b.new × Anything d.new }
{
    if count <= n {
        return Examined::Refused(2);
    }
    match read_numbered(t, f, s, at, n, free, e, w) {
        Next::Refused(k) => Examined::Refused(k),
        Next::At(_) => examine::examine_patch(t, f, e, w, free, list, most, x, c, start, b, d),
    }
}

// A list for a patch of a job: yes or no, or the number by which the job, the patch or the list is refused. What the tables held does not matter.
pub fn examine_job(
    s: &[u8],
    n: u32,
    list: &[u64],
    t: &mut RegInfo,
    f: &mut Function,
    free: &mut RegUnitSet,
    e: &mut Entries,
    w: &mut SparseMap,
    x: &mut Ties,
    c: &mut Cells,
    start: &mut Cells,
    b: &mut Words,
    d: &mut Words,
) -> Examined
    ensures result_value { verdict_of result ≡ examine_job n list.now s.now }
    ensures anything { Anything t.new × Anything f.new × Anything free.new × Anything e.new × Anything w.new × Anything x.new × Anything c.new × Anything start.new × Anything b.new × Anything d.new }
{
    match job::read_opening(1, s, t, f) {
        Number::Refused(k) => Examined::Refused(k),
        Number::Is(count, at) => {
            let most = function::slot_limit(f);
            examine_numbered(
                t,
                f,
                s,
                at,
                count as usize,
                n as usize,
                list,
                most,
                free,
                e,
                w,
                x,
                c,
                start,
                b,
                d,
            )
        }
    }
}

// The same for a formula of a shared frame with this limit, which stands for L; 2 first for a limit over 2,048.
pub fn examine_job_in(
    limit: u32,
    s: &[u8],
    n: u32,
    list: &[u64],
    t: &mut RegInfo,
    f: &mut Function,
    free: &mut RegUnitSet,
    e: &mut Entries,
    w: &mut SparseMap,
    x: &mut Ties,
    c: &mut Cells,
    start: &mut Cells,
    b: &mut Words,
    d: &mut Words,
) -> Examined
    ensures result_value { verdict_of result ≡ examine_job_in limit n list.now s.now }
    ensures anything { Anything t.new × Anything f.new × Anything free.new × Anything e.new × Anything w.new × Anything x.new × Anything c.new × Anything start.new × Anything b.new × Anything d.new }
{
    if 2048 < limit {
        return Examined::Refused(2);
    }
    match job::read_opening(1, s, t, f) {
        Number::Refused(k) => Examined::Refused(k),
        Number::Is(count, at) => examine_numbered(
            t,
            f,
            s,
            at,
            count as usize,
            n as usize,
            list,
            limit as usize,
            free,
            e,
            w,
            x,
            c,
            start,
            b,
            d,
        ),
    }
}
