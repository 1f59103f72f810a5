// A job written from its numbers or from the tables of its opening, with the reader's number for what reading would refuse (02 a): "checked target,
// function and patches in, job bytes out, in shortest numbers". What the working bytes and tables held does not matter.
#![tactic(auto)]

ghost use Rattle.std.specs.Prelude.{List, ◌++◌, ℕ, length};
ghost use Rattle.entity.specs.Logic.{Anything};
ghost use Rattle.reginfo.specs.Table.{reg_info_of};
ghost use Rattle.function.specs.Known.{Checked};
ghost use Rattle.function.specs.Table.{function_of};
ghost use Rattle.job_numbers.specs.Numbers.{target_numbers, function_numbers, bytes_of, written};
ghost use Rattle.job_bytes.specs.Puts.{Puts};
ghost use Rattle.job_writer.specs.Steps.{handed, settled, Within, WrittenAs};

use entries::{Added, Entries};
use function::Function;
use job_bytes::Work;
use reginfo::RegInfo;
use small_set::RegUnitSet;
use sparse::SparseMap;

// How many bytes the job has, or 01's number, or 18.
#[derive(Drop)]
pub enum Written {
    Bytes(usize),
    Refused(u8),
}

// The bytes go to the front of the lent ones, if there is room; else 18.
fn hand_out(bytes: &[u8], out: &mut [u8]) -> Written
    ensures { WrittenAs (handed bytes.now (length out.old)) out.old out.new result }
{
    if out.len() < bytes.len() {
        return Written::Refused(18);
    }
    Written::Bytes(print::put_text(out, 0, bytes))
}

// The bytes of a job: the reader's number, if reading refuses them; then 18; else they are handed out.
fn settle(
    bytes: &[u8],
    out: &mut [u8],
    t: &mut RegInfo,
    f: &mut Function,
    free: &mut RegUnitSet,
    e: &mut Entries,
    w: &mut SparseMap,
) -> Written
    ensures written_as { WrittenAs (settled bytes.now (length out.old)) out.old out.new result }
    ensures anything { Anything t.new × Anything f.new × Anything free.new × Anything e.new × Anything w.new }
{
    match job_check::check_job(bytes, t, f, free, e, w) {
        Added::Refused(k) => Written::Refused(k),
        Added::Yes => hand_out(bytes, out),
    }
}

// The job whose bytes were put: 2, if they are too many.
fn finish(
    put: Option<usize>,
    work: &[u8],
    out: &mut [u8],
    t: &mut RegInfo,
    f: &mut Function,
    free: &mut RegUnitSet,
    e: &mut Entries,
    w: &mut SparseMap,
) -> Written
    requires { Within (length work.now) put }
    ensures by_index { (ns work₀ : List ℕ) → Puts work₀ 0 (bytes_of ns) work.now put → WrittenAs (written ns (length out.old)) out.old out.new result }
    ensures anything { Anything t.new × Anything f.new × Anything free.new × Anything e.new × Anything w.new }
{
    match put {
        None => Written::Refused(2),
        Some(n) => settle(&work[..n], out, t, f, free, e, w),
    }
}

// A whole job as numbers, of which nothing is asked.
pub fn write_numbers(
    numbers: &[u32],
    out: &mut [u8],
    work: &mut Work,
    t: &mut RegInfo,
    f: &mut Function,
    free: &mut RegUnitSet,
    e: &mut Entries,
    w: &mut SparseMap,
) -> Written
    ensures written_as { WrittenAs (written numbers.now (length out.old)) out.old out.new result }
    ensures anything { Anything work.new × Anything t.new × Anything f.new × Anything free.new × Anything e.new × Anything w.new }
{
    let put = job_bytes::put_numbers(work, 0, numbers);
    finish(put, work, out, t, f, free, e, w)
}

// Target, function and numbers, one behind the other.
fn put_job(work: &mut Work, t: &RegInfo, f: &Function, numbers: &[u32]) -> Option<usize>
    requires { Checked t.now f.now }
    ensures { Puts work.old 0 (bytes_of (target_numbers (reg_info_of t.now) ++ (function_numbers (function_of f.now) ++ numbers.now))) work.new result }
{
    let a = job_bytes::put_target(work, 0, t)?;
    let next = job_bytes::put_function(work, a, f)?;
    job_bytes::put_numbers(work, next, numbers)
}

// Checked tables, and the job's numbers from its patch count on. It is read back into `target` and `function`, which are worked in.
pub fn write_job(
    t: &RegInfo,
    f: &Function,
    numbers: &[u32],
    out: &mut [u8],
    work: &mut Work,
    target: &mut RegInfo,
    function: &mut Function,
    free: &mut RegUnitSet,
    e: &mut Entries,
    w: &mut SparseMap,
) -> Written
    requires { Checked t.now f.now }
    ensures written_as { WrittenAs (written (target_numbers (reg_info_of t.now) ++ (function_numbers (function_of f.now) ++ numbers.now)) (length out.old)) out.old out.new result }
    ensures anything { Anything work.new × Anything target.new × Anything function.new × Anything free.new × Anything e.new × Anything w.new }
{
    let put = put_job(work, t, f, numbers);
    finish(put, work, out, target, function, free, e, w)
}
