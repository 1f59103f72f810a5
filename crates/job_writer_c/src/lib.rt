// The library for C and Rust, writing: a job from its numbers, or of an opened function; and the shipped target that one may be made on. What the
// working bytes and tables held does not matter. Asked is of `parallel_moves_write_opened` only: what `parallel_moves_open` left.
#![tactic(auto)]

ghost use Rattle.std.specs.Prelude.{◌≡◌, List, ◌++◌, ℕ, length, take};
ghost use Rattle.entity.specs.Logic.{Anything};
ghost use Rattle.reginfo.specs.Table.{reg_info_of};
ghost use Rattle.function.specs.Known.{Checked};
ghost use Rattle.function.specs.Table.{function_of};
ghost use Rattle.shipped.specs.Shipped.{shipped};
ghost use Rattle.job_numbers.specs.Numbers as numbers;
ghost use Rattle.job_numbers.specs.Numbers.{written, target_numbers, function_numbers, bytes_of};
ghost use Rattle.job_writer.specs.Steps.{WrittenAs};
ghost use Rattle.job_writer_c.specs.Told.{ToldAs};

use entries::Entries;
use function::Function;
use job_bytes::Work;
use job_writer::Written;
use reginfo::RegInfo;
use small_set::RegUnitSet;
use sparse::SparseMap;

// What a caller is told of a job that was written, or not: its length, and `refusal` set to 0; or 0, and `refusal` set to the number.
fn tell(written: Written, refusal: &mut u8) -> usize
    ensures { (x : numbers.Written) (bytes bytes' : List ℕ) → WrittenAs x bytes bytes' written → ToldAs x result refusal.new bytes bytes' }
{
    match written {
        Written::Bytes(n) => {
            *refusal = 0;
            n
        }
        Written::Refused(k) => {
            *refusal = k;
            0
        }
    }
}

// Writes a job, given as all its numbers, to the front of `bytes`: answers its length, and sets `refusal` to 0; or answers 0, and sets `refusal` to
// the number by which the reader would refuse it, or to 18, where `bytes` are too few. Then no byte is written.
#[unsafe(no_mangle)]
pub extern "C" fn parallel_moves_write_5(
    numbers: &[u32],
    bytes: &mut [u8],
    refusal: &mut u8,
    work: &mut Work,
    target: &mut RegInfo,
    function: &mut Function,
    available: &mut RegUnitSet,
    entries: &mut Entries,
    writers: &mut SparseMap,
) -> usize
    ensures told_as { ToldAs (written numbers.now (length bytes.old)) result refusal.new bytes.old bytes.new }
    ensures anything { Anything work.new × Anything target.new × Anything function.new × Anything available.new × Anything entries.new × Anything writers.new }
{
    let r = job_writer::write_numbers(
        numbers, bytes, work, target, function, available, entries, writers,
    );
    tell(r, refusal)
}

// The same of a function that is open: writes a job of this target and function, whose numbers from the patch count on are given. Asked is that
// target and function are as `parallel_moves_open` left them when it answered 0. The job is read back into `read_target` and `read_function`.
#[unsafe(no_mangle)]
pub extern "C" fn parallel_moves_write_opened_5(
    target: &RegInfo,
    function: &Function,
    numbers: &[u32],
    bytes: &mut [u8],
    refusal: &mut u8,
    work: &mut Work,
    read_target: &mut RegInfo,
    read_function: &mut Function,
    available: &mut RegUnitSet,
    entries: &mut Entries,
    writers: &mut SparseMap,
) -> usize
    requires { Checked target.now function.now }
    ensures told_as { ToldAs (written (target_numbers (reg_info_of target.now) ++ (function_numbers (function_of function.now) ++ numbers.now)) (length bytes.old)) result refusal.new bytes.old bytes.new }
    ensures anything { Anything work.new × Anything read_target.new × Anything read_function.new × Anything available.new × Anything entries.new × Anything writers.new }
{
    let r = job_writer::write_job(
        target,
        function,
        numbers,
        bytes,
        work,
        read_target,
        read_function,
        available,
        entries,
        writers,
    );
    tell(r, refusal)
}

// Writes the shipped target to the front of `work`, as a job on it begins, and answers how many bytes it has. What stands past them may be anything.
#[unsafe(no_mangle)]
pub extern "C" fn parallel_moves_shipped_5(work: &mut Work, target: &mut RegInfo) -> usize
    ensures { (result ≡ length (bytes_of (target_numbers shipped))) × (take result work.new ≡ bytes_of (target_numbers shipped)) × Anything target.new }
{
    shipped::fill(target);
    match job_bytes::put_target(work, 0, target) {
        Some(n) => n,
        None => 0,
    }
}
