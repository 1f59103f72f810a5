// A program: each job of the records on standard input is written anew, from the numbers that its bytes are and from the tables that its opening is
// read into, and held against the job, byte for byte. Where the writer refuses it, its number is held against the recorded text's. 02 a: "any
// accepted job read and written again has its old bytes".
#![tactic(auto)]

ghost use Rattle.std.specs.Prelude.{◌≡◌, List, ℕ, ◌<◌, ◌≤◌, eqb, length};
ghost use Rattle.entity.specs.Logic.{or};
ghost use Rattle.function.specs.Known.{Checked};
ghost use Rattle.job_numbers.specs.Numbers as numbers;
ghost use Rattle.job_numbers.specs.Numbers.{written};
ghost use Rattle.job_writer.specs.declared.Written.TheVariants.{Bytes};
ghost use Rattle.job_writer.specs.Steps.{WrittenAs};
ghost use Rattle.rewrite.specs.Rewritten.{DecodedAs, tells_of, recorded_in, HeldAs, tables_numbers, FromTables, BothAre, Rewritten};

use function::Function;
use job_writer::Written;
use number::Number;
use reading::Next;
use records::Cut;
use reginfo::RegInfo;

// What became of a job: its own bytes, the recorded refusal, no numbers, or anything else; or there is none.
// Ends of equal rank: none is an error that a caller would pass on.
#[derive(Drop)]
enum Outcome {
    Same,
    Refused,
    NoNumbers,
    Differs,
    End,
}

// The numbers that the bytes are, put at the front of the lent ones: how many they are; nothing, if they are not all numbers.
fn decode(s: &[u8], numbers: &mut [u32; 16384]) -> Option<usize>
    requires { length s.now ≤ 16384 }
    ensures { DecodedAs s.now numbers.new result }
{
    let mut at = 0;
    let mut n = 0;
    // Kept a `while`: the cursor goes on by each number's length.
    while at < s.len() {
        match number::read(s, at) {
            Number::Refused(_) => return None,
            Number::Is(x, next) => {
                numbers[n] = x;
                n += 1;
                at = next;
            }
        }
    }
    Some(n)
}

// Whether the text's last line is that of refusal k.
fn tells(text: &[u8], k: u8) -> bool
    ensures { result ≡ tells_of text.now k }
{
    let mut line = [0u8; 32];
    let m = print::put_refused(&mut line, 0, k as usize);
    if text.len() < m {
        return false;
    }
    let from = text.len() - m;
    records::same(&text[from..], &line[..m])
}

// The number of the refusal that a text ends with, or 0.
fn recorded(text: &[u8]) -> u8
    ensures { result ≡ recorded_in text.now }
{
    for k in 1..23 {
        if tells(text, k) {
            return k;
        }
    }
    0
}

// Whether the reader's number k, or 0, agrees with the recorded one: 17 and 22 are not the reader's, and come before what follows them.
fn agrees(told: u8, k: u8) -> bool
    ensures { result ≡ or (eqb told 17) (or (eqb told 22) (eqb told k)) }
{
    if told == 17 {
        return true;
    }
    if told == 22 {
        return true;
    }
    told == k
}

// The numbers written into the lent bytes.
fn write(numbers: &[u32], out: &mut [u8]) -> Written
    ensures { WrittenAs (written numbers.now (length out.old)) out.old out.new result }
{
    let mut work = [0u8; 65536];
    let mut t = [0u16; 107520];
    let mut f = [0u16; 16388];
    let mut free = [false; 512];
    let mut e = [0u16; 1541];
    let mut w = [0u16; 6657];
    job_writer::write_numbers(
        numbers, out, &mut work, &mut t, &mut f, &mut free, &mut e, &mut w,
    )
}

// The same from checked tables, and the job's numbers from its patch count on.
fn write_tables(t: &RegInfo, f: &Function, numbers: &[u32], out: &mut [u8]) -> Written
    requires { Checked t.now f.now }
    ensures { WrittenAs (written (tables_numbers t.now f.now numbers.now) (length out.old)) out.old out.new result }
{
    let mut work = [0u8; 65536];
    let mut target = [0u16; 107520];
    let mut function = [0u16; 16388];
    let mut free = [false; 512];
    let mut e = [0u16; 1541];
    let mut w = [0u16; 6657];
    job_writer::write_job(
        t,
        f,
        numbers,
        out,
        &mut work,
        &mut target,
        &mut function,
        &mut free,
        &mut e,
        &mut w,
    )
}

// What was written to the front of `out` held against the job, or the number held against the recorded one, which is 0 for none.
fn held(s: &[u8], recorded: u8, written: Written, out: &[u8]) -> Outcome
    requires { (n : ℕ) → written ≡ Bytes n → n ≤ length out.now }
    ensures { (x : numbers.Written) (out₀ : List ℕ) → WrittenAs x out₀ out.now written → HeldAs s.now x recorded result }
{
    match written {
        Written::Refused(k) => {
            if agrees(recorded, k) {
                return Outcome::Refused;
            }
            Outcome::Differs
        }
        Written::Bytes(n) => {
            if !agrees(recorded, 0) {
                return Outcome::Differs;
            }
            if records::same(s, &out[..n]) {
                return Outcome::Same;
            }
            Outcome::Differs
        }
    }
}

// What becomes of a job that is these numbers.
fn compare(s: &[u8], recorded: u8, numbers: &[u32]) -> Outcome
    ensures { HeldAs s.now (written numbers.now 16384) recorded result }
{
    let mut out = [0u8; 16384];
    let r = write(numbers, &mut out);
    held(s, recorded, r, &out)
}

// What becomes of a job with these tables, which are written, and these numbers behind them.
fn compare_tables(s: &[u8], recorded: u8, t: &RegInfo, f: &Function, numbers: &[u32]) -> Outcome
    requires { Checked t.now f.now }
    ensures { HeldAs s.now (written (tables_numbers t.now f.now numbers.now) 16384) recorded result }
{
    let mut out = [0u8; 16384];
    let r = write_tables(t, f, numbers, &mut out);
    held(s, recorded, r, &out)
}

// What becomes of a job whose opening is read into tables and written from them; one that does not open has the reader's number.
fn compare_opened(s: &[u8], recorded: u8) -> Outcome
    requires { length s.now ≤ 16384 }
    ensures { FromTables s.now recorded result }
{
    let mut t = [0u16; 107520];
    let mut f = [0u16; 16388];
    let mut numbers = [0u32; 16384];
    match job::read_beginning(1, s, &mut t, &mut f) {
        Next::Refused(k) => {
            if agrees(recorded, k) {
                return Outcome::Refused;
            }
            Outcome::Differs
        }
        Next::At(next) => match decode(&s[next..], &mut numbers) {
            None => Outcome::Differs,
            Some(n) => compare_tables(s, recorded, &t, &f, &numbers[..n]),
        },
    }
}

// What both ways of writing a job come to.
fn both(first: Outcome, second: Outcome) -> Outcome
    ensures { BothAre first second result }
{
    match first {
        Outcome::Same => match second {
            Outcome::Same => Outcome::Same,
            _ => Outcome::Differs,
        },
        Outcome::Refused => match second {
            Outcome::Refused => Outcome::Refused,
            _ => Outcome::Differs,
        },
        _ => Outcome::Differs,
    }
}

// What becomes of a job.
fn rewrite(s: &[u8], text: &[u8]) -> Outcome
    requires { length s.now ≤ 16384 }
    ensures { Rewritten s.now text.now result }
{
    let mut numbers = [0u32; 16384];
    match decode(s, &mut numbers) {
        None => Outcome::NoNumbers,
        Some(n) => {
            let k = recorded(text);
            both(compare(s, k, &numbers[..n]), compare_opened(s, k))
        }
    }
}

// The record after the first k.
fn rewrite_next(k: u64) -> Outcome
    requires { k < 100000 }
{
    let mut job = [0u8; 16384];
    let mut text = [0u8; 65536];
    match records::read_record(&mut job, &mut text) {
        Ok(None) => Outcome::End,
        Err(Cut) => {
            records::say(b"record ", k + 1, b" is cut off or too long\n");
            Outcome::Differs
        }
        Ok(Some((_, n, m))) => rewrite(&job[..n], &text[..m]),
    }
}

// What became of all jobs. The last records are wrong on purpose, so that a comparison that finds nothing is seen.
fn tell(same: u64, refused: u64, others: u64, differ: u64) {
    records::say(b"", same, b" jobs written with their bytes\n");
    records::say(b"", refused, b" refused with the reader's number\n");
    records::say(b"", others, b" are no numbers\n");
    records::say(b"", differ, b" differ\n");
}

fn main() {
    let mut same: u64 = 0;
    let mut refused: u64 = 0;
    let mut others: u64 = 0;
    let mut differ: u64 = 0;
    for k in 0..100000 {
        match rewrite_next(k) {
            Outcome::Same => same += 1,
            Outcome::Refused => refused += 1,
            Outcome::NoNumbers => others += 1,
            Outcome::Differs => {
                records::say(b"job ", k + 1, b" differs\n");
                differ += 1;
            }
            Outcome::End => {
                tell(same, refused, others, differ);
                return;
            }
        }
    }
    records::say(b"stopped after ", 100000, b" jobs\n");
}
