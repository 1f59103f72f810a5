// The entries of a patch as numbers, four to an entry (parallel_moves, specs/Given.antt): a second reading, of bytes that were read as a patch (02
// k).
#![tactic(auto)]

ghost use Rattle.std.specs.Prelude.{◌≡◌, ◌+◌, ◌*◌, ◌≤◌, length, drop, take};
ghost use Rattle.reading.specs.Answer.{next_of};
ghost use Rattle.patch_numbers.specs.Numbers.{passed, last, four, fours, counted, numbers_in};
ghost use Rattle.patch_numbers.specs.Kept.{four_of, stored, KeptAt};

use number::Number;
use reading::Next;

// As many as 128 entries have.
pub type Numbers = [u32; 512];

// An entry's numbers and where the next one stands, or 01's number.
#[derive(Drop)]
pub enum Four {
    Is(u32, u32, u32, u32, usize),
    Refused(u8),
}

// So many numbers passed over.
fn skip(s: &[u8], at: usize, n: u32) -> Next
    ensures { next_of s.now 0 result ≡ passed n (drop at s.now) }
{
    let mut q = at;
    for _done in 0..n {
        match reader::read(s, q) {
            Number::Refused(k) => return Next::Refused(k),
            Number::Is(_, next) => q = next,
        }
    }
    Next::At(q)
}

// The last number of a move; a nought in its place for a rebuild.
fn read_last(s: &[u8], at: usize, kind: u32, x: u32, y: u32) -> Four
    ensures { four_of s.now result ≡ last kind x y (drop at s.now) }
{
    if 0 < kind {
        return Four::Is(kind, x, y, 0, at);
    }
    match reader::read(s, at) {
        Number::Refused(k) => Four::Refused(k),
        Number::Is(z, next) => Four::Is(kind, x, y, z, next),
    }
}

// An entry's numbers.
fn read_four(s: &[u8], at: usize) -> Four
    ensures { four_of s.now result ≡ four (drop at s.now) }
{
    match reader::read(s, at) {
        Number::Refused(k) => Four::Refused(k),
        Number::Is(kind, p) => match reader::read(s, p) {
            Number::Refused(k) => Four::Refused(k),
            Number::Is(x, q) => match reader::read(s, q) {
                Number::Refused(k) => Four::Refused(k),
                Number::Is(y, o) => read_last(s, o, kind, x, y),
            },
        },
    }
}

// Four numbers from an index on.
fn put(numbers: &mut Numbers, k: usize, kind: u32, x: u32, y: u32, z: u32)
    requires { k + 4 ≤ 512 }
    ensures { (numbers.new ≡ stored numbers.old k kind x y z) × (length numbers.old ≡ 512) }
{
    numbers[k] = kind;
    numbers[k + 1] = x;
    numbers[k + 2] = y;
    numbers[k + 3] = z;
}

// The numbers of so many entries, to the front of the table. What it held does not matter.
fn read_fours(s: &[u8], at: usize, n: usize, numbers: &mut Numbers) -> Next
    requires { n ≤ 128 }
    ensures { next_of s.now (take (n * 4) numbers.new) result ≡ fours n (drop at s.now) }
{
    let mut q = at;
    for i in 0..n {
        match read_four(s, q) {
            Four::Refused(k) => return Next::Refused(k),
            Four::Is(kind, x, y, z, next) => {
                put(numbers, i * 4, kind, x, y, z);
                q = next;
            }
        }
    }
    Next::At(q)
}

// The entry count and the entries' numbers; 15 for more than there may be.
fn read_counted(s: &[u8], at: usize, numbers: &mut Numbers) -> Number
    ensures { KeptAt counted s.now at numbers.new result }
{
    match reader::read(s, at) {
        Number::Refused(k) => Number::Refused(k),
        Number::Is(n, next) => {
            if 128 < n {
                return Number::Refused(15);
            }
            match read_fours(s, next, n as usize, numbers) {
                Next::Refused(k) => Number::Refused(k),
                Next::At(q) => Number::Is(n, q),
            }
        }
    }
}

// How many entries the patch at an offset has, and their numbers, to the front of the table. What it held does not matter.
pub fn read_numbers(s: &[u8], at: usize, numbers: &mut Numbers) -> Number
    ensures { KeptAt numbers_in s.now at numbers.new result }
{
    match reader::read(s, at) {
        Number::Refused(k) => Number::Refused(k),
        Number::Is(n, next) => match skip(s, next, n) {
            Next::Refused(k) => Number::Refused(k),
            Next::At(q) => read_counted(s, q, numbers),
        },
    }
}
