// The arguments of a program, and as numbers.
#![tactic(auto)]

ghost use Rattle.std.specs.Prelude.{◌≡◌, ◌≤◌, length, take};
ghost use Rattle.arguments.specs.Number.{stepped, number_in, narrowed};

use std::env::FillError;
use std::rt::Env;

// How many words a program is given, its own name counted. It promises nothing, since no contract can say what a program is given.
pub fn count<E: Env>(rt: &E) -> usize {
    for i in 0..usize::MAX {
        if let Err(FillError::NotPresent) = rt.arg(i, &mut []) {
            return i;
        }
    }
    usize::MAX
}

// Puts the argument i at the start of the buffer and answers its length, 0 where there is none or where it does not fit. An argument may be any bytes.
pub fn word<E: Env>(rt: &E, i: usize, buf: &mut [u8]) -> usize
    ensures { (result ≤ length buf.new) × (result ≡ length (take result buf.new)) }
{
    match rt.arg(i, buf) {
        Ok(n) => n,
        Err(_) => 0,
    }
}

// A digit behind a number, or 2^32, which is outside every range.
fn step(n: u64, byte: u8) -> u64
    requires { n ≤ 42949672969 }
    ensures { (result ≡ stepped n byte) × (result ≤ 42949672969) }
{
    if 4294967296 <= n {
        return 4294967296;
    }
    if byte < 48 {
        return 4294967296;
    }
    if 57 < byte {
        return 4294967296;
    }
    n * 10 + (byte - 48) as u64
}

// The number that an argument is.
pub fn number_in(arg: &[u8]) -> u64
    ensures { result ≡ number_in arg.now }
{
    if arg.len() == 0 {
        return 4294967296;
    }
    let mut n: u64 = 0;
    for i in 0..arg.len() {
        n = step(n, arg[i]);
    }
    n
}

// A count or a price: what is outside every range stays so.
pub fn narrow(n: u64) -> u32
    ensures { result ≡ narrowed n }
{
    if n < 4294967295 {
        return n as u32;
    }
    4294967295
}
