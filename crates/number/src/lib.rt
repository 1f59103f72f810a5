// A job's numbers in their only form, read from bytes.
#![tactic(auto)]

ghost use Rattle.std.specs.Prelude.{◌≡◌, ◌<◌, ◌≤◌, eqb, ltb, length, get_or};
ghost use Rattle.entity.specs.Logic.{pick};
ghost use Rattle.number.specs.Answer.{NumberAt};

// A number and the next offset; or the number of 01, Refused jobs.
#[derive(Drop)]
pub enum Number {
    Is(u32, usize),
    Refused(u8),
}

// The number n, once its last group is read: in the shortest form that is not 0, and n is below 2^32.
fn ended(last: u64, n: u64, next: usize) -> Number
    ensures { result ≡ pick (eqb last 0) (Number.Refused 1) (pick (ltb n 4294967296) (Number.Is n next) (Number.Refused 1)) }
{
    if last == 0 {
        return Number::Refused(1);
    }
    if n < 4294967296 {
        return Number::Is(n as u32, next);
    }
    Number::Refused(1)
}

// A number of two groups or more.
fn longer(s: &[u8], at: usize) -> Number
    requires { (at < length s.now) × (128 ≤ get_or s.now at 0) }
    ensures { NumberAt s.now at result }
{
    let mut n = u64::from(s[at]) % 128;
    let mut weight: u64 = 128;
    let mut next = at + 1;
    for _group in 0..4usize {
        if s.len() <= next {
            return Number::Refused(1);
        }
        let b = u64::from(s[next]);
        n += b % 128 * weight;
        next += 1;
        if b < 128 {
            return ended(b, n, next);
        }
        weight *= 128;
    }
    Number::Refused(1)
}

// The number that stands at `at`.
pub fn read(s: &[u8], at: usize) -> Number
    ensures { NumberAt s.now at result }
{
    if s.len() <= at {
        return Number::Refused(1);
    }
    let b = s[at];
    if b < 128 {
        return Number::Is(b as u32, at + 1);
    }
    longer(s, at)
}
