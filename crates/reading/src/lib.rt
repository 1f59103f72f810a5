// A job's numbers read, each held against a limit.
#![tactic(auto)]

ghost use Rattle.reading.specs.Reading.{below, between};
ghost use Rattle.reading.specs.Answer.{ReadAt};

use number::Number;

// Where the next part of a job stands, or the number of 01's refused jobs.
#[derive(Drop)]
pub enum Next {
    At(usize),
    Refused(u8),
}

// A number below n.
pub fn below(s: &[u8], at: usize, n: u32) -> Number
    ensures { ReadAt (below n) s.now at result }
{
    match reader::read(s, at) {
        Number::Refused(k) => Number::Refused(k),
        Number::Is(x, next) => {
            if x < n {
                return Number::Is(x, next);
            }
            Number::Refused(2)
        }
    }
}

// A number from low to high.
pub fn between(s: &[u8], at: usize, low: u32, high: u32) -> Number
    ensures { ReadAt (between low high) s.now at result }
{
    match reader::read(s, at) {
        Number::Refused(k) => Number::Refused(k),
        Number::Is(x, next) => {
            if x < low {
                return Number::Refused(2);
            }
            if x <= high {
                return Number::Is(x, next);
            }
            Number::Refused(2)
        }
    }
}
