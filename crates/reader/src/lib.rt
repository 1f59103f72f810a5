// A `Reader`: "A reader stands on the job bytes and its next offset."
#![tactic(auto)]

ghost use Rattle.std.specs.Prelude.{◌≡◌};
ghost use Rattle.number.specs.Answer.{NumberAt};

use number::Number;

#[derive(Drop)]
pub struct Reader<'a> {
    pub bytes: &'a [u8],
    pub at: usize,
}

// At the first byte.
pub fn new<'a>(bytes: &'a [u8]) -> Reader<'a>
    ensures { (result.bytes ≡ bytes.entry) × (result.at ≡ 0) }
{
    Reader { bytes, at: 0 }
}

// On the same bytes, at another offset.
pub fn moved<'a>(r: Reader<'a>, at: usize) -> Reader<'a>
    ensures { (result.bytes ≡ r.entry.bytes) × (result.at ≡ at) }
{
    Reader { bytes: r.bytes, at }
}

pub fn offset<'a>(r: Reader<'a>) -> usize
    ensures { result ≡ r.entry.at }
{
    r.at
}

// The number that stands there, and the offset past it.
pub fn next<'a>(r: Reader<'a>) -> Number
    ensures { NumberAt r.entry.bytes.now r.entry.at result }
{
    number::read(r.bytes, r.at)
}

// The number that stands at an offset of the bytes.
pub fn read(bytes: &[u8], at: usize) -> Number
    ensures { NumberAt bytes.now at result }
{
    next(moved(new(bytes), at))
}
