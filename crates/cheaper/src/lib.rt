// The cheaper of two lent edit lists, by their prices (02 f).
#![tactic(auto)]

ghost use Rattle.std.specs.Prelude.{◌≡◌};
ghost use Rattle.cheaper.specs.Cheaper.{choice_of, Handed};

use price::Prices;

#[derive(Drop)]
pub enum Choice {
    First,
    Second,
    Refused,
}

// Which of two lists is the cheaper: the first where both cost the same; refused for a price outside its range or a list of over 65,536 entries.
pub fn choose(p: Prices, first: &[u64], second: &[u64]) -> Choice
    ensures { result ≡ choice_of p first.now second.now }
{
    if !price::in_range(p) {
        return Choice::Refused;
    }
    if 65536 < first.len() {
        return Choice::Refused;
    }
    if 65536 < second.len() {
        return Choice::Refused;
    }
    let a = price::total(p, first);
    let b = price::total(p, second);
    if b < a {
        return Choice::Second;
    }
    Choice::First
}

// The cheaper of two lists, itself; or an empty part of the first, and the number 19.
pub fn cheaper<'a>(first: &'a [u64], second: &'a [u64], p: Prices, refusal: &mut u8) -> &'a [u64]
    ensures { Handed (choice_of p first.now second.now) first.entry second.entry result refusal.new }
{
    match choose(p, first, second) {
        Choice::First => {
            *refusal = 0;
            return first;
        }
        Choice::Second => {
            *refusal = 0;
            return second;
        }
        Choice::Refused => {
            *refusal = 19;
            return &first[..0];
        }
    }
}
