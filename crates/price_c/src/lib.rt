// The library for C and Rust, prices (02 e and f): of a patch of an answer, of the edits of a call, and which of two lists is the cheaper. Nothing is
// asked of a caller.
#![tactic(auto)]

ghost use Rattle.std.specs.Prelude.{◌≡◌, true, false, ◌≤◌, ◌<◌, length};
ghost use Rattle.std.proofs.Math.Option.{some};
ghost use Rattle.price.specs.Price.{prices_in};
ghost use Rattle.cheaper.specs.Cheaper.{choice_of};
ghost use Rattle.edges.specs.Patches.{patch_numbered};
ghost use Rattle.price_c.specs.Chosen.{choice_number};
ghost use Rattle.price_c.specs.Priced.{outside, few_edits, PricedAs};

use cheaper::Choice;
use price::{EdgePrice, Prices};

// Whether the run count or a price is outside its range.
fn is_outside(p: Prices, runs: u64) -> bool
    ensures { result ≡ outside p runs }
{
    if 67108864 <= runs {
        return true;
    }
    !price::in_range(p)
}

// The price of an edge with these edits.
fn put_price(
    p: Prices,
    list: &[u64],
    runs: u64,
    total: &mut u64,
    runs_as_double: &mut f64,
    product: &mut f64,
) -> u8
    requires { (outside p runs ≡ false) × (length list.now ≤ 1024) }
    ensures { PricedAs p runs (some list.now) result total.old total.new runs_as_double.old runs_as_double.new product.old product.new }
{
    match price::edge_price(p, list, runs) {
        EdgePrice::Refused(k) => k,
        EdgePrice::Price(e) => {
            *total = e.total;
            *runs_as_double = e.runs;
            *product = e.product;
            0
        }
    }
}

// The price of the edge that a patch of an answer's words is, counted from 1: sets its total, and its run count and their product as doubles, and
// answers 0. Or it answers a number, and sets nothing: 19 for a run count from 2^26 on or a price over 65,535, then 2 for a patch that there is not,
// where a head counts over 1,024 edits or beyond the words.
#[unsafe(no_mangle)]
pub extern "C" fn parallel_moves_price_5(
    words: &[u64],
    patch: usize,
    prices: &[u32; 4],
    runs: u64,
    total: &mut u64,
    runs_as_double: &mut f64,
    product: &mut f64,
) -> u8
    ensures { PricedAs (prices_in prices.now) runs (patch_numbered patch words.now) result total.old total.new runs_as_double.old runs_as_double.new product.old product.new }
{
    let p = price::prices_of(prices);
    if is_outside(p, runs) {
        return 19;
    }
    match edges::find(words, patch) {
        None => 2,
        Some((from, count)) => {
            let behind = &words[from..];
            put_price(p, &behind[..count], runs, total, runs_as_double, product)
        }
    }
}

// The same of the edits that one call gave, without a head; 2 for over 1,024 words.
#[unsafe(no_mangle)]
pub extern "C" fn parallel_moves_price_edits_5(
    list: &[u64],
    prices: &[u32; 4],
    runs: u64,
    total: &mut u64,
    runs_as_double: &mut f64,
    product: &mut f64,
) -> u8
    ensures { PricedAs (prices_in prices.now) runs (few_edits list.now) result total.old total.new runs_as_double.old runs_as_double.new product.old product.new }
{
    let p = price::prices_of(prices);
    if is_outside(p, runs) {
        return 19;
    }
    if 1024 < list.len() {
        return 2;
    }
    put_price(p, list, runs, total, runs_as_double, product)
}

// 02 f: which of two edit lists is the cheaper, 1 or 2, and 1 where both cost the same; or 19, for a price over 65,535 or a list of over 65,536 entries.
#[unsafe(no_mangle)]
pub extern "C" fn parallel_moves_cheaper_5(first: &[u64], second: &[u64], prices: &[u32; 4]) -> u8
    ensures { result ≡ choice_number (choice_of (prices_in prices.now) first.now second.now) }
{
    match cheaper::choose(price::prices_of(prices), first, second) {
        Choice::First => 1,
        Choice::Second => 2,
        Choice::Refused => 19,
    }
}
