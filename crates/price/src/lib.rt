// What the edits of a patch cost, added up in three ways, and the record of an edge, exact (02 e).
#![tactic(auto)]

ghost use Rattle.std.specs.Prelude.{◌≡◌, true, ◌*◌, ◌^◌, ◌<◌, ◌≤◌, length};
ghost use Rattle.price.specs.Price.{prices_in, price_in, total_of, in_range};
ghost use Rattle.price.specs.Exact.{Priced, PriceIs};

// In quarter cycles: what an M, an R, an S and an L costs.
#[derive(Clone, Copy)]
pub struct Prices {
    pub moves: u32,
    pub remats: u32,
    pub spills: u32,
    pub reloads: u32,
}

// What an edge's patch costs, how often the edge ran, and their product.
#[derive(Clone, Copy)]
pub struct Edge {
    pub total: u64,
    pub runs: f64,
    pub product: f64,
}

#[derive(Drop)]
pub enum EdgePrice {
    Price(Edge),
    Refused(u8),
}

// Four numbers, of M, R, S and L in this order.
pub fn prices_of(prices: &[u32; 4]) -> Prices
    ensures { result ≡ prices_in prices.now }
{
    Prices {
        moves: prices[0],
        remats: prices[1],
        spills: prices[2],
        reloads: prices[3],
    }
}

// "0 to 65,535, for M, R, S and L"
pub fn in_range(p: Prices) -> bool
    ensures { result ≡ in_range p }
{
    if 65535 < p.moves {
        return false;
    }
    if 65535 < p.remats {
        return false;
    }
    if 65535 < p.spills {
        return false;
    }
    p.reloads <= 65535
}

fn price_in(p: Prices, word: u64) -> u64
    ensures { result ≡ price_in p word }
{
    let kind = word % 8;
    // The word's kinds are the format's numbers, each with its own price: a match says it plainest.
    match kind {
        1 => p.moves as u64,
        2 => p.remats as u64,
        3 => p.spills as u64,
        4 => p.reloads as u64,
        _ => 0,
    }
}

// What the words of a list cost together.
pub fn total(p: Prices, list: &[u64]) -> u64
    requires { (in_range p ≡ true) × (length list.now ≤ 65536) }
    ensures { result ≡ total_of p list.now }
{
    let mut sum = 0;
    for i in 0..list.len() {
        sum += price_in(p, list[i]);
    }
    sum
}

// The record of an edge; each number is exact.
fn edge_of(total: u64, count: u64) -> Edge
    requires { (total < 2 ^ 26) × (count < 2 ^ 26) }
    ensures { Priced total count result }
{
    let runs = count as f64;
    let price = total as f64;
    Edge {
        total,
        runs,
        product: runs * price,
    }
}

// The product as a whole number.
pub fn whole_product(e: Edge, total: u64, count: u64) -> u64
    requires { Priced total count e }
    ensures { result ≡ count * total }
{
    e.product as u64
}

// The record of an edge that ran so often, whose patch has these words; 19 for a run count outside its range.
pub fn edge_price(p: Prices, list: &[u64], runs: u64) -> EdgePrice
    requires { (in_range p ≡ true) × (length list.now ≤ 1024) }
    ensures { PriceIs p list.now runs result }
{
    if 67108864 <= runs {
        return EdgePrice::Refused(19);
    }
    EdgePrice::Price(edge_of(total(p, list), runs))
}
