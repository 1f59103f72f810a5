// The lines of what the patches of an answer cost, from their words, written into lent bytes (02 e).
#![tactic(auto)]

ghost use Rattle.std.specs.Prelude.{◌≡◌, true, false, ◌+◌, ◌*◌, ◌^◌, ◌<◌, ◌≤◌, length, take, drop};
ghost use Rattle.price.specs.Price.{in_range, total_of};
ghost use Rattle.edges.specs.Patches.{patches_of};
ghost use Rattle.print.specs.Put.{Room, Put};
ghost use Rattle.answer_text.specs.Lines.{refusal_text};
ghost use Rattle.price_text.specs.Lines.{total_text, runs_text, line_end, stopped, edge_text, edges_text};

use price::{EdgePrice, Prices};

// Which patch, how many edits, what they cost.
fn put_total(out: &mut [u8], n: usize, k: usize, count: usize, total: usize) -> usize
    requires { Room out.old n (total_text k count total) }
    ensures { Put out.old out.new n (total_text k count total) result }
{
    let a = print::put_text(out, n, b"patch ");
    let b = print::put_number(out, a, k);
    let c = print::put_text(out, b, b" edits ");
    let d = print::put_number(out, c, count);
    let e = print::put_text(out, d, b" total ");
    print::put_number(out, e, total)
}

// How often the edge ran, and the product, which end their line.
fn put_runs(out: &mut [u8], n: usize, runs: usize, product: usize) -> usize
    requires { Room out.old n (runs_text runs product) }
    ensures { Put out.old out.new n (runs_text runs product) result }
{
    let a = print::put_text(out, n, b" runs ");
    let b = print::put_number(out, a, runs);
    let c = print::put_text(out, b, b" product ");
    let d = print::put_number(out, c, product);
    print::put_text(out, d, b"\n")
}

// The product of an edge's record, as a whole number.
fn product_of(p: Prices, list: &[u64], runs: u64) -> u64
    requires { (in_range p ≡ true) × (length list.now ≤ 1024) × (runs < 2 ^ 26) }
    ensures { result ≡ runs * total_of p list.now }
{
    match price::edge_price(p, list, runs) {
        EdgePrice::Price(e) => price::whole_product(e, e.total, runs),
        EdgePrice::Refused(_) => 0,
    }
}

// Whether run counts are given and that of the edge i is outside its range.
fn stops(runs: &[u64], i: usize) -> bool
    ensures { result ≡ stopped runs.now i }
{
    if runs.len() <= i {
        return false;
    }
    67108864 <= runs[i]
}

// What ends the line of the edge i, whose patch has these words: its run count and the product, if run counts are given.
fn put_end(out: &mut [u8], n: usize, p: Prices, list: &[u64], runs: &[u64], i: usize) -> usize
    requires { (in_range p ≡ true) × (length list.now ≤ 1024) × (stopped runs.now i ≡ false) × Room out.old n (line_end runs.now i (total_of p list.now)) }
    ensures { Put out.old out.new n (line_end runs.now i (total_of p list.now)) result }
{
    if runs.len() <= i {
        return print::put_text(out, n, b"\n");
    }
    put_runs(
        out,
        n,
        runs[i] as usize,
        product_of(p, list, runs[i]) as usize,
    )
}

// The line of the edge i, counted from 0.
fn put_edge(out: &mut [u8], n: usize, p: Prices, list: &[u64], runs: &[u64], i: usize) -> usize
    requires { (i < 4294967296) × (in_range p ≡ true) × (length list.now ≤ 1024) × (stopped runs.now i ≡ false) × Room out.old n (edge_text p runs.now i list.now) }
    ensures { Put out.old out.new n (edge_text p runs.now i list.now) result }
{
    let at = put_total(out, n, i + 1, list.len(), price::total(p, list) as usize);
    put_end(out, at, p, list, runs, i)
}

// The line of the edge i, whose edits are so many words from an offset on.
fn put_edge_at(
    out: &mut [u8],
    n: usize,
    p: Prices,
    words: &[u64],
    from: usize,
    count: usize,
    runs: &[u64],
    i: usize,
) -> usize
    requires { (from + count ≤ length words.now) × (count ≤ 1024) × (i < 4294967296) × (in_range p ≡ true) × (stopped runs.now i ≡ false) × Room out.old n (edge_text p runs.now i (take count (drop from words.now))) }
    ensures { Put out.old out.new n (edge_text p runs.now i (take count (drop from words.now))) result }
{
    let behind = &words[from..];
    put_edge(out, n, p, &behind[..count], runs, i)
}

// The last line after a refusal; 0 is none.
fn put_refusal(out: &mut [u8], n: usize, refusal: u8) -> usize
    requires { Room out.old n (refusal_text refusal) }
    ensures { Put out.old out.new n (refusal_text refusal) result }
{
    if refusal == 0 {
        return n;
    }
    print::put_refused(out, n, refusal as usize)
}

// The lines of all edges of an answer's words, up to the first whose run count is outside its range, and then the refusal.
pub fn put_edges(out: &mut [u8], p: Prices, runs: &[u64], words: &[u64], refusal: u8) -> usize
    requires { (in_range p ≡ true) × (length words.now < 4294967296) × Room out.old 0 (edges_text p runs.now 0 (patches_of words.now) refusal) }
    ensures { Put out.old out.new 0 (edges_text p runs.now 0 (patches_of words.now) refusal) result }
{
    let mut n = 0;
    let mut i = 0;
    let mut at = 0;
    // Kept a `while`: it goes on by each patch's length, and counts nothing.
    while at < words.len() {
        let Some(count) = edges::count_at(words, at) else {
            return put_refusal(out, n, refusal);
        };
        if stops(runs, i) {
            return print::put_refused(out, n, 19);
        }
        n = put_edge_at(out, n, p, words, at + 1, count, runs, i);
        at += 1 + count;
        i += 1;
    }
    put_refusal(out, n, refusal)
}
