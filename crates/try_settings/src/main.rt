// The program `try_settings SEED PATCHES M R S L`: reads a target and a function, or a job, on standard input, draws so many patches of the function
// from the seed, and prints what becomes of them with one kept eviction and with two, at these prices; or `refused` and the number. An argument that
// is no decimal number, or is missing, counts as outside its range, and one more is 2; what is expected is then said on standard error too. So is
// what could not be read or written.
#![tactic(auto)]

ghost use Rattle.std.specs.Prelude.{◌≡◌, true, ℕ, ◌+◌, ◌-◌, ◌<◌, ◌≤◌, eqb, length};
ghost use Rattle.entity.specs.Logic.{Anything, and};
ghost use Rattle.reginfo.specs.Table.{reg_info_of};
ghost use Rattle.function.specs.Known.{Checked};
ghost use Rattle.function.specs.Table.{function_of};
ghost use Rattle.price.specs.Price.{in_range};
ghost use Rattle.print.specs.Put.{Put};
ghost use Rattle.try_settings.specs.Printed.{arguments_fit, asked_with, PrintedBoth, Printed};
ghost use Rattle.try_settings.specs.Text.{blanks, label_text, cell_text, row_text, head_text, first_text, second_text, refused_label, refusal_text, refusals_text, table_text};

use carried::Carried;
use edit::Edits;
use entries::{Added, Entries};
use function::Function;
use price::Prices;
use reginfo::RegInfo;
use scratch::Diversions;
use slots::{EmergencySpillSlotCache, Slots};
use small_set::RegUnitSet;
use sparse::SparseMap;
use std::rt::Env;
use trying::Tally;
use visits::States;

// How many blanks a text of so many bytes leaves of twelve.
fn blanks_left(length: usize) -> usize
    ensures { result ≡ 12 - length }
{
    if 12 <= length {
        return 0;
    }
    12 - length
}

fn put_blanks(out: &mut [u8], n: usize, k: usize) -> usize
    requires { (k ≤ 12) × (n + k ≤ length out.old) }
    ensures { Put out.old out.new n (blanks k) result }
{
    let row = [32u8; 12];
    print::put_text(out, n, &row[..k])
}

fn put_label(out: &mut [u8], n: usize, label: &[u8]) -> usize
    requires { (length label.now ≤ 12) × (n + 12 ≤ length out.old) }
    ensures { Put out.old out.new n (label_text label.now) result × (result ≤ n + 12) }
{
    let at = print::put_text(out, n, label);
    let k = blanks_left(label.len());
    put_blanks(out, at, k)
}

fn put_cell(out: &mut [u8], n: usize, x: u64) -> usize
    requires { n + 20 ≤ length out.old }
    ensures { Put out.old out.new n (cell_text x) result × (result ≤ n + 20) }
{
    let mut digits = [0u8; 20];
    let k = print::put_number(&mut digits, 0, x as usize);
    let left = blanks_left(k);
    let at = put_blanks(out, n, left);
    print::put_text(out, at, &digits[..k])
}

// A label and two numbers.
fn put_row(out: &mut [u8], n: usize, label: &[u8], a: u64, b: u64) -> usize
    requires { (length label.now ≤ 12) × (n + 53 ≤ length out.old) }
    ensures { Put out.old out.new n (row_text label.now a b) result × (result ≤ n + 53) }
{
    let i = put_label(out, n, label);
    let j = put_cell(out, i, a);
    let k = put_cell(out, j, b);
    print::put_text(out, k, b"\n")
}

// The seed and how many patches are drawn.
fn put_head(out: &mut [u8], seed: u32, patches: u32) -> usize
    requires { 40 ≤ length out.old }
    ensures { Put out.old out.new 0 (head_text seed patches) result × (result ≤ 40) }
{
    let a = print::put_text(out, 0, b"seed ");
    let b = print::put_number(out, a, seed as usize);
    let c = print::put_text(out, b, b" patches ");
    let d = print::put_number(out, c, patches as usize);
    print::put_text(out, d, b"\n")
}

// The settings, accepted patches, M and R.
fn put_first(out: &mut [u8], n: usize, one: &Tally, two: &Tally) -> usize
    requires { n + 212 ≤ length out.old }
    ensures { Put out.old out.new n (first_text one.now two.now) result × (result ≤ n + 212) }
{
    let a = put_row(out, n, b"kept", 1, 2);
    let b = put_row(out, a, b"accepted", one[0], two[0]);
    let c = put_row(out, b, b"M", one[1], two[1]);
    put_row(out, c, b"R", one[2], two[2])
}

// S, L, evictions and the price.
fn put_second(out: &mut [u8], n: usize, one: &Tally, two: &Tally) -> usize
    requires { n + 212 ≤ length out.old }
    ensures { Put out.old out.new n (second_text one.now two.now) result × (result ≤ n + 212) }
{
    let a = put_row(out, n, b"S", one[3], two[3]);
    let b = put_row(out, a, b"L", one[4], two[4]);
    let c = put_row(out, b, b"evictions", one[5], two[5]);
    put_row(out, c, b"price", one[6], two[6])
}

// The row of the refusals by a number.
fn put_refused(out: &mut [u8], n: usize, number: usize, a: u64, b: u64) -> usize
    requires { (number < 256) × (n + 53 ≤ length out.old) }
    ensures { Put out.old out.new n (row_text (refused_label number) a b) result × (result ≤ n + 53) }
{
    let mut label = [0u8; 12];
    let at = print::put_text(&mut label, 0, b"refused ");
    let k = print::put_number(&mut label, at, number);
    put_row(out, n, &label[..k], a, b)
}

fn are_none(a: u64, b: u64) -> bool
    ensures { result ≡ and (eqb a 0) (eqb b 0) }
{
    if 0 < a {
        return false;
    }
    b == 0
}

// The same, unless there are none.
fn put_refusal(out: &mut [u8], n: usize, number: usize, a: u64, b: u64) -> usize
    requires { (number < 256) × (n + 53 ≤ length out.old) }
    ensures { Put out.old out.new n (refusal_text number a b) result × (result ≤ n + 53) }
{
    if are_none(a, b) {
        return n;
    }
    put_refused(out, n, number, a, b)
}

fn put_refusals(out: &mut [u8], n: usize, one: &Tally, two: &Tally) -> usize
    requires { n + 13568 ≤ length out.old }
    ensures { Put out.old out.new n (refusals_text one.now two.now 0 256) result }
{
    let mut at = n;
    for j in 0..256 {
        at = put_refusal(out, at, j, one[7 + j], two[7 + j]);
    }
    at
}

// All that is printed of the counts.
fn put_table(out: &mut [u8], seed: u32, patches: u32, one: &Tally, two: &Tally) -> usize
    requires { length out.old ≡ 16384 }
    ensures { Put out.old out.new 0 (table_text one.now two.now seed patches) result }
{
    let a = put_head(out, seed, patches);
    let b = put_first(out, a, one, two);
    let c = put_second(out, b, one, two);
    put_refusals(out, c, one, two)
}

// Both settings tried, and the counts as text.
fn put_tried(
    out: &mut [u8],
    p: Prices,
    seed: u32,
    patches: u32,
    one: &mut Tally,
    two: &mut Tally,
    t: &RegInfo,
    f: &mut Function,
    cache: &mut EmergencySpillSlotCache,
    e: &mut Entries,
    w: &mut SparseMap,
    available: &mut RegUnitSet,
    sources: &mut RegUnitSet,
    edits: &mut Edits,
    slots: &mut Slots,
    d: &mut Diversions,
    marks: &mut States,
    c: &mut Carried,
) -> usize
    requires { Checked t.now f.old × (in_range p ≡ true) × (patches ≤ 1024) × (length out.old ≡ 16384) }
    ensures printed_both { PrintedBoth (reg_info_of t.now) (function_of f.old) p seed patches out.old out.new result }
    ensures anything { Anything one.new × Anything two.new × Anything f.new × Anything cache.new × Anything e.new × Anything w.new × Anything available.new × Anything sources.new × Anything edits.new × Anything slots.new × Anything d.new × Anything marks.new × Anything c.new }
{
    job_tries::try_both(
        t,
        f,
        p,
        seed,
        patches as usize,
        one,
        two,
        cache,
        e,
        w,
        available,
        sources,
        edits,
        slots,
        d,
        marks,
        c,
    );
    put_table(out, seed, patches, one, two)
}

fn arguments_fit(seed: u64, patches: u32) -> bool
    ensures { result ≡ arguments_fit seed patches }
{
    if 4294967296 <= seed {
        return false;
    }
    if patches < 1 {
        return false;
    }
    patches <= 1024
}

// All that is printed.
fn put_job(
    out: &mut [u8],
    p: Prices,
    seed: u64,
    patches: u32,
    s: &[u8],
    one: &mut Tally,
    two: &mut Tally,
    t: &mut RegInfo,
    f: &mut Function,
    cache: &mut EmergencySpillSlotCache,
    e: &mut Entries,
    w: &mut SparseMap,
    available: &mut RegUnitSet,
    sources: &mut RegUnitSet,
    edits: &mut Edits,
    slots: &mut Slots,
    d: &mut Diversions,
    marks: &mut States,
    c: &mut Carried,
) -> usize
    requires { length out.old ≡ 16384 }
    ensures printed { Printed (asked_with p seed patches s.now) p seed patches out.old out.new result × (result ≤ length out.new) }
    ensures anything { Anything t.new × Anything one.new × Anything two.new × Anything f.new × Anything cache.new × Anything e.new × Anything w.new × Anything available.new × Anything sources.new × Anything edits.new × Anything slots.new × Anything d.new × Anything marks.new × Anything c.new }
{
    if !arguments_fit(seed, patches) {
        return print::put_refused(out, 0, 2);
    }
    match job_tries::read_function(p, s, t, f, available, e, w) {
        Added::Refused(k) => print::put_refused(out, 0, k as usize),
        Added::Yes => put_tried(
            out,
            p,
            seed as u32,
            patches,
            one,
            two,
            t,
            f,
            cache,
            e,
            w,
            available,
            sources,
            edits,
            slots,
            d,
            marks,
            c,
        ),
    }
}

// The number that the program's argument i is.
fn number_at<E: Env>(rt: &E, i: usize) -> u64 {
    let mut arg = [0u8; 64];
    let n = arguments::word(rt, i, &mut arg);
    arguments::number_in(&arg[..n])
}

// How many patches are asked for by a program of so many words, its name counted: none, which is refused, where there are too many.
fn patches_from<E: Env>(rt: &E, words: usize) -> u32
    ensures { 7 < words → result ≡ 0 }
{
    if words != 7 {
        io::write_all(2, b"try_settings expects: SEED PATCHES M R S L\n");
    }
    if 7 < words {
        return 0;
    }
    arguments::narrow(number_at(rt, 2))
}

fn main(rt: HostRuntime) {
    let mut job = [0u8; 65537];
    let mut out = [0u8; 16384];
    let mut one = [0u64; 263];
    let mut two = [0u64; 263];
    let mut t = [0u16; 107520];
    let mut f = [0u16; 16388];
    let mut cache = [0u16; 65600];
    let mut e = [0u16; 1541];
    let mut w = [0u16; 6657];
    let mut available = [false; 512];
    let mut sources = [false; 512];
    let mut edits = [0u64; 1025];
    let mut slots = [0u16; 32835];
    let mut d = [0u16; 12288];
    let mut marks = [0u8; 129];
    let mut c = [0u16; 2049];
    let seed = number_at(&rt, 1);
    let patches = patches_from(&rt, arguments::count(&rt));
    let p = Prices {
        moves: arguments::narrow(number_at(&rt, 3)),
        remats: arguments::narrow(number_at(&rt, 4)),
        spills: arguments::narrow(number_at(&rt, 5)),
        reloads: arguments::narrow(number_at(&rt, 6)),
    };
    let n = match streams::read_all(&mut rt.stdin(), &mut job) {
        Ok(n) => n,
        Err(error) => {
            let _ = eprintln!(rt; "try_settings: standard input cannot be read: {error}");
            return;
        }
    };
    let m = put_job(
        &mut out,
        p,
        seed,
        patches,
        &job[..n],
        &mut one,
        &mut two,
        &mut t,
        &mut f,
        &mut cache,
        &mut e,
        &mut w,
        &mut available,
        &mut sources,
        &mut edits,
        &mut slots,
        &mut d,
        &mut marks,
        &mut c,
    );
    if let Err(error) = streams::write_all(&mut rt.stdout(), &out[..m]) {
        let _ = eprintln!(rt; "try_settings: standard output cannot be written: {error}");
    }
}
