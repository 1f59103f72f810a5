// Patches drawn from a seed, resolved at a setting, and counted (02 n).
#![tactic(auto)]

ghost use Rattle.std.specs.Prelude.{◌≡◌, true, ◌+◌, ◌*◌, ◌%◌, ◌^◌, ◌<◌, ◌≤◌, length, get_or, set, replicate};
ghost use Rattle.entity.specs.Logic.{Anything};
ghost use Rattle.entity.specs.Place.{place_at};
ghost use Rattle.reginfo.specs.Table.{reg_info_of};
ghost use Rattle.function.specs.Function.{num_values, is_setting};
ghost use Rattle.function.specs.Known.{Checked};
ghost use Rattle.function.specs.Table.{function_of};
ghost use Rattle.parallel_moves.specs.Answers.{edits_in};
ghost use Rattle.price.specs.Price.{in_range};
ghost use Rattle.trying.specs.Drawing.{place_numbered, num_places};
ghost use Rattle.slots.specs.Stacks.{cache_of};
ghost use Rattle.trying.specs.Tried.{tries, drawings, with_kept};
ghost use Rattle.trying.specs.Steps.{MoveDrawn, PatchDrawn, Room, Kinds, CountsWords, Counted, Ready, Once, Many, SettingTried};

use carried::Carried;
use edit::Edits;
use entries::Entries;
use function::Function;
use parallel_moves::Resolved;
use price::Prices;
use reginfo::RegInfo;
use scratch::Diversions;
use slots::{EmergencySpillSlotCache, Slots};
use small_set::RegUnitSet;
use sparse::SparseMap;
use visits::States;

// Accepted patches, M, R, S, L, evictions, total price; from cell 7 on the refusals by number.
pub type Tally = [u64; 263];

// How many entries a patch has, and the seed that it left.
#[derive(Drop)]
pub struct DrawnPatch {
    pub count: usize,
    pub seed: u32,
}

// What became of a patch, and the seed that it left.
// Both are gone on from, by the seed, so a refused one is no `Err`.
#[derive(Drop)]
pub enum Tried {
    Accepted(u32),
    Refused(u32),
}

// The code of the place that a draw comes to.
fn place_drawn(t: &RegInfo, f: &Function, drawn: u32) -> u32
    requires { Checked t.now f.now }
    ensures { place_at result ≡ place_numbered (reg_info_of t.now) (drawn % num_places (reg_info_of t.now) (function_of f.now)) }
{
    let registers = reginfo::num_regs(t);
    let i = drawn as usize % (registers + function::num_slots(f));
    if i < registers {
        return (i * 2 + 1) as u32;
    }
    ((i - registers) * 2) as u32
}

// The value that a draw comes to.
fn value_drawn(f: &Function, drawn: u32) -> u32
    requires { 0 < num_values (function_of f.now) }
    ensures { result ≡ drawn % num_values (function_of f.now) }
{
    (drawn as usize % function::num_values(f)) as u32
}

// Draws a move, to stand behind the first i, and answers the seed that it left.
fn draw_move(t: &RegInfo, f: &Function, seed: u32, numbers: &mut [u32], i: usize) -> u32
    requires { Checked t.now f.now × (0 < num_values (function_of f.now)) × (length numbers.old ≡ 64) × (i < 16) }
    ensures { MoveDrawn t.now f.now seed numbers.old i numbers.new result }
{
    let a = draws::draw(seed);
    let b = draws::draw(a);
    let c = draws::draw(b);
    let at = i * 4;
    numbers[at] = 0;
    numbers[at + 1] = place_drawn(t, f, a);
    numbers[at + 2] = place_drawn(t, f, b);
    numbers[at + 3] = value_drawn(f, c);
    c
}

// Draws a patch whole.
fn draw_patch(t: &RegInfo, f: &Function, seed: u32, numbers: &mut [u32]) -> DrawnPatch
    requires { Checked t.now f.now × (0 < num_values (function_of f.now)) × (length numbers.old ≡ 64) }
    ensures { PatchDrawn t.now f.now seed numbers.old numbers.new result }
{
    let mut s = draws::draw(seed);
    let n = 1 + s as usize % 16;
    for i in 0..n {
        s = draw_move(t, f, s, numbers, i);
    }
    DrawnPatch { count: n, seed: s }
}

fn add(tally: &mut Tally, i: usize, n: u64)
    requires { (i < 263) × (get_or tally.old i 0 + n < 2 ^ 64) }
    ensures { (tally.new ≡ set tally.old i (get_or tally.old i 0 + n)) × (length tally.old ≡ 263) }
{
    tally[i] += n;
}

// Counts each word in the cell of its kind.
fn count_kinds(list: &[u64], tally: &mut Tally)
    requires { (length list.now ≤ 1024) × Room 1 tally.old }
    ensures { Kinds list.now tally.old tally.new }
{
    for word in list {
        let kind = (*word % 8) as usize;
        tally[kind] += 1;
    }
}

// Counts an accepted patch with these words.
fn count_accepted(p: Prices, list: &[u64], tally: &mut Tally)
    requires { (in_range p ≡ true) × (length list.now ≤ 1024) × Room 1 tally.old }
    ensures { CountsWords p list.now tally.old tally.new }
{
    count_kinds(list, tally);
    add(tally, 0, 1);
    let total = price::total(p, list);
    add(tally, 6, total);
}

// Counts what became of a patch, and hands on the seed that it left.
fn count(p: Prices, r: Resolved, seed: u32, list: &[u64], tally: &mut Tally) -> Tried
    requires { (in_range p ≡ true) × (length list.now ≡ 1024) × (edits_in r ≤ 1024) × Room 1 tally.old }
    ensures { Counted p r seed list.now tally.old tally.new result }
{
    match r {
        Resolved::Edits(n, _) => {
            count_accepted(p, &list[..n], tally);
            Tried::Accepted(seed)
        }
        Resolved::Refused(k) => {
            add(tally, 7 + k as usize, 1);
            Tried::Refused(seed)
        }
    }
}

// Draws a patch, resolves it and counts what became of it.
fn try_once(
    t: &RegInfo,
    f: &Function,
    p: Prices,
    seed: u32,
    cache: &mut EmergencySpillSlotCache,
    tally: &mut Tally,
    numbers: &mut [u32],
    list: &mut [u64],
    e: &mut Entries,
    w: &mut SparseMap,
    available: &mut RegUnitSet,
    sources: &mut RegUnitSet,
    edits: &mut Edits,
    slots: &mut Slots,
    d: &mut Diversions,
    marks: &mut States,
    c: &mut Carried,
) -> Tried
    requires { Ready t.now f.now p cache.old numbers.old list.old × Room 1 tally.old }
    ensures once { Once t.now f.now p seed tally.old cache.old result tally.new cache.new }
    ensures anything { Anything numbers.new × Anything list.new × Anything e.new × Anything w.new × Anything available.new × Anything sources.new × Anything edits.new × Anything slots.new × Anything d.new × Anything marks.new × Anything c.new }
{
    let drawn = draw_patch(t, f, seed, numbers);
    let n = drawn.count * 4;
    let r = parallel_moves::resolve_patch(
        t,
        f,
        &numbers[..n],
        cache,
        list,
        false,
        e,
        w,
        available,
        sources,
        edits,
        slots,
        d,
        marks,
        c,
    );
    count(p, r, drawn.seed, list, tally)
}

// A patch, drawn over at most 8 times where it is refused; answers the seed that was left.
fn try_patch(
    t: &RegInfo,
    f: &Function,
    p: Prices,
    seed: u32,
    cache: &mut EmergencySpillSlotCache,
    tally: &mut Tally,
    numbers: &mut [u32],
    list: &mut [u64],
    e: &mut Entries,
    w: &mut SparseMap,
    available: &mut RegUnitSet,
    sources: &mut RegUnitSet,
    edits: &mut Edits,
    slots: &mut Slots,
    d: &mut Diversions,
    marks: &mut States,
    c: &mut Carried,
) -> u32
    requires { Ready t.now f.now p cache.old numbers.old list.old × Room 9 tally.old }
    ensures value { (result ≡ (tries (reg_info_of t.now) (function_of f.now) 9 seed (cache_of cache.old)).seed) × Many f.now p (tries (reg_info_of t.now) (function_of f.now) 9 seed (cache_of cache.old)) 9 tally.old tally.new cache.new }
    ensures anything { Anything numbers.new × Anything list.new × Anything e.new × Anything w.new × Anything available.new × Anything sources.new × Anything edits.new × Anything slots.new × Anything d.new × Anything marks.new × Anything c.new }
{
    let mut s = seed;
    for _done in 0..9u32 {
        match try_once(
            t, f, p, s, cache, tally, numbers, list, e, w, available, sources, edits, slots, d,
            marks, c,
        ) {
            Tried::Accepted(next) => {
                return next;
            }
            Tried::Refused(next) => {
                s = next;
            }
        }
    }
    s
}

// So many patches.
fn try_patches(
    t: &RegInfo,
    f: &Function,
    p: Prices,
    seed: u32,
    count: usize,
    cache: &mut EmergencySpillSlotCache,
    tally: &mut Tally,
    numbers: &mut [u32],
    list: &mut [u64],
    e: &mut Entries,
    w: &mut SparseMap,
    available: &mut RegUnitSet,
    sources: &mut RegUnitSet,
    edits: &mut Edits,
    slots: &mut Slots,
    d: &mut Diversions,
    marks: &mut States,
    c: &mut Carried,
)
    requires { Ready t.now f.now p cache.old numbers.old list.old × Room (count * 9) tally.old }
    ensures many { Many f.now p (drawings (reg_info_of t.now) (function_of f.now) count seed (cache_of cache.old)) (count * 9) tally.old tally.new cache.new }
    ensures anything { Anything numbers.new × Anything list.new × Anything e.new × Anything w.new × Anything available.new × Anything sources.new × Anything edits.new × Anything slots.new × Anything d.new × Anything marks.new × Anything c.new }
{
    let mut s = seed;
    for _done in 0..count {
        s = try_patch(
            t, f, p, s, cache, tally, numbers, list, e, w, available, sources, edits, slots, d,
            marks, c,
        );
    }
}

// Writes the setting; what else the table holds stays.
fn set_kept(f: &mut Function, kept: u16)
    requires { num_values (function_of f.old) ≤ 4096 }
    ensures { function_of f.new ≡ with_kept kept (function_of f.old) }
{
    f[16387] = kept;
}

fn clear(tally: &mut Tally)
    ensures { tally.new ≡ replicate 263 0 }
{
    *tally = [0u64; 263];
}

// Evictions are counted by their reloads.
fn count_evictions(tally: &mut Tally)
    ensures { (tally.new ≡ set tally.old 5 (get_or tally.old 4 0)) × (length tally.old ≡ 263) }
{
    tally[5] = tally[4];
}

// Draws so many patches from a seed and counts what becomes of them at a setting, from a fresh cache.
pub fn try_setting(
    t: &RegInfo,
    f: &mut Function,
    kept: u16,
    p: Prices,
    seed: u32,
    count: usize,
    cache: &mut EmergencySpillSlotCache,
    tally: &mut Tally,
    numbers: &mut [u32],
    list: &mut [u64],
    e: &mut Entries,
    w: &mut SparseMap,
    available: &mut RegUnitSet,
    sources: &mut RegUnitSet,
    edits: &mut Edits,
    slots: &mut Slots,
    d: &mut Diversions,
    marks: &mut States,
    c: &mut Carried,
)
    requires { Checked t.now f.old × (is_setting kept ≡ true) × (in_range p ≡ true) × (count ≤ 1024) × (length numbers.old ≡ 64) × (length list.old ≡ 1024) }
    ensures setting_tried { SettingTried t.now f.old kept p seed count f.new tally.new }
    ensures anything { Anything cache.new × Anything numbers.new × Anything list.new × Anything e.new × Anything w.new × Anything available.new × Anything sources.new × Anything edits.new × Anything slots.new × Anything d.new × Anything marks.new × Anything c.new }
{
    set_kept(f, kept);
    slots::clear(cache);
    clear(tally);
    if function::num_values(f) == 0 {
        return;
    }
    try_patches(
        t, f, p, seed, count, cache, tally, numbers, list, e, w, available, sources, edits, slots,
        d, marks, c,
    );
    count_evictions(tally);
}
