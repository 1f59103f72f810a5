// The machine's memory as a table of numbers (specs/Cells.antt), for edits that are examined (02 m).
#![tactic(auto)]

ghost use Rattle.std.specs.Prelude.{◌≡◌, map, ℕ, ◌+◌, ◌*◌, ◌<◌, ◌≤◌, length, get_or};
ghost use Rattle.entity.specs.Logic.{cells};
ghost use Rattle.entity.specs.Place.{place_at};
ghost use Rattle.reginfo.specs.RegInfo.{reg_units};
ghost use Rattle.reginfo.specs.Known.{KnownUnits};
ghost use Rattle.reginfo.specs.Table.{reg_info_of};
ghost use Rattle.function.specs.Function.{Function};
ghost use Rattle.rules.specs.Edit.{updated};
ghost use Rattle.machine.specs.Machine.{put};
ghost use Rattle.machine.specs.Machine as machine;
ghost use Rattle.examine_rules.specs.Examine.{unknown, blank};
ghost use Rattle.cells.specs.Cells.{memory_of, Short, words_in, count_in, Celled, Takes, Put};

use entity::{Allocation, AllocationKind, PhysReg};
use reginfo::RegInfo;

pub type Cells = [u16; 67072];

// Cell 0 counts the words; they stand from cell 1 on.
pub type Words = [u16; 10];

// Nothing is written anywhere.
fn clear_marks(c: &mut Cells)
    ensures { (length c.new ≡ 67072) × ((x : ℕ) → x < 6656 → get_or c.new x 0 ≡ 0) }
{
    for i in 0..6656 {
        c[i] = 0;
    }
}

// Each register unit holds its own number: a word that nothing else holds, so that what is copied from it is known by its number.
fn number_units(c: &mut Cells)
    ensures { ((x : ℕ) → x < 6656 → get_or c.new x 0 ≡ get_or c.old x 0) × ((u : ℕ) → u < 512 → get_or c.new (6656 + u) 0 ≡ u) }
{
    for u in 0..512 {
        c[6656 + u] = u as u16;
    }
}

// As at a start in which no source holds a value yet. What the table held does not matter.
pub fn clear(c: &mut Cells)
    ensures { (memory_of c.new ≡ blank) × Short c.new }
{
    clear_marks(c);
    number_units(c);
}

// The list of a cell that nothing was written to: nine words, since no register takes so many, so that a list of unknown length fits memory alone; and the
// first is the cell's own, so that no two are the same.
fn unknown_list(at: usize, b: &mut Words)
    requires { at < 6656 }
    ensures { (words_in b.new ≡ unknown at) × (count_in b.new ≤ 9) }
{
    *b = [0; 10];
    b[0] = 9;
    b[1] = (34304 + at) as u16;
}

// n words from `from` on.
fn load(c: &Cells, from: usize, n: usize, b: &mut Words)
    requires { (n ≤ 9) × (from + 9 ≤ 67072) }
    ensures { (words_in b.new ≡ cells c.now from n) × (count_in b.new ≡ n) }
{
    for j in 0..n {
        b[1 + j] = c[from + j];
    }
    b[0] = n as u16;
}

// The words, from `to` on.
fn store(c: &mut Cells, to: usize, b: &Words)
    requires { (count_in b.now ≤ 9) × (to + 9 ≤ 67072) }
    ensures { Put c.old c.new to (count_in b.now) (words_in b.now) }
{
    let n = usize::from(b[0]);
    for j in 0..n {
        c[to + j] = b[1 + j];
    }
}

// The list of a cell.
pub fn get_list(c: &Cells, at: usize, b: &mut Words)
    requires { Short c.now × (at < 6656) }
    ensures { (words_in b.new ≡ (memory_of c.now).lists at) × (count_in b.new ≤ 9) }
{
    let mark = usize::from(c[at]);
    if mark == 0 {
        unknown_list(at, b);
        return;
    }
    load(c, 7168 + at * 9, mark - 1, b);
}

fn set_list(c: &mut Cells, at: usize, b: &Words)
    requires { Short c.old × (at < 6656) × (count_in b.now ≤ 9) }
    ensures { (memory_of c.new ≡ record { word = (memory_of c.old).word; lists = updated at (words_in b.now) (memory_of c.old).lists }) × Short c.new }
{
    store(c, 7168 + at * 9, b);
    c[at] = (usize::from(b[0]) + 1) as u16;
}

// The word of a register unit.
pub fn word_at(c: &Cells, u: usize) -> u16
    requires { u < 512 }
    ensures { result ≡ (memory_of c.now).word u }
{
    c[6656 + u]
}

// The words of a register's units.
fn get_units(t: &RegInfo, c: &Cells, r: PhysReg, b: &mut Words)
    requires { KnownUnits (reg_info_of t.now) r.0 }
    ensures { (words_in b.new ≡ map (memory_of c.now).word (reg_units (reg_info_of t.now) r.0)) × (count_in b.new ≤ 9) }
{
    let n = reginfo::num_reg_units(t, r);
    for j in 0..n {
        let u = reginfo::reg_unit(t, r, j);
        b[1 + j] = word_at(c, usize::from(u.0));
    }
    b[0] = n as u16;
}

fn set_units(t: &RegInfo, c: &mut Cells, r: PhysReg, b: &Words)
    requires { Short c.old × KnownUnits (reg_info_of t.now) r.0 × (count_in b.now ≡ length (reg_units (reg_info_of t.now) r.0)) }
    ensures { (memory_of c.new ≡ record { word = put (reg_units (reg_info_of t.now) r.0) (words_in b.now) (memory_of c.old).word; lists = (memory_of c.old).lists }) × Short c.new }
{
    for j in (0..usize::from(b[0])).rev() {
        let u = reginfo::reg_unit(t, r, j);
        c[6656 + usize::from(u.0)] = b[1 + j];
    }
}

// The cell of a memory register's only unit.
fn reg_cell(t: &RegInfo, r: PhysReg) -> usize
    requires { KnownUnits (reg_info_of t.now) r.0 × (0 < length (reg_units (reg_info_of t.now) r.0)) }
    ensures { result ≡ get_or (reg_units (reg_info_of t.now) r.0) 0 0 }
{
    let u = reginfo::reg_unit(t, r, 0);
    usize::from(u.0)
}

// What a place holds.
pub fn read(t: &RegInfo, c: &Cells, p: Allocation, b: &mut Words)
    requires { Short c.now × Celled (reg_info_of t.now) (place_at p.0) }
    ensures { ((f : Function) → words_in b.new ≡ machine.read (reg_info_of t.now) f (memory_of c.now) (place_at p.0)) × (count_in b.new ≤ 9) }
{
    match p.kind() {
        AllocationKind::PhysReg(r) => {
            if reginfo::is_memory_reg(t, r) {
                get_list(c, reg_cell(t, r), b);
                return;
            }
            get_units(t, c, r, b);
        }
        AllocationKind::SpillSlot(s) => {
            get_list(c, 512 + usize::from(s.0), b);
        }
    }
}

// Words into a place, as many as it has units unless it is memory.
pub fn write(t: &RegInfo, c: &mut Cells, p: Allocation, b: &Words)
    requires { Short c.old × Celled (reg_info_of t.now) (place_at p.0) × (count_in b.now ≤ 9) × Takes (reg_info_of t.now) (place_at p.0) (count_in b.now) }
    ensures { ((f : Function) → memory_of c.new ≡ machine.write (reg_info_of t.now) f (place_at p.0) (words_in b.now) (memory_of c.old)) × Short c.new }
{
    match p.kind() {
        AllocationKind::PhysReg(r) => {
            if reginfo::is_memory_reg(t, r) {
                set_list(c, reg_cell(t, r), b);
                return;
            }
            set_units(t, c, r, b);
        }
        AllocationKind::SpillSlot(s) => {
            set_list(c, 512 + usize::from(s.0), b);
        }
    }
}

// Whether a place takes n words.
pub fn fits(t: &RegInfo, p: Allocation, n: usize) -> bool
    requires { Celled (reg_info_of t.now) (place_at p.0) }
    ensures { (f : Function) → result ≡ machine.fits (reg_info_of t.now) f (place_at p.0) n }
{
    if reginfo::is_memory(t, p) {
        return true;
    }
    n == reginfo::num_place_units(t, p)
}
