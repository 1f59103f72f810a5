// The text of a patch and of a refusal, as the program `resolve` prints it, written into lent bytes from an offset on. Each step answers the offset
// past its text.
#![tactic(auto)]

ghost use Rattle.std.specs.Prelude.{◌≤◌, List, ◌++◌, length, take};
ghost use Rattle.entity.specs.Place.{reg, slot, place_at};
ghost use Rattle.rules.specs.Edit as rule;
ghost use Rattle.print.specs.Text.{decimal, newline, spaced, place_text, edit_line, patch_line, patch_text, refused_line};
ghost use Rattle.print.specs.Words.{word_line, word_lines, words_text, Words};
ghost use Rattle.print.specs.Put.{Room, Put};

use edit::Edit;
use entity::{Allocation, AllocationKind, PhysReg, SpillSlot, Value};

// The bytes of a text as they are.
pub fn put_text(out: &mut [u8], n: usize, text: &[u8]) -> usize
    requires { Room out.old n text.now }
    ensures { Put out.old out.new n text.now result }
{
    for i in 0..text.len() {
        out[n + i] = text[i];
    }
    n + text.len()
}

// A number in base ten.
pub fn put_number(out: &mut [u8], n: usize, x: usize) -> usize
    requires { Room out.old n (decimal x) }
    ensures { Put out.old out.new n (decimal x) result }
{
    let mut digits = [0u8; 20];
    let k = io::decimal(x as u64, &mut digits);
    put_text(out, n, &digits[..k])
}

// A number that ends its line.
fn put_last(out: &mut [u8], n: usize, x: usize) -> usize
    requires { Room out.old n (decimal x ++ newline) }
    ensures { Put out.old out.new n (decimal x ++ newline) result }
{
    let end = put_number(out, n, x);
    put_text(out, end, b"\n")
}

// r and the number.
pub fn put_register(out: &mut [u8], n: usize, r: PhysReg) -> usize
    requires { Room out.old n (place_text (reg r.0)) }
    ensures { Put out.old out.new n (place_text (reg r.0)) result }
{
    let at = put_text(out, n, b"r");
    put_number(out, at, usize::from(r.0))
}

// s and the number.
pub fn put_slot(out: &mut [u8], n: usize, s: SpillSlot) -> usize
    requires { Room out.old n (place_text (slot s.0)) }
    ensures { Put out.old out.new n (place_text (slot s.0)) result }
{
    let at = put_text(out, n, b"s");
    put_number(out, at, usize::from(s.0))
}

pub fn put_place(out: &mut [u8], n: usize, place: Allocation) -> usize
    requires { Room out.old n (place_text (place_at place.0)) }
    ensures { Put out.old out.new n (place_text (place_at place.0)) result }
{
    match place.kind() {
        AllocationKind::PhysReg(r) => put_register(out, n, r),
        AllocationKind::SpillSlot(s) => put_slot(out, n, s),
    }
}

// A value that ends its line, with the space before it.
fn put_value(out: &mut [u8], n: usize, v: Value) -> usize
    requires { Room out.old n (spaced (decimal v.0) newline) }
    ensures { Put out.old out.new n (spaced (decimal v.0) newline) result }
{
    let at = put_text(out, n, b" ");
    put_last(out, at, usize::from(v.0))
}

// M, to, from, value.
fn put_move(out: &mut [u8], n: usize, to: Allocation, from: Allocation, v: Value) -> usize
    requires { Room out.old n (edit_line (rule.Move (place_at to.0) (place_at from.0) v.0)) }
    ensures { Put out.old out.new n (edit_line (rule.Move (place_at to.0) (place_at from.0) v.0)) result }
{
    let a = put_text(out, n, b"M ");
    let b = put_place(out, a, to);
    let c = put_text(out, b, b" ");
    let d = put_place(out, c, from);
    put_value(out, d, v)
}

// R, to, value.
fn put_remat(out: &mut [u8], n: usize, to: Allocation, v: Value) -> usize
    requires { Room out.old n (edit_line (rule.Rematerialize (place_at to.0) v.0)) }
    ensures { Put out.old out.new n (edit_line (rule.Rematerialize (place_at to.0) v.0)) result }
{
    let a = put_text(out, n, b"R ");
    let b = put_place(out, a, to);
    put_value(out, b, v)
}

// S, slot, register.
fn put_spill(out: &mut [u8], n: usize, s: SpillSlot, r: PhysReg) -> usize
    requires { Room out.old n (edit_line (rule.EmergencySpill s.0 r.0)) }
    ensures { Put out.old out.new n (edit_line (rule.EmergencySpill s.0 r.0)) result }
{
    let a = put_text(out, n, b"S ");
    let b = put_slot(out, a, s);
    let c = put_text(out, b, b" ");
    let d = put_register(out, c, r);
    put_text(out, d, b"\n")
}

// L, register, slot.
fn put_reload(out: &mut [u8], n: usize, r: PhysReg, s: SpillSlot) -> usize
    requires { Room out.old n (edit_line (rule.EmergencyReload r.0 s.0)) }
    ensures { Put out.old out.new n (edit_line (rule.EmergencyReload r.0 s.0)) result }
{
    let a = put_text(out, n, b"L ");
    let b = put_register(out, a, r);
    let c = put_text(out, b, b" ");
    let d = put_slot(out, c, s);
    put_text(out, d, b"\n")
}

// The line of an edit; nothing for a word that is no edit.
pub fn put_edit(out: &mut [u8], n: usize, word: u64) -> usize
    requires { Room out.old n (word_line word) }
    ensures { Put out.old out.new n (word_line word) result }
{
    match edit::read(word) {
        Some(Edit::Move { to, from, value }) => put_move(out, n, to, from, value),
        Some(Edit::Rematerialize { to, value }) => put_remat(out, n, to, value),
        Some(Edit::EmergencySpill { to, from }) => put_spill(out, n, to, from),
        Some(Edit::EmergencyReload { to, from }) => put_reload(out, n, to, from),
        None => n,
    }
}

// Which patch, how many edits, how many slots the function has made.
pub fn put_patch_line(out: &mut [u8], n: usize, k: usize, count: usize, made: usize) -> usize
    requires { Room out.old n (patch_line k count made) }
    ensures { Put out.old out.new n (patch_line k count made) result }
{
    let a = put_text(out, n, b"patch ");
    let b = put_number(out, a, k);
    let c = put_text(out, b, b" edits ");
    let d = put_number(out, c, count);
    let e = put_text(out, d, b" made ");
    put_last(out, e, made)
}

// The lines of the first `count` words of the list.
fn put_edits(out: &mut [u8], n: usize, list: &[u64], count: usize) -> usize
    requires { (count ≤ length list.now) × Room out.old n (word_lines (take count list.now)) }
    ensures { Put out.old out.new n (word_lines (take count list.now)) result }
{
    let mut at = n;
    for i in 0..count {
        at = put_edit(out, at, list[i]);
    }
    at
}

// Patch k: its line, and the lines of the first `count` words of the list.
pub fn put_patch(
    out: &mut [u8],
    n: usize,
    k: usize,
    list: &[u64],
    count: usize,
    made: usize,
) -> usize
    requires { (count ≤ length list.now) × Room out.old n (words_text k (take count list.now) made) }
    ensures { Put out.old out.new n (words_text k (take count list.now) made) result × ((es : List rule.Edit) → Words (take count list.now) es → Put out.old out.new n (patch_text k es made) result) }
{
    let at = put_patch_line(out, n, k, count, made);
    put_edits(out, at, list, count)
}

// The last line after a refusal.
pub fn put_refused(out: &mut [u8], n: usize, number: usize) -> usize
    requires { Room out.old n (refused_line number) }
    ensures { Put out.old out.new n (refused_line number) result }
{
    let at = put_text(out, n, b"refused ");
    put_last(out, at, number)
}
