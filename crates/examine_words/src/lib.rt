// Words that are edits and name what there is: a place of the target, a slot below N + most, a value of the function; any other is 24 (02 m).
#![tactic(auto)]

ghost use Rattle.std.specs.Prelude.{◌≡◌, ◌+◌, ◌<◌, ◌≤◌, eqb, ltb};
ghost use Rattle.entity.specs.Logic.{and, all_in};
ghost use Rattle.entity.specs.Place.{names, place_at};
ghost use Rattle.reginfo.specs.RegInfo.{num_regs};
ghost use Rattle.reginfo.specs.Table.{reg_info_of};
ghost use Rattle.function.specs.Function.{num_values};
ghost use Rattle.function.specs.Known.{Checked};
ghost use Rattle.function.specs.Table.{function_of};
ghost use Rattle.rules.specs.Edit as rule;
ghost use Rattle.edit.specs.Word.{word_of};
ghost use Rattle.examine_rules.specs.Examine.{named};
ghost use Rattle.examine_words.specs.Named.{named_in};

use edit::Edit;
use entity::{Allocation, PhysReg, SpillSlot, Value};
use function::Function;
use reginfo::RegInfo;

// Whether a place is a register or a slot below N + most.
fn names(t: &RegInfo, f: &Function, most: usize, p: Allocation) -> bool
    requires { Checked t.now f.now × (most ≤ 2048) }
    ensures { result ≡ names (num_regs (reg_info_of t.now)) ((function_of f.now).slots + most) (place_at p.0) }
{
    let regs = reginfo::num_regs(t) as u16;
    let slots = (function::num_slots(f) + most) as u16;
    Allocation::read(p.0 as u32, regs, slots).is_some()
}

fn has_value(f: &Function, v: Value) -> bool
    ensures { result ≡ ltb v.0 (num_values (function_of f.now)) }
{
    usize::from(v.0) < function::num_values(f)
}

// Whether a slot is below N + most and a register is the target's.
fn names_both(t: &RegInfo, f: &Function, most: usize, s: SpillSlot, r: PhysReg) -> bool
    requires { Checked t.now f.now × (most ≤ 2048) }
    ensures { result ≡ and (ltb s.0 ((function_of f.now).slots + most)) (ltb r.0 (num_regs (reg_info_of t.now))) }
{
    if function::num_slots(f) + most <= usize::from(s.0) {
        return false;
    }
    usize::from(r.0) < reginfo::num_regs(t)
}

// Whether the word is that of a move, and the move names what there is.
fn is_move(
    t: &RegInfo,
    f: &Function,
    most: usize,
    to: Allocation,
    from: Allocation,
    v: Value,
    word: u64,
) -> bool
    requires { Checked t.now f.now × (most ≤ 2048) }
    ensures { result ≡ and (named (reg_info_of t.now) (function_of f.now) most (rule.Move (place_at to.0) (place_at from.0) v.0)) (eqb (word_of (rule.Move (place_at to.0) (place_at from.0) v.0)) word) }
{
    if !names(t, f, most, to) {
        return false;
    }
    if !names(t, f, most, from) {
        return false;
    }
    if !has_value(f, v) {
        return false;
    }
    edit::move_word(to, from, v) == word
}

fn is_remat(t: &RegInfo, f: &Function, most: usize, to: Allocation, v: Value, word: u64) -> bool
    requires { Checked t.now f.now × (most ≤ 2048) }
    ensures { result ≡ and (named (reg_info_of t.now) (function_of f.now) most (rule.Rematerialize (place_at to.0) v.0)) (eqb (word_of (rule.Rematerialize (place_at to.0) v.0)) word) }
{
    if !names(t, f, most, to) {
        return false;
    }
    if !has_value(f, v) {
        return false;
    }
    edit::remat_word(to, v) == word
}

fn is_spill(t: &RegInfo, f: &Function, most: usize, s: SpillSlot, r: PhysReg, word: u64) -> bool
    requires { Checked t.now f.now × (most ≤ 2048) }
    ensures { result ≡ and (named (reg_info_of t.now) (function_of f.now) most (rule.EmergencySpill s.0 r.0)) (eqb (word_of (rule.EmergencySpill s.0 r.0)) word) }
{
    if !names_both(t, f, most, s, r) {
        return false;
    }
    edit::spill_word(s, r) == word
}

fn is_reload(t: &RegInfo, f: &Function, most: usize, r: PhysReg, s: SpillSlot, word: u64) -> bool
    requires { Checked t.now f.now × (most ≤ 2048) }
    ensures { result ≡ and (named (reg_info_of t.now) (function_of f.now) most (rule.EmergencyReload r.0 s.0)) (eqb (word_of (rule.EmergencyReload r.0 s.0)) word) }
{
    if !names_both(t, f, most, s, r) {
        return false;
    }
    edit::reload_word(r, s) == word
}

// Whether a word is an edit's own, and the edit names what there is: reading drops bits, so what is read is packed again.
pub fn is_named(t: &RegInfo, f: &Function, most: usize, word: u64) -> bool
    requires { Checked t.now f.now × (most ≤ 2048) }
    ensures { result ≡ named_in (reg_info_of t.now) (function_of f.now) most word }
{
    match edit::read(word) {
        Some(Edit::Move { to, from, value }) => is_move(t, f, most, to, from, value, word),
        Some(Edit::Rematerialize { to, value }) => is_remat(t, f, most, to, value, word),
        Some(Edit::EmergencySpill { to, from }) => is_spill(t, f, most, to, from, word),
        Some(Edit::EmergencyReload { to, from }) => is_reload(t, f, most, to, from, word),
        None => false,
    }
}

// Whether all words are, over the whole list.
pub fn all_named(t: &RegInfo, f: &Function, most: usize, list: &[u64]) -> bool
    requires { Checked t.now f.now × (most ≤ 2048) }
    ensures { result ≡ all_in (named_in (reg_info_of t.now) (function_of f.now) most) list.now }
{
    for word in list {
        if !is_named(t, f, most, *word) {
            return false;
        }
    }
    true
}
