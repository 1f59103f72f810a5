// Edits as packed words, and the buffer that they are made in, backwards. One word is one edit, so that the length of a list counts edits.
#![tactic(auto)]

ghost use Rattle.std.specs.Prelude.{◌≡◌, [], ◌∷◌, ◌++◌, ◌+◌, ◌/◌, ◌<◌, ◌≤◌, length, drop};
ghost use Rattle.std.proofs.Math.Option.{some, none};
ghost use Rattle.entity.specs.Logic.{pick, and};
ghost use Rattle.entity.specs.Place.{place_at};
ghost use Rattle.rules.specs.Edit as rule;
ghost use Rattle.edit.specs.Word.{packed, word_of, edit_of, is_reg, is_slot, Small};
ghost use Rattle.edit.specs.Read.{read_of};
ghost use Rattle.edit.specs.Buffer.{count_of, words_of, edits_of, Written};

use entity::{Allocation, AllocationKind, PhysReg, SpillSlot, Value};

// Cell 0 counts the edits; they stand from cell 1 on, in the order made. 1,024 is 8 for each of 128 moves: no patch has more.
pub type Edits = [u64; 1025];

// 01: M, R, S and L.
#[derive(Drop)]
pub enum Edit {
    Move {
        to: Allocation,
        from: Allocation,
        value: Value,
    },
    Rematerialize {
        to: Allocation,
        value: Value,
    },
    EmergencySpill {
        to: SpillSlot,
        from: PhysReg,
    },
    EmergencyReload {
        to: PhysReg,
        from: SpillSlot,
    },
}

// 3 bits for the kind, so that there are words that are no edit; 14 for each place, since slots go up to 6,143 and a code is twice that; 12 for the value.
fn pack(kind: u64, to: Allocation, from: Allocation, v: Value) -> u64
    requires { (kind < 8) × Small to.0 from.0 v.0 }
    ensures { result ≡ packed kind to.0 from.0 v.0 }
{
    ((v.0 as u64 * 16384 + from.0 as u64) * 16384 + to.0 as u64) * 8 + kind
}

pub fn move_word(to: Allocation, from: Allocation, v: Value) -> u64
    requires { Small to.0 from.0 v.0 }
    ensures { result ≡ word_of (rule.Move (place_at to.0) (place_at from.0) v.0) }
{
    pack(1, to, from, v)
}

pub fn remat_word(to: Allocation, v: Value) -> u64
    requires { Small to.0 0 v.0 }
    ensures { result ≡ word_of (rule.Rematerialize (place_at to.0) v.0) }
{
    pack(2, to, Allocation(0), v)
}

pub fn spill_word(s: SpillSlot, r: PhysReg) -> u64
    requires { (s.0 < 8192) × (r.0 < 8192) }
    ensures { result ≡ word_of (rule.EmergencySpill s.0 r.0) }
{
    pack(3, Allocation::spillslot(s), Allocation::reg(r), Value(0))
}

pub fn reload_word(r: PhysReg, s: SpillSlot) -> u64
    requires { (r.0 < 8192) × (s.0 < 8192) }
    ensures { result ≡ word_of (rule.EmergencyReload r.0 s.0) }
{
    pack(4, Allocation::reg(r), Allocation::spillslot(s), Value(0))
}

// A save is into a slot and of a register.
fn spill_read(to: Allocation, from: Allocation) -> Option<Edit>
    ensures { read_of result ≡ pick (and (is_slot to.0) (is_reg from.0)) (some (rule.EmergencySpill (to.0 / 2) (from.0 / 2))) none }
{
    match (to.kind(), from.kind()) {
        (AllocationKind::SpillSlot(to), AllocationKind::PhysReg(from)) => {
            Some(Edit::EmergencySpill { to, from })
        }
        _ => None,
    }
}

// A reload is into a register and from a slot.
fn reload_read(to: Allocation, from: Allocation) -> Option<Edit>
    ensures { read_of result ≡ pick (and (is_reg to.0) (is_slot from.0)) (some (rule.EmergencyReload (to.0 / 2) (from.0 / 2))) none }
{
    match (to.kind(), from.kind()) {
        (AllocationKind::PhysReg(to), AllocationKind::SpillSlot(from)) => {
            Some(Edit::EmergencyReload { to, from })
        }
        _ => None,
    }
}

// The edit that a word is, if it is one.
pub fn read(word: u64) -> Option<Edit>
    ensures { read_of result ≡ edit_of word }
{
    let kind = word % 8;
    let to = Allocation((word / 8 % 16384) as u16);
    let from = Allocation((word / 131072 % 16384) as u16);
    let value = Value((word / 2147483648 % 4096) as u16);
    // The word's kinds are the format's numbers, and each makes another edit: a match says it plainest.
    match kind {
        1 => Some(Edit::Move { to, from, value }),
        2 => Some(Edit::Rematerialize { to, value }),
        3 => spill_read(to, from),
        4 => reload_read(to, from),
        _ => None,
    }
}

// Forgets every edit.
pub fn clear(e: &mut Edits)
    ensures { (words_of e.new ≡ []) × (edits_of e.new ≡ []) × (count_of e.new ≡ 0) × Written e.new }
{
    e[0] = 0;
}

// How many edits there are.
pub fn len(e: &Edits) -> usize
    ensures { result ≡ count_of e.now }
{
    e[0] as usize
}

pub fn push(e: &mut Edits, word: u64)
    requires { count_of e.old < 1024 }
    ensures { (words_of e.new ≡ word ∷ words_of e.old) × (count_of e.new ≡ count_of e.old + 1) }
{
    let n = e[0] as usize;
    e[n + 1] = word;
    e[0] = n as u64 + 1;
}

pub fn push_move(e: &mut Edits, to: Allocation, from: Allocation, v: Value)
    requires { (count_of e.old < 1024) × Small to.0 from.0 v.0 }
    ensures { (edits_of e.new ≡ rule.Move (place_at to.0) (place_at from.0) v.0 ∷ edits_of e.old) × (count_of e.new ≡ count_of e.old + 1) × (Written e.old → Written e.new) }
{
    push(e, move_word(to, from, v));
}

pub fn push_remat(e: &mut Edits, to: Allocation, v: Value)
    requires { (count_of e.old < 1024) × Small to.0 0 v.0 }
    ensures { (edits_of e.new ≡ rule.Rematerialize (place_at to.0) v.0 ∷ edits_of e.old) × (count_of e.new ≡ count_of e.old + 1) × (Written e.old → Written e.new) }
{
    push(e, remat_word(to, v));
}

pub fn push_spill(e: &mut Edits, s: SpillSlot, r: PhysReg)
    requires { (count_of e.old < 1024) × (s.0 < 8192) × (r.0 < 8192) }
    ensures { (edits_of e.new ≡ rule.EmergencySpill s.0 r.0 ∷ edits_of e.old) × (count_of e.new ≡ count_of e.old + 1) × (Written e.old → Written e.new) }
{
    push(e, spill_word(s, r));
}

pub fn push_reload(e: &mut Edits, r: PhysReg, s: SpillSlot)
    requires { (count_of e.old < 1024) × (r.0 < 8192) × (s.0 < 8192) }
    ensures { (edits_of e.new ≡ rule.EmergencyReload r.0 s.0 ∷ edits_of e.old) × (count_of e.new ≡ count_of e.old + 1) × (Written e.old → Written e.new) }
{
    push(e, reload_word(r, s));
}

// The words, the newest first, as edits are found from the last to the first; what stands past them stays as it is.
pub fn hand_out(e: &Edits, list: &mut [u64]) -> usize
    requires { (count_of e.now ≤ 1024) × (count_of e.now ≤ length list.old) }
    ensures { (result ≡ count_of e.now) × (list.new ≡ words_of e.now ++ drop (count_of e.now) list.old) }
{
    let n = e[0] as usize;
    for i in 0..n {
        list[i] = e[n - i];
    }
    n
}
