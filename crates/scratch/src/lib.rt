// 01: the scratch keeper. It goes in by value and comes back; what changes at each step is lent beside it:
// the edits made so far, the available units, and what the patch did to the cache's stacks of slots. Here it is packed and read, and units
// are marked; finding.rt searches for a scratch and evicts, bringing_back.rt brings back, moving.rt has the edits of a move, diverting.rt the
// diversions.
#![tactic(auto)]

mod bringing_back;
mod diverting;
mod finding;
mod moving;

ghost use Rattle.std.specs.Prelude.{◌≡◌, List, ℕ, ◌<◌, ◌≤◌};
ghost use Rattle.entity.specs.Place.{place_at};
ghost use Rattle.reginfo.specs.Known.{KnownPlace};
ghost use Rattle.rules.specs.Scratch.{make_available, make_unavailable};
ghost use Rattle.scratch.specs.State.{T, F, word_of, held_at, made_of, evicted_in, Small, AllSmall, allocator_of, Keeps, owed};
ghost use Rattle.scratch.specs.Promises.{Holds};

pub use diverting::{Diversions, Divert, first_of, ref_count, scratch_of, set_count};
use entity::{Allocation, PhysReg, RegBank, SpillSlot};
pub use finding::{Scratch, Taken};
use reginfo::RegInfo;
use small_set::RegUnitSet;

// An evicted register, its slot, and the bank whose size the slot has.
#[derive(Clone, Copy)]
pub struct Held {
    pub reg: PhysReg,
    pub slot: SpillSlot,
    pub bank: RegBank,
}

// 02 i: "the record holds an older and a newer", of which the newer stands first.
// None, one or two: an `Option` of a pair would hold no second.
#[derive(Drop)]
pub enum Evicted {
    Nothing,
    One(Held),
    Two(Held, Held),
}

// The evicted registers and the number of slots made, in one number (specs/State): what each step hands back is one word.
#[derive(Clone, Copy)]
pub struct ScratchAllocator {
    pub packed: u64,
}

// A held register as a number above 0.
fn held_word(e: Held) -> u64
    requires { Small e }
    ensures { (result ≡ word_of e) × (result < 67108864) }
{
    (e.reg.0 as u64 * 8192 + e.slot.0 as u64) * 8 + e.bank.0 as u64 + 1
}

// And read back.
fn held_at(n: u64) -> Held
    requires { n < 67108864 }
    ensures { result ≡ held_at n }
{
    Held {
        reg: PhysReg((n / 65536) as u16),
        slot: SpillSlot((n / 8 % 8192) as u16),
        bank: RegBank((n % 8) as u16),
    }
}

impl ScratchAllocator {
    // Nothing is evicted, and so many slots were made.
    pub fn new(made: u16) -> Self
        requires { made < 4096 }
        ensures { (evicted_in result ≡ Evicted.Nothing) × (made_of result ≡ made) }
    {
        ScratchAllocator {
            packed: made as u64,
        }
    }

    pub fn made(mut self) -> u16
        ensures { result ≡ made_of self }
    {
        (self.packed % 4096) as u16
    }

    fn evicted(mut self) -> Evicted
        ensures { result ≡ evicted_in self }
    {
        let newer = self.packed / 4096 % 67108864;
        if newer == 0 {
            return Evicted::Nothing;
        }
        let older = self.packed / 274877906944;
        if older == 0 {
            return Evicted::One(held_at(newer - 1));
        }
        Evicted::Two(held_at(newer - 1), held_at(older - 1))
    }

    // As many slots made, and nothing held, one, or two.
    fn none(mut self) -> Self
        ensures { Keeps Evicted.Nothing self result }
    {
        ScratchAllocator {
            packed: self.packed % 4096,
        }
    }

    fn one(mut self, e: Held) -> Self
        requires { Small e }
        ensures { Keeps (Evicted.One e) self result }
    {
        ScratchAllocator {
            packed: held_word(e) * 4096 + self.packed % 4096,
        }
    }

    fn two(mut self, newer: Held, older: Held) -> Self
        requires { Small newer × Small older }
        ensures { Keeps (Evicted.Two newer older) self result }
    {
        let n = held_word(newer);
        ScratchAllocator {
            packed: (held_word(older) * 67108864 + n) * 4096 + self.packed % 4096,
        }
    }

    // One more is held.
    fn hold(mut self, new: Held) -> Self
        requires { (owed (evicted_in self) ≤ 1) × Small new × AllSmall (evicted_in self) }
        ensures { Holds new self result }
    {
        let e = self.evicted();
        match e {
            Evicted::Nothing => self.one(new),
            Evicted::One(older) => self.two(new, older),
            Evicted::Two(_, _) => self,
        }
    }

    // Makes the units of a register available; a slot has none.
    pub fn make_available(mut self, t: &RegInfo, available: &mut RegUnitSet, p: Allocation) -> Self
        requires { KnownPlace (T t.now) (place_at p.0) }
        ensures { (result ≡ self) × ((f cache edits slots : List ℕ) → allocator_of t.now result edits available.new slots cache ≡ make_available (T t.now) (F f) (place_at p.0) (allocator_of t.now self edits available.old slots cache)) }
    {
        search::insert_units(t, available, p);
        self
    }

    // Makes them unavailable.
    pub fn make_unavailable(
        mut self,
        t: &RegInfo,
        available: &mut RegUnitSet,
        p: Allocation,
    ) -> Self
        requires { KnownPlace (T t.now) (place_at p.0) }
        ensures { (result ≡ self) × ((f cache edits slots : List ℕ) → allocator_of t.now result edits available.new slots cache ≡ make_unavailable (T t.now) (F f) (place_at p.0) (allocator_of t.now self edits available.old slots cache)) }
    {
        search::remove_units(t, available, p);
        self
    }
}
