// The table of diversions, one for each value, and a value diverted to a scratch and let go of.
ghost use Rattle.std.specs.Prelude.{◌≡◌, true, ◌+◌, ◌<◌, length};
ghost use Rattle.search.specs.Search.{barred_by};
ghost use Rattle.function.specs.Function.{num_values, value_bank};
ghost use Rattle.function.specs.Table.{function_of};
ghost use Rattle.scratch.specs.Diversions.{count_at, alloc_at, scratch_at, Noted, Diverts, Ended, Undiverts};
ghost use Rattle.function.specs.Known.{Checked};
ghost use Rattle.scratch.specs.State.{Fits, PlaceFits};
ghost use Rattle.scratch.specs.Promises.{tables};

use crate::ScratchAllocator;
use edit::Edits;
use entity::{Allocation, Value};
use function::Function;
use reginfo::RegInfo;
use slots::{EmergencySpillSlotCache, Slots};
use small_set::RegUnitSet;

// The diversion of each value (specs/Diversions.antt).
pub type Diversions = [u16; 12288];

// Where a diverted move is read, and the allocator then.
#[derive(Drop)]
pub struct Divert {
    pub place: Allocation,
    pub allocator: ScratchAllocator,
}

// The diversion of a value: how many moves need it, its scratch and its first source.
pub fn ref_count(d: &Diversions, v: Value) -> usize
    requires { v.0 < 4096 }
    ensures { result ≡ count_at d.now v.0 }
{
    let i = usize::from(v.0);
    usize::from(d[i])
}

pub fn scratch_of(d: &Diversions, v: Value) -> Allocation
    requires { v.0 < 4096 }
    ensures { result.0 ≡ scratch_at d.now v.0 }
{
    let i = usize::from(v.0);
    Allocation(d[8192 + i])
}

pub fn first_of(d: &Diversions, v: Value) -> Allocation
    requires { v.0 < 4096 }
    ensures { result.0 ≡ alloc_at d.now v.0 }
{
    let i = usize::from(v.0);
    Allocation(d[4096 + i])
}

pub fn set_count(d: &mut Diversions, v: Value, n: usize)
    requires { (v.0 < 4096) × (n < 65536) }
    ensures { Noted v.0 n (alloc_at d.old v.0) (scratch_at d.old v.0) d.old d.new }
{
    let i = usize::from(v.0);
    d[i] = n as u16;
}

fn note(d: &mut Diversions, v: Value, n: u16, source: Allocation, scratch: Allocation)
    requires { v.0 < 4096 }
    ensures { Noted v.0 n source.0 scratch.0 d.old d.new }
{
    let i = usize::from(v.0);
    d[i] = n;
    d[4096 + i] = source.0;
    d[8192 + i] = scratch.0;
}

impl ScratchAllocator {
    // A new diversion: the top-level class is searched as for a cycle, and the register found becomes unavailable.
    fn divert_new(
        mut self,
        t: &RegInfo,
        f: &Function,
        cache: &EmergencySpillSlotCache,
        available: &mut RegUnitSet,
        sources: &RegUnitSet,
        edits: &mut Edits,
        slots: &mut Slots,
        d: &mut Diversions,
        added: u16,
        v: Value,
        source: Allocation,
    ) -> Divert
        requires { Checked t.now f.now × (v.0 < num_values (function_of f.now)) × (count_at d.old v.0 ≡ 0) × Fits 0 1 2 t.now self edits.old slots.old cache.now }
        ensures { Diverts t.now f.now cache.now (value_bank (function_of f.now) v.0) (barred_by true sources.now) added source.0 v.0 d.old self (tables edits.old available.old slots.old) d.new result (tables edits.new available.new slots.new) }
    {
        let b = function::value_bank(f, v);
        let c = reginfo::top_level_class(t, b);
        let found = self.get_scratch_reg(t, f, cache, available, sources, true, edits, slots, b, c);
        let p = found.place;
        let k = found.allocator;
        note(d, v, added, source, p);
        let marked = k.make_unavailable(t, available, p);
        Divert {
            place: p,
            allocator: marked,
        }
    }

    // Diverts a value to a scratch; `added` more moves make the diversion needed. A live one keeps its scratch and its first source.
    pub fn divert(
        mut self,
        t: &RegInfo,
        f: &Function,
        cache: &EmergencySpillSlotCache,
        available: &mut RegUnitSet,
        sources: &RegUnitSet,
        edits: &mut Edits,
        slots: &mut Slots,
        d: &mut Diversions,
        added: u16,
        v: Value,
        source: Allocation,
    ) -> Divert
        requires { Checked t.now f.now × (v.0 < num_values (function_of f.now)) × (count_at d.old v.0 + added < 65536) × (0 < count_at d.old v.0 → PlaceFits t.now (scratch_at d.old v.0)) × Fits 0 1 2 t.now self edits.old slots.old cache.now }
        ensures { Diverts t.now f.now cache.now (value_bank (function_of f.now) v.0) (barred_by true sources.now) added source.0 v.0 d.old self (tables edits.old available.old slots.old) d.new result (tables edits.new available.new slots.new) }
    {
        let n = ref_count(d, v);
        if n != 0 {
            let first = first_of(d, v);
            let p = scratch_of(d, v);
            note(d, v, (n + usize::from(added)) as u16, first, p);
            return Divert {
                place: p,
                allocator: self,
            };
        }
        self.divert_new(
            t, f, cache, available, sources, edits, slots, d, added, v, source,
        )
    }

    // The copy from first source to scratch, and a slot put back.
    fn end_diversion(
        mut self,
        t: &RegInfo,
        f: &Function,
        cache: &EmergencySpillSlotCache,
        available: &mut RegUnitSet,
        sources: &RegUnitSet,
        edits: &mut Edits,
        slots: &mut Slots,
        d: &Diversions,
        v: Value,
    ) -> Self
        requires { Checked t.now f.now × (v.0 < num_values (function_of f.now)) × PlaceFits t.now (scratch_at d.now v.0) × PlaceFits t.now (alloc_at d.now v.0) × Fits 0 1 4 t.now self edits.old slots.old cache.now }
        ensures { Ended t.now f.now cache.now (value_bank (function_of f.now) v.0) v.0 d.now self (tables edits.old available.old slots.old) result (tables edits.new available.new slots.new) }
    {
        let b = function::value_bank(f, v);
        let p = scratch_of(d, v);
        let from = first_of(d, v);
        let moved = self.do_move(t, f, cache, available, sources, edits, slots, b, p, from, v);
        moved.release_place(t, f, slots, b, p)
    }

    // One move less needs the diversion; at none it ends.
    pub fn undivert(
        mut self,
        t: &RegInfo,
        f: &Function,
        cache: &EmergencySpillSlotCache,
        available: &mut RegUnitSet,
        sources: &RegUnitSet,
        edits: &mut Edits,
        slots: &mut Slots,
        d: &mut Diversions,
        v: Value,
    ) -> Self
        requires { Checked t.now f.now × (v.0 < num_values (function_of f.now)) × (0 < count_at d.old v.0) × (count_at d.old v.0 < 65536) × PlaceFits t.now (scratch_at d.old v.0) × PlaceFits t.now (alloc_at d.old v.0) × Fits 0 1 4 t.now self edits.old slots.old cache.now }
        ensures { Undiverts t.now f.now cache.now (value_bank (function_of f.now) v.0) v.0 d.old self (tables edits.old available.old slots.old) d.new result (tables edits.new available.new slots.new) }
    {
        let left = ref_count(d, v) - 1;
        set_count(d, v, left);
        if left != 0 {
            return self;
        }
        self.end_diversion(t, f, cache, available, sources, edits, slots, d, v)
    }
}
