// The emergency slot cache: 32 stacks by size, what a patch takes and puts back beside them, the commit, and a stamp that every settled patch raises.
// Both tables are lent and may hold anything before they are cleared or begun. A patch leaves the cache alone until it is committed, so that a
// refusal leaves it as it was and asking changes nothing (02 g).
#![tactic(auto)]

ghost use Rattle.std.specs.Prelude.{◌≡◌, ℕ, ◌+◌, ◌<◌, ◌≤◌, length, get_or};
ghost use Rattle.slots.specs.Stacks.{depth_of, cache_of, stamp_of, left_of, own_of, met_of, stacks_of, CacheFits, SlotsFit, Untouched};
ghost use Rattle.slots.specs.Steps.{Cleared, Raised, Begun, Touched, Taken, PutBack, Meets, Settled, Committed};

use entity::SpillSlot;

pub type EmergencySpillSlotCache = [u16; 65600];

pub type Slots = [u16; 32835];

// A new function starts with no slots. The stamp goes on rising, so that what was asked for of the function before is not taken by this one.
pub fn clear(cache: &mut EmergencySpillSlotCache)
    ensures { Cleared cache.old cache.new }
{
    for z in 0..32 {
        cache[z] = 0;
    }
    raise(cache, 0);
}

// How many slots the function has.
pub fn made(cache: &EmergencySpillSlotCache) -> u16
    ensures { result ≡ (cache_of cache.now).made }
{
    cache[32]
}

// How many patches were settled on the cache, modulo 2^64: a number that a run cannot bring round, in four cells, as the table has cells of 16 bits.
pub fn stamp(cache: &EmergencySpillSlotCache) -> u64
    ensures { (result ≡ stamp_of cache.now) × (result < 18446744073709551616) }
{
    let low = usize::from(cache[33]) + usize::from(cache[34]) * 65536;
    let high = usize::from(cache[35]) + usize::from(cache[36]) * 65536;
    low as u64 + high as u64 * 4294967296
}

// Raises the stamp's cells behind the lowest, which has come to its end.
fn carry(cache: &mut EmergencySpillSlotCache)
    requires { get_or cache.old 33 0 ≡ 65535 }
    ensures { Raised cache.old cache.new (get_or cache.old 32 0) }
{
    cache[33] = 0;
    let second = usize::from(cache[34]);
    if second < 65535 {
        cache[34] = (second + 1) as u16;
        return;
    }
    cache[34] = 0;
    let third = usize::from(cache[35]);
    if third < 65535 {
        cache[35] = (third + 1) as u16;
        return;
    }
    cache[35] = 0;
    let fourth = usize::from(cache[36]);
    if fourth < 65535 {
        cache[36] = (fourth + 1) as u16;
        return;
    }
    cache[36] = 0;
}

// A patch is settled that leaves the stacks as they are: so many slots are made, and the stamp is raised by one.
pub fn raise(cache: &mut EmergencySpillSlotCache, made: u16)
    ensures { Raised cache.old cache.new made }
{
    cache[32] = made;
    let first = usize::from(cache[33]);
    if first < 65535 {
        cache[33] = (first + 1) as u16;
        return;
    }
    carry(cache);
}

// The depths of the cache's stacks. A local array overlaps no table, so that they can be copied many at a time.
fn depths_of(cache: &EmergencySpillSlotCache) -> [u16; 32]
    ensures { (length result ≡ 32) × ((z : ℕ) → z < 32 → get_or result z 0 ≡ depth_of cache.now z) }
{
    let mut d = [0u16; 32];
    for z in 0..32 {
        d[z] = cache[z];
    }
    d
}

// A patch starts with the cache's stacks, of which it has changed nothing: of each stack it notes how much is left of the cache's, and what it put back
// itself lies beside, on top of that. So nothing is copied but 32 depths.
pub fn begin(slots: &mut Slots, cache: &EmergencySpillSlotCache)
    requires { CacheFits cache.now }
    ensures { Begun cache.now slots.new }
{
    let depths = depths_of(cache);
    for z in 0..32 {
        slots[z] = depths[z];
    }
    for z in 32..64 {
        slots[z] = 0;
    }
    slots[32832] = 32;
    slots[32833] = 0;
    slots[32834] = 0;
}

// The range of stacks that the patch has changed reaches to this one: a commit goes through these alone, not through all 32.
fn touch(slots: &mut Slots, z: usize)
    requires { z < 32 }
    ensures { Touched slots.old slots.new z }
{
    slots[32832] = slots[32832].min(z as u16);
    slots[32833] = slots[32833].max((z + 1) as u16);
}

// Takes the slot last put back: by this patch, else what is left of the cache's. The answer is the slot or that there is none: whether one may be made
// is asked once, at the end of the patch.
pub fn acquire(slots: &mut Slots, cache: &EmergencySpillSlotCache, z: usize) -> Option<SpillSlot>
    requires { (z < 32) × SlotsFit 1024 slots.old }
    ensures { Taken slots.old cache.now slots.new z result }
{
    let own = usize::from(slots[32 + z]);
    if 0 < own {
        let i = own - 1;
        slots[32 + z] = i as u16;
        return Some(SpillSlot(slots[64 + z * 1024 + i]));
    }
    let left = usize::from(slots[z]);
    if 0 < left {
        let i = left - 1;
        slots[z] = i as u16;
        touch(slots, z);
        return Some(SpillSlot(cache[64 + z * 2048 + i]));
    }
    None
}

// Puts a slot back on a stack.
pub fn release(slots: &mut Slots, z: usize, s: SpillSlot)
    requires { (z < 32) × SlotsFit 1024 slots.old × (own_of slots.old z < 1024) }
    ensures { PutBack slots.old slots.new z s.0 }
{
    let own = usize::from(slots[32 + z]);
    slots[64 + z * 1024 + own] = s.0;
    slots[32 + z] = (own + 1) as u16;
    touch(slots, z);
}

// A search of the patch met a position: the greatest is kept.
pub fn meet(slots: &mut Slots, n: u16)
    ensures { Meets slots.old slots.new n }
{
    slots[32834] = slots[32834].max(n);
}

// The greatest position that the patch met.
pub fn met(slots: &Slots) -> u16
    ensures { result ≡ met_of slots.now }
{
    slots[32834]
}

// What was put back on a stack goes onto what is left of the cache's. A patch puts back all that it took, so no slot made is lost, and there are no more
// than 2,048 to lie on a stack.
fn settle(slots: &Slots, cache: &mut EmergencySpillSlotCache, z: usize)
    requires { (z < 32) × (own_of slots.now z ≤ 1024) × (own_of slots.now z + left_of slots.now z ≤ 2048) }
    ensures { Settled slots.now cache.old cache.new z }
{
    let left = usize::from(slots[z]);
    let own = usize::from(slots[32 + z]);
    for i in 0..own {
        cache[64 + z * 2048 + (left + i)] = slots[64 + z * 1024 + i];
    }
    cache[z] = (left + own) as u16;
}

// The cache becomes what the patch left, and its stamp is raised. Only the stacks that the patch has changed are settled.
pub fn commit(slots: &Slots, cache: &mut EmergencySpillSlotCache, made: u16)
    requires { SlotsFit 1024 slots.now × ((z : ℕ) → z < 32 → length (stacks_of slots.now cache.old z) ≤ 2048) × Untouched cache.old slots.now }
    ensures { Committed slots.now cache.old cache.new made }
{
    let start = usize::from(slots[32832]);
    let end = usize::from(slots[32833]);
    for z in start..end {
        settle(slots, cache, z);
    }
    raise(cache, made);
}
