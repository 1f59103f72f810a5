// Which entries of a patch belong together, and which units are free for a group (02 k). The entries are given as numbers, four to an entry
// (parallel_moves, specs/Given.antt), and have passed their tests.
#![tactic(auto)]

ghost use Rattle.std.specs.Prelude.{◌≡◌, ℕ, ◌+◌, ◌*◌, ◌<◌, ◌≤◌, eqb, length, get_or};
ghost use Rattle.entity.specs.Logic.{pick, or, cells, Anything};
ghost use Rattle.entity.specs.Place.{place_at};
ghost use Rattle.reginfo.specs.RegInfo.{reg_units, place_units};
ghost use Rattle.reginfo.specs.Known.{KnownUnits, KnownPlace};
ghost use Rattle.reginfo.specs.Table.{reg_info_of};
ghost use Rattle.small_set.specs.Set.{set_of, inserted};
ghost use Rattle.entries.specs.Known.{Writable};
ghost use Rattle.group_rules.specs.Groups.{source_units};
ghost use Rattle.groups.specs.Given.{count_of, entry_at, KnownEntry, KnownEntries, labels_in};
ghost use Rattle.groups.specs.Noting.{Renamed, UnitNoted, PlaceNoted, EntryNoted};
ghost use Rattle.groups.specs.Linked.{Linked, GroupAt};
ghost use Rattle.groups.specs.Free.{Closed, Reopened, CommonAs, FreeAs};

use entity::{Allocation, AllocationKind, AllocationUnit, PhysReg, RegUnit};
use reginfo::RegInfo;
use small_set::RegUnitSet;

// Of each unit an entry that has it; 255: none yet. One is enough, since all that have the unit are joined with it: so no two entries are ever compared.
pub type Owners = [u8; 4608];

// A number for each entry.
pub type Labels = [u8; 128];

// What becomes of a label where a and b become `low`.
fn relabelled(x: u8, a: u8, b: u8, low: u8) -> u8
    ensures { result ≡ pick (or (eqb x a) (eqb x b)) low x }
{
    if x == a {
        return low;
    }
    if x == b {
        return low;
    }
    x
}

// Two labels become the lesser of them, so that a group is labelled by its first entry, which gives the groups their order. All cells are rewritten,
// those of no entry too: many at a time.
fn join(labels: &mut Labels, a: u8, b: u8)
    ensures { Renamed a b labels.old labels.new }
{
    let low = a.min(b);
    for i in 0..128 {
        labels[i] = relabelled(labels[i], a, b, low);
    }
}

// Entry k has the unit: it is the first, or its label and the owner's become one.
fn note_unit(owners: &mut Owners, labels: &mut Labels, u: AllocationUnit, k: usize)
    requires { (u.0 < 4608) × (k < 128) }
    ensures { UnitNoted u.0 k owners.old labels.old owners.new labels.new }
{
    let i = usize::from(u.0);
    let o = usize::from(owners[i]);
    if 128 <= o {
        owners[i] = k as u8;
        return;
    }
    let a = labels[o];
    let b = labels[k];
    if a == b {
        return;
    }
    join(labels, a, b);
}

// Entry k has the units of the place.
fn note_place(t: &RegInfo, owners: &mut Owners, labels: &mut Labels, p: Allocation, k: usize)
    requires { Writable (reg_info_of t.now) (place_at p.0) × (k < 128) }
    ensures { PlaceNoted (reg_info_of t.now) (place_units (reg_info_of t.now) (place_at p.0)) k owners.old labels.old owners.new labels.new }
{
    let n = reginfo::num_place_units(t, p);
    for j in 0..n {
        note_unit(owners, labels, reginfo::place_unit(t, p, j), k);
    }
}

// The place whose code stands at `at`.
fn place_at(numbers: &[u32], at: usize) -> Allocation
    requires { (at < length numbers.now) × (get_or numbers.now at 0 < 65536) }
    ensures { result.0 ≡ get_or numbers.now at 0 }
{
    Allocation(numbers[at] as u16)
}

// Entry k, labelled by its own number at first.
fn note_entry(t: &RegInfo, numbers: &[u32], owners: &mut Owners, labels: &mut Labels, k: usize)
    requires { KnownEntry (reg_info_of t.now) numbers.now k × (k * 4 + 4 ≤ length numbers.now) × (k < 128) }
    ensures { EntryNoted (reg_info_of t.now) numbers.now k owners.old labels.old owners.new labels.new }
{
    labels[k] = k as u8;
    note_place(t, owners, labels, place_at(numbers, k * 4 + 1), k);
    if numbers[k * 4] == 0 {
        note_place(t, owners, labels, place_at(numbers, k * 4 + 2), k);
    }
}

// Of each entry the number of the first that it belongs together with. What the tables held does not matter.
pub fn label(t: &RegInfo, numbers: &[u32], owners: &mut Owners, labels: &mut Labels)
    requires { KnownEntries (reg_info_of t.now) numbers.now }
    ensures { (cells labels.new 0 (count_of numbers.now) ≡ labels_in (reg_info_of t.now) numbers.now) × Anything owners.new }
{
    *owners = [255; 4608];
    let n = numbers.len() / 4;
    for k in 0..n {
        note_entry(t, numbers, owners, labels, k);
    }
}

// Of each of n entries the next one of its group, or 255: so that a group is walked without looking at the others. From the last entry to the first, as
// each then knows the one behind it.
pub fn link(labels: &Labels, n: usize, next: &mut Labels)
    requires { (n ≤ 128) × ((i : ℕ) → i < n → get_or labels.now i 0 < 128) }
    ensures { Linked (cells labels.now 0 n) n next.new }
{
    let mut heads = [255u8; 128];
    for i in (0..n).rev() {
        let g = usize::from(labels[i]);
        next[i] = heads[g];
        heads[g] = i as u8;
    }
}

// No unit of the register is in the set any more.
fn close_reg(t: &RegInfo, r: PhysReg, out: &mut RegUnitSet)
    requires { KnownUnits (reg_info_of t.now) r.0 }
    ensures { Closed (reg_units (reg_info_of t.now) r.0) out.old out.new }
{
    let n = reginfo::num_reg_units(t, r);
    for j in 0..n {
        small_set::remove(out, reginfo::reg_unit(t, r, j));
    }
}

// No unit of the place is: a slot's is in no set.
fn close(t: &RegInfo, p: Allocation, out: &mut RegUnitSet)
    requires { KnownPlace (reg_info_of t.now) (place_at p.0) }
    ensures { Closed (place_units (reg_info_of t.now) (place_at p.0)) out.old out.new }
{
    match p.kind() {
        AllocationKind::PhysReg(r) => close_reg(t, r, out),
        AllocationKind::SpillSlot(_) => {}
    }
}

// No unit of the entry's source is.
fn close_source(t: &RegInfo, numbers: &[u32], k: usize, out: &mut RegUnitSet)
    requires { KnownEntry (reg_info_of t.now) numbers.now k × (k * 4 + 4 ≤ length numbers.now) × (k < 128) }
    ensures { Closed (source_units (reg_info_of t.now) (entry_at numbers.now k)) out.old out.new }
{
    if numbers[k * 4] != 0 {
        return;
    }
    close(t, place_at(numbers, k * 4 + 1), out);
}

// The free units that no source of an entry has. A unit may be free and a source; what one group uses as scratch another may still have to read. Found
// once for all groups; each then adds the units of its own sources, which no other group has. What the set held does not matter.
pub fn common_free(t: &RegInfo, numbers: &[u32], free: &RegUnitSet, out: &mut RegUnitSet)
    requires { KnownEntries (reg_info_of t.now) numbers.now }
    ensures { CommonAs (reg_info_of t.now) numbers.now free.now out.new }
{
    small_set::copy_from(out, free);
    let n = numbers.len() / 4;
    for k in 0..n {
        close_source(t, numbers, k, out);
    }
}

// The unit is in the set if it is free.
fn reopen_unit(free: &RegUnitSet, u: RegUnit, out: &mut RegUnitSet)
    requires { u.0 < 512 }
    ensures { set_of out.new ≡ pick (set_of free.now u.0) (inserted (set_of out.old) u.0) (set_of out.old) }
{
    if !small_set::contains(free, u) {
        return;
    }
    small_set::insert(out, u);
}

// The free units of the register are in the set.
fn reopen_reg(t: &RegInfo, free: &RegUnitSet, r: PhysReg, out: &mut RegUnitSet)
    requires { KnownUnits (reg_info_of t.now) r.0 }
    ensures { Reopened (reg_units (reg_info_of t.now) r.0) free.now out.old out.new }
{
    let n = reginfo::num_reg_units(t, r);
    for j in 0..n {
        reopen_unit(free, reginfo::reg_unit(t, r, j), out);
    }
}

// The free units of the place are: a slot's is not free.
fn reopen(t: &RegInfo, free: &RegUnitSet, p: Allocation, out: &mut RegUnitSet)
    requires { KnownPlace (reg_info_of t.now) (place_at p.0) }
    ensures { Reopened (place_units (reg_info_of t.now) (place_at p.0)) free.now out.old out.new }
{
    match p.kind() {
        AllocationKind::PhysReg(r) => reopen_reg(t, free, r, out),
        AllocationKind::SpillSlot(_) => {}
    }
}

// The free units of the entry's source are.
fn reopen_source(t: &RegInfo, numbers: &[u32], free: &RegUnitSet, k: usize, out: &mut RegUnitSet)
    requires { KnownEntry (reg_info_of t.now) numbers.now k × (k * 4 + 4 ≤ length numbers.now) × (k < 128) }
    ensures { Reopened (source_units (reg_info_of t.now) (entry_at numbers.now k)) free.now out.old out.new }
{
    if numbers[k * 4] != 0 {
        return;
    }
    reopen(t, free, place_at(numbers, k * 4 + 1), out);
}

// The free units of the group whose first entry is g: the common ones, and those that its own sources have. What the set held does not matter.
pub fn part_free(
    t: &RegInfo,
    numbers: &[u32],
    free: &RegUnitSet,
    common: &RegUnitSet,
    next: &Labels,
    g: usize,
    out: &mut RegUnitSet,
)
    requires { KnownEntries (reg_info_of t.now) numbers.now × CommonAs (reg_info_of t.now) numbers.now free.now common.now × GroupAt (reg_info_of t.now) numbers.now next.now g }
    ensures { FreeAs (reg_info_of t.now) numbers.now free.now g out.new }
{
    small_set::copy_from(out, common);
    let mut k = g;
    // Kept a `while`: each entry of a group names the next, and nothing is counted.
    while k < 128 {
        reopen_source(t, numbers, free, k, out);
        k = usize::from(next[k]);
    }
}
