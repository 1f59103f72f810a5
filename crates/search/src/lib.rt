// The search for a scratch register, and the marks on a register's units.
#![tactic(auto)]

ghost use Rattle.std.specs.Prelude.{◌≡◌, ◌<◌};
ghost use Rattle.entity.specs.Place.{place_at};
ghost use Rattle.reginfo.specs.RegInfo.{num_classes, allocation_order};
ghost use Rattle.reginfo.specs.Refused.{Accepted};
ghost use Rattle.reginfo.specs.Known.{KnownUnits, KnownPlace};
ghost use Rattle.reginfo.specs.Table.{reg_info_of};
ghost use Rattle.small_set.specs.Set.{set_of};
ghost use Rattle.search.specs.Search.{barred_by, usable_in, Searched, with_units, without_units};

use entity::{Allocation, AllocationKind, PhysReg, RegClass, RegUnit};
use reginfo::RegInfo;
use small_set::RegUnitSet;

// Whether a unit is a source unit of a kept move, if asked for a cycle: a diversion outlasts moves that are still to read their sources.
fn barred(sources: &RegUnitSet, cycle: bool, u: RegUnit) -> bool
    requires { u.0 < 512 }
    ensures { result ≡ barred_by cycle sources.now u.0 }
{
    if cycle {
        return small_set::contains(sources, u);
    }
    false
}

// Whether every unit of a register is available, and none is barred.
pub fn usable(
    t: &RegInfo,
    available: &RegUnitSet,
    sources: &RegUnitSet,
    cycle: bool,
    r: PhysReg,
) -> bool
    requires { KnownUnits (reg_info_of t.now) r.0 }
    ensures { result ≡ usable_in (reg_info_of t.now) available.now sources.now cycle r.0 }
{
    let n = reginfo::num_reg_units(t, r);
    for j in 0..n {
        let u = reginfo::reg_unit(t, r, j);
        if !small_set::contains(available, u) {
            return false;
        }
        if barred(sources, cycle, u) {
            return false;
        }
    }
    true
}

// The first register of a class's order that is usable, and its position there, if one would do. The order is the target's: what it wants used first stands first.
pub fn first_usable(
    t: &RegInfo,
    available: &RegUnitSet,
    sources: &RegUnitSet,
    cycle: bool,
    c: RegClass,
) -> Option<(PhysReg, u16)>
    requires { Accepted (reg_info_of t.now) × (c.0 < num_classes (reg_info_of t.now)) }
    ensures { Searched (usable_in (reg_info_of t.now) available.now sources.now cycle) (allocation_order (reg_info_of t.now) c.0) result }
{
    let n = reginfo::order_len(t, c);
    for i in 0..n {
        let r = reginfo::order_at(t, c, i);
        if usable(t, available, sources, cycle, r) {
            return Some((r, i as u16));
        }
    }
    None
}

// Puts the units of a place into the set; a slot has none.
pub fn insert_units(t: &RegInfo, s: &mut RegUnitSet, p: Allocation)
    requires { KnownPlace (reg_info_of t.now) (place_at p.0) }
    ensures { set_of s.new ≡ with_units (reg_info_of t.now) (place_at p.0) (set_of s.old) }
{
    let AllocationKind::PhysReg(r) = p.kind() else {
        return;
    };
    let n = reginfo::num_reg_units(t, r);
    for j in 0..n {
        small_set::insert(s, reginfo::reg_unit(t, r, j));
    }
}

// Takes the units of a place out of the set.
pub fn remove_units(t: &RegInfo, s: &mut RegUnitSet, p: Allocation)
    requires { KnownPlace (reg_info_of t.now) (place_at p.0) }
    ensures { set_of s.new ≡ without_units (reg_info_of t.now) (place_at p.0) (set_of s.old) }
{
    let AllocationKind::PhysReg(r) = p.kind() else {
        return;
    };
    let n = reginfo::num_reg_units(t, r);
    for j in 0..n {
        small_set::remove(s, reginfo::reg_unit(t, r, j));
    }
}
