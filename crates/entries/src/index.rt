// 21: the index of sources. For each register unit a cell beside the entries tells a kept move whose source has it. One is enough: all kept moves
// that read a unit have the same source, or 21 would have refused one. So a source is tested by its units, at most 8, not by all kept moves.
ghost use Rattle.std.specs.Prelude.{◌≡◌, false, ◌+◌, ◌%◌, ◌<◌, get_or};
ghost use Rattle.entity.specs.Logic.{twice};
ghost use Rattle.entity.specs.Place.{reg, place_at};
ghost use Rattle.reginfo.specs.RegInfo.{reg_units};
ghost use Rattle.reginfo.specs.Known.{KnownUnits};
ghost use Rattle.reginfo.specs.Table.{reg_info_of};
ghost use Rattle.entries.specs.Table.{sorted_of, stamp_of};
ghost use Rattle.entries.specs.Known.{Writable, clashes_at, SourcedAt, Sourced};
ghost use Rattle.entries.specs.Answers.{IndexedAs};

use crate::Entries;
use entity::{Allocation, AllocationKind, PhysReg, RegUnit};
use reginfo::RegInfo;

// What tells the cells of this patch from those of the patches before it, most of them: so 512 cells need not be cleared for each patch. After 512
// patches it comes round, and an old cell looks like a new one; what a cell tells is therefore looked up before it is believed.
pub(crate) fn stamp(e: &Entries) -> usize
    ensures { result ≡ stamp_of e.now }
{
    usize::from(e[1540]) % 512
}

// Whether the move that the cell of the unit tells is kept, has another source than r and has the unit in it. If none is, no kept move is.
fn told_clashes(t: &RegInfo, e: &Entries, r: PhysReg, u: RegUnit, m: usize) -> bool
    requires { SourcedAt (reg_info_of t.now) e.now u.0 × (u.0 < 512) × (m ≡ get_or e.now (1028 + u.0) 0 % 128) }
    ensures { result ≡ clashes_at (reg_info_of t.now) (sorted_of e.now) (reg r.0) u.0 }
{
    if usize::from(e[1024]) <= m {
        return false;
    }
    let p = Allocation(e[m * 4]);
    match p.kind() {
        AllocationKind::PhysReg(q) => {
            if q == r {
                return false;
            }
            reginfo::has_unit(t, q, u)
        }
        AllocationKind::SpillSlot(_) => false,
    }
}

// Whether a kept move whose source is not r has the unit in it: the cell of the unit tells which may.
fn unit_clashes(t: &RegInfo, e: &Entries, r: PhysReg, u: RegUnit) -> bool
    requires { SourcedAt (reg_info_of t.now) e.now u.0 × (u.0 < 512) }
    ensures { result ≡ clashes_at (reg_info_of t.now) (sorted_of e.now) (reg r.0) u.0 }
{
    let c = usize::from(e[1028 + usize::from(u.0)]);
    if c / 128 != stamp(e) {
        return false;
    }
    told_clashes(t, e, r, u, c % 128)
}

// 21 of a source that is a register: the cells of its units are looked at and written, one after the other.
fn index_reg(t: &RegInfo, e: &mut Entries, r: PhysReg) -> bool
    requires { Sourced (reg_info_of t.now) e.old × KnownUnits (reg_info_of t.now) r.0 × (twice (reg_units (reg_info_of t.now) r.0) ≡ false) }
    ensures { IndexedAs (reg_info_of t.now) e.old e.new (reg r.0) result }
{
    // The number of the move that is kept next. If 21 refuses this one, the cells that it wrote tell a move that is not there, or later another one,
    // whose units are looked up.
    let x = (stamp(e) * 128 + usize::from(e[1024])) as u16;
    let n = reginfo::num_reg_units(t, r);
    for j in 0..n {
        let u = reginfo::reg_unit(t, r, j);
        if unit_clashes(t, e, r, u) {
            return true;
        }
        e[1028 + usize::from(u.0)] = x;
    }
    false
}

// 21: whether a kept move has an unequal source that overlaps this one. If none has, the index tells that the next move reads it. Slots overlap
// only if they are equal.
pub(crate) fn index_source(t: &RegInfo, e: &mut Entries, source: Allocation) -> bool
    requires { Sourced (reg_info_of t.now) e.old × Writable (reg_info_of t.now) (place_at source.0) }
    ensures { IndexedAs (reg_info_of t.now) e.old e.new (place_at source.0) result }
{
    match source.kind() {
        AllocationKind::PhysReg(r) => index_reg(t, e, r),
        AllocationKind::SpillSlot(_) => false,
    }
}
