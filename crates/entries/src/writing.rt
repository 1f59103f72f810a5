// What an added entry writes: the writer of each unit of its destination, and its place in the table.
ghost use Rattle.std.specs.Prelude.{◌≡◌, ◌+◌, ◌<◌, ◌≤◌, length, get_or};
ghost use Rattle.entity.specs.Place.{place_at};
ghost use Rattle.reginfo.specs.RegInfo.{place_units};
ghost use Rattle.reginfo.specs.Table.{reg_info_of};
ghost use Rattle.sparse.specs.Map.{map_of, keys_of, Linked};
ghost use Rattle.entries.specs.Table.{sorted_of, counted_one, stored_move, stored_remat, is_move, is_move_of, remat_as, with_remat};
ghost use Rattle.entries.specs.Known.{Writable, is_written, SameIndex};
ghost use Rattle.entries.specs.Answers.{NotedNew};

use crate::Entries;
use entity::{Allocation, AllocationUnit, Value};
use reginfo::RegInfo;
use sparse::SparseMap;

fn has_writer(w: &SparseMap, u: AllocationUnit) -> bool
    requires { Linked w.now × (u.0 < 4608) }
    ensures { result ≡ is_written w.now u.0 }
{
    match sparse::get(w, u) {
        Some(_) => true,
        None => false,
    }
}

// Notes x as the writer of each unit of the place and answers true, unless a unit has a writer: then nothing is noted. A visit asks which move
// overwrites a source unit, and two answers would leave open which of them comes first.
pub(crate) fn note_writes(t: &RegInfo, w: &mut SparseMap, p: Allocation, x: u16) -> bool
    requires { Linked w.old × Writable (reg_info_of t.now) (place_at p.0) × (length (keys_of w.old) ≤ 1016) }
    ensures { NotedNew w.old w.new (place_units (reg_info_of t.now) (place_at p.0)) x result }
{
    let before = sparse::len(w);
    let n = reginfo::num_place_units(t, p);
    for j in 0..n {
        let u = reginfo::place_unit(t, p, j);
        if has_writer(w, u) {
            sparse::shorten(w, before);
            return false;
        }
        sparse::insert(w, u, x);
    }
    true
}

// Whether m is a kept move with this source, destination and value.
fn is_move(e: &Entries, m: u16, source: Allocation, dest: Allocation, v: Value) -> bool
    ensures { result ≡ is_move e.now m source.0 dest.0 v.0 }
{
    let i = usize::from(m);
    if 128 <= i {
        return false;
    }
    if e[i * 4] != source.0 {
        return false;
    }
    if e[1 + i * 4] != dest.0 {
        return false;
    }
    e[2 + i * 4] == v.0
}

// Whether the writer of the destination's first unit is that very move. One unit is enough: a move that writes it and has this destination writes all
// the others, too.
pub(crate) fn is_dropped(
    t: &RegInfo,
    e: &Entries,
    w: &SparseMap,
    source: Allocation,
    dest: Allocation,
    v: Value,
) -> bool
    requires { Linked w.now × Writable (reg_info_of t.now) (place_at dest.0) }
    ensures { result ≡ is_move_of e.now (map_of w.now (get_or (place_units (reg_info_of t.now) (place_at dest.0)) 0 0)) source.0 dest.0 v.0 }
{
    match sparse::get(w, reginfo::place_unit(t, dest, 0)) {
        Some(m) => is_move(e, m, source, dest, v),
        None => false,
    }
}

// Counts an entry, a dropped one too: 15 is about what is given, not about what is kept.
pub(crate) fn count_entry(e: &mut Entries)
    requires { get_or e.old 1027 0 < 128 }
    ensures { (e.new ≡ counted_one e.old) × (length e.old ≡ 1541) }
{
    let n = usize::from(e[1027]);
    e[1027] = (n + 1) as u16;
}

// Puts a move behind the kept ones.
fn store_move(e: &mut Entries, source: Allocation, dest: Allocation, v: Value)
    requires { get_or e.old 1024 0 < 128 }
    ensures { e.new ≡ stored_move e.old (get_or e.old 1024 0) source.0 dest.0 v.0 }
{
    let m = usize::from(e[1024]);
    e[m * 4] = source.0;
    e[1 + m * 4] = dest.0;
    e[2 + m * 4] = v.0;
    e[1024] = (m + 1) as u16;
}

// Puts a rebuild behind those of the list that starts at base and is counted at counter.
fn store_remat(e: &mut Entries, base: usize, counter: usize, dest: Allocation, v: Value)
    requires { (base ≤ 768) × (counter < 1028) × (get_or e.old counter 0 < 128) }
    ensures { e.new ≡ stored_remat e.old base counter (get_or e.old counter 0) dest.0 v.0 }
{
    let i = usize::from(e[counter]);
    e[base + i * 2] = dest.0;
    e[base + 1 + i * 2] = v.0;
    e[counter] = (i + 1) as u16;
}

// Keeps a move whose writes are noted and that the index tells.
pub(crate) fn keep(e: &mut Entries, source: Allocation, dest: Allocation, v: Value)
    requires { (get_or e.old 1024 0 + (get_or e.old 1025 0 + get_or e.old 1026 0) < 128) × (get_or e.old 1027 0 < 128) }
    ensures { (e.new ≡ counted_one (stored_move e.old (get_or e.old 1024 0) source.0 dest.0 v.0)) × (length e.new ≡ 1541) }
{
    store_move(e, source, dest, v);
    count_entry(e);
}

// Puts a rebuild into the table.
pub(crate) fn put_remat(e: &mut Entries, scratch: bool, dest: Allocation, v: Value)
    requires { (get_or e.old 1024 0 + (get_or e.old 1025 0 + get_or e.old 1026 0) < 128) × (get_or e.old 1027 0 < 128) }
    ensures { (sorted_of e.new ≡ with_remat scratch (remat_as dest.0 v.0) (sorted_of e.old)) × SameIndex e.old e.new }
{
    if scratch {
        store_remat(e, 768, 1026, dest, v);
        count_entry(e);
        return;
    }
    store_remat(e, 512, 1025, dest, v);
    count_entry(e);
}
