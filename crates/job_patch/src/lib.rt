// A patch read from a job's bytes; its entries are tested and added as they are read.
#![tactic(auto)]

ghost use Rattle.std.specs.Prelude.{length, drop, ◌≡◌, ◌≤◌};
ghost use Rattle.entity.specs.Place.{place_at};
ghost use Rattle.small_set.specs.Set.{empty_set};
ghost use Rattle.number.specs.Number.{number};
ghost use Rattle.reginfo.specs.Refused.{Accepted};
ghost use Rattle.reginfo.specs.Table.{reg_info_of};
ghost use Rattle.function.specs.Function.{num_values};
ghost use Rattle.function.specs.Known.{Checked};
ghost use Rattle.function.specs.Table.{function_of};
ghost use Rattle.rules.specs.Patch.{move, remat, nothing_sorted};
ghost use Rattle.entries.specs.Known.{EntriesOk};
ghost use Rattle.number.specs.Read.{got, then};
ghost use Rattle.reading.specs.Reading.{below};
ghost use Rattle.reading.specs.Answer.{ReadAt};
ghost use Rattle.entries.specs.Answers.{added_of};
ghost use Rattle.job_patch.specs.Patches.{place, entry, entries, rising, patch, accepted};
ghost use Rattle.job_patch.specs.Steps.{PlaceAt, EntryAt, added_at, Entered, Freed, PatchAt};

use entity::RegUnit;
use entries::{Added, Entries};
use function::Function;
use number::Number;
use reading::Next;
use reginfo::RegInfo;
use small_set::RegUnitSet;
use sparse::SparseMap;

// A place of the function.
fn read_place(t: &RegInfo, f: &Function, s: &[u8], at: usize) -> Number
    requires { Checked t.now f.now }
    ensures { PlaceAt t.now f.now s.now at result }
{
    match reader::read(s, at) {
        Number::Refused(k) => Number::Refused(k),
        Number::Is(code, next) => {
            if entries::names_place(t, f, code) {
                return Number::Is(code, next);
            }
            Number::Refused(2)
        }
    }
}

// A value of the function.
fn read_value(f: &Function, s: &[u8], at: usize) -> Number
    requires { num_values (function_of f.now) ≤ 4096 }
    ensures { ReadAt (below (num_values (function_of f.now))) s.now at result }
{
    reading::below(s, at, function::num_values(f) as u32)
}

// Where the next entry stands, if this one was added.
fn added(r: Added, next: usize) -> Next
    ensures { result ≡ added_at (added_of r) next }
{
    match r {
        Added::Yes => Next::At(next),
        Added::Refused(k) => Next::Refused(k),
    }
}

// The value of a move, which is then added.
fn read_move_of(
    t: &RegInfo,
    f: &Function,
    s: &[u8],
    at: usize,
    e: &mut Entries,
    w: &mut SparseMap,
    source: u32,
    dest: u32,
) -> Next
    requires { Checked t.now f.now × EntriesOk t.now f.now e.old w.old }
    ensures { EntryAt t.now f.now s.now e.old w.old (λ l. then (below (num_values (function_of f.now)) l) (λ v o. got (move (place_at source) (place_at dest) v) o)) at e.new w.new result }
{
    match read_value(f, s, at) {
        Number::Refused(k) => Next::Refused(k),
        Number::Is(v, next) => {
            let r = entries::add_move(t, f, e, w, source, dest, v);
            added(r, next)
        }
    }
}

// The destination of a move, and what follows it.
fn read_move_to(
    t: &RegInfo,
    f: &Function,
    s: &[u8],
    at: usize,
    e: &mut Entries,
    w: &mut SparseMap,
    source: u32,
) -> Next
    requires { Checked t.now f.now × EntriesOk t.now f.now e.old w.old }
    ensures { EntryAt t.now f.now s.now e.old w.old (λ l. then (place (reg_info_of t.now) (function_of f.now) l) (λ d p. then (below (num_values (function_of f.now)) p) (λ v o. got (move (place_at source) d v) o))) at e.new w.new result }
{
    match read_place(t, f, s, at) {
        Number::Refused(k) => Next::Refused(k),
        Number::Is(dest, next) => read_move_of(t, f, s, next, e, w, source, dest),
    }
}

// A move, from its source on.
fn read_move(
    t: &RegInfo,
    f: &Function,
    s: &[u8],
    at: usize,
    e: &mut Entries,
    w: &mut SparseMap,
) -> Next
    requires { Checked t.now f.now × EntriesOk t.now f.now e.old w.old }
    ensures { EntryAt t.now f.now s.now e.old w.old (λ l. then (place (reg_info_of t.now) (function_of f.now) l) (λ x q. then (place (reg_info_of t.now) (function_of f.now) q) (λ d p. then (below (num_values (function_of f.now)) p) (λ v o. got (move x d v) o)))) at e.new w.new result }
{
    match read_place(t, f, s, at) {
        Number::Refused(k) => Next::Refused(k),
        Number::Is(source, next) => read_move_to(t, f, s, next, e, w, source),
    }
}

// The value of a rebuild, which is then added.
fn read_remat_of(
    t: &RegInfo,
    f: &Function,
    s: &[u8],
    at: usize,
    e: &mut Entries,
    w: &mut SparseMap,
    dest: u32,
) -> Next
    requires { Checked t.now f.now × EntriesOk t.now f.now e.old w.old }
    ensures { EntryAt t.now f.now s.now e.old w.old (λ l. then (below (num_values (function_of f.now)) l) (λ v o. got (remat (place_at dest) v) o)) at e.new w.new result }
{
    match read_value(f, s, at) {
        Number::Refused(k) => Next::Refused(k),
        Number::Is(v, next) => {
            let r = entries::add_remat(t, f, e, w, dest, v);
            added(r, next)
        }
    }
}

// A rebuild, from its destination on.
fn read_remat(
    t: &RegInfo,
    f: &Function,
    s: &[u8],
    at: usize,
    e: &mut Entries,
    w: &mut SparseMap,
) -> Next
    requires { Checked t.now f.now × EntriesOk t.now f.now e.old w.old }
    ensures { EntryAt t.now f.now s.now e.old w.old (λ l. then (place (reg_info_of t.now) (function_of f.now) l) (λ d q. then (below (num_values (function_of f.now)) q) (λ v p. got (remat d v) p))) at e.new w.new result }
{
    match read_place(t, f, s, at) {
        Number::Refused(k) => Next::Refused(k),
        Number::Is(dest, next) => read_remat_of(t, f, s, next, e, w, dest),
    }
}

// An entry, which is added.
fn read_entry(
    t: &RegInfo,
    f: &Function,
    s: &[u8],
    at: usize,
    e: &mut Entries,
    w: &mut SparseMap,
) -> Next
    requires { Checked t.now f.now × EntriesOk t.now f.now e.old w.old }
    ensures { EntryAt t.now f.now s.now e.old w.old (entry (reg_info_of t.now) (function_of f.now)) at e.new w.new result }
{
    match reading::below(s, at, 2) {
        Number::Refused(k) => Next::Refused(k),
        Number::Is(kind, next) => match kind {
            0 => read_move(t, f, s, next, e, w),
            _ => read_remat(t, f, s, next, e, w),
        },
    }
}

// The entries of a patch, each added or the first refused. What the tables held does not matter.
fn read_entries(
    t: &RegInfo,
    f: &Function,
    s: &[u8],
    at: usize,
    e: &mut Entries,
    w: &mut SparseMap,
    n: u32,
) -> Next
    requires { Checked t.now f.now × (at ≤ length s.now) }
    ensures { Entered t.now f.now s.now (entries (reg_info_of t.now) (function_of f.now) n nothing_sorted (drop at s.now)) nothing_sorted result e.new w.new }
{
    entries::new_parallel_move(e, w);
    let mut q = at;
    for _done in 0..n {
        if entries::is_full(e) {
            return Next::Refused(15);
        }
        match read_entry(t, f, s, q, e, w) {
            Next::Refused(k) => return Next::Refused(k),
            Next::At(next) => q = next,
        }
    }
    Next::At(q)
}

// The free units of a patch, rising. What the set held does not matter.
fn read_free(t: &RegInfo, s: &[u8], at: usize, free: &mut RegUnitSet, n: u32) -> Next
    requires { Accepted (reg_info_of t.now) × (at ≤ length s.now) }
    ensures { Freed s.now (rising n (reg_info_of t.now).units 0 (drop at s.now)) empty_set result free.new }
{
    small_set::clear(free);
    let units = reginfo::num_units(t) as u32;
    let mut q = at;
    let mut least: u32 = 0;
    for _done in 0..n {
        match reading::below(s, q, units) {
            Number::Refused(k) => return Next::Refused(k),
            Number::Is(u, next) => {
                if u < least {
                    return Next::Refused(3);
                }
                small_set::insert(free, RegUnit(u as u16));
                least = u + 1;
                q = next;
            }
        }
    }
    Next::At(q)
}

// The entry count and the entries.
fn read_rest(
    t: &RegInfo,
    f: &Function,
    s: &[u8],
    at: usize,
    e: &mut Entries,
    w: &mut SparseMap,
) -> Next
    requires { Checked t.now f.now }
    ensures { Entered t.now f.now s.now (then (number (drop at s.now)) (λ n p. entries (reg_info_of t.now) (function_of f.now) n nothing_sorted p)) nothing_sorted result e.new w.new }
{
    match reader::read(s, at) {
        Number::Refused(k) => Next::Refused(k),
        Number::Is(n, next) => read_entries(t, f, s, next, e, w, n),
    }
}

// The free count and the free units.
fn read_free_units(t: &RegInfo, s: &[u8], at: usize, free: &mut RegUnitSet) -> Next
    requires { Accepted (reg_info_of t.now) }
    ensures { Freed s.now (then (number (drop at s.now)) (λ n p. rising n (reg_info_of t.now).units 0 p)) empty_set result free.new }
{
    match reader::read(s, at) {
        Number::Refused(k) => Next::Refused(k),
        Number::Is(n, next) => read_free(t, s, next, free, n),
    }
}

// A patch: its free units, and its entries added one after the other. What the tables held does not matter.
pub fn read_patch(
    t: &RegInfo,
    f: &Function,
    s: &[u8],
    at: usize,
    free: &mut RegUnitSet,
    e: &mut Entries,
    w: &mut SparseMap,
) -> Next
    requires { Checked t.now f.now }
    ensures { PatchAt t.now f.now s.now (patch (reg_info_of t.now) (function_of f.now) (drop at s.now)) result free.new e.new w.new }
{
    match read_free_units(t, s, at, free) {
        Next::Refused(k) => Next::Refused(k),
        Next::At(next) => read_rest(t, f, s, next, e, w),
    }
}

// A patch read alone: with every test that it has before it is resolved. A list of 1,024 edits has room for every patch.
pub fn read_accepted(
    t: &RegInfo,
    f: &Function,
    s: &[u8],
    at: usize,
    free: &mut RegUnitSet,
    e: &mut Entries,
    w: &mut SparseMap,
) -> Next
    requires { Checked t.now f.now }
    ensures { PatchAt t.now f.now s.now (accepted (reg_info_of t.now) (function_of f.now) (drop at s.now)) result free.new e.new w.new }
{
    match read_patch(t, f, s, at, free, e, w) {
        Next::Refused(k) => Next::Refused(k),
        Next::At(next) => match entries::refusal(t, f, e, w, free, true, 1024) {
            Added::Refused(k) => Next::Refused(k),
            Added::Yes => Next::At(next),
        },
    }
}
