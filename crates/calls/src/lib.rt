// A target and a function opened once, then call after call on that function's cache, refused ones among them, resolved or asked for (02 g); and
// demand 3 of every list of such calls.
#![tactic(auto)]

ghost use Rattle.std.specs.Prelude.{◌≡◌, List, ℕ, ltb, length};
ghost use Rattle.entity.specs.Logic.{Anything};
ghost use Rattle.reginfo.specs.Refused.{Accepted};
ghost use Rattle.reginfo.specs.Table.{reg_info_of};
ghost use Rattle.function.specs.Known.{Checked};
ghost use Rattle.function.specs.Table.{function_of};
ghost use Rattle.slots.specs.Stacks.{cache_of};
ghost use Rattle.entries.specs.Answers.{added_of};
ghost use Rattle.entries.specs.Known.{free_in};
ghost use Rattle.rules.specs.Refusals.{with_limit};
ghost use Rattle.parallel_moves.specs.Given.{with_made, GrantOk, CacheOk};
ghost use Rattle.parallel_moves.specs.Answers.{Gives, GivesGranted, Asks};
ghost use Rattle.number.specs.Read.{Read, then};
ghost use Rattle.job_rules.specs.Job as job;
ghost use Rattle.job.specs.Steps.{BegunAt};
ghost use Rattle.calls.specs.Opening.{ended, opened, opened_priced, TablesAs, OpenedAs};
ghost use Rattle.calls.specs.Call.{call_of, FreeTaken};

use carried::Carried;
use edit::Edits;
use entity::RegUnit;
use entries::{Added, Entries};
use function::Function;
use parallel_moves::{Asked, Grant, Resolved};
use price::Prices;
use reading::Next;
use reginfo::RegInfo;
use scratch::Diversions;
use slots::{EmergencySpillSlotCache, Slots};
use small_set::RegUnitSet;
use sparse::SparseMap;
use visits::States;

// Whether a target and a function are open, or 01's number.
#[derive(Drop)]
pub enum Opened {
    Yes,
    Refused(u8),
}

// A target and a function that were read, where nothing is left behind them; else 8.
fn at_end(begun: Next, s: &[u8]) -> Opened
    ensures { (x : Read job.Opened) (t f : List ℕ) → BegunAt s.now x begun t f → TablesAs (then x (λ x q. ended x q)) result t f }
{
    match begun {
        Next::Refused(k) => Opened::Refused(k),
        Next::At(next) => {
            if next < s.len() {
                return Opened::Refused(8);
            }
            Opened::Yes
        }
    }
}

// The cache of tables that were opened: one with no slot made, its stamp raised, so that nothing asked for of the function before is taken; else as it
// was.
fn cleared(tables: Opened, cache: &mut EmergencySpillSlotCache) -> Opened
    ensures { (x : Read job.Opened) (t f : List ℕ) → TablesAs x tables t f → OpenedAs x result t f cache.old cache.new }
{
    match tables {
        Opened::Refused(k) => Opened::Refused(k),
        Opened::Yes => {
            slots::clear(cache);
            Opened::Yes
        }
    }
}

// Opens the target and the function that the bytes are, with its setting; 22 first, for a setting other than 1 or 2. What the tables held does
// not matter.
pub fn open_tables(kept_evictions: u32, s: &[u8], t: &mut RegInfo, f: &mut Function) -> Opened
    ensures { TablesAs (opened kept_evictions s.now) result t.new f.new }
{
    at_end(job::read_beginning(kept_evictions, s, t, f), s)
}

// The same, and a cache with no slot made.
pub fn open(
    kept_evictions: u32,
    s: &[u8],
    t: &mut RegInfo,
    f: &mut Function,
    cache: &mut EmergencySpillSlotCache,
) -> Opened
    ensures { OpenedAs (opened kept_evictions s.now) result t.new f.new cache.old cache.new }
{
    cleared(open_tables(kept_evictions, s, t, f), cache)
}

// 02 e: the same of a target that gives these prices: 19 for one outside its range, after 7 and before the function's first number.
pub fn open_priced(
    kept_evictions: u32,
    p: Prices,
    s: &[u8],
    t: &mut RegInfo,
    f: &mut Function,
    cache: &mut EmergencySpillSlotCache,
) -> Opened
    ensures { OpenedAs (opened_priced p kept_evictions s.now) result t.new f.new cache.old cache.new }
{
    cleared(
        at_end(job::read_priced_beginning(kept_evictions, p, s, t, f), s),
        cache,
    )
}

// The free units of a patch, rising, as a set: rising, so that one listed twice is found by looking at its neighbour. What the set held does not matter.
pub fn take_free(t: &RegInfo, free: &[u32], available: &mut RegUnitSet) -> Added
    requires { Accepted (reg_info_of t.now) }
    ensures { FreeTaken (reg_info_of t.now).units free.now (added_of result) available.new }
{
    small_set::clear(available);
    let units = reginfo::num_units(t) as u32;
    let mut least: u32 = 0;
    for &u in free {
        if units <= u {
            return Added::Refused(2);
        }
        if u < least {
            return Added::Refused(3);
        }
        small_set::insert(available, RegUnit(u as u16));
        least = u + 1;
    }
    Added::Yes
}

// The same, but that the set is left as it is where no unit is given: the patch may be refused or need no set, and is told that none is given.
fn take_given(t: &RegInfo, free: &[u32], available: &mut RegUnitSet) -> Added
    requires { Accepted (reg_info_of t.now) }
    ensures { FreeTaken (reg_info_of t.now).units free.now (added_of result) (free_in (ltb 0 (length free.now)) available.new) }
{
    if free.len() == 0 {
        return Added::Yes;
    }
    take_free(t, free, available)
}

// Whether a free unit is given.
pub fn some_given(free: &[u32]) -> bool
    ensures { result ≡ ltb 0 (length free.now) }
{
    0 < free.len()
}

// Resolves a patch of free units, rising, and of entries as numbers, four to an entry. Asked is that the target and the function are open,
// and the cache is as `open` or the last call left it: "nothing else writes the cache between calls".
pub fn resolve(
    t: &RegInfo,
    f: &Function,
    free: &[u32],
    numbers: &[u32],
    cache: &mut EmergencySpillSlotCache,
    list: &mut [u64],
    e: &mut Entries,
    w: &mut SparseMap,
    available: &mut RegUnitSet,
    sources: &mut RegUnitSet,
    edits: &mut Edits,
    slots: &mut Slots,
    d: &mut Diversions,
    marks: &mut States,
    c: &mut Carried,
) -> Resolved
    requires { Checked t.now f.now × CacheOk f.now cache.old }
    ensures gives { Gives f.now (call_of (reg_info_of t.now) (function_of f.now) free.now numbers.now (length list.old) (cache_of cache.old)) result list.old list.new cache.old cache.new }
    ensures anything { Anything e.new × Anything w.new × Anything available.new × Anything sources.new × Anything edits.new × Anything slots.new × Anything d.new × Anything marks.new × Anything c.new }
{
    if let Added::Refused(k) = take_given(t, free, available) {
        return Resolved::Refused(k);
    }
    let given = some_given(free);
    parallel_moves::resolve_patch(
        t, f, numbers, cache, list, given, e, w, available, sources, edits, slots, d, marks, c,
    )
}

// The same under a grant (02 l).
pub fn resolve_granted(
    g: Grant,
    t: &RegInfo,
    f: &Function,
    free: &[u32],
    numbers: &[u32],
    cache: &mut EmergencySpillSlotCache,
    list: &mut [u64],
    e: &mut Entries,
    w: &mut SparseMap,
    available: &mut RegUnitSet,
    sources: &mut RegUnitSet,
    edits: &mut Edits,
    slots: &mut Slots,
    d: &mut Diversions,
    marks: &mut States,
    c: &mut Carried,
) -> Resolved
    requires { Checked t.now f.now × GrantOk f.now g cache.old }
    ensures gives_granted { GivesGranted f.now g (call_of (reg_info_of t.now) (with_limit (reg_info_of t.now) (function_of f.now) g.limit) free.now numbers.now (length list.old) (with_made g.made (cache_of cache.old))) result list.old list.new cache.old cache.new }
    ensures anything { Anything e.new × Anything w.new × Anything available.new × Anything sources.new × Anything edits.new × Anything slots.new × Anything d.new × Anything marks.new × Anything c.new }
{
    if let Added::Refused(k) = take_given(t, free, available) {
        return Resolved::Refused(k);
    }
    let given = some_given(free);
    parallel_moves::resolve_patch_granted(
        g, t, f, numbers, cache, list, given, e, w, available, sources, edits, slots, d, marks, c,
    )
}

// Asks for a patch under a grant, given as to `resolve`. The cache is only read; the table of slots keeps what a take of the answer needs.
pub fn ask_granted(
    g: Grant,
    t: &RegInfo,
    f: &Function,
    free: &[u32],
    numbers: &[u32],
    cache: &EmergencySpillSlotCache,
    list: &mut [u64],
    e: &mut Entries,
    w: &mut SparseMap,
    available: &mut RegUnitSet,
    sources: &mut RegUnitSet,
    edits: &mut Edits,
    slots: &mut Slots,
    d: &mut Diversions,
    marks: &mut States,
    c: &mut Carried,
) -> Asked
    requires { Checked t.now f.now × GrantOk f.now g cache.now }
    ensures asks { Asks f.now g.limit (call_of (reg_info_of t.now) (with_limit (reg_info_of t.now) (function_of f.now) g.limit) free.now numbers.now (length list.old) (with_made g.made (cache_of cache.now))) result list.old list.new cache.now slots.new }
    ensures anything { Anything e.new × Anything w.new × Anything available.new × Anything sources.new × Anything edits.new × Anything d.new × Anything marks.new × Anything c.new }
{
    if let Added::Refused(k) = take_given(t, free, available) {
        return Asked::Refused(k);
    }
    let given = some_given(free);
    parallel_moves::ask_patch_granted(
        g, t, f, numbers, cache, list, given, e, w, available, sources, edits, slots, d, marks, c,
    )
}

// The same of a function alone.
pub fn ask(
    t: &RegInfo,
    f: &Function,
    free: &[u32],
    numbers: &[u32],
    cache: &EmergencySpillSlotCache,
    list: &mut [u64],
    e: &mut Entries,
    w: &mut SparseMap,
    available: &mut RegUnitSet,
    sources: &mut RegUnitSet,
    edits: &mut Edits,
    slots: &mut Slots,
    d: &mut Diversions,
    marks: &mut States,
    c: &mut Carried,
) -> Asked
    requires { Checked t.now f.now × CacheOk f.now cache.now }
    ensures asks { Asks f.now (function_of f.now).limit (call_of (reg_info_of t.now) (function_of f.now) free.now numbers.now (length list.old) (cache_of cache.now)) result list.old list.new cache.now slots.new }
    ensures anything { Anything e.new × Anything w.new × Anything available.new × Anything sources.new × Anything edits.new × Anything d.new × Anything marks.new × Anything c.new }
{
    let g = parallel_moves::own_grant(f, cache);
    ask_granted(
        g, t, f, free, numbers, cache, list, e, w, available, sources, edits, slots, d, marks, c,
    )
}
