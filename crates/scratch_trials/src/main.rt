// 01's trials of the allocator alone: slot 0 to slot 1, slots swapped, and a rebuild into a slot, step by step. For each it is printed
// whether the edits are those that 01 gives.
#![tactic(auto)]

ghost use Rattle.std.specs.Prelude.{◌≡◌, true, false, ◌<◌, ◌≤◌};
ghost use Rattle.entity.specs.Logic.{Anything};
ghost use Rattle.entity.specs.Place.{place_at};
ghost use Rattle.reginfo.specs.RegInfo.{num_classes};
ghost use Rattle.reginfo.specs.Table.{reg_info_of, Indexed};
ghost use Rattle.function.specs.Function.{num_values};
ghost use Rattle.function.specs.Table.{function_of};
ghost use Rattle.function.specs.Refused as function;
ghost use Rattle.reginfo.specs.Refused as reginfo;
ghost use Rattle.edit.specs.Buffer.{count_of};
ghost use Rattle.function.specs.Known.{Checked};
ghost use Rattle.scratch.specs.State.{T, F, Fits, PlaceFits};
ghost use Rattle.scratch.specs.Promises.{tables};
ghost use Rattle.scratch.specs.Diversions.{count_at, diversion_at};
ghost use Rattle.search.specs.Search.{barred_by};
ghost use Rattle.scratch_trials.specs.Steps.{Started, slot_to_slot, slots_swapped, rematted, Ends};
ghost use Rattle.scratch_trials.specs.Cells.{with_cells, three_registers, moved_values, remat_value, after_trials, handed_out, differ_from};

use edit::Edits;
use entity::{Allocation, PhysReg, RegClass, SpillSlot, Value};
use function::Function;
use reginfo::RegInfo;
use scratch::{Diversions, ScratchAllocator};
use slots::{EmergencySpillSlotCache, Slots};
use small_set::RegUnitSet;

// Nothing made, nothing available, an empty cache.
fn start(
    available: &mut RegUnitSet,
    edits: &mut Edits,
    slots: &mut Slots,
    cache: &mut EmergencySpillSlotCache,
) -> ScratchAllocator
    ensures { Started result available.new edits.new slots.new cache.new }
{
    small_set::clear(available);
    edit::clear(edits);
    slots::clear(cache);
    slots::begin(slots, cache);
    ScratchAllocator::new(0)
}

// One move, and all brought back.
fn slot_to_slot(
    k: ScratchAllocator,
    t: &RegInfo,
    f: &Function,
    cache: &EmergencySpillSlotCache,
    available: &mut RegUnitSet,
    sources: &RegUnitSet,
    edits: &mut Edits,
    slots: &mut Slots,
    to: Allocation,
    from: Allocation,
    v: Value,
) -> ScratchAllocator
    requires { Checked t.now f.now × PlaceFits t.now to.0 × PlaceFits t.now from.0 × (v.0 < num_values (function_of f.now)) × Fits 0 1 4 t.now k edits.old slots.old cache.now }
    ensures { Ends t.now f.now cache.now (slot_to_slot (T t.now) (F f.now) (place_at to.0) (place_at from.0) v.0) k (tables edits.old available.old slots.old) result (tables edits.new available.new slots.new) }
{
    let b = function::value_bank(f, v);
    let moved = k.do_move(
        t, f, cache, available, sources, edits, slots, b, to, from, v,
    );
    moved.unevict_all(t, f, cache, edits, slots)
}

// A new diversion, the two moves, its end, and all brought back.
fn slots_swapped(
    k: ScratchAllocator,
    t: &RegInfo,
    f: &Function,
    cache: &EmergencySpillSlotCache,
    available: &mut RegUnitSet,
    sources: &RegUnitSet,
    edits: &mut Edits,
    slots: &mut Slots,
    d: &mut Diversions,
    p: Allocation,
    q: Allocation,
    v: Value,
    w: Value,
) -> ScratchAllocator
    requires { Checked t.now f.now × PlaceFits t.now p.0 × PlaceFits t.now q.0 × (v.0 < num_values (function_of f.now)) × (w.0 < num_values (function_of f.now)) × (count_at d.old w.0 ≡ 0) × Fits 0 2 14 t.now k edits.old slots.old cache.now }
    ensures ends { Ends t.now f.now cache.now (slots_swapped (T t.now) (F f.now) (barred_by true sources.now) (place_at p.0) (place_at q.0) v.0 w.0 (diversion_at d.old w.0)) k (tables edits.old available.old slots.old) result (tables edits.new available.new slots.new) }
    ensures anything { Anything d.new }
{
    let b = function::value_bank(f, w);
    let c = function::value_bank(f, v);
    let found = k.divert(t, f, cache, available, sources, edits, slots, d, 1, w, q);
    let s = found.place;
    let a = found.allocator;
    let first = a.do_move(t, f, cache, available, sources, edits, slots, b, p, s, w);
    let then = first.do_move(t, f, cache, available, sources, edits, slots, c, q, p, v);
    let last = then.undivert(t, f, cache, available, sources, edits, slots, d, w);
    last.unevict_all(t, f, cache, edits, slots)
}

// A rebuild into a place through a scratch of a class.
fn remat(
    k: ScratchAllocator,
    t: &RegInfo,
    f: &Function,
    cache: &EmergencySpillSlotCache,
    available: &mut RegUnitSet,
    sources: &RegUnitSet,
    edits: &mut Edits,
    slots: &mut Slots,
    to: Allocation,
    v: Value,
    c: RegClass,
) -> ScratchAllocator
    requires { Checked t.now f.now × PlaceFits t.now to.0 × (v.0 < num_values (function_of f.now)) × (c.0 < num_classes (T t.now)) × Fits 0 2 8 t.now k edits.old slots.old cache.now }
    ensures { Ends t.now f.now cache.now (rematted (T t.now) (F f.now) (barred_by false sources.now) (place_at to.0) v.0 c.0) k (tables edits.old available.old slots.old) result (tables edits.new available.new slots.new) }
{
    let b = function::value_bank(f, v);
    let before = k.unevict_for_reg(t, f, cache, edits, slots, to);
    let found = before.get_scratch_reg(t, f, cache, available, sources, false, edits, slots, b, c);
    let p = found.place;
    let a = found.allocator;
    let moved = a.move_edits(t, f, cache, available, sources, edits, slots, b, to, p, v);
    edit::push_remat(edits, p, v);
    let released = moved.release_place(t, f, slots, b, p);
    let marked = released.make_available(t, available, to);
    marked.unevict_all(t, f, cache, edits, slots)
}

// The target of the trials: three registers of one unit, one bank, and two classes of all three, of which the first includes slots.
fn three(t: &mut RegInfo)
    ensures { t.new ≡ with_cells three_registers t.old }
{
    t[2] = 1;
    t[18] = 1;
    t[24] = 1;
    t[34] = 1;
    t[40] = 2;
    t[8193] = 1;
    t[8194] = 3;
    t[8195] = 3;
    t[8202] = 3;
    t[8203] = 3;
    t[8704] = 3;
    t[8706] = 1;
    t[8736] = 3;
    t[8737] = 1;
    t[8738] = 3;
    t[8739] = 2;
    t[9217] = 1;
    t[9218] = 2;
    t[9729] = 1;
    t[9730] = 2;
    t[41985] = 1;
    t[41986] = 2;
    t[42497] = 1;
    t[42498] = 2;
}

// Whether the edits differ from these, which end in a zero.
fn differ(e: &Edits, want: [u64; 9]) -> bool
    requires { count_of e.now ≤ 1024 }
    ensures { result ≡ differ_from 9 0 (handed_out e.now) want }
{
    let mut list = [0u64; 1024];
    edit::hand_out(e, &mut list);
    for i in 0..9 {
        if list[i] != want[i] {
            return true;
        }
    }
    false
}

fn report(name: &[u8], other: bool) {
    io::write_all(1, name);
    if other {
        io::write_all(1, b": other edits\n");
        return;
    }
    io::write_all(1, b": as given\n");
}

fn report_slot_to_slot(t: &RegInfo, f: &Function)
    requires { Checked t.now f.now × (1 < num_values (function_of f.now)) }
{
    let mut cache = [0u16; 65600];
    let mut slots = [0u16; 32835];
    let mut edits = [0u64; 1025];
    let mut available = [false; 512];
    let sources = [false; 512];
    let k = start(&mut available, &mut edits, &mut slots, &mut cache);
    slot_to_slot(
        k,
        t,
        f,
        &cache,
        &mut available,
        &sources,
        &mut edits,
        &mut slots,
        Allocation(2),
        Allocation(0),
        Value(0),
    );
    let want = [
        edit::spill_word(SpillSlot(2), PhysReg(2)),
        edit::move_word(Allocation(5), Allocation(0), Value(0)),
        edit::move_word(Allocation(2), Allocation(5), Value(0)),
        edit::reload_word(PhysReg(2), SpillSlot(2)),
        0,
        0,
        0,
        0,
        0,
    ];
    report(b"slot 0 to slot 1", differ(&edits, want));
}

fn report_slots_swapped(t: &RegInfo, f: &Function)
    requires { Checked t.now f.now × (1 < num_values (function_of f.now)) }
{
    let mut cache = [0u16; 65600];
    let mut slots = [0u16; 32835];
    let mut edits = [0u64; 1025];
    let mut d = [0u16; 12288];
    let mut available = [false; 512];
    let sources = [false; 512];
    let k = start(&mut available, &mut edits, &mut slots, &mut cache);
    slots_swapped(
        k,
        t,
        f,
        &cache,
        &mut available,
        &sources,
        &mut edits,
        &mut slots,
        &mut d,
        Allocation(0),
        Allocation(2),
        Value(0),
        Value(1),
    );
    let want = [
        edit::spill_word(SpillSlot(3), PhysReg(2)),
        edit::move_word(Allocation(5), Allocation(2), Value(1)),
        edit::move_word(Allocation(4), Allocation(5), Value(1)),
        edit::move_word(Allocation(5), Allocation(0), Value(0)),
        edit::move_word(Allocation(2), Allocation(5), Value(0)),
        edit::move_word(Allocation(5), Allocation(4), Value(1)),
        edit::move_word(Allocation(0), Allocation(5), Value(1)),
        edit::reload_word(PhysReg(2), SpillSlot(3)),
        0,
    ];
    report(b"slots swapped", differ(&edits, want));
}

fn report_remat(t: &RegInfo, f: &Function)
    requires { Checked t.now f.now × (1 < num_values (function_of f.now)) }
{
    let mut cache = [0u16; 65600];
    let mut slots = [0u16; 32835];
    let mut edits = [0u64; 1025];
    let mut available = [false; 512];
    let sources = [false; 512];
    if reginfo::num_classes(t) < 2 {
        return;
    }
    let k = start(&mut available, &mut edits, &mut slots, &mut cache);
    remat(
        k,
        t,
        f,
        &cache,
        &mut available,
        &sources,
        &mut edits,
        &mut slots,
        Allocation(0),
        Value(0),
        RegClass(1),
    );
    let want = [
        edit::spill_word(SpillSlot(1), PhysReg(2)),
        edit::remat_word(Allocation(5), Value(0)),
        edit::move_word(Allocation(0), Allocation(5), Value(0)),
        edit::reload_word(PhysReg(2), SpillSlot(1)),
        0,
        0,
        0,
        0,
        0,
    ];
    report(b"rebuild into slot 0", differ(&edits, want));
}

// Whether the function has two values or more and is accepted.
fn ready(t: &RegInfo, f: &Function) -> bool
    requires { reginfo.Accepted (reg_info_of t.now) }
    ensures { result ≡ true → function.Accepted (reg_info_of t.now) (function_of f.now) × (1 < num_values (function_of f.now)) }
{
    if function::num_values(f) < 2 {
        return false;
    }
    function::check(t, f).is_ok()
}

// The trials with values that are not rebuilt; N and L are 2, and one eviction is kept.
fn move_trials(t: &RegInfo, f: &mut Function)
    requires { reginfo.Accepted (reg_info_of t.now) × Indexed t.now }
    ensures { f.new ≡ with_cells moved_values f.old }
{
    f[16384] = 2;
    f[16385] = 2;
    f[16386] = 2;
    f[16387] = 1;
    if ready(t, f) {
        report_slot_to_slot(t, f);
        report_slots_swapped(t, f);
    }
}

// The trial with a value that class 1 rebuilds; N is 1.
fn remat_trial(t: &RegInfo, f: &mut Function)
    requires { reginfo.Accepted (reg_info_of t.now) × Indexed t.now }
    ensures { f.new ≡ with_cells remat_value f.old }
{
    f[1] = 2;
    f[2] = 1;
    f[16384] = 2;
    f[16385] = 1;
    if ready(t, f) {
        report_remat(t, f);
    }
}

// All of them, if the target is accepted.
fn trials(t: &mut RegInfo, f: &mut Function)
    ensures { (reg_info_of t.new ≡ reg_info_of t.old) × (f.new ≡ after_trials (reginfo.target_refusal (reg_info_of t.old)) f.old) }
{
    if target_check::check(t).is_err() {
        return;
    }
    move_trials(t, f);
    remat_trial(t, f);
}

fn main() {
    let mut t = [0u16; 107520];
    let mut f = [0u16; 16388];
    three(&mut t);
    trials(&mut t, &mut f);
}
