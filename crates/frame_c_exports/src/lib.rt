// The static library for C and Rust of `frame_c`: a frame that formulas share is opened, and they are called (02 l). Each function here is that
// library's of the same name, with the same clauses.
#![tactic(auto)]

ghost use Rattle.std.specs.Prelude.{◌≡◌, ◌<◌, length};
ghost use Rattle.entity.specs.Logic.{Anything};
ghost use Rattle.reginfo.specs.Refused.{first_of};
ghost use Rattle.function.specs.Known.{Checked};
ghost use Rattle.slots.specs.Stacks.{stamp_of};
ghost use Rattle.frame_table.specs.Table.{number_of, counter_of, made_of, opens_next};
ghost use Rattle.frame_table.specs.Opening.{share_conditions};
ghost use Rattle.frame_table.specs.Held.{FrameOk};
ghost use Rattle.frame_calls.specs.Given.{InFrame, opened_in};
ghost use Rattle.frame_calls.specs.Answers.{answer_of, CanTakeIn};
ghost use Rattle.frame_groups.specs.Answer.{groups_answer};
ghost use Rattle.frame_c.specs.Called.{FrameBy, FormulaIf, ResolvedBy, AskedBy, preview_of, TakenBy};

use carried::Carried;
use edit::Edits;
use entries::Entries;
use frame_table::Frame;
use function::Function;
use groups::{Labels, Owners};
use reginfo::RegInfo;
use scratch::Diversions;
use slots::{EmergencySpillSlotCache, Slots};
use small_set::RegUnitSet;
use sparse::SparseMap;
use visits::States;

#[unsafe(no_mangle)]
pub extern "C" fn parallel_moves_frame_open_5(frame: &mut Frame, limit: u32, shares: &[u32]) -> u8
    ensures { FrameBy limit shares.now (first_of (share_conditions limit shares.now)) result frame.old frame.new }
{
    frame_c::parallel_moves_frame_open_5(frame, limit, shares)
}

#[unsafe(no_mangle)]
pub extern "C" fn parallel_moves_frame_formula_5(
    frame: &mut Frame,
    formula: usize,
    kept_evictions: u32,
    bytes: &[u8],
    target: &mut RegInfo,
    function: &mut Function,
    cache: &mut EmergencySpillSlotCache,
) -> u8
    requires { FrameOk frame.old }
    ensures { FormulaIf (opens_next frame.old formula) frame.old frame.new formula (opened_in frame.old formula kept_evictions bytes.now) result target.old target.new function.old function.new cache.old cache.new }
{
    frame_c::parallel_moves_frame_formula_5(
        frame,
        formula,
        kept_evictions,
        bytes,
        target,
        function,
        cache,
    )
}

#[unsafe(no_mangle)]
pub extern "C" fn parallel_moves_frame_resolve_5(
    frame: &mut Frame,
    formula: usize,
    target: &RegInfo,
    function: &Function,
    free: &[u32],
    numbers: &[u32],
    cache: &mut EmergencySpillSlotCache,
    list: &mut [u64],
    refusal: &mut u8,
    position: &mut u16,
    entries: &mut Entries,
    writers: &mut SparseMap,
    available: &mut RegUnitSet,
    sources: &mut RegUnitSet,
    edits: &mut Edits,
    slots: &mut Slots,
    diverted: &mut Diversions,
    marks: &mut States,
    carried: &mut Carried,
) -> usize
    requires { Checked target.now function.now × FrameOk frame.old × (formula < number_of frame.old) × InFrame frame.old function.now cache.old }
    ensures resolved_by { ResolvedBy frame.old frame.new formula function.now (answer_of frame.old formula target.now function.now free.now numbers.now (length list.old) cache.old) result refusal.new position.old position.new list.old list.new cache.old cache.new }
    ensures anything { Anything entries.new × Anything writers.new × Anything available.new × Anything sources.new × Anything edits.new × Anything slots.new × Anything diverted.new × Anything marks.new × Anything carried.new }
{
    frame_c::parallel_moves_frame_resolve_5(
        frame, formula, target, function, free, numbers, cache, list, refusal, position, entries,
        writers, available, sources, edits, slots, diverted, marks, carried,
    )
}

#[unsafe(no_mangle)]
pub extern "C" fn parallel_moves_frame_resolve_groups_5(
    frame: &mut Frame,
    formula: usize,
    target: &RegInfo,
    function: &Function,
    free: &[u32],
    numbers: &[u32],
    cache: &mut EmergencySpillSlotCache,
    list: &mut [u64],
    refusal: &mut u8,
    position: &mut u16,
    units: &mut RegUnitSet,
    entries: &mut Entries,
    writers: &mut SparseMap,
    available: &mut RegUnitSet,
    sources: &mut RegUnitSet,
    edits: &mut Edits,
    slots: &mut Slots,
    diverted: &mut Diversions,
    marks: &mut States,
    carried: &mut Carried,
    owners: &mut Owners,
    labels: &mut Labels,
    next: &mut Labels,
    common: &mut RegUnitSet,
    work: &mut EmergencySpillSlotCache,
    joined: &mut [u64; 1024],
) -> usize
    requires { Checked target.now function.now × FrameOk frame.old × (formula < number_of frame.old) × InFrame frame.old function.now cache.old }
    ensures resolved_by { ResolvedBy frame.old frame.new formula function.now (groups_answer frame.old formula target.now function.now free.now numbers.now (length list.old) cache.old) result refusal.new position.old position.new list.old list.new cache.old cache.new }
    ensures anything { Anything units.new × Anything entries.new × Anything writers.new × Anything available.new × Anything sources.new × Anything edits.new × Anything slots.new × Anything diverted.new × Anything marks.new × Anything carried.new }
    ensures anything_2 { Anything owners.new × Anything labels.new × Anything next.new × Anything common.new × Anything work.new × Anything joined.new }
{
    frame_c::parallel_moves_frame_resolve_groups_5(
        frame, formula, target, function, free, numbers, cache, list, refusal, position, units,
        entries, writers, available, sources, edits, slots, diverted, marks, carried, owners,
        labels, next, common, work, joined,
    )
}

#[unsafe(no_mangle)]
pub extern "C" fn parallel_moves_frame_ask_5(
    frame: &Frame,
    formula: usize,
    target: &RegInfo,
    function: &Function,
    free: &[u32],
    numbers: &[u32],
    cache: &EmergencySpillSlotCache,
    list: &mut [u64],
    refusal: &mut u8,
    to: &mut u16,
    made: &mut u16,
    position: &mut u16,
    stamp: &mut u64,
    counter: &mut u16,
    entries: &mut Entries,
    writers: &mut SparseMap,
    available: &mut RegUnitSet,
    sources: &mut RegUnitSet,
    edits: &mut Edits,
    slots: &mut Slots,
    diverted: &mut Diversions,
    marks: &mut States,
    carried: &mut Carried,
) -> usize
    requires { Checked target.now function.now × FrameOk frame.now × (formula < number_of frame.now) × InFrame frame.now function.now cache.now }
    ensures asked_by { AskedBy frame.now formula function.now (answer_of frame.now formula target.now function.now free.now numbers.now (length list.old) cache.now) result refusal.new (preview_of to.old made.old position.old stamp.old counter.old) (preview_of to.new made.new position.new stamp.new counter.new) list.old list.new cache.now slots.new }
    ensures anything { Anything entries.new × Anything writers.new × Anything available.new × Anything sources.new × Anything edits.new × Anything diverted.new × Anything marks.new × Anything carried.new }
{
    frame_c::parallel_moves_frame_ask_5(
        frame, formula, target, function, free, numbers, cache, list, refusal, to, made, position,
        stamp, counter, entries, writers, available, sources, edits, slots, diverted, marks,
        carried,
    )
}

#[unsafe(no_mangle)]
pub extern "C" fn parallel_moves_frame_take_5(
    frame: &mut Frame,
    formula: usize,
    to: u16,
    stamp: u64,
    counter: u16,
    slots: &Slots,
    cache: &mut EmergencySpillSlotCache,
) -> u8
    requires { FrameOk frame.old × (formula < number_of frame.old) × (stamp ≡ stamp_of cache.old → counter ≡ counter_of frame.old → CanTakeIn frame.old formula (preview_of to 0 0 stamp counter) slots.now cache.old) }
    ensures { TakenBy frame.old frame.new formula to stamp counter slots.now cache.old result cache.new }
{
    frame_c::parallel_moves_frame_take_5(frame, formula, to, stamp, counter, slots, cache)
}

#[unsafe(no_mangle)]
pub extern "C" fn parallel_moves_frame_made_5(frame: &Frame, formula: usize) -> u16
    requires { formula < 16 }
    ensures { result ≡ made_of frame.now formula }
{
    frame_c::parallel_moves_frame_made_5(frame, formula)
}
