// The library for C and Rust, which `frame_c_exports` exports: a frame that formulas share is opened, and they are called (02 l). What the working
// tables held does not matter. Asked is that the frame's table and each formula's are as their last calls left them.
#![tactic(auto)]

ghost use Rattle.std.specs.Prelude.{◌≡◌, ◌<◌, length};
ghost use Rattle.entity.specs.Logic.{Anything};
ghost use Rattle.reginfo.specs.Refused.{first_of};
ghost use Rattle.function.specs.Known.{Checked};
ghost use Rattle.slots.specs.Stacks.{stamp_of};
ghost use Rattle.frame_table.specs.Table.{number_of, counter_of, made_of, opens_next};
ghost use Rattle.frame_table.specs.Opening.{share_conditions};
ghost use Rattle.frame_table.specs.Held.{FrameOk};
ghost use Rattle.frame_calls.specs.Given.{InFrame, opened_in};
ghost use Rattle.frame_calls.specs.Answers.{answer_of, CanTakeIn};
ghost use Rattle.frame_groups.specs.Answer.{groups_answer};
ghost use Rattle.frame_c.specs.Called.{FrameBy, FormulaIf, ResolvedBy, AskedBy, preview_of, TakenBy};

use calls::Opened;
use carried::Carried;
use edit::Edits;
use entries::Entries;
use frame_calls::{FrameAsked, FramePreview};
use frame_table::{Frame, FrameOpened};
use function::Function;
use groups::{Labels, Owners};
use parallel_moves::{Resolved, TakeAnswer};
use reginfo::RegInfo;
use scratch::Diversions;
use slots::{EmergencySpillSlotCache, Slots};
use small_set::RegUnitSet;
use sparse::SparseMap;
use visits::States;

// Opens a frame for as many formulas as there are shares: answers 0; or 2 for none or over 16, or for a limit over 2,048, then 23 for shares above the
// limit, and leaves the frame as it was.
pub fn parallel_moves_frame_open_5(frame: &mut Frame, limit: u32, shares: &[u32]) -> u8
    ensures { FrameBy limit shares.now (first_of (share_conditions limit shares.now)) result frame.old frame.new }
{
    match frame_table::open_frame(frame, limit, shares) {
        FrameOpened::Yes => 0,
        FrameOpened::Refused(k) => k,
    }
}

// Opens the target and the function of a formula as `parallel_moves_open` does, its L read but not used: another N than the first one's is 2, when it is
// read. First 2, and nothing changed, for a formula that is not the next: not below the shares, out of order, open already, or once a slot is made. After
// a refusal the same one may be tried again.
pub fn parallel_moves_frame_formula_5(
    frame: &mut Frame,
    formula: usize,
    kept_evictions: u32,
    bytes: &[u8],
    target: &mut RegInfo,
    function: &mut Function,
    cache: &mut EmergencySpillSlotCache,
) -> u8
    requires { FrameOk frame.old }
    ensures { FormulaIf (opens_next frame.old formula) frame.old frame.new formula (opened_in frame.old formula kept_evictions bytes.now) result target.old target.new function.old function.new cache.old cache.new }
{
    if !frame_table::opens_next(frame, formula) {
        return 2;
    }
    match frame_calls::open_in(
        frame,
        formula,
        kept_evictions,
        bytes,
        target,
        function,
        cache,
    ) {
        Opened::Yes => {
            frame_table::note_open(frame, formula);
            0
        }
        Opened::Refused(k) => k,
    }
}

// One patch of a formula, as `parallel_moves_resolve` has it. A refusal leaves the frame too.
pub fn parallel_moves_frame_resolve_5(
    frame: &mut Frame,
    formula: usize,
    target: &RegInfo,
    function: &Function,
    free: &[u32],
    numbers: &[u32],
    cache: &mut EmergencySpillSlotCache,
    list: &mut [u64],
    refusal: &mut u8,
    position: &mut u16,
    entries: &mut Entries,
    writers: &mut SparseMap,
    available: &mut RegUnitSet,
    sources: &mut RegUnitSet,
    edits: &mut Edits,
    slots: &mut Slots,
    diverted: &mut Diversions,
    marks: &mut States,
    carried: &mut Carried,
) -> usize
    requires { Checked target.now function.now × FrameOk frame.old × (formula < number_of frame.old) × InFrame frame.old function.now cache.old }
    ensures resolved_by { ResolvedBy frame.old frame.new formula function.now (answer_of frame.old formula target.now function.now free.now numbers.now (length list.old) cache.old) result refusal.new position.old position.new list.old list.new cache.old cache.new }
    ensures anything { Anything entries.new × Anything writers.new × Anything available.new × Anything sources.new × Anything edits.new × Anything slots.new × Anything diverted.new × Anything marks.new × Anything carried.new }
{
    match frame_calls::resolve_in(
        frame, formula, target, function, free, numbers, cache, list, entries, writers, available,
        sources, edits, slots, diverted, marks, carried,
    ) {
        Resolved::Edits(count, met) => {
            *refusal = 0;
            *position = met;
            count
        }
        Resolved::Refused(number) => {
            *refusal = number;
            0
        }
    }
}

// One patch of a formula by groups, as `parallel_moves_resolve_groups` has it. A refusal leaves the frame too.
pub fn parallel_moves_frame_resolve_groups_5(
    frame: &mut Frame,
    formula: usize,
    target: &RegInfo,
    function: &Function,
    free: &[u32],
    numbers: &[u32],
    cache: &mut EmergencySpillSlotCache,
    list: &mut [u64],
    refusal: &mut u8,
    position: &mut u16,
    units: &mut RegUnitSet,
    entries: &mut Entries,
    writers: &mut SparseMap,
    available: &mut RegUnitSet,
    sources: &mut RegUnitSet,
    edits: &mut Edits,
    slots: &mut Slots,
    diverted: &mut Diversions,
    marks: &mut States,
    carried: &mut Carried,
    owners: &mut Owners,
    labels: &mut Labels,
    next: &mut Labels,
    common: &mut RegUnitSet,
    work: &mut EmergencySpillSlotCache,
    joined: &mut [u64; 1024],
) -> usize
    requires { Checked target.now function.now × FrameOk frame.old × (formula < number_of frame.old) × InFrame frame.old function.now cache.old }
    ensures resolved_by { ResolvedBy frame.old frame.new formula function.now (groups_answer frame.old formula target.now function.now free.now numbers.now (length list.old) cache.old) result refusal.new position.old position.new list.old list.new cache.old cache.new }
    ensures anything { Anything units.new × Anything entries.new × Anything writers.new × Anything available.new × Anything sources.new × Anything edits.new × Anything slots.new × Anything diverted.new × Anything marks.new × Anything carried.new }
    ensures anything_2 { Anything owners.new × Anything labels.new × Anything next.new × Anything common.new × Anything work.new × Anything joined.new }
{
    match frame_groups::resolve_groups_in(
        frame, formula, target, function, free, numbers, cache, list, units, entries, writers,
        available, sources, edits, slots, diverted, marks, carried, owners, labels, next, common,
        work, joined,
    ) {
        Resolved::Edits(count, met) => {
            *refusal = 0;
            *position = met;
            count
        }
        Resolved::Refused(number) => {
            *refusal = number;
            0
        }
    }
}

// Asks for a patch of a formula, as `parallel_moves_ask` does, and changes neither frame nor cache. Unless it is refused, `made` is the formula's own count
// once the answer is taken; taking needs `to`, `stamp`, `counter` and the table `slots` as they are left.
pub fn parallel_moves_frame_ask_5(
    frame: &Frame,
    formula: usize,
    target: &RegInfo,
    function: &Function,
    free: &[u32],
    numbers: &[u32],
    cache: &EmergencySpillSlotCache,
    list: &mut [u64],
    refusal: &mut u8,
    to: &mut u16,
    made: &mut u16,
    position: &mut u16,
    stamp: &mut u64,
    counter: &mut u16,
    entries: &mut Entries,
    writers: &mut SparseMap,
    available: &mut RegUnitSet,
    sources: &mut RegUnitSet,
    edits: &mut Edits,
    slots: &mut Slots,
    diverted: &mut Diversions,
    marks: &mut States,
    carried: &mut Carried,
) -> usize
    requires { Checked target.now function.now × FrameOk frame.now × (formula < number_of frame.now) × InFrame frame.now function.now cache.now }
    ensures asked_by { AskedBy frame.now formula function.now (answer_of frame.now formula target.now function.now free.now numbers.now (length list.old) cache.now) result refusal.new (preview_of to.old made.old position.old stamp.old counter.old) (preview_of to.new made.new position.new stamp.new counter.new) list.old list.new cache.now slots.new }
    ensures anything { Anything entries.new × Anything writers.new × Anything available.new × Anything sources.new × Anything edits.new × Anything diverted.new × Anything marks.new × Anything carried.new }
{
    match frame_calls::ask_in(
        frame, formula, target, function, free, numbers, cache, list, entries, writers, available,
        sources, edits, slots, diverted, marks, carried,
    ) {
        FrameAsked::Ready(count, a) => {
            *refusal = 0;
            *to = a.to;
            *made = a.made;
            *position = a.position;
            *stamp = a.stamp;
            *counter = a.counter;
            count
        }
        FrameAsked::Refused(number) => {
            *refusal = number;
            0
        }
    }
}

// Takes what a formula asked for: answers 0; or first 20, frame and cache as they were, where the formula has taken an answer or resolved a patch since the
// asking, or the frame's counter has gone on.
pub fn parallel_moves_frame_take_5(
    frame: &mut Frame,
    formula: usize,
    to: u16,
    stamp: u64,
    counter: u16,
    slots: &Slots,
    cache: &mut EmergencySpillSlotCache,
) -> u8
    requires { FrameOk frame.old × (formula < number_of frame.old) × (stamp ≡ stamp_of cache.old → counter ≡ counter_of frame.old → CanTakeIn frame.old formula (preview_of to 0 0 stamp counter) slots.now cache.old) }
    ensures { TakenBy frame.old frame.new formula to stamp counter slots.now cache.old result cache.new }
{
    let a = FramePreview {
        to,
        made: 0,
        position: 0,
        stamp,
        counter,
    };
    match frame_calls::take_in(frame, formula, a, slots, cache) {
        TakeAnswer::Yes => 0,
        TakeAnswer::Refused(number) => number,
    }
}

// How many emergency slots a formula has made.
pub fn parallel_moves_frame_made_5(frame: &Frame, formula: usize) -> u16
    requires { formula < 16 }
    ensures { result ≡ made_of frame.now formula }
{
    frame_table::made(frame, formula)
}
