// The calls of formulas that share a frame (02 l): opened, resolved, asked for and taken. Each gets the frame's table as the last call of any formula
// left it, and its formula's own tables.
#![tactic(auto)]

ghost use Rattle.std.specs.Prelude.{◌≡◌, ◌+◌, ◌-◌, ◌<◌, ◌≤◌, length};
ghost use Rattle.entity.specs.Logic.{Anything};
ghost use Rattle.function.specs.Known.{Checked};
ghost use Rattle.function.specs.Table.{function_of};
ghost use Rattle.slots.specs.Stacks.{stamp_of};
ghost use Rattle.frame_table.specs.Table.{number_of, counter_of, made_of};
ghost use Rattle.frame_table.specs.Held.{FrameOk};
ghost use Rattle.frame_calls.specs.Given.{grant_of, InFrame, least_of, most_of, opened_in, SlotsNoted, OpenedAs};
ghost use Rattle.frame_calls.specs.Answers.{answer_of, GivesIn, AsksIn, CanTakeIn, TakesIn};

use calls::Opened;
use carried::Carried;
use edit::Edits;
use entries::Entries;
use frame_table::Frame;
use function::Function;
use parallel_moves::{Asked, Grant, Preview, Resolved, TakeAnswer};
use reading::Next;
use reginfo::RegInfo;
use scratch::Diversions;
use slots::{EmergencySpillSlotCache, Slots};
use small_set::RegUnitSet;
use sparse::SparseMap;
use visits::States;

// What a take needs beside the table of slots that the asking left: the counter as the patch would leave it, how many slots its formula has then, the
// greatest position met, and the cache's stamp and the frame's counter at the asking.
#[derive(Clone, Copy)]
pub struct FramePreview {
    pub to: u16,
    pub made: u16,
    pub position: u16,
    pub stamp: u64,
    pub counter: u16,
}

// How many edits were handed out and what to take, or 01's number.
#[derive(Drop)]
pub enum FrameAsked {
    Ready(usize, FramePreview),
    Refused(u8),
}

// The least N that formula i may have: the first one's for the others.
fn least_slots(frame: &Frame, i: usize) -> u32
    ensures { result ≡ least_of frame.now i }
{
    if i == 0 {
        return 0;
    }
    frame_table::slots(frame) as u32
}

// The greatest.
fn most_slots(frame: &Frame, i: usize) -> u32
    ensures { result ≡ most_of frame.now i }
{
    if i == 0 {
        return 4096;
    }
    frame_table::slots(frame) as u32
}

// The first one's N is noted in the frame.
fn note_slots(frame: &mut Frame, i: usize, f: &Function)
    requires { (function_of f.now).slots ≤ 4096 }
    ensures { SlotsNoted frame.old i (function_of f.now).slots frame.new }
{
    if i == 0 {
        frame_table::set_slots(frame, function::num_slots(f) as u16);
    }
}

// Opens the target and the function of formula i, the first before the others: 22 first, for a setting other than 1 or 2; another N than the first
// one's is 2, when it is read. A refusal leaves the frame and the cache as they were. What the tables held does not matter.
pub fn open_in(
    frame: &mut Frame,
    i: usize,
    kept_evictions: u32,
    s: &[u8],
    t: &mut RegInfo,
    f: &mut Function,
    cache: &mut EmergencySpillSlotCache,
) -> Opened
    requires { FrameOk frame.old }
    ensures { OpenedAs frame.old frame.new i (opened_in frame.old i kept_evictions s.now) result t.new f.new cache.old cache.new }
{
    let least = least_slots(frame, i);
    let most = most_slots(frame, i);
    match job::read_beginning_within(least, most, kept_evictions, s, t, f) {
        Next::Refused(k) => Opened::Refused(k),
        Next::At(next) => {
            if next < s.len() {
                return Opened::Refused(8);
            }
            slots::clear(cache);
            note_slots(frame, i, f);
            Opened::Yes
        }
    }
}

// What formula i is granted: the frame's counter, and how far it may go.
pub fn grant(frame: &Frame, i: usize) -> Grant
    requires { number_of frame.now ≤ 16 }
    ensures { result ≡ grant_of frame.now i }
{
    Grant {
        made: frame_table::counter(frame),
        limit: frame_table::reach(frame, i),
    }
}

// Resolves a patch of formula i, of free units, rising, and of entries as numbers, four to an entry. A refusal leaves the frame, the list and the cache
// as they were.
pub fn resolve_in(
    frame: &mut Frame,
    i: usize,
    t: &RegInfo,
    f: &Function,
    free: &[u32],
    numbers: &[u32],
    cache: &mut EmergencySpillSlotCache,
    list: &mut [u64],
    e: &mut Entries,
    w: &mut SparseMap,
    available: &mut RegUnitSet,
    sources: &mut RegUnitSet,
    edits: &mut Edits,
    slots: &mut Slots,
    d: &mut Diversions,
    marks: &mut States,
    c: &mut Carried,
) -> Resolved
    requires { Checked t.now f.now × FrameOk frame.old × (i < number_of frame.old) × InFrame frame.old f.now cache.old }
    ensures gives_in { GivesIn frame.old frame.new i f.now (answer_of frame.old i t.now f.now free.now numbers.now (length list.old) cache.old) result list.old list.new cache.old cache.new }
    ensures anything { Anything e.new × Anything w.new × Anything available.new × Anything sources.new × Anything edits.new × Anything slots.new × Anything d.new × Anything marks.new × Anything c.new }
{
    let g = grant(frame, i);
    match calls::resolve_granted(
        g, t, f, free, numbers, cache, list, e, w, available, sources, edits, slots, d, marks, c,
    ) {
        Resolved::Refused(k) => Resolved::Refused(k),
        Resolved::Edits(n, met) => {
            frame_table::go_on(frame, i, slots::made(cache));
            Resolved::Edits(n, met)
        }
    }
}

// What an asking hands back of the answer under a grant.
fn shown(frame: &Frame, i: usize, a: Preview) -> FramePreview
    requires { (i < 16) × (counter_of frame.now ≤ a.made) × (made_of frame.now i ≤ counter_of frame.now) }
    ensures { result ≡ record { to = a.made; made = made_of frame.now i + (a.made - counter_of frame.now); position = a.position; stamp = a.stamp; counter = counter_of frame.now } }
{
    let counter = frame_table::counter(frame);
    FramePreview {
        to: a.made,
        made: frame_table::made(frame, i) + (a.made - counter),
        position: a.position,
        stamp: a.stamp,
        counter,
    }
}

// Asks for a patch of formula i, given as to `resolve_in`. The frame and the cache are only read; the table of slots keeps what a take of the answer
// needs.
pub fn ask_in(
    frame: &Frame,
    i: usize,
    t: &RegInfo,
    f: &Function,
    free: &[u32],
    numbers: &[u32],
    cache: &EmergencySpillSlotCache,
    list: &mut [u64],
    e: &mut Entries,
    w: &mut SparseMap,
    available: &mut RegUnitSet,
    sources: &mut RegUnitSet,
    edits: &mut Edits,
    slots: &mut Slots,
    d: &mut Diversions,
    marks: &mut States,
    c: &mut Carried,
) -> FrameAsked
    requires { Checked t.now f.now × FrameOk frame.now × (i < number_of frame.now) × InFrame frame.now f.now cache.now }
    ensures asks_in { AsksIn frame.now i f.now (answer_of frame.now i t.now f.now free.now numbers.now (length list.old) cache.now) result list.old list.new cache.now slots.new }
    ensures anything { Anything e.new × Anything w.new × Anything available.new × Anything sources.new × Anything edits.new × Anything d.new × Anything marks.new × Anything c.new }
{
    let g = grant(frame, i);
    match calls::ask_granted(
        g, t, f, free, numbers, cache, list, e, w, available, sources, edits, slots, d, marks, c,
    ) {
        Asked::Refused(k) => FrameAsked::Refused(k),
        Asked::Ready(n, a) => FrameAsked::Ready(n, shown(frame, i, a)),
    }
}

// Takes what formula i asked for. First 20, where its cache's stamp or the frame's counter is not that of the asking: another formula's slot has taken a
// number that the answer may name, and the stamp, which is the formula's own, does not tell. Asked is that the table of slots
// is as the asking left it, and frame and cache as their last calls.
pub fn take_in(
    frame: &mut Frame,
    i: usize,
    a: FramePreview,
    slots: &Slots,
    cache: &mut EmergencySpillSlotCache,
) -> TakeAnswer
    requires { FrameOk frame.old × (i < number_of frame.old) × (a.stamp ≡ stamp_of cache.old → a.counter ≡ counter_of frame.old → CanTakeIn frame.old i a slots.now cache.old) }
    ensures { TakesIn frame.old frame.new i a slots.now cache.old result cache.new }
{
    if frame_table::counter(frame) != a.counter {
        return TakeAnswer::Refused(20);
    }
    let own = Preview {
        made: a.to,
        position: a.position,
        stamp: a.stamp,
    };
    match parallel_moves::take(own, slots, cache) {
        TakeAnswer::Refused(k) => TakeAnswer::Refused(k),
        TakeAnswer::Yes => {
            frame_table::go_on(frame, i, a.to);
            TakeAnswer::Yes
        }
    }
}
