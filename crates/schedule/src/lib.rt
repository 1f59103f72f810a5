// A call of a formula in a shared frame (02 l), given as a job's numbers: read, answered, and the answer's text put into lent bytes.
#![tactic(auto)]

ghost use Rattle.std.specs.Prelude.{◌≡◌, List, ◌<◌, ◌≤◌, length, take, drop};
ghost use Rattle.function.specs.Known.{Checked};
ghost use Rattle.rules.specs.Edit as rule;
ghost use Rattle.number.specs.Number.{number};
ghost use Rattle.reading.specs.Reading.{times};
ghost use Rattle.reading.specs.Answer.{NextAt};
ghost use Rattle.print.specs.Text.{patch_text, refused_line};
ghost use Rattle.print.specs.Words.{Words};
ghost use Rattle.print.specs.Put.{Put};
ghost use Rattle.frame_table.specs.Table.{number_of};
ghost use Rattle.frame_table.specs.Held.{FrameOk};
ghost use Rattle.frame_calls.specs.Given.{InFrame};
ghost use Rattle.frame_calls.specs.Answers.{answer_of, GivesIn, AsksIn};
ghost use Rattle.schedule.specs.Lists.{ListAt, ListsAt, with_patch, called};
ghost use Rattle.schedule.specs.Answered.{text_in, MovedBy, LeftBy, is_fresh, to_of, taken_text, TakenBy, AnsweredAs};
ghost use Rattle.schedule.specs.Standing.{CanTakeIf, Stands, FrameOn};

use frame_calls::{FrameAsked, FramePreview};
use frame_table::Frame;
use function::Function;
use number::Number;
use parallel_moves::{Resolved, TakeAnswer};
use reading::Next;
use reginfo::RegInfo;
use slots::{EmergencySpillSlotCache, Slots};

// How long the text of an asking's answer is, and what it left to take; a refused one leaves nothing.
#[derive(Drop)]
struct Said {
    len: usize,
    left: Option<FramePreview>,
}

// After a call: where the next one stands, the end where this one is refused as no call; how long its text is; and what is left to take.
#[derive(Drop)]
pub struct Turn {
    pub at: usize,
    pub len: usize,
    pub left: Option<FramePreview>,
}

// How many free units and how many of the entries' numbers a patch has, and where the next call stands; or 01's number.
#[derive(Drop)]
enum Lists {
    Are(usize, usize, usize),
    Refused(u8),
}

// As many numbers as were counted, put at the front of the lent ones.
fn read_numbers(s: &[u8], from: usize, n: usize, numbers: &mut [u32; 1024]) -> Next
    requires { n ≤ 1024 }
    ensures { NextAt (times n number) s.now from (take n numbers.new) (length numbers.new ≡ 1024) result }
{
    let mut at = from;
    for i in 0..n {
        match number::read(s, at) {
            Number::Refused(k) => return Next::Refused(k),
            Number::Is(x, next) => {
                numbers[i] = x;
                at = next;
            }
        }
    }
    Next::At(at)
}

// A list of at most 1,024 numbers behind its count. Answers the count.
pub fn read_list(s: &[u8], at: usize, numbers: &mut [u32; 1024]) -> Number
    ensures { ListAt s.now at numbers.new result }
{
    match reading::below(s, at, 1025) {
        Number::Refused(k) => Number::Refused(k),
        Number::Is(n, from) => match read_numbers(s, from, n as usize, numbers) {
            Next::Refused(k) => Number::Refused(k),
            Next::At(next) => Number::Is(n, next),
        },
    }
}

// A patch: its free units, and its entries' numbers.
fn read_lists(s: &[u8], at: usize, free: &mut [u32; 1024], numbers: &mut [u32; 1024]) -> Lists
    ensures { ListsAt s.now at free.new numbers.new result }
{
    match read_list(s, at, free) {
        Number::Refused(k) => Lists::Refused(k),
        Number::Is(n, then) => match read_list(s, then, numbers) {
            Number::Refused(k) => Lists::Refused(k),
            Number::Is(m, next) => Lists::Are(n as usize, m as usize, next),
        },
    }
}

// The line of a refusal.
pub fn put_refused(out: &mut [u8], k: u8) -> usize
    requires { 20480 ≤ length out.old }
    ensures { Put out.old out.new 0 (refused_line k) result }
{
    print::put_refused(out, 0, usize::from(k))
}

// The text of a patch whose edits stand at the front of the list.
fn put_patch(out: &mut [u8], list: &[u64; 1024], count: usize, made: u16) -> usize
    requires { (20480 ≤ length out.old) × (count ≤ 1024) }
    ensures { (es : List rule.Edit) → Words (take count list.now) es → Put out.old out.new 0 (patch_text 1 es made) result }
{
    print::put_patch(out, 0, 1, list, count, usize::from(made))
}

// Resolves a patch of formula i, with working tables of its own.
fn resolve(
    frame: &mut Frame,
    i: usize,
    t: &RegInfo,
    f: &Function,
    free: &[u32],
    numbers: &[u32],
    cache: &mut EmergencySpillSlotCache,
    list: &mut [u64; 1024],
) -> Resolved
    requires { Checked t.now f.now × FrameOk frame.old × (i < number_of frame.old) × InFrame frame.old f.now cache.old }
    ensures { GivesIn frame.old frame.new i f.now (answer_of frame.old i t.now f.now free.now numbers.now 1024 cache.old) result list.old list.new cache.old cache.new × (length list.new ≡ 1024) }
{
    let mut e = [0u16; 1541];
    let mut w = [0u16; 6657];
    let mut available = [false; 512];
    let mut sources = [false; 512];
    let mut edits = [0u64; 1025];
    let mut slots = [0u16; 32835];
    let mut d = [0u16; 12288];
    let mut marks = [0u8; 129];
    let mut c = [0u16; 2049];
    frame_calls::resolve_in(
        frame,
        i,
        t,
        f,
        free,
        numbers,
        cache,
        list,
        &mut e,
        &mut w,
        &mut available,
        &mut sources,
        &mut edits,
        &mut slots,
        &mut d,
        &mut marks,
        &mut c,
    )
}

// Asks for a patch of formula i, with working tables of its own.
fn ask(
    frame: &Frame,
    i: usize,
    t: &RegInfo,
    f: &Function,
    free: &[u32],
    numbers: &[u32],
    cache: &EmergencySpillSlotCache,
    list: &mut [u64; 1024],
    slots: &mut Slots,
) -> FrameAsked
    requires { Checked t.now f.now × FrameOk frame.now × (i < number_of frame.now) × InFrame frame.now f.now cache.now }
    ensures { AsksIn frame.now i f.now (answer_of frame.now i t.now f.now free.now numbers.now 1024 cache.now) result list.old list.new cache.now slots.new × (length list.new ≡ 1024) }
{
    let mut e = [0u16; 1541];
    let mut w = [0u16; 6657];
    let mut available = [false; 512];
    let mut sources = [false; 512];
    let mut edits = [0u64; 1025];
    let mut d = [0u16; 12288];
    let mut marks = [0u8; 129];
    let mut c = [0u16; 2049];
    frame_calls::ask_in(
        frame,
        i,
        t,
        f,
        free,
        numbers,
        cache,
        list,
        &mut e,
        &mut w,
        &mut available,
        &mut sources,
        &mut edits,
        slots,
        &mut d,
        &mut marks,
        &mut c,
    )
}

// A patch of formula i resolved: its text.
fn put_resolved(
    frame: &mut Frame,
    i: usize,
    t: &RegInfo,
    f: &Function,
    free: &[u32],
    numbers: &[u32],
    cache: &mut EmergencySpillSlotCache,
    out: &mut [u8],
) -> usize
    requires { Checked t.now f.now × FrameOk frame.old × (i < number_of frame.old) × InFrame frame.old f.now cache.old × (20480 ≤ length out.old) }
    ensures { Put out.old out.new 0 (text_in frame.old i (answer_of frame.old i t.now f.now free.now numbers.now 1024 cache.old)) result × MovedBy frame.old frame.new i f.now (answer_of frame.old i t.now f.now free.now numbers.now 1024 cache.old) cache.old cache.new }
{
    let mut list = [0u64; 1024];
    match resolve(frame, i, t, f, free, numbers, cache, &mut list) {
        Resolved::Refused(k) => put_refused(out, k),
        Resolved::Edits(n, _) => put_patch(out, &list, n, frame_table::made(frame, i)),
    }
}

// A patch of formula i asked for: its text, and what is left to take.
fn put_asked(
    frame: &Frame,
    i: usize,
    t: &RegInfo,
    f: &Function,
    free: &[u32],
    numbers: &[u32],
    cache: &EmergencySpillSlotCache,
    slots: &mut Slots,
    out: &mut [u8],
) -> Said
    requires { Checked t.now f.now × FrameOk frame.now × (i < number_of frame.now) × InFrame frame.now f.now cache.now × (20480 ≤ length out.old) }
    ensures { Put out.old out.new 0 (text_in frame.now i (answer_of frame.now i t.now f.now free.now numbers.now 1024 cache.now)) result.len × LeftBy frame.now i f.now (answer_of frame.now i t.now f.now free.now numbers.now 1024 cache.now) cache.now slots.new result.left }
{
    let mut list = [0u64; 1024];
    match ask(frame, i, t, f, free, numbers, cache, &mut list, slots) {
        FrameAsked::Refused(k) => Said {
            len: put_refused(out, k),
            left: None,
        },
        FrameAsked::Ready(n, a) => Said {
            len: put_patch(out, &list, n, a.made),
            left: Some(a),
        },
    }
}

// What formula i's last asking left, taken: 20 where it is too late for it. A refused asking leaves nothing to take.
fn put_taken(
    frame: &mut Frame,
    i: usize,
    left: Option<FramePreview>,
    slots: &Slots,
    cache: &mut EmergencySpillSlotCache,
    out: &mut [u8],
) -> usize
    requires { FrameOk frame.old × (i < number_of frame.old) × CanTakeIf frame.old i left slots.now cache.old × (20480 ≤ length out.old) }
    ensures { Put out.old out.new 0 (taken_text left (is_fresh frame.old cache.old left)) result × TakenBy (is_fresh frame.old cache.old left) frame.old frame.new i (to_of left) slots.now cache.old cache.new }
{
    match left {
        None => print::put_text(out, 0, b"nothing to take\n"),
        Some(a) => match frame_calls::take_in(frame, i, a, slots, cache) {
            TakeAnswer::Refused(k) => put_refused(out, k),
            TakeAnswer::Yes => print::put_text(out, 0, b"taken\n"),
        },
    }
}

// No call: the schedule ends.
fn ended(s: &[u8], left: Option<FramePreview>, out: &mut [u8], k: u8) -> Turn
    requires { 20480 ≤ length out.old }
    ensures { Put out.old out.new 0 (refused_line k) result.len × (result.at ≡ length s.now) × (result.left ≡ left) }
{
    Turn {
        at: s.len(),
        len: put_refused(out, k),
        left,
    }
}

// A patch of formula i, from an offset on: resolved, or asked for.
fn answer_patch(
    asked: bool,
    frame: &mut Frame,
    i: usize,
    t: &RegInfo,
    f: &Function,
    cache: &mut EmergencySpillSlotCache,
    slots: &mut Slots,
    left: Option<FramePreview>,
    s: &[u8],
    at: usize,
    out: &mut [u8],
) -> Turn
    requires { Checked t.now f.now × FrameOk frame.old × (i < number_of frame.old) × InFrame frame.old f.now cache.old × (20480 ≤ length out.old) }
    ensures { AnsweredAs frame.old frame.new i t.now f.now cache.old cache.new slots.old slots.new left result.left out.old out.new result.len s.now at result.at (with_patch asked (drop at s.now)) }
{
    let mut free = [0u32; 1024];
    let mut numbers = [0u32; 1024];
    match read_lists(s, at, &mut free, &mut numbers) {
        Lists::Refused(k) => ended(s, left, out, k),
        Lists::Are(n, m, next) => {
            if asked {
                let said = put_asked(frame, i, t, f, &free[..n], &numbers[..m], cache, slots, out);
                let left = said.left;
                return Turn {
                    at: next,
                    len: said.len,
                    left,
                };
            }
            let len = put_resolved(frame, i, t, f, &free[..n], &numbers[..m], cache, out);
            Turn {
                at: next,
                len,
                left,
            }
        }
    }
}

// A call of formula i, from an offset on: 0 and a patch to resolve, 1 and one to ask for, or 2, to take what its last asking left.
pub fn answer_call(
    frame: &mut Frame,
    i: usize,
    t: &RegInfo,
    f: &Function,
    cache: &mut EmergencySpillSlotCache,
    slots: &mut Slots,
    left: Option<FramePreview>,
    s: &[u8],
    at: usize,
    out: &mut [u8],
) -> Turn
    requires { FrameOk frame.old × (i < number_of frame.old) × Stands frame.old i t.now f.now cache.old slots.old left at × (20480 ≤ length out.old) × (at ≤ length s.now) }
    ensures answered_as { AnsweredAs frame.old frame.new i t.now f.now cache.old cache.new slots.old slots.new left result.left out.old out.new result.len s.now at result.at (called (drop at s.now)) }
    ensures frame_ok { FrameOk frame.new × FrameOn frame.old frame.new × Stands frame.new i t.now f.now cache.new slots.new result.left result.at × (at ≤ result.at) × (result.at ≤ length s.now) × (result.len ≤ length out.old) }
{
    match reading::below(s, at, 3) {
        Number::Refused(k) => ended(s, left, out, k),
        Number::Is(kind, next) => {
            if kind == 2 {
                let len = put_taken(frame, i, left, slots, cache, out);
                return Turn {
                    at: next,
                    len,
                    left,
                };
            }
            answer_patch(kind == 1, frame, i, t, f, cache, slots, left, s, next, out)
        }
    }
}
