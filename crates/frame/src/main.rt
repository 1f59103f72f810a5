// A program: schedules of one or two formulas that share a frame (02 l), read from standard input, and what each call is answered, printed as `resolve`
// prints it.
// A schedule is its length, two bytes, the lower first, and as many bytes: in job numbers the limit, the shares behind their count, and for each
// formula its setting, the length of its opening and the opening; then its calls. A call is its formula, counted from 1, and 0 and a patch to
// resolve, 1 and one to ask for, or 2, to take what the formula's last asking left; a patch is its free units and its entries' numbers, each
// behind their count. What is no frame, no formula or no call is refused by number, and ends its schedule; a frame of more formulas is told so.
#![tactic(auto)]

ghost use Rattle.std.specs.Prelude.{◌≡◌, ◌<◌, ◌≤◌, ltb, length, drop};
ghost use Rattle.frame_table.specs.Table.{number_of};
ghost use Rattle.frame_table.specs.Held.{FrameOk};
ghost use Rattle.schedule.specs.Lists.{called};
ghost use Rattle.schedule.specs.Answered.{AnsweredAs};
ghost use Rattle.schedule.specs.Standing.{Stands, FrameOn};
ghost use Rattle.frame.specs.Opening.{FrameAt, SharesAt, part_of, formula_of, FormulaAt, IfThere};
ghost use Rattle.frame.specs.Running.{BothOpen, AllAt, Goes, Within};

use calls::Opened;
use frame_calls::FramePreview;
use frame_table::{Frame, FrameOpened};
use function::Function;
use number::Number;
use reading::Next;
use reginfo::RegInfo;
use schedule::Turn;
use slots::{EmergencySpillSlotCache, Slots};

// How far a schedule's calls have come: where the next one stands, how many there were, and what is left to take of each formula.
#[derive(Drop)]
struct Progress {
    at: usize,
    calls: usize,
    one: Option<FramePreview>,
    two: Option<FramePreview>,
}

// Why there is no schedule: the stream ends in the middle of it, or it is longer than the bytes that are lent for it.
#[derive(Clone, Copy, PartialEq, Eq)]
struct Cut;

// A frame of these shares: 0, which is no refusal, for more than two formulas, for which there are no tables here.
fn open_few(frame: &mut Frame, limit: u32, shares: &[u32], next: usize) -> Next
    ensures { FrameAt (record { limit = limit; shares = shares.now }) frame.new next result }
{
    match frame_table::open_frame(frame, limit, shares) {
        FrameOpened::Refused(k) => Next::Refused(k),
        FrameOpened::Yes => {
            if 2 < shares.len() {
                return Next::Refused(0);
            }
            Next::At(next)
        }
    }
}

// The frame that a schedule begins with.
fn open_shares(s: &[u8], frame: &mut Frame) -> Next
    ensures { SharesAt s.now frame.new result }
{
    let mut shares = [0u32; 1024];
    match number::read(s, 0) {
        Number::Refused(k) => Next::Refused(k),
        Number::Is(limit, at) => match schedule::read_list(s, at, &mut shares) {
            Number::Refused(k) => Next::Refused(k),
            Number::Is(n, next) => {
                let m = n as usize;
                open_few(frame, limit, &shares[..m], next)
            }
        },
    }
}

// Formula i, whose opening has so many bytes.
fn open_part(
    frame: &mut Frame,
    i: usize,
    kept_evictions: u32,
    n: usize,
    s: &[u8],
    at: usize,
    t: &mut RegInfo,
    f: &mut Function,
    cache: &mut EmergencySpillSlotCache,
) -> Next
    requires { FrameOk frame.old × (at ≤ length s.now) }
    ensures { FormulaAt frame.old frame.new i s.now at (part_of frame.old i kept_evictions n (drop at s.now)) result t.new f.new cache.old cache.new }
{
    if s.len() - at < n {
        return Next::Refused(1);
    }
    let next = at + n;
    match frame_calls::open_in(frame, i, kept_evictions, &s[at..next], t, f, cache) {
        Opened::Refused(k) => Next::Refused(k),
        Opened::Yes => Next::At(next),
    }
}

// Formula i, from an offset on.
fn open_formula(
    frame: &mut Frame,
    i: usize,
    s: &[u8],
    at: usize,
    t: &mut RegInfo,
    f: &mut Function,
    cache: &mut EmergencySpillSlotCache,
) -> Next
    requires { FrameOk frame.old }
    ensures { FormulaAt frame.old frame.new i s.now at (formula_of frame.old i (drop at s.now)) result t.new f.new cache.old cache.new }
{
    match number::read(s, at) {
        Number::Refused(k) => Next::Refused(k),
        Number::Is(kept_evictions, then) => match number::read(s, then) {
            Number::Refused(k) => Next::Refused(k),
            Number::Is(n, next) => {
                open_part(frame, i, kept_evictions, n as usize, s, next, t, f, cache)
            }
        },
    }
}

// The same where the frame has a formula i.
fn open_if_there(
    frame: &mut Frame,
    i: usize,
    s: &[u8],
    at: usize,
    t: &mut RegInfo,
    f: &mut Function,
    cache: &mut EmergencySpillSlotCache,
) -> Next
    requires { FrameOk frame.old }
    ensures { IfThere (ltb i (number_of frame.old)) frame.old frame.new i s.now at result t.new f.new cache.old cache.new }
{
    if i < frame_table::number(frame) {
        return open_formula(frame, i, s, at, t, f, cache);
    }
    Next::At(at)
}

// The frame and its formulas. Answers where the calls begin.
fn open_all(
    s: &[u8],
    frame: &mut Frame,
    t1: &mut RegInfo,
    f1: &mut Function,
    cache1: &mut EmergencySpillSlotCache,
    t2: &mut RegInfo,
    f2: &mut Function,
    cache2: &mut EmergencySpillSlotCache,
) -> Next
    ensures { AllAt frame.new t1.new f1.new cache1.new t2.new f2.new cache2.new s.now result }
{
    match open_shares(s, frame) {
        Next::Refused(k) => Next::Refused(k),
        Next::At(at) => match open_if_there(frame, 0, s, at, t1, f1, cache1) {
            Next::Refused(k) => Next::Refused(k),
            Next::At(next) => open_if_there(frame, 1, s, next, t2, f2, cache2),
        },
    }
}

// A line of a number behind a text, on standard output.
fn say(text: &[u8], k: usize) {
    io::write_all(1, text);
    io::print_decimal(1, k as u64);
    io::write_all(1, b"\n");
}

// The line of a call.
fn say_call(k: usize, formula: usize) {
    io::write_all(1, b"call ");
    io::print_decimal(1, k as u64);
    say(b" formula ", formula);
}

// Why nothing is opened: the number, or, for 0, what this program is made for.
fn say_refused(k: u8) {
    if k == 0 {
        io::write_all(1, b"more formulas than the two that this program takes\n");
    } else {
        say(b"refused ", usize::from(k));
    }
}

// A call of formula i: its line and its answer, whose text stands at the front of `out`.
fn call(
    k: usize,
    frame: &mut Frame,
    i: usize,
    t: &RegInfo,
    f: &Function,
    cache: &mut EmergencySpillSlotCache,
    slots: &mut Slots,
    left: Option<FramePreview>,
    s: &[u8],
    at: usize,
    out: &mut [u8],
) -> Turn
    requires { FrameOk frame.old × (i < number_of frame.old) × Stands frame.old i t.now f.now cache.old slots.old left at × (20480 ≤ length out.old) × (at ≤ length s.now) }
    ensures answered_as { AnsweredAs frame.old frame.new i t.now f.now cache.old cache.new slots.old slots.new left result.left out.old out.new result.len s.now at result.at (called (drop at s.now)) }
    ensures frame_ok { FrameOk frame.new × FrameOn frame.old frame.new × Stands frame.new i t.now f.now cache.new slots.new result.left result.at × (at ≤ result.at) × (result.at ≤ length s.now) }
{
    say_call(k, i + 1);
    let r = schedule::answer_call(frame, i, t, f, cache, slots, left, s, at, out);
    let n = r.len;
    io::write_all(1, &out[..n]);
    r
}

// No call: the schedule ends.
fn refuse(k: u8, s: &[u8], p: Progress) -> Progress
    ensures { (result.at ≡ length s.now) × (result.calls ≡ p.calls) × (result.one ≡ p.one) × (result.two ≡ p.two) }
{
    say(b"refused ", usize::from(k));
    let one = p.one;
    let two = p.two;
    Progress {
        at: s.len(),
        calls: p.calls,
        one,
        two,
    }
}

// The next call of a schedule.
fn next_call(
    p: Progress,
    frame: &mut Frame,
    t1: &RegInfo,
    f1: &Function,
    cache1: &mut EmergencySpillSlotCache,
    slots1: &mut Slots,
    t2: &RegInfo,
    f2: &Function,
    cache2: &mut EmergencySpillSlotCache,
    slots2: &mut Slots,
    s: &[u8],
) -> Progress
    requires { Goes frame.old t1.now f1.now cache1.old slots1.old t2.now f2.now cache2.old slots2.old s.now p × (p.at < length s.now) }
    ensures { Goes frame.new t1.now f1.now cache1.new slots1.new t2.now f2.now cache2.new slots2.new s.now result × (p.at < result.at) }
{
    let mut out = [0u8; 20480];
    let at = p.at;
    let calls = p.calls + 1;
    let one = p.one;
    let two = p.two;
    match reading::between(s, at, 1, frame_table::number(frame) as u32) {
        Number::Refused(k) => refuse(k, s, p),
        Number::Is(formula, next) => {
            if formula == 1 {
                let r = call(
                    calls, frame, 0, t1, f1, cache1, slots1, one, s, next, &mut out,
                );
                let left = r.left;
                return Progress {
                    at: r.at,
                    calls,
                    one: left,
                    two,
                };
            }
            let r = call(
                calls, frame, 1, t2, f2, cache2, slots2, two, s, next, &mut out,
            );
            let left = r.left;
            Progress {
                at: r.at,
                calls,
                one,
                two: left,
            }
        }
    }
}

// The calls of a schedule, from an offset on.
fn run(
    frame: &mut Frame,
    t1: &RegInfo,
    f1: &Function,
    cache1: &mut EmergencySpillSlotCache,
    t2: &RegInfo,
    f2: &Function,
    cache2: &mut EmergencySpillSlotCache,
    s: &[u8],
    from: usize,
)
    requires { BothOpen frame.old t1.now f1.now cache1.old t2.now f2.now cache2.old s.now from }
{
    let mut slots1 = [0u16; 32835];
    let mut slots2 = [0u16; 32835];
    let mut p = Progress {
        at: from,
        calls: 0,
        one: None,
        two: None,
    };
    // Kept a `while`: the cursor goes on by each call's length.
    while p.at < s.len() {
        p = next_call(
            p,
            frame,
            t1,
            f1,
            cache1,
            &mut slots1,
            t2,
            f2,
            cache2,
            &mut slots2,
            s,
        );
    }
}

// One schedule.
fn answer(s: &[u8]) {
    let mut frame = [0u16; 37];
    let mut t1 = [0u16; 107520];
    let mut f1 = [0u16; 16388];
    let mut cache1 = [0u16; 65600];
    let mut t2 = [0u16; 107520];
    let mut f2 = [0u16; 16388];
    let mut cache2 = [0u16; 65600];
    match open_all(
        s,
        &mut frame,
        &mut t1,
        &mut f1,
        &mut cache1,
        &mut t2,
        &mut f2,
        &mut cache2,
    ) {
        Next::Refused(k) => say_refused(k),
        Next::At(at) => run(
            &mut frame,
            &t1,
            &f1,
            &mut cache1,
            &t2,
            &f2,
            &mut cache2,
            s,
            at,
        ),
    }
}

// The length of the next schedule of standard input; nothing, if the stream ends before it.
fn read_schedule(buf: &mut [u8]) -> Result<Option<usize>, Cut>
    ensures { Within buf.new result }
{
    let mut head = [0u8; 2];
    let got = io::read_full(0, &mut head);
    if got == 0 {
        return Ok(None);
    }
    if got < 2 {
        return Err(Cut);
    }
    let n = head[0] as usize + 256 * (head[1] as usize);
    if buf.len() < n {
        return Err(Cut);
    }
    if io::read_full(0, &mut buf[..n]) < n {
        return Err(Cut);
    }
    Ok(Some(n))
}

// The schedule after the first k: whether there is one.
fn answer_next(k: usize) -> bool
    requires { k < 100000 }
{
    let mut buf = [0u8; 4000];
    match read_schedule(&mut buf) {
        Ok(None) => false,
        Err(Cut) => {
            io::write_all(1, b"a schedule is cut off or too long\n");
            false
        }
        Ok(Some(n)) => {
            say(b"frame ", k + 1);
            answer(&buf[..n]);
            true
        }
    }
}

fn main() {
    for k in 0..100000 {
        if !answer_next(k) {
            return;
        }
    }
}
