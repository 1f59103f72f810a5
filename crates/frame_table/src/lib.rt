// The table of a frame that formulas share (02 l): its limit, the one counter of its slots, and of each formula its promised share and how many slots
// it made.
#![tactic(auto)]

ghost use Rattle.std.specs.Prelude.{◌≡◌, true, ◌+◌, ◌<◌, ◌≤◌, leb, length};
ghost use Rattle.frame_table.specs.Table.{number_of, counter_of, slots_of, made_of, lacks_of, lacks_beside, others_lack_of, reach_of, opens_next};
ghost use Rattle.frame_table.specs.Opening.{sum_of, Filled, FrameAs};
ghost use Rattle.frame_table.specs.Steps.{WentOn, SlotsSet, OneOpened};

pub type Frame = [u16; 37];

// Whether a frame is open, or 02's number.
#[derive(Drop)]
pub enum FrameOpened {
    Yes,
    Refused(u8),
}

// Whether the shares add up to at most the limit. What is left of it goes down, so that no sum is too large.
fn shares_within(limit: u32, shares: &[u32]) -> bool
    ensures { result ≡ leb (sum_of shares.now) limit }
{
    let mut left = limit;
    for share in shares {
        if left < *share {
            return false;
        }
        left -= *share;
    }
    true
}

// No slot is made yet.
fn fill(frame: &mut Frame, limit: u16, shares: &[u32])
    requires { (length shares.now ≤ 16) × (sum_of shares.now ≤ limit) }
    ensures { Filled limit shares.now frame.new }
{
    frame[0] = shares.len() as u16;
    frame[1] = limit;
    frame[2] = 0;
    frame[3] = 0;
    frame[36] = 0;
    for i in 0..shares.len() {
        frame[4 + i] = shares[i] as u16;
        frame[20 + i] = 0;
    }
}

// Opens a frame for as many formulas as there are shares: 2 for none or over 16, or for a limit over 2,048; then 23 for shares above the limit. A
// refusal leaves the table as it was.
pub fn open_frame(frame: &mut Frame, limit: u32, shares: &[u32]) -> FrameOpened
    ensures { FrameAs limit shares.now result frame.old frame.new }
{
    if shares.len() == 0 {
        return FrameOpened::Refused(2);
    }
    if 16 < shares.len() {
        return FrameOpened::Refused(2);
    }
    if 2048 < limit {
        return FrameOpened::Refused(2);
    }
    if !shares_within(limit, shares) {
        return FrameOpened::Refused(23);
    }
    fill(frame, limit as u16, shares);
    FrameOpened::Yes
}

// How many formulas there are.
pub fn number(frame: &Frame) -> usize
    ensures { result ≡ number_of frame.now }
{
    usize::from(frame[0])
}

// The counter that slot numbers come from.
pub fn counter(frame: &Frame) -> u16
    ensures { result ≡ counter_of frame.now }
{
    frame[2]
}

// The first one's N.
pub fn slots(frame: &Frame) -> u16
    ensures { result ≡ slots_of frame.now }
{
    frame[3]
}

// The first formula is open, with this N.
pub fn set_slots(frame: &mut Frame, n: u16)
    ensures { SlotsSet frame.old n frame.new }
{
    frame[3] = n;
}

// Whether formula i is the next to be opened: the formulas are opened in the order of their numbers, each once, and all before a slot is made. The first
// gives the N of all, and a formula opened again would lose the slots that the frame counts as its own.
pub fn opens_next(frame: &Frame, i: usize) -> bool
    ensures { result ≡ opens_next frame.now i }
{
    if usize::from(frame[0]) <= i {
        return false;
    }
    if frame[2] != 0 {
        return false;
    }
    usize::from(frame[36]) == i
}

// Formula i is open, and those before it.
pub fn note_open(frame: &mut Frame, i: usize)
    requires { i < 16 }
    ensures { OneOpened frame.old i frame.new }
{
    frame[36] = (i + 1) as u16;
}

// How many slots formula i has made.
pub fn made(frame: &Frame, i: usize) -> u16
    requires { i < 16 }
    ensures { result ≡ made_of frame.now i }
{
    frame[20 + i]
}

// What a formula still lacks of its share.
fn lacks(frame: &Frame, j: usize) -> u16
    requires { j < 16 }
    ensures { result ≡ lacks_of frame.now j }
{
    let share = frame[4 + j];
    let made = frame[20 + j];
    if share < made {
        return 0;
    }
    share - made
}

// The same where it is another than i.
fn lacks_beside(frame: &Frame, i: usize, j: usize) -> u16
    requires { j < 16 }
    ensures { result ≡ lacks_beside frame.now i j }
{
    if j == i {
        return 0;
    }
    lacks(frame, j)
}

// What the others still lack of their shares.
fn others_lack(frame: &Frame, i: usize) -> usize
    requires { number_of frame.now ≤ 16 }
    ensures { result ≡ others_lack_of frame.now i }
{
    let n = usize::from(frame[0]);
    let mut sum: usize = 0;
    for j in 0..n {
        sum += usize::from(lacks_beside(frame, i, j));
    }
    sum
}

// How far the counter may go in a call of formula i: all that the others do not lack. Between calls the slots made and what all still lack are within the
// limit, so this is never less than what i lacks itself: a promised slot is there, whatever the others did. Within a call the others stand still, so one
// number serves for all its slots.
pub fn reach(frame: &Frame, i: usize) -> u16
    requires { number_of frame.now ≤ 16 }
    ensures { result ≡ reach_of frame.now i }
{
    let limit = usize::from(frame[1]);
    let others = others_lack(frame, i);
    if limit < others {
        return 0;
    }
    (limit - others) as u16
}

// A call of formula i led the counter to n: the slots between are its own.
pub fn go_on(frame: &mut Frame, i: usize, n: u16)
    requires { (i < 16) × (counter_of frame.old ≤ n) × (made_of frame.old i ≤ counter_of frame.old) }
    ensures { WentOn frame.old i n frame.new }
{
    frame[20 + i] += n - frame[2];
    frame[2] = n;
}
