// Records of a job and the text that its answer should have: read one by one from standard input, and answered. A record is the function's number
// of kept evictions, which may be any, the job's length and the text's, four bytes each, the lowest first, the job, and the text.
#![tactic(auto)]

ghost use Rattle.std.specs.Prelude.{OnOk, ◌≡◌, ◌+◌, ◌<◌, ◌≤◌, length};
ghost use Rattle.answer_text.specs.Lines.{Printed};
ghost use Rattle.records.specs.Bytes.{length_at, same_list};
ghost use Rattle.records.specs.Told.{Within, text_of};

use answer::Whole;

// Why there is no record: the stream ends in the middle of it, or it is longer than the bytes that are lent for it.
#[derive(Clone, Copy, PartialEq, Eq)]
pub struct Cut;

// Four bytes as a number, the lowest first.
fn length_at(s: &[u8], at: usize) -> usize
    requires { at + 4 ≤ length s.now }
    ensures { (result ≡ length_at s.now at) × (result < 4294967296) }
{
    usize::from(s[at])
        + usize::from(s[at + 1]) * 256
        + usize::from(s[at + 2]) * 65536
        + usize::from(s[at + 3]) * 16777216
}

// Whether the two are the same, byte for byte.
pub fn same(a: &[u8], b: &[u8]) -> bool
    ensures { result ≡ same_list a.now b.now }
{
    if a.len() != b.len() {
        return false;
    }
    for i in 0..a.len() {
        if a[i] != b[i] {
            return false;
        }
    }
    true
}

// The next n bytes of standard input, if they fit and are there.
fn read_part(buf: &mut [u8], n: usize) -> Result<(), Cut>
    ensures { OnOk result (n ≤ length buf.new) }
{
    if buf.len() < n {
        return Err(Cut);
    }
    if io::read_full(0, &mut buf[..n]) < n {
        return Err(Cut);
    }
    Ok(())
}

// The next record of standard input: its number of kept evictions and the lengths of its job and text; nothing, if the stream ends before it.
pub fn read_record(job: &mut [u8], text: &mut [u8]) -> Result<Option<(u32, usize, usize)>, Cut>
    ensures { Within job.new text.new result }
{
    let mut head = [0u8; 12];
    let got = io::read_full(0, &mut head);
    if got == 0 {
        return Ok(None);
    }
    if got < 12 {
        return Err(Cut);
    }
    let kept_evictions = length_at(&head, 0) as u32;
    let n = length_at(&head, 4);
    let m = length_at(&head, 8);
    read_part(job, n)?;
    read_part(text, m)?;
    Ok(Some((kept_evictions, n, m)))
}

// The text of the answer of a job with so many kept evictions, put at the front of the lent bytes. Answers its length; or 0 where it does not fit,
// with the lines that do. There are words enough for every job.
pub fn put_text(kept_evictions: u32, job: &[u8], out: &mut [u8]) -> usize
    ensures { Printed out.old out.new (text_of kept_evictions job.now) result }
{
    let mut words = [0u64; 132096];
    let mut t = [0u16; 107520];
    let mut f = [0u16; 16388];
    let mut cache = [0u16; 65600];
    let mut free = [false; 512];
    let mut e = [0u16; 1541];
    let mut w = [0u16; 6657];
    let mut available = [false; 512];
    let mut sources = [false; 512];
    let mut edits = [0u64; 1025];
    let mut slots = [0u16; 32835];
    let mut d = [0u16; 12288];
    let mut marks = [0u8; 129];
    let mut c = [0u16; 2049];
    match answer::answer_job(
        kept_evictions,
        job,
        &mut words,
        &mut t,
        &mut f,
        &mut cache,
        &mut free,
        &mut e,
        &mut w,
        &mut available,
        &mut sources,
        &mut edits,
        &mut slots,
        &mut d,
        &mut marks,
        &mut c,
    ) {
        Whole::Answered(n) => answer_text::put_answer(out, &words[..n], 0),
        Whole::Refused(k, n) => answer_text::put_answer(out, &words[..n], k),
    }
}

// A line of a number between two texts, on standard output.
pub fn say(before: &[u8], k: u64, after: &[u8]) {
    io::write_all(1, before);
    io::print_decimal(1, k);
    io::write_all(1, after);
}
