// The program `resolve`: reads a job on standard input and prints the edits of its patches, or the number by which it is refused. The argument, `1`
// or `2`, is the function's number of kept evictions, 1 without any; another one, or a second, is refused with 22, whatever the job. What could not
// be read or written is said on standard error.
#![tactic(auto)]

ghost use Rattle.std.specs.Prelude.{◌≡◌, length};
ghost use Rattle.entity.specs.Logic.{Anything};
ghost use Rattle.job_text.specs.Standing.{Stands, Piece};
ghost use Rattle.resolve.specs.Setting.{setting_of, setting_from};
ghost use Rattle.resolve.specs.Moving.{WroteOn, AllWritten, PieceOn, TextOn};

use carried::Carried;
use edit::Edits;
use entries::Entries;
use function::Function;
use job_text::Progress;
use reginfo::RegInfo;
use scratch::Diversions;
use slots::{EmergencySpillSlotCache, Slots};
use small_set::RegUnitSet;
use sparse::SparseMap;
use std::io;
use visits::States;

// The number of kept evictions that an argument gives, 0 if it is neither `1` nor `2`.
fn setting_of(arg: &[u8]) -> u32
    ensures { result ≡ setting_of arg.now }
{
    if arg.len() != 1 {
        return 0;
    }
    if arg[0] == 49 {
        return 1;
    }
    if arg[0] == 50 {
        return 2;
    }
    0
}

// The number of kept evictions of a program with so many arguments, its own name counted, and this one behind its name: 1 if it has no other than
// its name, and 0, which is refused, if it has a second.
fn setting_from(count: usize, arg: &[u8]) -> u32
    ensures { result ≡ setting_from count arg.now }
{
    if count < 2 {
        return 1;
    }
    if count == 2 {
        return setting_of(arg);
    }
    0
}

// Writes what the buffer holds, which is what follows in the text of the job s with this setting: how the text stands then.
fn write_piece<W: io::Write>(
    to: &mut W,
    kept_evictions: u32,
    s: &[u8],
    out: &[u8],
    p: Progress,
) -> io::Result<Progress>
    requires { Piece kept_evictions s.now out.now p }
    ensures emptied { WroteOn p result }
    ensures written { PieceOn (W.contents to.old) (W.contents to.new) out.now p result }
{
    let n = p.held;
    streams::write_all(to, &out[..n])?;
    Ok(job_text::emptied(p))
}

// Writes what is left of the text of the job s with this setting: whenever the next patch may not fit behind what the buffer holds, and at the end. A
// text of at most 65,536 bytes is one write. Answers how many bytes of the text are written.
fn write_text<W: io::Write>(
    to: &mut W,
    kept_evictions: u32,
    t: &RegInfo,
    f: &Function,
    s: &[u8],
    from: Progress,
    cache: &mut EmergencySpillSlotCache,
    list: &mut [u64; 1024],
    free: &mut RegUnitSet,
    e: &mut Entries,
    w: &mut SparseMap,
    available: &mut RegUnitSet,
    sources: &mut RegUnitSet,
    edits: &mut Edits,
    slots: &mut Slots,
    d: &mut Diversions,
    marks: &mut States,
    c: &mut Carried,
    out: &mut [u8],
) -> io::Result<usize>
    requires { Stands kept_evictions t.now f.now s.now cache.old out.old from × (length out.old ≡ 86016) }
    ensures all_written { AllWritten kept_evictions s.now result }
    ensures written { TextOn (W.contents to.old) (W.contents to.new) kept_evictions from.written s.now result }
    ensures anything { Anything cache.new × Anything list.new × Anything free.new × Anything e.new × Anything w.new × Anything available.new × Anything sources.new × Anything edits.new × Anything slots.new × Anything d.new × Anything marks.new × Anything c.new × Anything out.new }
{
    let mut p = from;
    // Kept a `while`: the text says when it has ended.
    while !p.ended {
        if p.held <= 65536 {
            p = job_text::next(
                t, f, s, p, cache, list, free, e, w, available, sources, edits, slots, d, marks, c,
                out,
            );
            continue;
        }
        p = write_piece(to, kept_evictions, s, out, p)?;
    }
    let q = write_piece(to, kept_evictions, s, out, p)?;
    Ok(q.written)
}

// Answers the job s with this setting: all its text is written, or a write failed.
fn answer<W: io::Write>(
    to: &mut W,
    kept_evictions: u32,
    s: &[u8],
    t: &mut RegInfo,
    f: &mut Function,
    cache: &mut EmergencySpillSlotCache,
    list: &mut [u64; 1024],
    free: &mut RegUnitSet,
    e: &mut Entries,
    w: &mut SparseMap,
    available: &mut RegUnitSet,
    sources: &mut RegUnitSet,
    edits: &mut Edits,
    slots: &mut Slots,
    d: &mut Diversions,
    marks: &mut States,
    c: &mut Carried,
    out: &mut [u8],
) -> io::Result<usize>
    requires { length out.old ≡ 86016 }
    ensures all_written { AllWritten kept_evictions s.now result }
    ensures written { TextOn (W.contents to.old) (W.contents to.new) kept_evictions 0 s.now result }
    ensures anything { Anything t.new × Anything f.new × Anything cache.new × Anything list.new × Anything free.new × Anything e.new × Anything w.new × Anything available.new × Anything sources.new × Anything edits.new × Anything slots.new × Anything d.new × Anything marks.new × Anything c.new × Anything out.new }
{
    let p = job_text::start(kept_evictions, s, t, f, cache, out);
    write_text(
        to,
        kept_evictions,
        t,
        f,
        s,
        p,
        cache,
        list,
        free,
        e,
        w,
        available,
        sources,
        edits,
        slots,
        d,
        marks,
        c,
        out,
    )
}

fn main(rt: HostRuntime) {
    let mut arg = [0u8; 2];
    let mut job = [0u8; 65537];
    let mut t = [0u16; 107520];
    let mut f = [0u16; 16388];
    let mut cache = [0u16; 65600];
    let mut list = [0u64; 1024];
    let mut free = [false; 512];
    let mut e = [0u16; 1541];
    let mut w = [0u16; 6657];
    let mut available = [false; 512];
    let mut sources = [false; 512];
    let mut edits = [0u64; 1025];
    let mut slots = [0u16; 32835];
    let mut d = [0u16; 12288];
    let mut marks = [0u8; 129];
    let mut c = [0u16; 2049];
    let mut out = [0u8; 86016];
    let length = arguments::word(&rt, 1, &mut arg);
    let kept_evictions = setting_from(arguments::count(&rt), &arg[..length]);
    let n = match streams::read_all(&mut rt.stdin(), &mut job) {
        Ok(n) => n,
        Err(error) => {
            let _ = eprintln!(rt; "resolve: standard input cannot be read: {error}");
            return;
        }
    };
    if let Err(error) = answer(
        &mut rt.stdout(),
        kept_evictions,
        &job[..n],
        &mut t,
        &mut f,
        &mut cache,
        &mut list,
        &mut free,
        &mut e,
        &mut w,
        &mut available,
        &mut sources,
        &mut edits,
        &mut slots,
        &mut d,
        &mut marks,
        &mut c,
        &mut out,
    ) {
        let _ = eprintln!(rt; "resolve: standard output cannot be written: {error}");
    }
}
