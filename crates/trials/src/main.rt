// A program: answers each job of the records on standard input, with its setting, and prints the text of its answer after a line with the trial's
// number.
#![tactic(auto)]

ghost use Rattle.std.specs.Prelude.{◌<◌};

use records::Cut;

// The text of the job's answer.
fn show(kept_evictions: u32, job: &[u8]) {
    let mut out = [0u8; 65536];
    let n = records::put_text(kept_evictions, job, &mut out);
    if n == 0 {
        io::write_all(1, b"too long\n");
        return;
    }
    io::write_all(1, &out[..n]);
}

// Prints the record after the first k, or says that it is not whole. Answers whether there was one.
fn show_next(k: u64) -> bool
    requires { k < 100000 }
{
    let mut job = [0u8; 16384];
    let mut text = [0u8; 65536];
    match records::read_record(&mut job, &mut text) {
        Ok(None) => {}
        Err(Cut) => records::say(b"record ", k + 1, b" is cut off or too long\n"),
        Ok(Some((kept_evictions, n, _))) => {
            records::say(b"-- trial ", k + 1, b"\n");
            show(kept_evictions, &job[..n]);
            return true;
        }
    }
    false
}

fn main() {
    for k in 0..100000 {
        if !show_next(k) {
            return;
        }
    }
    records::say(b"stopped after ", 100000, b" trials\n");
}
