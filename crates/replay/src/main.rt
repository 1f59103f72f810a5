// A program: answers each job of the records on standard input, with its setting, and holds the text of its answer against the recorded one.
#![tactic(auto)]

ghost use Rattle.std.specs.Prelude.{◌<◌, ◌≡◌};
ghost use Rattle.replay.specs.Replayed.{is_replayed};

use records::Cut;

// Whether the text of the job's answer is the recorded one, and has room.
fn replayed(kept_evictions: u32, job: &[u8], text: &[u8]) -> bool
    ensures { result ≡ is_replayed kept_evictions job.now text.now }
{
    let mut out = [0u8; 65536];
    let n = records::put_text(kept_evictions, job, &mut out);
    if n == 0 {
        return false;
    }
    records::same(text, &out[..n])
}

// What became of a record; or there is none.
// Three ends of equal rank: none is an error that a caller would pass on.
#[derive(Drop)]
enum Outcome {
    Same,
    Differs,
    End,
}

// The record after the first k: whether there is one and its job is answered as recorded. If not, a line says why.
fn replay_next(k: u64) -> Outcome
    requires { k < 100000 }
{
    let mut job = [0u8; 16384];
    let mut text = [0u8; 65536];
    match records::read_record(&mut job, &mut text) {
        Ok(None) => Outcome::End,
        Err(Cut) => {
            records::say(b"record ", k + 1, b" is cut off or too long\n");
            Outcome::End
        }
        Ok(Some((kept_evictions, n, m))) => {
            if replayed(kept_evictions, &job[..n], &text[..m]) {
                return Outcome::Same;
            }
            records::say(b"answer ", k + 1, b" differs\n");
            Outcome::Differs
        }
    }
}

// What became of all records. The last of them are wrong on purpose, so that a comparison that finds nothing is seen.
fn tell(same: u64, differ: u64) {
    records::say(b"", same, b" answers are the same\n");
    records::say(b"", differ, b" differ\n");
}

fn main() {
    let mut same: u64 = 0;
    let mut differ: u64 = 0;
    for k in 0..100000 {
        match replay_next(k) {
            Outcome::Same => same += 1,
            Outcome::Differs => differ += 1,
            Outcome::End => {
                tell(same, differ);
                return;
            }
        }
    }
    records::say(b"stopped after ", 100000, b" answers\n");
}
