// A reader read to its end, and a writer written to the last byte.
#![tactic(auto)]

ghost use Rattle.std.specs.Prelude.{OnOk, OnErr};
ghost use Rattle.std.specs.Io.KnownBytes.{Appends};
ghost use Rattle.streams.specs.Moving.{GotIn, GotFrom, WroteSome};

use std::io;
use std::io::{ErrorKind, Read, Write};

// The reader to its end, or as much as fits. A read that is interrupted is made again, 1,000 times in all.
pub fn read_all<R: Read>(from: &mut R, buf: &mut [u8]) -> io::Result<usize>
    ensures got { GotIn buf.new result }
    ensures bytes { GotFrom (R.remaining from.old) (R.remaining from.new) buf.new result }
{
    let mut done = 0;
    let mut again: usize = 1000;
    // Kept a `while`: a call moves as many bytes as it likes.
    while done < buf.len() {
        match from.read(&mut buf[done..]) {
            Ok(0) => {
                return Ok(done);
            }
            Ok(n) => {
                done += n;
            }
            Err(error) => {
                if error.kind() != ErrorKind::Interrupted {
                    return Err(error);
                }
                if again == 0 {
                    return Err(error);
                }
                again -= 1;
            }
        }
    }
    Ok(done)
}

// Writes all bytes, or answers why it could not. A write that takes a part is followed by one of the rest, and one that is interrupted is made again,
// 1,000 times in all.
pub fn write_all<W: Write>(to: &mut W, buf: &[u8]) -> io::Result<()>
    ensures all { OnOk result (Appends (W.contents to.old) (W.contents to.new) buf.now) }
    ensures some { OnErr result (WroteSome (W.contents to.old) (W.contents to.new) buf.now) }
{
    let mut done = 0;
    let mut again: usize = 1000;
    // Kept a `while`: a call moves as many bytes as it likes.
    while done < buf.len() {
        match to.write(&buf[done..]) {
            Ok(0) => {
                return Err(io::Error::from(ErrorKind::WriteZero));
            }
            Ok(n) => {
                done += n;
            }
            Err(error) => {
                if error.kind() != ErrorKind::Interrupted {
                    return Err(error);
                }
                if again == 0 {
                    return Err(error);
                }
                again -= 1;
            }
        }
    }
    Ok(())
}
