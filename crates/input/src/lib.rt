// Reads what a program is given on standard input.
#![tactic(auto)]

ghost use Rattle.std.specs.Prelude.{◌<◌, length, take, IfOk};
ghost use Rattle.std.specs.Io.KnownBytes.{Consumes, IsAtEnd};
ghost use Rattle.io.specs.Counts.{IsPrefixLen};

use std::io;
use std::io::Read;

// Reads until the input ends or the buffer is full, and answers how many bytes stand in it; or the error of the first read that fails.
pub fn read_whole<R: Read>(from: &mut R, buf: &mut [u8]) -> io::Result<usize>
    ensures size { IfOk result (λ size. IsPrefixLen size buf.new) }
    ensures bytes { IfOk result (λ size. Consumes (R.remaining from.old) (R.remaining from.new) (take size buf.new)) }
    ensures whole { IfOk result (λ size. size < length buf.new → IsAtEnd (R.remaining from.new)) }
{
    let mut size = 0;
    while size < buf.len() {
        let more = from.read(&mut buf[size..])?;
        if more == 0 {
            break;
        }
        size += more;
    }
    Ok(size)
}
