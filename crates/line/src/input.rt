// Input for the programs.
ghost use Rattle.std.specs.Prelude.{◌≡◌, ◌≤◌, ◌<◌, length, take, IfOk, IsTrue, false};
ghost use Rattle.std.specs.Io.KnownBytes.{Consumes, IsAtEnd};
ghost use Rattle.line.specs.Counts.{IsPrefixLen};

use std::io;
use std::io::Read;

// Reads until `buf` is full or the input ends, and answers how many bytes stand at the start of `buf`.
pub fn read_full<R: Read>(input: &mut R, buf: &mut [u8]) -> io::Result<usize>
    ensures in_bounds { IfOk result (λ n. IsPrefixLen n buf.new) }
    ensures bytes { IfOk result (λ n. Consumes (R.remaining input.old) (R.remaining input.new) (take n buf.new)) }
    ensures end { IfOk result (λ n. n < length buf.old → IsAtEnd (R.remaining input.new)) }
{
    let mut done = 0;
    // Not a range: how much a read gives is not known before.
    while done < buf.len() {
        let n = input.read(&mut buf[done..])?;
        if n == 0 {
            break;
        }
        done += n;
    }
    Ok(done)
}

// Whether the input fills `buf`, which it does not where it ends before.
pub fn fills<R: Read>(input: &mut R, buf: &mut [u8]) -> io::Result<bool>
    ensures bytes { IfOk result (λ all. IsTrue all → Consumes (R.remaining input.old) (R.remaining input.new) buf.new) }
    ensures end { IfOk result (λ all. all ≡ false → IsAtEnd (R.remaining input.new)) }
{
    Ok(read_full(input, buf)? == buf.len())
}
