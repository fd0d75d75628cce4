// Input that comes in pieces of any size, put together. Assumes nothing.
#![tactic(auto)]

ghost use Rattle.std.specs.Prelude.{◌<◌, length, take, IfOk};
ghost use Rattle.std.specs.Io.{ReadsAtMost};
ghost use Rattle.std.specs.Io.KnownBytes.{Consumes, IsAtEnd};

use std::io;
use std::io::Read;

// Reads until the buffer is full or the input has ended, and returns how many bytes it put at the buffer's front.
pub fn fill<R: Read>(input: &mut R, buffer: &mut [u8]) -> io::Result<usize>
    ensures within { ReadsAtMost result buffer.new }
    ensures bytes { IfOk result (λ n. Consumes (R.remaining input.old) (R.remaining input.new) (take n buffer.new)) }
    ensures end { IfOk result (λ n. n < length buffer.new → IsAtEnd (R.remaining input.new)) }
{
    let mut done = 0;
    while done < buffer.len() {
        let n = input.read(&mut buffer[done..])?;
        if n == 0 {
            break;
        }
        done += n;
    }
    Ok(done)
}

#[cfg(test)]
mod tests {
    use super::*;

    // An input in three pieces, of which one is empty, and a buffer that none of them fills.
    #[test]
    fn pieces_fill_a_buffer(rt: HostRuntime) -> io::Result<()> {
        let (front, middle, rest): (&[u8], &[u8], &[u8]) = (b"ab", b"", b"cdefg");
        let mut input = front.chain(middle).chain(rest);
        let mut buffer = [0u8; 4];
        let first = fill(&mut input, &mut buffer)?;
        assert_eq!(rt; first, 4);
        assert_eq!(rt; buffer, *b"abcd");
        let second = fill(&mut input, &mut buffer)?;
        assert_eq!(rt; second, 3);
        assert_eq!(rt; buffer, *b"efgd");
        Ok(())
    }
}
