// Input that is read in full, files that arguments name, and output whose first error is kept.
#![tactic(auto)]

pub mod named;
pub mod outlet;

ghost use Rattle.std.specs.Prelude.{ℕ, ◌<◌, take, length, IfOk, OnErr};
ghost use Rattle.std.specs.Io.{ReadsAtMost};
ghost use Rattle.std.specs.Io.KnownBytes.{Consumes, IsAtEnd};

use std::io;
use std::io::Read;

// Reads until the buffer is full or the input ends, and says how many bytes stand at the buffer's start. It fails only where a read fails, and what was read
// until then stands at the buffer's start.
pub fn read_full<R: Read>(reader: &mut R, buf: &mut [u8]) -> io::Result<usize>
    ensures bound { ReadsAtMost result buf.new }
    ensures bytes { IfOk result (λ n. Consumes (R.remaining reader.old) (R.remaining reader.new) (take n buf.new)) }
    ensures end { IfOk result (λ n. n < length buf.old → IsAtEnd (R.remaining reader.new)) }
    ensures lost { OnErr result ((n : ℕ) × Consumes (R.remaining reader.old) (R.remaining reader.new) (take n buf.new)) }
{
    let mut done = 0;
    while done < buf.len() {
        let n = reader.read(&mut buf[done..])?;
        if n == 0 {
            return Ok(done);
        }
        done += n;
    }
    Ok(done)
}

#[cfg(test)]
mod tests {
    use super::*;
    use crate::outlet::Outlet;
    use std::io::{Cursor, ErrorKind};

    // Gives a byte at each read, so many times, and then fails.
    #[derive(Drop)]
    struct Bytewise {
        left: u8,
    }

    impl Read for Bytewise {
        fn read(&mut self, buf: &mut [u8]) -> io::Result<usize> {
            if self.left == 0 {
                return Err(io::Error::from(ErrorKind::BrokenPipe));
            }
            if buf.is_empty() {
                return Ok(0);
            }
            self.left -= 1;
            buf[0] = 7;
            Ok(1)
        }
    }

    #[test]
    fn gathers_short_reads(rt: HostRuntime) {
        let mut three = [0u8; 3];
        assert!(rt; read_full(&mut Bytewise { left: 3 }, &mut three).is_ok());
        assert_eq!(rt; three, [7, 7, 7]);
        let mut four = [0u8; 4];
        assert!(rt; read_full(&mut Bytewise { left: 3 }, &mut four).is_err());
    }

    #[test]
    fn keeps_the_first_error(rt: HostRuntime) {
        let mut fits = Outlet::new(Cursor::new([0u8; 4]));
        fits.send(b"abcd");
        assert!(rt; fits.finish().is_ok());
        let mut full = Outlet::new(Cursor::new([0u8; 4]));
        full.send(b"abc");
        full.send(b"de");
        full.send(b"");
        assert!(rt; full.finish().is_err());
    }
}
