// The front of a program's input: as much of it as there is room for. The programs read by this alone; whatever gives
// bytes can be read.
#![tactic(auto)]

ghost use Rattle.std.specs.Prelude.{◌<◌, ◌≤◌, ℕ, length, take, IfOk, OnErr};
ghost use Rattle.std.specs.Io.{ReadsAtMost};
ghost use Rattle.std.specs.Io.KnownBytes.{Consumes, IsAtEnd};

use std::io;
use std::io::Read;

// Reads the front of an input, as much as there is room for, and answers how many bytes came: fewer than that only
// where the input ended. A read that fails ends it with its error, what came before at the front all the same.
pub fn read_front<R: Read>(input: &mut R, front: &mut [u8]) -> io::Result<usize>
    ensures within { ReadsAtMost result front.new }
    ensures bytes { IfOk result (λ n.
        Consumes (R.remaining input.old) (R.remaining input.new) (take n front.new)) }
    ensures end { IfOk result (λ n. n < length front.new → IsAtEnd (R.remaining input.new)) }
    ensures err { OnErr result ((n : ℕ) × (n ≤ length front.new)
        × Consumes (R.remaining input.old) (R.remaining input.new) (take n front.new)) }
{
    let mut filled = 0;
    // A `while`: how many bytes a read gives is not known before.
    while filled < front.len() {
        let got = input.read(&mut front[filled..])?;
        if got == 0 {
            return Ok(filled);
        }
        filled += got;
    }
    Ok(filled)
}

#[cfg(test)]
mod tests {
    use super::*;
    use std::io::ErrorKind;

    // Gives a byte at a time, as long as some are left, and then fails.
    #[derive(Drop)]
    struct Bytes {
        left: u8,
    }

    impl Read for Bytes {
        fn read(&mut self, buf: &mut [u8]) -> io::Result<usize> {
            if buf.is_empty() {
                return Ok(0);
            }
            if self.left == 0 {
                return Err(io::Error::from(ErrorKind::BrokenPipe));
            }
            buf[0] = self.left;
            self.left -= 1;
            Ok(1)
        }
    }

    #[test]
    fn bytes_come_in_pieces(rt: HostRuntime) {
        let mut front = [0u8; 3];
        let came = read_front(&mut Bytes { left: 4 }, &mut front);
        assert!(rt; matches!(came, Ok(3)));
        assert_eq!(rt; front, [4, 3, 2]);
    }

    #[test]
    fn a_failed_read_is_no_end(rt: HostRuntime) {
        let mut front = [0u8; 3];
        let came = read_front(&mut Bytes { left: 2 }, &mut front);
        assert!(rt; came.is_err());
    }
}
