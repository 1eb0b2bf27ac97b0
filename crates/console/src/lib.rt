// The drill on standard output, for programs that have a script. It steps and writes; each step's text goes out as it
// comes, and what is kept does not grow with the script. What goes out is in no contract: the library promises nothing
// of it, and a program's output is compared with its file.
#![tactic(auto)]

ghost use Rattle.std.specs.Prelude.{◌≡◌, length};
ghost use Rattle.drill.specs.Run.{drill_of};

// Runs a script and answers how many bytes it prints. Once a write has failed, as on a standard output that is closed,
// nothing more is written, so that what comes out is always the beginning of the output; the run goes on to its end all
// the same, and nothing is said of it.
pub fn run(rt: &impl Print, input: &[u8]) -> usize
    ensures { result ≡ length (drill_of input.now) }
{
    let mut text = [0u8; drill::MOST_TEXT];
    let mut cursor = drill::start();
    let mut size: usize = 0;
    let mut writable = true;
    // A `while`: how many steps a script has is not known before.
    while drill::NO_LINE < cursor.line {
        let more = drill::step(input, &mut cursor, &mut text);
        writable = writable && rt.write_all(&text[..more]).is_ok();
        size += more;
    }
    size
}

#[cfg(test)]
mod tests {
    use super::*;
    use std::cell::Cell;
    use std::fmt::Display;
    use std::io;
    use std::io::ErrorKind;

    // Takes one text, and fails at each that comes after it. Empty texts are none.
    #[derive(Drop)]
    struct OneText {
        tried: Cell<u8>,
    }

    impl OneText {
        fn take(&self, size: usize) -> io::Result<()> {
            if size == 0 {
                return Ok(());
            }
            let before = self.tried.get();
            self.tried.set(before.saturating_add(1));
            if before == 0 {
                Ok(())
            } else {
                Err(io::Error::from(ErrorKind::BrokenPipe))
            }
        }
    }

    impl Print for OneText {
        fn print<D: Display + Drop>(&self, _value: D) -> io::Result<()> {
            self.take(1)
        }

        fn println<D: Display + Drop>(&self, _value: D) -> io::Result<()> {
            self.take(1)
        }

        fn write_all(&self, bytes: &[u8]) -> io::Result<()> {
            self.take(bytes.len())
        }
    }

    #[test]
    fn nothing_is_written_after_a_failed_write(rt: HostRuntime) {
        let printer = OneText {
            tried: Cell::new(0),
        };
        let size = run(&printer, b"3 4 1 0 3 4\n5 5 5 0\ngo\ngo\ngo\n");
        assert_eq!(rt; size, 40);
        assert_eq!(rt; printer.tried.get(), 2);
    }
}
