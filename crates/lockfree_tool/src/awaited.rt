//! Standard input that says so if a person is to type it.

ghost use Rattle.std.specs.Prelude.{◌≡◌};

use std::io::{self, IsTerminal, Read, Write};

const NOTICE: &str =
    "lockfree: waiting for a script, or for the file -, from the terminal. Ctrl-D ends it; --help tells more\n";

/// A reader that tells at its first read that it waits, if what it reads from and what it tells it
/// on are terminals.
#[derive(Drop)]
pub struct Awaited<R, E> {
    reader: R,
    errors: E,
    is_begun: bool,
}

impl<R: Read + Drop, E: Write + Drop> Awaited<R, E> {
    pub fn new(reader: R, errors: E) -> Awaited<R, E>
        ensures { result.reader ≡ reader }
    {
        Awaited {
            reader,
            errors,
            is_begun: false,
        }
    }
}

impl<R: Read + IsTerminal + Drop, E: Write + IsTerminal + Drop> Read for Awaited<R, E> {
    ghost remaining = { λ awaited. R.remaining awaited.reader };

    fn read(&mut self, buf: &mut [u8]) -> io::Result<usize> {
        if !self.is_begun {
            self.is_begun = true;
            if self.reader.is_terminal() && self.errors.is_terminal() {
                // A person who cannot be told can type all the same.
                let _ = self.errors.write_all(NOTICE.as_bytes());
            }
        }
        self.reader.read(buf)
    }
}
