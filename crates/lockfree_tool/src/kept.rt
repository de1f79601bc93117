//! The text of a script, kept in case a person has to be told what is wrong with it.

ghost use Rattle.std.specs.Prelude.{◌≡◌};

use std::io::{self, Read};

/// A reader that adds what it reads to a text, if there is one, and as long as there is memory.
#[derive(Drop)]
pub struct Kept<R> {
    reader: R,
    text: Option<Vec<u8>>,
}

impl<R: Read + Drop> Kept<R> {
    pub fn new(reader: R, text: Option<Vec<u8>>) -> Kept<R>
        ensures { result.reader ≡ reader }
    {
        Kept { reader, text }
    }

    /// The text with all that was read; `None` if there was none, or memory ran out.
    pub fn into_text(self) -> Option<Vec<u8>> {
        self.text
    }

    fn keep(&mut self, bytes: &[u8])
        ensures { self.new.reader ≡ self.old.reader }
    {
        if let Some(mut text) = self.text.take() {
            if text.extend_from_slice(bytes).is_ok() {
                self.text = Some(text);
            }
        }
    }
}

impl<R: Read + Drop> Read for Kept<R> {
    ghost remaining = { λ kept. R.remaining kept.reader };

    fn read(&mut self, buf: &mut [u8]) -> io::Result<usize> {
        let count = self.reader.read(buf)?;
        self.keep(&buf[..count]);
        Ok(count)
    }
}
