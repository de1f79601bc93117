//! Where a script or the messages of a file come from.

use std::io::{self, Read};

/// The name that stands for the standard input, instead of a file's.
pub const STANDARD_INPUT: &str = "-";

/// A file, or the standard input.
#[derive(Drop)]
pub enum Source<F, I> {
    File(F),
    Input(I),
}

impl<F: Read, I: Read> Read for Source<F, I> {
    ghost use Rattle.lockfree_tool.specs.Sources.{source_bytes};

    ghost remaining = { source_bytes F.remaining I.remaining };

    fn read(&mut self, buf: &mut [u8]) -> io::Result<usize> {
        match self {
            Source::File(file) => file.read(buf),
            Source::Input(input) => input.read(buf),
        }
    }
}
