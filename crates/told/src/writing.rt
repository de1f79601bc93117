//! Writes a text, and says how much of it went out.

ghost use Rattle.told.specs.Writing.{WentOut};

use std::io::{ErrorKind, Write};

/// How much of a text went out.
#[derive(Clone, Copy, Debug, PartialEq, Eq)]
pub enum Told {
    /// All of it.
    Whole,
    /// A front of it, which may be all: a write failed or took nothing, or the flush failed.
    InPart,
}

/// Writes all of the bytes and flushes the writer. An interrupted write is tried again.
///
/// `InPart` if a write fails or takes nothing, or if the writer cannot be flushed.
pub fn tell<W: Write>(writer: &mut W, bytes: &[u8]) -> Told
    ensures { WentOut result (W.contents writer.old) (W.contents writer.new) bytes.now }
{
    let mut rest = bytes;
    for _ in 0..u64::MAX {
        if rest.is_empty() {
            return match writer.flush() {
                Ok(()) => Told::Whole,
                Err(_) => Told::InPart,
            };
        }
        match writer.write(rest) {
            Ok(0) => return Told::InPart,
            Ok(count) => rest = &rest[count..],
            Err(error) if error.kind() == ErrorKind::Interrupted => {}
            Err(_) => return Told::InPart,
        }
    }
    Told::InPart
}
