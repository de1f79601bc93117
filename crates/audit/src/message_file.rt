//! Reads message files.

ghost use Rattle.std.specs.Prelude.{◌≡◌, ◌≢◌, ◌<◌, [], ◌∷◌, ◌++◌, List, ℕ, length, IfSome, OnOk, IfErr};
ghost use Rattle.std.specs.Io.KnownBytes.{Consumes, IsAtEnd};
ghost use Rattle.audit.specs.MessageFile.{IsMessageFile, IsFirstFault};
ghost use Rattle.audit.specs.Reading.{Answers, AreLines, ReachesEnd, ReadsAll};
ghost use Rattle.std.proofs.Props.{props};
ghost use Rattle.relay.specs.KeepsMessages.{GoOnFrom-prop};

use crate::ReadFault;
use crate::text::Text;
use relay::Message;
use relay_args::MAX_COUNT;
use std::alloc::Global;
use std::io::{ErrorKind, Read};

/// The most bytes of a line, without its line feed.
pub const MAX_LINE: usize = 1024;

/// The most lines of a file: 65,535.
pub const MAX_LINES: usize = MAX_COUNT as usize;

/// The most reads of a file, those that are interrupted included.
pub const MAX_READS: u32 = 1 << 27;

const LINE_FEED: u8 = b'\n';

/// Reads a message file: at most [`MAX_LINES`] lines of at most [`MAX_LINE`] bytes, each ended by a
/// line feed. Line `j`, counted from 0, is the message with seq `j`. An interrupted read is tried
/// again.
///
/// The fault is the first that the call meets in the order of the bytes. The reader has then given
/// the bytes up to it, and perhaps some more. `Device` comes only if a read failed.
pub fn read_messages<R: Read>(
    alloc: Global,
    reader: &mut R,
    sender: u32,
) -> Result<Vec<Message>, ReadFault>
    // The reader gave some bytes, and they are the answer's file, or hold its fault.
    ensures bytes { (bytes : List ℕ)
        × Consumes (R.remaining reader.old) (R.remaining reader.new) bytes
        × Answers sender bytes result }
    // The call reads a file to its end, and so one that ends within a line.
    ensures end { ReachesEnd result → IsAtEnd (R.remaining reader.new) }
    // Each message file is accepted, with its own lines, unless memory, the reader or the count of
    // reads is at fault.
    ensures accepts { (lines : List (List ℕ))
        → IfSome (R.remaining reader.old)
        (λ text. IsMessageFile text lines → ReadsAll lines result) }
{
    let mut lines = Lines::new(alloc, sender);
    let mut buffer = [0u8; 4096];
    for _ in 0..MAX_READS {
        match reader.read(&mut buffer) {
            Ok(0) => return lines.finish(),
            Ok(count) => lines.read(alloc, &buffer[..count])?,
            Err(error) if error.kind() == ErrorKind::Interrupted => {}
            Err(_) => return Err(ReadFault::Device),
        }
    }
    Err(ReadFault::TooLong)
}

// The messages of the lines that have ended, and the line that has begun.
#[derive(Drop)]
struct Lines {
    sender: u32,
    messages: Vec<Message>,
    begun: Text<MAX_LINE>,
    ghost sound: { AreLines sender messages.items begun } by { Prim.hlevel (props, GoOnFrom-prop) },
}

impl Lines {
    ghost use Rattle.audit.specs.Lines.{bytes_of};

    fn new(alloc: Global, sender: u32) -> Lines
        ensures bytes { bytes_of result ≡ [] }
        ensures sender { result.sender ≡ sender }
    {
        Lines {
            sender,
            messages: Vec::new(alloc),
            begun: Text::new(),
        }
    }

    // Takes the next bytes of the file.
    fn read(&mut self, alloc: Global, bytes: &[u8]) -> Result<(), ReadFault>
        ensures ok { OnOk result (bytes_of self.new ≡ bytes_of self.old ++ bytes.now) }
        ensures sender { self.new.sender ≡ self.old.sender }
        ensures err { IfErr result (λ fault. IsFirstFault fault (bytes_of self.old ++ bytes.now)) }
        ensures within { IfErr result (λ fault. fault ≢ ReadFault.NoFinalNewline) }
    {
        for byte in bytes {
            self.read_byte(alloc, *byte)?;
        }
        Ok(())
    }

    // Takes the next byte of the file.
    fn read_byte(&mut self, alloc: Global, byte: u8) -> Result<(), ReadFault>
        ensures ok { OnOk result (bytes_of self.new ≡ bytes_of self.old ++ byte ∷ []) }
        ensures sender { self.new.sender ≡ self.old.sender }
        ensures err { IfErr result
            (λ fault. (more : List ℕ) → IsFirstFault fault (bytes_of self.old ++ byte ∷ more)) }
        ensures within { IfErr result (λ fault. fault ≢ ReadFault.NoFinalNewline) }
    {
        if self.messages.len() == MAX_LINES {
            return Err(ReadFault::TooMany);
        }
        if byte == LINE_FEED {
            return self.end_line(alloc);
        }
        if self.begun.len() == MAX_LINE {
            let line = self.messages.len() as u64 + 1;
            return Err(ReadFault::LineTooLong(line));
        }
        self.begun.push(byte);
        Ok(())
    }

    // Makes a message of the line that has begun.
    fn end_line(&mut self, alloc: Global) -> Result<(), ReadFault>
        requires { length self.old.messages.items < MAX_LINES }
        ensures ok { OnOk result (bytes_of self.new ≡ bytes_of self.old ++ LINE_FEED ∷ []) }
        ensures sender { self.new.sender ≡ self.old.sender }
        ensures err { IfErr result (λ fault. fault ≡ ReadFault.NoMemory) }
    {
        let message = Message {
            sender: self.sender,
            seq: self.messages.len() as u32,
            text: Vec::from_slice(alloc, self.begun.as_slice())?,
        };
        self.messages.push(message)?;
        self.begun.clear();
        Ok(())
    }

    // The messages of a file that ends here.
    fn finish(self) -> Result<Vec<Message>, ReadFault>
        ensures { Answers self.sender (bytes_of self) result }
    {
        if self.begun.len() > 0 {
            return Err(ReadFault::NoFinalNewline);
        }
        Ok(self.messages)
    }
}
