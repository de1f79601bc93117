//! Writes texts, and keeps count of what went out.

ghost use Rattle.std.specs.Prelude.{◌≡◌, ◌<◌, flat_map};
ghost use Rattle.audit.specs.declared.output.TheConstants.{MAX_INTERRUPTIONS};
ghost use Rattle.audit.specs.Output.{Puts, sent};

use crate::AuditFault;
use std::io::{ErrorKind, Write};

/// A call fails at this interrupted write.
pub const MAX_INTERRUPTIONS: u32 = 1 << 27;

/// How far a call has come with its text.
#[derive(Drop)]
pub(crate) struct Progress {
    // the bytes that went out; the count stays at `u64::MAX`
    written: u64,
    // the writes that were interrupted
    interrupted: u32,

    ghost few: { interrupted < MAX_INTERRUPTIONS },
}

impl Progress {
    pub(crate) fn new() -> Progress
        ensures { result.written ≡ 0 }
    {
        Progress {
            written: 0,
            interrupted: 0,
        }
    }
}

// Writes these parts, one after another.
pub(crate) fn put_all<W: Write>(
    writer: &mut W,
    progress: &mut Progress,
    parts: &[&[u8]],
) -> Result<(), AuditFault>
    ensures { Puts (flat_map (λ part. part.now) parts.now)
        (sent (W.contents writer.old) progress.old.written)
        (sent (W.contents writer.new) progress.new.written) result }
{
    for part in parts {
        put(writer, progress, part)?;
    }
    Ok(())
}

// Writes these bytes. The writer has failed if a write returns an error other than an interruption,
// if it takes nothing, and if it is interrupted for the `MAX_INTERRUPTIONS`th time.
fn put<W: Write>(writer: &mut W, progress: &mut Progress, bytes: &[u8]) -> Result<(), AuditFault>
    ensures { Puts bytes.now
        (sent (W.contents writer.old) progress.old.written)
        (sent (W.contents writer.new) progress.new.written) result }
{
    let mut rest = bytes;
    while !rest.is_empty() {
        match writer.write(rest) {
            Ok(count) if count > 0 => {
                progress.written = progress.written.saturating_add(count as u64);
                rest = &rest[count..];
            }
            Err(error)
                if error.kind() == ErrorKind::Interrupted
                    && progress.interrupted < MAX_INTERRUPTIONS - 1 => {
                progress.interrupted += 1;
            }
            _ => return Err(AuditFault::Write(progress.written)),
        }
    }
    Ok(())
}
