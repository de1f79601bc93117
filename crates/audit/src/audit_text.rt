//! Writes the audit of an outcome.

ghost use Rattle.std.specs.Prelude.{◌≡◌, ◌+◌, ◌^◌, ◌<◌, ◌++◌, IfOk};
ghost use Rattle.audit.specs.Counting.{counts_from, total};
ghost use Rattle.audit.specs.Output.{Puts, Writes, sent};
ghost use Rattle.audit.specs.Texts.{counts_line, sender_lines, audit_text};

use crate::AuditFault;
use crate::counts::Counts;
use crate::digits::Digits;
use crate::output::{Progress, put_all};
use crate::tallies::Tallies;
use relay::Relayed;
use std::io::Write;

/// Writes a line for each sender, in order, and then one for all of them. A line says how many
/// messages were read, and how many of these were delivered, left in the container, and never put.
/// The senders are the places of `unsent`.
///
/// The call fails if a write returns an error other than an interruption, if a write takes no byte,
/// and if the writer is interrupted for the [`MAX_INTERRUPTIONS`](crate::MAX_INTERRUPTIONS)th time.
/// The fault says how many bytes of the audit went out; the count stays at `u64::MAX`.
pub fn write_audit<W: Write>(relayed: &Relayed, writer: &mut W) -> Result<(), AuditFault>
    ensures { Writes (audit_text relayed.now) (W.contents writer.old)
        (W.contents writer.new) result }
{
    let mut progress = Progress::new();
    let sums = put_senders(relayed, writer, &mut progress)?;
    put_counts(writer, &mut progress, b"total", b"", sums)
}

// Writes the senders' lines, and gives the sums of their counts.
fn put_senders<W: Write>(
    relayed: &Relayed,
    writer: &mut W,
    progress: &mut Progress,
) -> Result<Counts, AuditFault>
    ensures text { Puts (sender_lines 0 (counts_from relayed.now 0 relayed.now.unsent.items))
        (sent (W.contents writer.old) progress.old.written)
        (sent (W.contents writer.new) progress.new.written) result }
    ensures sums { IfOk result
        (λ sums. sums ≡ total (counts_from relayed.now 0 relayed.now.unsent.items)) }
    ensures small { IfOk result (λ sums. sums.delivered + sums.left + sums.unsent < 2 ^ 128) }
{
    let mut sums = Counts {
        delivered: 0,
        left: 0,
        unsent: 0,
    };
    let mut tallies = Tallies::new(relayed, 0);
    for (sender, unsent) in relayed.unsent.iter().enumerate() {
        let counts = tallies.of_sender(relayed, sender, unsent);
        let number = Digits::of(sender as u128);
        put_counts(writer, progress, b"sender ", number.as_slice(), counts)?;
        sums = sums.plus(counts);
    }
    Ok(sums)
}

// Writes a line of counts.
fn put_counts<W: Write>(
    writer: &mut W,
    progress: &mut Progress,
    name: &[u8],
    number: &[u8],
    counts: Counts,
) -> Result<(), AuditFault>
    requires { counts.delivered + counts.left + counts.unsent < 2 ^ 128 }
    ensures { Puts (counts_line (name.now ++ number.now) counts)
        (sent (W.contents writer.old) progress.old.written)
        (sent (W.contents writer.new) progress.new.written) result }
{
    let read = Digits::of(counts.delivered + counts.left + counts.unsent);
    let delivered = Digits::of(counts.delivered);
    let left = Digits::of(counts.left);
    let unsent = Digits::of(counts.unsent);
    let parts: [&[u8]; 11] = [
        name,
        number,
        b" read ",
        read.as_slice(),
        b" delivered ",
        delivered.as_slice(),
        b" left ",
        left.as_slice(),
        b" unsent ",
        unsent.as_slice(),
        b"\n",
    ];
    put_all(writer, progress, &parts)
}
