//! Writes the list of an outcome.

ghost use Rattle.std.specs.Prelude.{◌++◌, flat_map, codes};
ghost use Rattle.audit.specs.Output.{Puts, Writes, sent};
ghost use Rattle.audit.specs.Texts.{message_line, take_line, list_text};

use crate::AuditFault;
use crate::digits::Digits;
use crate::output::{Progress, put_all};
use relay::{Message, Relayed, Taken};
use std::io::Write;

/// Writes a line for each message: the delivered ones in their order, then those left in the
/// container in theirs, then the unsent ones, sender by sender.
///
/// The call fails when [`write_audit`](crate::write_audit) would. The fault says how many bytes of
/// the list went out; the count stays at `u64::MAX`.
pub fn write_list<W: Write>(relayed: &Relayed, writer: &mut W) -> Result<(), AuditFault>
    ensures { Writes (list_text relayed.now) (W.contents writer.old)
        (W.contents writer.new) result }
{
    let mut progress = Progress::new();
    put_delivered(writer, &mut progress, &relayed.delivered)?;
    put_messages(writer, &mut progress, b"left", &relayed.left)?;
    put_unsent(writer, &mut progress, &relayed.unsent)
}

// Writes the lines of the delivered messages.
fn put_delivered<W: Write>(
    writer: &mut W,
    progress: &mut Progress,
    delivered: &[Taken],
) -> Result<(), AuditFault>
    ensures { Puts (flat_map take_line delivered.now)
        (sent (W.contents writer.old) progress.old.written)
        (sent (W.contents writer.new) progress.new.written) result }
{
    for taken in delivered {
        let number = Digits::of(taken.number as u128);
        put_message(
            writer,
            progress,
            b"take ",
            number.as_slice(),
            &taken.message,
        )?;
    }
    Ok(())
}

// Writes the lines of the unsent messages.
fn put_unsent<W: Write>(
    writer: &mut W,
    progress: &mut Progress,
    unsent: &[Vec<Message>],
) -> Result<(), AuditFault>
    ensures { Puts (flat_map (λ messages. flat_map (message_line (codes "unsent")) messages.items)
        unsent.now)
        (sent (W.contents writer.old) progress.old.written)
        (sent (W.contents writer.new) progress.new.written) result }
{
    for messages in unsent {
        put_messages(writer, progress, b"unsent", messages)?;
    }
    Ok(())
}

// Writes a line for each of these messages.
fn put_messages<W: Write>(
    writer: &mut W,
    progress: &mut Progress,
    word: &[u8],
    messages: &[Message],
) -> Result<(), AuditFault>
    ensures { Puts (flat_map (message_line word.now) messages.now)
        (sent (W.contents writer.old) progress.old.written)
        (sent (W.contents writer.new) progress.new.written) result }
{
    for message in messages {
        put_message(writer, progress, word, b"", message)?;
    }
    Ok(())
}

// Writes a message's line.
fn put_message<'a, W: Write>(
    writer: &mut W,
    progress: &mut Progress,
    word: &'a [u8],
    number: &'a [u8],
    message: &'a Message,
) -> Result<(), AuditFault>
    ensures { Puts (message_line (word.now ++ number.now) message.now)
        (sent (W.contents writer.old) progress.old.written)
        (sent (W.contents writer.new) progress.new.written) result }
{
    let sender = Digits::of(message.sender as u128);
    let seq = Digits::of(message.seq as u128);
    let text = message.text.as_slice();
    let parts: [&[u8]; 9] = [
        word,
        number,
        b" sender ",
        sender.as_slice(),
        b" seq ",
        seq.as_slice(),
        b" ",
        text,
        b"\n",
    ];
    put_all(writer, progress, &parts)
}
