//! The outcome of a relay to a writer.

ghost use Rattle.std.specs.Prelude.{◌≡◌, OnOk, IfErr};
ghost use Rattle.std.specs.Io.KnownBytes.{Appends};
ghost use Rattle.file_relay.specs.declared.tool_fault.ToolFault.TheVariants.{Output};
ghost use Rattle.file_relay.specs.Outcome.{GrowsByFront, outcome_text};

use crate::tool_fault::ToolFault;
use audit::{write_audit, write_list};
use relay::Relayed;
use std::io::Write;

/// Writes the audit of an outcome, then its list if that is wanted, and flushes the writer.
///
/// `Output` if a write or the flush fails; then a prefix of the text went out.
pub(crate) fn write_outcome<W: Write>(
    relayed: &Relayed,
    list: bool,
    writer: &mut W,
) -> Result<(), ToolFault>
    ensures all { OnOk result (Appends (W.contents writer.old) (W.contents writer.new)
        (outcome_text list relayed.now)) }
    ensures fault { IfErr result (λ fault. fault ≡ Output) }
    ensures front { GrowsByFront (outcome_text list relayed.now) (W.contents writer.old)
        (W.contents writer.new) }
{
    write_audit(relayed, writer)?;
    if list {
        write_list(relayed, writer)?;
    }
    writer.flush().map_err(|_| ToolFault::Output)
}
