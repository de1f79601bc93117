//! The replies to a writer.

ghost use Rattle.std.specs.Prelude.{◌≡◌, OnOk, IfErr};
ghost use Rattle.std.specs.Io.KnownBytes.{Appends};
ghost use Rattle.script_replay.specs.declared.fault.ReplayFault.TheVariants.{Output};
ghost use Rattle.told.specs.Writing.{AppendsFront};

use crate::fault::ReplayFault;
use std::io::Write;
use told::{Told, tell};

/// Writes all of the bytes and flushes the writer.
///
/// `Output` if a write fails or takes nothing, or if the writer cannot be flushed. Then a prefix of
/// the bytes went out.
pub(crate) fn write_all<W: Write>(writer: &mut W, bytes: &[u8]) -> Result<(), ReplayFault>
    ensures all { OnOk result (Appends (W.contents writer.old) (W.contents writer.new) bytes.now) }
    ensures fault { IfErr result (λ fault. fault ≡ Output) }
    ensures front { AppendsFront (W.contents writer.old) (W.contents writer.new) bytes.now }
{
    match tell(writer, bytes) {
        Told::Whole => Ok(()),
        Told::InPart => Err(ReplayFault::Output),
    }
}
