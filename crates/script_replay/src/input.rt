//! A script's text from a reader.

ghost use Rattle.std.specs.Prelude.{◌≡◌, ◌≤◌, ◌⊎◌, IfOk, IfErr, IfSome, vec_len};
ghost use Rattle.script_replay.specs.declared.fault.ReplayFault.TheVariants.{NoMemory, Device, TooLong};

use crate::fault::ReplayFault;
use script::MAX_SCRIPT_LEN;
use std::alloc::Global;
use std::io::{ErrorKind, Read};

/// The most reads that a script takes, interrupted ones and the one that meets its end included.
pub const MAX_READS: u32 = 1 << 21;

/// How many bytes one read asks for.
const BUFFER_LEN: usize = 4096;

/// Everything that a reader still gives. An interrupted read is tried again.
///
/// `Device` if a read fails, `TooLong` past `MAX_SCRIPT_LEN` bytes or `MAX_READS` reads.
pub(crate) fn read_text<R: Read>(alloc: Global, reader: &mut R) -> Result<Vec<u8>, ReplayFault>
    ensures all { IfOk result (λ text. IfSome (R.remaining reader.old)
        (λ bytes. text.items ≡ bytes)) }
    ensures short { IfOk result (λ text. vec_len text ≤ MAX_SCRIPT_LEN) }
    ensures fault { IfErr result
        (λ fault. (fault ≡ NoMemory) ⊎ ((fault ≡ Device) ⊎ (fault ≡ TooLong))) }
{
    let mut text = Vec::new(alloc);
    let mut buffer = [0; BUFFER_LEN];
    for _ in 0..MAX_READS {
        match reader.read(&mut buffer) {
            Ok(0) => return Ok(text),
            Ok(count) if count > MAX_SCRIPT_LEN - text.len() => return Err(ReplayFault::TooLong),
            Ok(count) => text.extend_from_slice(&buffer[..count])?,
            Err(error) if error.kind() == ErrorKind::Interrupted => {}
            Err(_) => return Err(ReplayFault::Device),
        }
    }
    Err(ReplayFault::TooLong)
}
