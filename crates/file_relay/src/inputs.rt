//! The inputs of a relay, one from each reader.

ghost use Rattle.std.specs.Prelude.{◌≡◌, ◌<◌, ◌≤◌, ◌^◌, ◌++◌, ◌∷◌, [], ℕ, length, Vec, OnOk, IfErr, IfOk};
ghost use Rattle.std.specs.declared.alloc.Global.{Global};
ghost use Rattle.relay.specs.declared.messages.Message.{Message};
ghost use Rattle.audit.specs.declared.faults.ReadFault.{ReadFault};
ghost use Rattle.file_relay.specs.declared.tool_fault.ToolFault.TheVariants.{File};
ghost use Rattle.file_relay.specs.Inputs.{AreRead, HasFault, IsFileFault, IsRead};

use crate::tool_fault::ToolFault;
use audit::{ReadFault, read_messages};
use relay::Message;
use std::alloc::Global;
use std::io::Read;

/// Reads all readers, in order: reader `k`, counted from 0, gives the messages of sender `k`.
///
/// The only fault is `File`: the number, from 1, of the first reader that could not be read as a
/// message file, and why.
pub(crate) fn read_inputs<R: Read + Drop>(
    alloc: Global,
    readers: Vec<R>,
) -> Result<Vec<Vec<Message>>, ToolFault>
    requires { length readers.items < 2 ^ 32 }
    ensures read { IfOk result (λ inputs. AreRead R.remaining 0 readers.items inputs.items) }
    ensures fault { IfErr result
        (λ fault. (number : ℕ) × (cause : ReadFault) × (fault ≡ File number cause)
        × IsFileFault R.remaining readers.items number cause) }
{
    let mut inputs = Vec::new(alloc);
    for reader in readers {
        let number = inputs.len() as u64 + 1;
        match read_input(alloc, reader, &mut inputs) {
            Ok(()) => {}
            Err(fault) => return Err(ToolFault::File(number, fault)),
        }
    }
    Ok(inputs)
}

// Reads the next input.
fn read_input<R: Read + Drop>(
    alloc: Global,
    reader: R,
    inputs: &mut Vec<Vec<Message>>,
) -> Result<(), ReadFault>
    requires { length inputs.old.items < 2 ^ 32 }
    ensures read { OnOk result ((messages : Vec Message Global)
        × (inputs.new.items ≡ inputs.old.items ++ messages ∷ [])
        × IsRead R.remaining (length inputs.old.items) reader messages.items) }
    ensures fault { IfErr result (HasFault R.remaining reader) }
{
    let mut reader = reader;
    let messages = read_messages(alloc, &mut reader, inputs.len() as u32)?;
    inputs.push(messages)?;
    Ok(())
}
