//! A relay of files that is measured.

ghost use Rattle.std.specs.Prelude.{◌≡◌, ◌≢◌, ◌≤◌, IfErr, length};
ghost use Rattle.relay_args.specs.declared.ranges.TheConstants.{MAX_FILES};
ghost use Rattle.file_relay.specs.declared.tool_fault.ToolFault.TheVariants.{Output};
ghost use Rattle.file_relay.specs.Measuring.{MeasuresInputs, Streams};
ghost use Rattle.relay_args.specs.Ranges.{IsInRange};
ghost use Rattle.file_relay.specs.Relaying.{FromReaders};
ghost use Rattle.told.specs.Writing.{written};

use crate::inputs::read_inputs;
use crate::outcome::write_outcome;
use crate::relaying::relay_inputs;
use crate::stats::Stats;
use crate::tool_fault::ToolFault;
use crate::tries::Tries;
use relay_args::RelayArgs;
use std::alloc::Global;
use std::io::{self, Read, Write};
use std::mem;
use std::sync::Wait;
use std::thread::Threads;
use std::time::{Clock, Instant};
use told::{Told, tell};

/// Relays, and keeps what was relayed for the life of the process, as
/// [`relay_main`](crate::relay_main) does. Then it writes stats of the relay.
///
/// The stats go to `errors`: the relay's time and messages a second, how many messages each consumer
/// took, and the refusals that were met. Returns how much of the stats went out.
///
/// The faults are those of `relay_main`. After a fault no stats are written. The stats are made
/// before the outcome is written, so `Relay(NoMemory)` also comes if there is no memory for them.
/// Stats that cannot be written are no fault. Words that threads share count the tries. No clause
/// says how many there were, and so none says how many were refused.
pub fn relay_measured<T: Threads + Wait + Clock + Sync, R: Read + Drop, W: Write, E: Write>(
    rt: &T,
    alloc: Global,
    args: &RelayArgs,
    readers: Vec<R>,
    writer: &mut W,
    errors: &mut E,
) -> Result<Told, ToolFault>
    requires args { IsInRange args.now }
    requires some { 1 ≤ length readers.items }
    requires few { length readers.items ≤ MAX_FILES }
    // The output is the outcome of a relay of the messages that were read, and the stats are those
    // of that relay.
    ensures measures { let streams : Streams = record {
      output = written W.contents writer.old writer.new;
      errors = written E.contents errors.old errors.new;
    } in FromReaders R.remaining readers.items (MeasuresInputs args.now streams) result }
    ensures untouched { IfErr result (λ fault. fault ≢ Output → writer.new ≡ writer.old) }
    ensures untold { IfErr result (λ fault. errors.new ≡ errors.old) }
{
    let inputs = read_inputs(alloc, readers)?;
    let tries = Tries::new(alloc, inputs.len(), args.consumers as usize)?;
    let start = Instant::now(rt);
    let relayed = relay_inputs(rt, alloc, args, inputs, &tries)?;
    let time = nanoseconds_since(rt, start);
    let stats = Stats::of(alloc, args, &relayed, tries.puts(), tries.takes(), time)?;
    let told = stats.text(alloc)?;
    write_outcome(&relayed, args.list, writer)?;
    let said = tell(errors, told.as_bytes());
    mem::forget(relayed);
    Ok(said)
}

// How long ago that was, if the clock could be read then and now.
fn nanoseconds_since<T: Clock>(rt: &T, start: io::Result<Instant>) -> Option<u128> {
    Some(start.ok()?.elapsed(rt).ok()?.as_nanos())
}
