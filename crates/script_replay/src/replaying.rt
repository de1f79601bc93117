//! Scripts replayed.

ghost use Rattle.std.specs.Prelude.{◌≡◌, ◌≢◌, ◌≤◌, length, IfErr, IfOk, OnOk, IfSome, string_bytes};
ghost use Rattle.player.specs.Traces.{Adds, lines_in};
ghost use Rattle.script_replay.specs.declared.fault.ReplayFault.TheVariants.{Output};
ghost use Rattle.script_replay.specs.Outcome.{IsFaultOf, IsOutputFor, IsOutside, Replays, Wrote, WroteFront};
ghost use Rattle.script_replay.specs.Traced.{IsTraceFor, WroteTraced};
ghost use Rattle.told.specs.Writing.{written};
ghost use Rattle.script.specs.Faults.{IsAccepted};

use crate::answer::answer;
use crate::fault::ReplayFault;
use crate::input::read_text;
use crate::output::write_all;
use player::Trace;
use script::{MAX_SCRIPT_LEN, parse};
use std::alloc::Global;
use std::io::{Read, Write};
use std::sync::Wait;
use told::{Told, tell};

/// Returns the whole output for the script that the reader gives, and adds its steps to the trace.
fn output_for<S: Wait, R: Read>(
    rt: &S,
    alloc: Global,
    reader: &mut R,
    trace: &mut Trace,
) -> Result<String, ReplayFault>
    ensures output { IfOk result (λ output. IfSome (R.remaining reader.old)
        (λ text. IsOutputFor text (string_bytes output))) }
    ensures fault { IfErr result
        (λ fault. IfSome (R.remaining reader.old) (λ text. IsFaultOf fault text)) }
    ensures only { IfErr result (λ fault. IfSome (R.remaining reader.old)
        (λ text. IsAccepted text → IsOutside fault)) }
    ensures short { OnOk result
        (IfSome (R.remaining reader.old) (λ text. length text ≤ MAX_SCRIPT_LEN)) }
    ensures unwritten { IfErr result (λ fault. fault ≢ Output) }
    ensures traced { IfOk result (λ output. IfSome (R.remaining reader.old)
        (λ text. Adds (lines_in trace.old) (lines_in trace.new)
        (IsTraceFor text (string_bytes output)))) }
{
    let text = read_text(alloc, reader)?;
    let script = parse(alloc, &text)?;
    Ok(answer(rt, alloc, script, trace)?)
}

/// Reads a script to its end, checks it whole, runs it on a container, and writes a reply for each
/// line after the first. Nothing is written before the replies are complete.
///
/// The faults, in the order in which they come:
/// - `NoMemory`, `Device`, `TooLong`: reading failed.
/// - `NoFinalNewline`: the last line has no newline.
/// - `BadLine`: the number is that of the first line that a script cannot have there.
/// - `NoMemory`: there was no memory for the container or its replies.
/// - `Output`: a write failed, or the flush. Then a prefix of the replies went out.
///
/// `NoMemory` can also come for the lines, before a bad line is found.
pub fn replay<S: Wait, R: Read, W: Write>(
    rt: &S,
    alloc: Global,
    reader: &mut R,
    writer: &mut W,
) -> Result<(), ReplayFault>
    // A text that is accepted is a script.
    ensures accepted { OnOk result (IfSome (R.remaining reader.old) IsAccepted) }
    ensures short { OnOk result
        (IfSome (R.remaining reader.old) (λ text. length text ≤ MAX_SCRIPT_LEN)) }
    // The output is a line for each line of the script after the first, and nothing else.
    ensures replies { OnOk result (IfSome (R.remaining reader.old)
        (λ text. Wrote text (W.contents writer.old) (W.contents writer.new))) }
    // The fault is in the text. A script gives no fault of the text.
    ensures fault { IfErr result
        (λ fault. IfSome (R.remaining reader.old) (λ text. IsFaultOf fault text)) }
    ensures only { IfErr result (λ fault. IfSome (R.remaining reader.old)
        (λ text. IsAccepted text → IsOutside fault)) }
    // Nothing is written before the script was read and checked whole, nor if memory runs out.
    ensures untouched { IfErr result (λ fault. fault ≢ Output → writer.new ≡ writer.old) }
    // After a failed write a prefix of that output went out.
    ensures front { IfErr result (λ fault. fault ≡ Output → IfSome (R.remaining reader.old)
        (λ text. WroteFront text (W.contents writer.old) (W.contents writer.new))) }
{
    let output = output_for(rt, alloc, reader, &mut Trace::none())?;
    write_all(writer, output.as_bytes())
}

/// Replays as [`replay`] does, and then writes the trace on `errors`. Whole calls are made by
/// steps, except ranges and folds. The trace has a line for each step, in the order of the steps:
/// the name that the operation gave the step before it was made, and its number in the call. A
/// range and a fold have one line each. Returns how much of the trace went out.
///
/// The faults are those of `replay`, and `NoMemory` also comes if there is no memory for the trace.
/// After a fault no trace is written. A trace that cannot be written is no fault. A line tells a
/// compare-and-swap's outcome by the names of this step and the next one (`StepName::outcome`).
/// For a machine's steps it is proved that this is what happened (`step_names::names_tell`).
pub fn replay_traced<S: Wait, R: Read, W: Write, E: Write>(
    rt: &S,
    alloc: Global,
    reader: &mut R,
    writer: &mut W,
    errors: &mut E,
) -> Result<Told, ReplayFault>
    // The output is what `replay` writes.
    ensures replays { Replays (R.remaining reader.old)
        (written W.contents writer.old writer.new) result }
    ensures untouched { IfErr result (λ fault. fault ≢ Output → writer.new ≡ writer.old) }
    // The trace is that of the play whose replies are written.
    ensures traced { IfOk result (λ said. IfSome (R.remaining reader.old)
        (λ text. WroteTraced text said (W.contents writer.old) (W.contents writer.new)
        (E.contents errors.old) (E.contents errors.new))) }
    ensures untold { IfErr result (λ fault. errors.new ≡ errors.old) }
{
    let mut trace = Trace::new(alloc);
    let output = output_for(rt, alloc, reader, &mut trace)?;
    write_all(writer, output.as_bytes())?;
    Ok(tell(errors, trace.text().as_bytes()))
}
