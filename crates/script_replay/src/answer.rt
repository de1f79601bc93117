//! What is written for a script.

ghost use Rattle.std.specs.Prelude.{IfOk, IsTrue, string_bytes};
ghost use Rattle.std.specs.List.{AllByRecursion};
ghost use Rattle.player.specs.Traces.{Adds, lines_in};
ghost use Rattle.script_replay.specs.Outcome.{IsOutputOf};
ghost use Rattle.script_replay.specs.Traced.{IsTracedOf};
ghost use Rattle.script.specs.Script.{FinishesLast, IsLine, is_allowed};
ghost use Rattle.script.specs.View.{head_view};

use crate::queue::play_queue;
use crate::stack::play_stack;
use bounded_model::{MakeRefused, Order};
use player::Trace;
use script::Script;
use std::alloc::Global;
use std::sync::Wait;

/// Plays a script on a new container. Returns what is to be written for it, and adds its steps to
/// the trace. All memory is reserved here, so the output is complete before a writer is touched.
pub(crate) fn answer<S: Wait>(
    rt: &S,
    alloc: Global,
    script: Script<'_>,
    trace: &mut Trace,
) -> Result<String, MakeRefused>
    requires each { AllByRecursion IsLine script.lines.items }
    requires allowed { AllByRecursion
        (λ line. IsTrue (is_allowed script.header.order line)) script.lines.items }
    requires finish_last { FinishesLast script.lines.items }
    ensures output { IfOk result (λ output. IsOutputOf
        (head_view script.entry.header) script.entry.lines.items (string_bytes output)) }
    ensures traced { IfOk result (λ output. Adds (lines_in trace.old) (lines_in trace.new)
        (IsTracedOf (head_view script.entry.header) script.entry.lines.items
        (string_bytes output))) }
{
    match script.header.order {
        Order::Fifo => play_queue(rt, alloc, script, trace),
        Order::Lifo => play_stack(rt, alloc, script, trace),
    }
}
