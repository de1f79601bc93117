//! Scripts of a queue, which has no ranges and folds.

ghost use Rattle.std.specs.Prelude.{◌≡◌, IfOk, IsTrue, string_bytes};
ghost use Rattle.std.specs.List.{AllByRecursion};
ghost use Rattle.bounded_model.specs.Laws.{fresh};
ghost use Rattle.bounded_model.specs.declared.history.Order.TheVariants.{Fifo};
ghost use Rattle.ms_queue.specs.Calls.{IsRootOf, root_in};
ghost use Rattle.script.specs.Script.{FinishesLast, IsLine, is_allowed};
ghost use Rattle.script.specs.View.{head_view};
ghost use Rattle.player.specs.Traces.{Adds, lines_in};
ghost use Rattle.script_replay.specs.Outcome.{IsOutputIn};
ghost use Rattle.script_replay.specs.Traced.{IsTracedIn};

use bounded_model::{MakeRefused, TakeRefused};
use ms_queue::{Pass, Queue, Root};
use player::{Ranges, Trace, play};
use script::{RangeReply, Script, Value, ValueList, Values};
use std::alloc::{AllocError, Global};
use std::sync::Wait;
use tagged_index::Limits;

/// The ranges and folds of a queue's script. No line of it names one: a range hands its values back,
/// and a fold takes nothing.
struct NoRanges;

impl<'a> Ranges<'a, Queue<Value<'a>>> for NoRanges {
    fn range<R: Wait>(
        _queue: &Queue<Value<'a>>,
        _rt: &R,
        alloc: Global,
        by: Pass<Value<'a>>,
        values: Values<'a>,
    ) -> Result<(Pass<Value<'a>>, RangeReply, ValueList<'a>), AllocError> {
        let places = values.to_places(alloc)?;
        Ok((by, RangeReply::Nothing, ValueList::left_in(places)))
    }

    fn fold<R: Wait>(
        _queue: &Queue<Value<'a>>,
        _rt: &R,
        _alloc: Global,
        by: Pass<Value<'a>>,
        _reversed: bool,
    ) -> Result<(Pass<Value<'a>>, Result<(u64, ValueList<'a>), TakeRefused>), AllocError> {
        Ok((by, Err(TakeRefused::Empty)))
    }
}

// A new queue. It is a function of its own: the prover would reach its limit of steps in one that
// also plays a script.
fn new_queue<'a>(
    alloc: Global,
    limits: Limits,
) -> Result<(Queue<Value<'a>>, Root<Value<'a>>), MakeRefused>
    ensures { IfOk result (λ made. (made.0.table.shared.key ≡ limits) × IsRootOf made.0 made.1
        × (root_in made.1 ≡ fresh)) }
{
    Queue::new(alloc, limits)
}

/// Plays a queue's script, and adds its steps to the trace. `NoMemory` if memory ran out for the
/// queue or for the lines.
pub(crate) fn play_queue<R: Wait>(
    rt: &R,
    alloc: Global,
    script: Script<'_>,
    trace: &mut Trace,
) -> Result<String, MakeRefused>
    requires each { AllByRecursion IsLine script.lines.items }
    requires allowed { AllByRecursion (λ line. IsTrue (is_allowed Fifo line)) script.lines.items }
    requires finish_last { FinishesLast script.lines.items }
    ensures output { IfOk result (λ output. IsOutputIn Fifo (head_view script.entry.header)
        script.entry.lines.items (string_bytes output)) }
    ensures traced { IfOk result (λ output. Adds (lines_in trace.old) (lines_in trace.new)
        (IsTracedIn Fifo (head_view script.entry.header) script.entry.lines.items
        (string_bytes output))) }
{
    let Script { header, lines } = script;
    let (queue, root) = new_queue(alloc, header.limits)?;
    Ok(play::<NoRanges, _, _>(rt, alloc, queue, root, lines, trace)?)
}
