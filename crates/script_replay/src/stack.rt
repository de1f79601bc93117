//! Scripts of a stack.

ghost use Rattle.std.specs.Prelude.{◌≡◌, IfOk, IsTrue, string_bytes};
ghost use Rattle.std.specs.List.{AllByRecursion};
ghost use Rattle.bounded_model.specs.Laws.{fresh};
ghost use Rattle.bounded_model.specs.declared.history.Order.TheVariants.{Lifo};
ghost use Rattle.player.specs.Traces.{Adds, lines_in};
ghost use Rattle.script.specs.Script.{FinishesLast, IsLine, is_allowed};
ghost use Rattle.script.specs.View.{head_view};
ghost use Rattle.script_replay.specs.Outcome.{IsOutputIn};
ghost use Rattle.script_replay.specs.Traced.{IsTracedIn};
ghost use Rattle.treiber_stack.specs.Calls.{IsRootOf, root_in};

use bounded_model::{MakeRefused, TakeRefused};
use player::{BulkRanges, Ranges, Trace, play};
use script::{RangeReply, Script, Value, ValueList, Values};
use std::alloc::{AllocError, Global};
use std::sync::Wait;
use tagged_index::Limits;
use treiber_stack::{Pass, Root, Stack};

type Bulk<'a> = BulkRanges<'a, Stack<Value<'a>>>;

/// The ranges and folds of a stack's script, which are those of `BulkRanges`. It is a type of its
/// own because the prover would reach its limit of steps at a call of `play` that names `BulkRanges`
/// of a stack.
struct StackRanges;

impl<'a> Ranges<'a, Stack<Value<'a>>> for StackRanges {
    fn range<R: Wait>(
        stack: &Stack<Value<'a>>,
        rt: &R,
        alloc: Global,
        by: Pass<Value<'a>>,
        values: Values<'a>,
    ) -> Result<(Pass<Value<'a>>, RangeReply, ValueList<'a>), AllocError> {
        <Bulk<'a> as Ranges<'a, Stack<Value<'a>>>>::range(stack, rt, alloc, by, values)
    }

    fn fold<R: Wait>(
        stack: &Stack<Value<'a>>,
        rt: &R,
        alloc: Global,
        by: Pass<Value<'a>>,
        reversed: bool,
    ) -> Result<(Pass<Value<'a>>, Result<(u64, ValueList<'a>), TakeRefused>), AllocError> {
        <Bulk<'a> as Ranges<'a, Stack<Value<'a>>>>::fold(stack, rt, alloc, by, reversed)
    }
}

// A new stack, as `new_queue` makes a queue.
fn new_stack<'a>(
    alloc: Global,
    limits: Limits,
) -> Result<(Stack<Value<'a>>, Root<Value<'a>>), MakeRefused>
    ensures { IfOk result (λ made. (made.0.table.shared.key ≡ limits) × IsRootOf made.0 made.1
        × (root_in made.1 ≡ fresh)) }
{
    Stack::new(alloc, limits)
}

/// Plays a stack's script, and adds its steps to the trace. `NoMemory` if memory ran out for the
/// stack, for the values of a range or a fold, or for the lines.
pub(crate) fn play_stack<R: Wait>(
    rt: &R,
    alloc: Global,
    script: Script<'_>,
    trace: &mut Trace,
) -> Result<String, MakeRefused>
    requires each { AllByRecursion IsLine script.lines.items }
    requires allowed { AllByRecursion (λ line. IsTrue (is_allowed Lifo line)) script.lines.items }
    requires finish_last { FinishesLast script.lines.items }
    ensures output { IfOk result (λ output. IsOutputIn Lifo (head_view script.entry.header)
        script.entry.lines.items (string_bytes output)) }
    ensures traced { IfOk result (λ output. Adds (lines_in trace.old) (lines_in trace.new)
        (IsTracedIn Lifo (head_view script.entry.header) script.entry.lines.items
        (string_bytes output))) }
{
    let Script { header, lines } = script;
    let (stack, root) = new_stack(alloc, header.limits)?;
    Ok(play::<StackRanges, _, _>(rt, alloc, stack, root, lines, trace)?)
}
