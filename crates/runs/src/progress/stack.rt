//! The bound on the steps of a stack's operations.
ghost use Rattle.std.specs.Prelude.{ℕ, ◌+◌, ◌*◌, ◌<◌};
ghost use Rattle.bounded_model.specs.Laws.{Leaves};
ghost use Rattle.bounded_model.specs.declared.commands.Command.{Command};
ghost use Rattle.bounded_model.specs.declared.views.PassView.{PassView};
ghost use Rattle.stack_machine.specs.declared.lines.Line.{Line};
ghost use Rattle.treiber_stack.specs.code.Left.{left_in};
ghost use Rattle.treiber_stack.specs.Calls.{IsPassOf, IsRootOf, machine_of, pass_in, root_in, shape_of, IsMakingCall, making, PutTried, TakeTried};
ghost use Rattle.runs.specs.stack.Progress.{StepsAreBounded, EndsOrOvertaken, IsOvertaken, IsPaidRun};
ghost use Rattle.running.specs.Going.{Going};
ghost use Rattle.running.specs.Kept.{acts_of_root};

use crate::step_for;
use bounded_model::{PutRefused, Stepped, TakeRefused};
use running::Op;
use stack_machine::Line;
use stack_table::Operation;
use treiber_stack::{AnyOp, Pass, PutOp, Rest, Root, Stack, TakeOp};

/// A put or a take of one value, a close, a shut or a look that is still under way has made at most
/// this many steps. Each compare-and-swap by which another pass has succeeded allows 4 more.
pub const ALONE: u64 = 9;

/// Puts a value step by step, with no wait, for at most `ALONE + 1` steps. If the put has not ended
/// then, it comes back under way, and another pass's compare-and-swap has succeeded since it was
/// begun.
pub fn put_or_overtaken<T: Drop>(
    stack: &Stack<T>,
    by: Pass<T>,
    value: T,
) -> Stepped<PutOp<T>, Pass<T>, Result<u64, PutRefused<T>>>
    requires { IsPassOf stack.now by }
    ensures tried { PutTried stack.now value (pass_in by) result }
    ensures overtaken { EndsOrOvertaken stack.now result }
{
    step_for(stack, stack.begin_put(by, value), ALONE + 1)
}

/// Takes a value in the same way.
pub fn take_or_overtaken<T: Drop>(
    stack: &Stack<T>,
    by: Pass<T>,
) -> Stepped<TakeOp<T>, Pass<T>, Result<(T, u64), TakeRefused>>
    requires { IsPassOf stack.now by }
    ensures tried { TakeTried stack.now (pass_in by) result }
    ensures overtaken { EndsOrOvertaken stack.now result }
{
    step_for(stack, stack.begin_take(by), ALONE + 1)
}

/// Ends a stack, as `finish` does, and returns what is left. That is the outcome of a run of the
/// passes whose calls are linearizable. If no pass is out, all passes together have made at most as
/// many steps as their calls cost (`stack_total_work`). The loads by which refused ranges are read
/// back come on top.
pub fn end<T>(stack: Stack<T>, parent: Root<T>) -> Rest<T>
    requires { IsRootOf stack parent }
    ensures leaves { Leaves (shape_of stack) (root_in parent) (left_in result) }
    ensures run { IsPaidRun stack (acts_of_root parent) (root_in parent)
        (left_in result) }
{
    stack.finish(parent)
}

/// An operation of any kind that is under way has made at most this many steps since it was begun, and 4
/// more for each compare-and-swap by which another pass has succeeded meanwhile: a put or a take of one
/// value, a close, a shut or a look `ALONE`, and a range or a fold 4 for each node of the stack and 6.
pub fn operation_is_bounded<T, S>(stack: &Stack<T>, op: &Op<T, Line<T>, Operation<T>, S>)
    requires { (begun : PassView T) × (line : Line T)
        × Going (machine_of stack.now) op.now.operation op.now.pass.seat.me.0 begun line }
    ensures { StepsAreBounded stack.now op.now.operation op.now.pass }
{
    let _ = stack;
    let _ = op;
}

/// A call of any kind that is under way, as a call from C is that has answered `BUSY`. If its pass has
/// counted more than `ALONE + 4 * w` steps since the call was begun, then more than `w`
/// compare-and-swaps of other passes have succeeded since.
pub fn call_is_overtaken<T>(stack: &Stack<T>, op: &AnyOp<T>)
    requires { (call : Command T) × IsMakingCall stack.now call op.now }
    ensures { (w : ℕ) → (making op.now).begun.steps + (9 + 4 * w) < (making op.now).now.steps
        → IsOvertaken stack.now op.now.operation op.now.pass w }
{
    let _ = stack;
    let _ = op;
}
