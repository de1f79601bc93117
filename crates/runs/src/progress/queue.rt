//! The bound on the steps of a queue's operations.
ghost use Rattle.std.specs.Prelude.{ℕ, ◌+◌, ◌*◌, ◌<◌, ◌≤◌};
ghost use Rattle.bounded_model.specs.Laws.{Leaves, NoneOut};
ghost use Rattle.bounded_model.specs.declared.commands.Command.{Command};
ghost use Rattle.bounded_model.specs.declared.views.PassView.{PassView};
ghost use Rattle.ms_queue.specs.code.Left.{left_in};
ghost use Rattle.ms_queue.specs.Calls.{IsPassOf, IsRootOf, machine_of, pass_in, root_in, shape_of, IsMakingCall, making, PutTried, TakeTried};
ghost use Rattle.queue_machine.specs.declared.lines.Line.{Line};
ghost use Rattle.runs.specs.queue.Work.{fee, others_of};
ghost use Rattle.runs.specs.Work.{total_steps, total_fees};
ghost use Rattle.runs.specs.queue.Progress.{StepsAreBounded, EndsOrOvertaken, IsOvertaken, IsPaidRun};
ghost use Rattle.running.specs.Going.{Going};
ghost use Rattle.running.specs.Kept.{acts_of_root};

use crate::step_for;
use bounded_model::{PutRefused, Stepped, TakeRefused};
use ms_queue::{AnyOp, Pass, PutOp, Queue, Rest, Root, TakeOp};
use queue_machine::Line;
use queue_table::Operation;
use running::Op;

/// An operation that is still under way has made at most this many steps, and 8 more for each
/// compare-and-swap by which another pass has succeeded.
pub const ALONE: u64 = 20;

/// Puts a value step by step, with no wait, for at most `ALONE + 1` steps. If the put has not ended
/// then, it comes back under way, and another pass's compare-and-swap has succeeded since it was
/// begun.
pub fn put_or_overtaken<T: Drop>(
    queue: &Queue<T>,
    by: Pass<T>,
    value: T,
) -> Stepped<PutOp<T>, Pass<T>, Result<u64, PutRefused<T>>>
    requires { IsPassOf queue.now by }
    ensures tried { PutTried queue.now value (pass_in by) result }
    ensures overtaken { EndsOrOvertaken queue.now result }
{
    step_for(queue, queue.begin_put(by, value), ALONE + 1)
}

/// Takes a value in the same way.
pub fn take_or_overtaken<T: Drop>(
    queue: &Queue<T>,
    by: Pass<T>,
) -> Stepped<TakeOp<T>, Pass<T>, Result<(T, u64), TakeRefused>>
    requires { IsPassOf queue.now by }
    ensures tried { TakeTried queue.now (pass_in by) result }
    ensures overtaken { EndsOrOvertaken queue.now result }
{
    step_for(queue, queue.begin_take(by), ALONE + 1)
}

/// Ends a queue, as `finish` does, and returns what is left. That is the outcome of a run of the
/// passes whose calls are linearizable. If no pass is out, all passes together have made at most as
/// many steps as their calls cost. The answer of a call says its cost. If the root gave G passes, the
/// costs are:
/// - a put `14 * G + 4`, a take `12 * G + 5`, a close `8 * G`, a shut `6 * G - 4`,
/// - a look 3, a count 4, a gauge 8, a meeting or a note heard 1.
pub fn end<T>(queue: Queue<T>, parent: Root<T>) -> Rest<T>
    requires { IsRootOf queue parent }
    ensures leaves { Leaves (shape_of queue) (root_in parent) (left_in result) }
    ensures run { IsPaidRun queue (acts_of_root parent) (root_in parent)
        (left_in result) }
    ensures work { NoneOut (root_in parent) → let r = root_in parent in
        total_steps r.works ≤ total_fees (fee (others_of r)) r.works }
{
    queue.finish(parent)
}

/// An operation of any kind that is under way has made at most `ALONE` steps since it was begun, and 8
/// more for each compare-and-swap by which another pass has succeeded meanwhile.
pub fn operation_is_bounded<T, S>(queue: &Queue<T>, op: &Op<T, Line<T>, Operation<T>, S>)
    requires { (begun : PassView T) × (line : Line T)
        × Going (machine_of queue.now) op.now.operation op.now.pass.seat.me.0 begun line }
    ensures { StepsAreBounded queue.now op.now.operation op.now.pass }
{
    let _ = queue;
    let _ = op;
}

/// A call of any kind that is under way, as a call from C is that has answered `BUSY`. If its pass has
/// counted more than `ALONE + 8 * w` steps since the call was begun, then more than `w`
/// compare-and-swaps of other passes have succeeded since.
pub fn call_is_overtaken<T>(queue: &Queue<T>, op: &AnyOp<T>)
    requires { (call : Command T) × IsMakingCall queue.now call op.now }
    ensures { (w : ℕ) → (making op.now).begun.steps + (20 + 8 * w) < (making op.now).now.steps
        → IsOvertaken queue.now op.now.operation op.now.pass w }
{
    let _ = queue;
    let _ = op;
}
