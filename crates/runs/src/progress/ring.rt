//! The bound on the steps of a ring's operations.
ghost use Rattle.std.specs.Prelude.{◌≡◌, ◌+◌, ◌-◌, ◌*◌, ◌<◌, ◌≤◌, ℕ};
ghost use Rattle.bounded_model.specs.Laws.{Leaves, NoneOut};
ghost use Rattle.bounded_model.specs.declared.commands.Command.{Command};
ghost use Rattle.bounded_model.specs.declared.views.PassView.{PassView};
ghost use Rattle.ring_machine.specs.Machine.{resting};
ghost use Rattle.ring_queue.specs.code.Leaving.{left_in};
ghost use Rattle.ring_queue.specs.code.Machine.{Answered as HasAnswered};
ghost use Rattle.ring_queue.specs.Calls.{IsPassOf, machine_of, pass_in, passes_of, shape_of, IsRootOf, root_in, IsMakingCall, making, PutTried, TakeTried};
ghost use Rattle.ring_table.specs.declared.line.SeatLine.{SeatLine};
ghost use Rattle.runs.specs.ring.Work.{fee};
ghost use Rattle.runs.specs.Work.{total_steps, total_fees};
ghost use Rattle.runs.specs.ring.Progress.{EndsOrOvertaken, IsOvertaken, IsPaidRun, StepsAreBounded};
ghost use Rattle.running.specs.Going.{Going};
ghost use Rattle.running.specs.Kept.{acts_of_root};

use crate::step_for;
use bounded_model::{PutRefused, Stepped, TakeRefused};
use ring_queue::{AnyOp, Pass, PutOp, Rest, RingQueue, Root, TakeOp};
use ring_table::{Operation, SeatLine};
use running::Op;

/// An operation that is still under way has made at most this many steps, and 18 more for each
/// compare-and-swap by which another pass has succeeded.
pub const ALONE: u64 = 31;

/// Puts a value step by step, with no wait, for at most `ALONE + 1` steps. If the put has not ended
/// then, it comes back under way, and another pass's compare-and-swap has succeeded since it was
/// begun.
pub fn put_or_overtaken<T: Drop>(
    ring: &RingQueue<T>,
    by: Pass<T>,
    value: T,
) -> Stepped<PutOp<T>, Pass<T>, Result<u64, PutRefused<T>>>
    requires { IsPassOf ring.now by }
    ensures tried { PutTried ring.now value (pass_in by) result }
    ensures overtaken { EndsOrOvertaken ring.now result }
{
    step_for(ring, ring.begin_put(by, value), ALONE + 1)
}

/// Takes a value in the same way.
pub fn take_or_overtaken<T: Drop>(
    ring: &RingQueue<T>,
    by: Pass<T>,
) -> Stepped<TakeOp<T>, Pass<T>, Result<(T, u64), TakeRefused>>
    requires { IsPassOf ring.now by }
    ensures tried { TakeTried ring.now (pass_in by) result }
    ensures overtaken { EndsOrOvertaken ring.now result }
{
    step_for(ring, ring.begin_take(by), ALONE + 1)
}

/// Ends a ring, as `finish` does, and returns what is left. That is the outcome of a run of the
/// passes whose calls are linearizable. If no pass is out, all passes together have made at most as
/// many steps as their calls cost. The answer of a call says its cost. In a ring for P passes at
/// once, for any number of passes in all, the costs are:
/// - a put `24 * P - 14`, a take `23 * P - 12`, a close or a shut `14 * P - 5`,
/// - a look or a gauge 8, a count 17, a meeting or a note heard 1.
pub fn end<T>(ring: RingQueue<T>, parent: Root<T>) -> Rest<T>
    requires { IsRootOf ring parent }
    ensures leaves { Leaves (shape_of ring) (root_in parent) (left_in result) }
    ensures run { IsPaidRun ring (acts_of_root parent) (root_in parent)
        (left_in result) }
    ensures work { NoneOut (root_in parent) → total_steps (root_in parent).works
        ≤ total_fees (fee (passes_of ring - 1)) (root_in parent).works }
{
    ring.finish(parent)
}

/// An operation of any kind that is under way has made at most `ALONE` steps since it was begun, and 18
/// more for each compare-and-swap by which another pass has succeeded meanwhile.
pub fn operation_is_bounded<T, S>(ring: &RingQueue<T>, op: &Op<T, SeatLine<T>, Operation<T>, S>)
    requires { (begun : PassView T) × (line : SeatLine T)
        × Going (machine_of ring.now) op.now.operation op.now.pass.seat.me.0 begun line }
    ensures { StepsAreBounded ring.now op.now.operation op.now.pass }
{
    let _ = ring;
    let _ = op;
}

/// A call of any kind that is under way, as a call from C is that has answered `BUSY`. If its pass has
/// counted more than `ALONE + 18 * w` steps since the call was begun, then more than `w`
/// compare-and-swaps of other passes have succeeded since.
pub fn call_is_overtaken<T>(ring: &RingQueue<T>, op: &AnyOp<T>)
    requires { (call : Command T) × IsMakingCall ring.now call op.now }
    ensures { (w : ℕ) → (making op.now).begun.steps + (31 + 18 * w) < (making op.now).now.steps
        → IsOvertaken ring.now op.now.operation op.now.pass w }
{
    let _ = ring;
    let _ = op;
}
