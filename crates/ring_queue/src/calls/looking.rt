//! Looking whether a ring is empty.
ghost use Rattle.std.specs.Prelude.{◌≡◌, ◌≤◌, ◌+◌};
ghost use Rattle.bounded_model.specs.Laws.{Answers, LookGives};
ghost use Rattle.bounded_model.specs.Stepping.{MatchStepped, no_step};
ghost use Rattle.bounded_model.specs.declared.commands.Command.TheVariants.{Look as LookCall};
ghost use Rattle.bounded_model.specs.declared.views.Answered.TheVariants.{Look as LookAnswered};
ghost use Rattle.running.specs.Kept.{HasNewCall, WasRun};
ghost use Rattle.running.specs.Ops.{underway_of};
ghost use Rattle.running.specs.Passes.{pass_in as pass_now};
ghost use Rattle.ring_table.specs.declared.operation.Operation.TheVariants.{Look as LookFirst};
ghost use Rattle.ring_queue.specs.code.Machine.{is_call};
ghost use Rattle.ring_queue.specs.Calls.{IsLooking, IsPassOf, machine_of, pass_in, shape_of, LookTried, IsPassWith, machine_with};
ghost use Rattle.ring_queue.specs.code.Looking.{look_account, slot_loaded};
ghost use Rattle.ring_queue.specs.code.Steps.{LookStands, LookRan};

use crate::code::looking::{LookAt, LookOp};
use crate::code::walk::Walk;
use crate::code::walking::{FAST_ROUNDS, WalkAt};
use crate::life::ring::{Answered, Pass, RingQueue};
use bounded_model::Stepped;
use ring_table::{Operation, SeatLine};
use running::{Next, Op, Tie, any, aside, fast_step, first_step, leave, whole};
use std::sync::Wait;

/// A look's steps on its fast path, as long as the hint is near enough.
#[inline(always)]
pub(crate) fn look_fast<T, D: Tie<T>>(
    on: &RingQueue<T, D>,
    by: Pass<T>,
    look: &Operation<T>,
) -> (running::Pass<T, SeatLine<T>>, Next<LookAt, Answered<bool>>)
    requires named { look.now ≡ LookFirst }
    requires pass { IsPassWith D.rule on.now by }
    ensures ran { LookRan D.rule on.now look.now by.pass result.0 result.1 }
    ensures took { (pass_now result.0).steps ≤ (pass_now by.pass).steps + 9 }
{
    let Pass { pass, kept: spare } = by;
    let begun = LookAt {
        at: WalkAt::LoadHint(spare),
    };
    let (pass, begun) = fast_step!(first_step(&on.table.shared, on, pass, begun, look));
    let WalkAt::LoadSlot(walk) = begun.at else {
        aside();
        return (pass, Next::On(begun));
    };
    look_fast_walk(on, pass, walk, look)
}

// The walk.
#[inline(always)]
fn look_fast_walk<T, D: Tie<T>>(
    on: &RingQueue<T, D>,
    by: running::Pass<T, SeatLine<T>>,
    begun: Walk,
    look: &Operation<T>,
) -> (running::Pass<T, SeatLine<T>>, Next<LookAt, Answered<bool>>)
    requires named { look.now ≡ LookFirst }
    requires stands { LookStands D.rule on.now by (slot_loaded begun) }
    ensures ran { LookRan D.rule on.now look.now by result.0 result.1 }
    ensures took { (pass_now result.0).steps ≤ (pass_now by).steps + 8 }
{
    let mut pass = by;
    let mut walk = begun;
    for _gone in 0..FAST_ROUNDS {
        let read = LookAt {
            at: WalkAt::LoadSlot(walk),
        };
        match any(&on.table.shared, on, pass, read, look) {
            (next, Next::On(to)) => match to.at {
                WalkAt::LoadSlot(further) => {
                    pass = next;
                    walk = further;
                }
                at => return (next, Next::On(LookAt { at })),
            },
            other => return other,
        }
    }
    let at = WalkAt::LoadSlot(walk);
    (pass, Next::On(LookAt { at }))
}

impl<T> RingQueue<T> {
    /// Begins a look, and makes no step yet. If the operation is dropped, its pass goes with it, and
    /// its cell stays reserved.
    #[inline]
    pub fn begin_look(&self, by: Pass<T>) -> LookOp<T>
        requires { IsPassOf self.now by }
        ensures makes { IsLooking self.now result }
        ensures begun { underway_of (machine_of self.now) result.pass ≡ no_step (pass_in by) }
    {
        let Pass { pass, kept } = by;
        let begun = LookAt {
            at: WalkAt::LoadHint(kept),
        };
        Op::begin(self, pass, Operation::Look, begun)
    }

    /// Looks on the fast path alone, as `put_at_once` puts. The call makes at most 9 steps. The
    /// answers are those of `look`.
    #[inline(always)]
    pub fn look_at_once(&self, by: Pass<T>) -> Stepped<LookOp<T>, Pass<T>, bool>
        requires { IsPassOf self.now by }
        ensures gives { LookTried self.now (pass_in by) result }
        ensures took { MatchStepped result (λ op. (pass_now op.pass).steps ≤ (pass_in by).steps + 9)
            (λ back answer. (pass_in back).steps ≤ (pass_in by).steps + 9) }
    {
        let look = Operation::Look;
        let first = look_fast(self, by, &look);
        leave(self, first, look)
    }
}

impl<T, D: Tie<T>> RingQueue<T, D> {
    /// Whether the ring held no value at some time since its pass's last step before the call, also
    /// if it is closed or shut. The call was a run of the machine's steps.
    #[inline]
    pub fn look<R: Wait>(&self, rt: &R, by: Pass<T>) -> (Pass<T>, bool)
        requires { IsPassWith D.rule self.now by }
        ensures of { IsPassWith D.rule self.now result.0 }
        ensures gives { LookGives (shape_of self.now) (pass_in by) (pass_in result.0) result.1 }
        ensures answered { Answers (pass_in by) (pass_in result.0) (LookAnswered result.1) }
        ensures ran { WasRun (machine_with D.rule self.now) (look_account self.now.table.shared.key)
            (is_call LookCall) (pass_in by) result.0 result.1 }
        ensures new { HasNewCall by result.0 }
    {
        let look = Operation::Look;
        let first = look_fast(self, by, &look);
        whole(rt, self, first, look)
    }
}
