//! Looking whether a queue is empty.
ghost use Rattle.std.specs.Prelude.{◌≡◌, ◌≤◌, ◌+◌};
ghost use Rattle.bounded_model.specs.Laws.{Answers, LookGives};
ghost use Rattle.bounded_model.specs.Stepping.{MatchStepped, no_step};
ghost use Rattle.bounded_model.specs.declared.commands.Command.TheVariants.{Look as LookCall};
ghost use Rattle.bounded_model.specs.declared.views.Answered.TheVariants.{Look as LookAnswered};
ghost use Rattle.running.specs.Kept.{HasNewCall, WasRun};
ghost use Rattle.running.specs.Ops.{underway_of};
ghost use Rattle.running.specs.Passes.{pass_in as pass_now};
ghost use Rattle.queue_table.specs.declared.operation.Operation.TheVariants.{Look as LookFirst};
ghost use Rattle.ms_queue.specs.code.Machine.{is_call};
ghost use Rattle.ms_queue.specs.Calls.{IsLooking, IsPassOf, IsPassWith, machine_of, machine_with, pass_in, shape_of, LookTried};
ghost use Rattle.ms_queue.specs.code.Looking.{look_account};
ghost use Rattle.ms_queue.specs.code.Steps.{LookRan};

use crate::code::looking::{LookAt, LookOp};
use crate::life::queue::{Answered, Pass, Queue};
use bounded_model::Stepped;
use queue_machine::Line;
use queue_table::Operation;
use running::{Next, Op, Tie, any, aside, fast_step, first_step, leave, whole};
use std::sync::Wait;

/// A look's three loads, as long as no other pass changes the head.
#[inline(always)]
pub(crate) fn look_fast<T, D: Tie<T>>(
    on: &Queue<T, D>,
    by: Pass<T>,
    look: &Operation<T>,
) -> (running::Pass<T, Line<T>>, Next<LookAt, Answered<bool>>)
    requires named { look.now ≡ LookFirst }
    requires pass { IsPassWith D.rule on.now by }
    ensures ran { LookRan D.rule on.now look.now by.pass result.0 result.1 }
    ensures took { (pass_now result.0).steps ≤ (pass_now by.pass).steps + 3 }
{
    let Pass { pass, .. } = by;
    let table = &on.table.shared;
    let (pass, head) = fast_step!(
        first_step(table, on, pass, LookAt::LoadHead, look),
        LookAt::LoadNext(head) => head
    );
    let (pass, head, link) = fast_step!(
        any(table, on, pass, LookAt::LoadNext(head), look),
        LookAt::CheckHead(head, link) => head, link
    );
    any(table, on, pass, LookAt::CheckHead(head, link), look)
}

impl<T> Queue<T> {
    /// Begins a look, and makes no step yet. If the operation is dropped, its pass goes with it.
    #[inline]
    pub fn begin_look(&self, by: Pass<T>) -> LookOp<T>
        requires { IsPassOf self.now by }
        ensures makes { IsLooking self.now result }
        ensures begun { underway_of (machine_of self.now) result.pass ≡ no_step (pass_in by) }
    {
        let Pass { pass, .. } = by;
        Op::begin(self, pass, Operation::Look, LookAt::LoadHead)
    }

    /// Looks on the fast path alone, as `put_at_once` puts. The call makes at most 3 steps. The
    /// answers are those of `look`.
    #[inline(always)]
    pub fn look_at_once(&self, by: Pass<T>) -> Stepped<LookOp<T>, Pass<T>, bool>
        requires { IsPassOf self.now by }
        ensures gives { LookTried self.now (pass_in by) result }
        ensures took { MatchStepped result (λ op. (pass_now op.pass).steps ≤ (pass_in by).steps + 3)
            (λ back answer. (pass_in back).steps ≤ (pass_in by).steps + 3) }
    {
        let look = Operation::Look;
        let first = look_fast(self, by, &look);
        leave(self, first, look)
    }
}

impl<T, D: Tie<T>> Queue<T, D> {
    /// Whether the queue held no value at some time since its pass's last step before the call, also
    /// if it is closed or shut. The call was a run of the machine's steps.
    #[inline]
    pub fn look<R: Wait>(&self, rt: &R, by: Pass<T>) -> (Pass<T>, bool)
        requires { IsPassWith D.rule self.now by }
        ensures of { IsPassWith D.rule self.now result.0 }
        ensures gives { LookGives (shape_of self.now) (pass_in by) (pass_in result.0) result.1 }
        ensures answered { Answers (pass_in by) (pass_in result.0) (LookAnswered result.1) }
        ensures ran { WasRun (machine_with D.rule self.now) (look_account self.now.table.shared.key)
            (is_call LookCall) (pass_in by) result.0 result.1 }
        ensures new { HasNewCall by result.0 }
    {
        let look = Operation::Look;
        let first = look_fast(self, by, &look);
        whole(rt, self, first, look)
    }
}
