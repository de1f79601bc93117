//! Closing a queue: the link of its last node gets the mark.
ghost use Rattle.std.specs.Prelude.{◌≡◌};
ghost use Rattle.bounded_model.specs.Laws.{Answers, CloseGives};
ghost use Rattle.bounded_model.specs.Stepping.{no_step};
ghost use Rattle.bounded_model.specs.declared.commands.Command.TheVariants.{Close as CloseCall};
ghost use Rattle.bounded_model.specs.declared.views.Answered.TheVariants.{Close as CloseAnswered};
ghost use Rattle.running.specs.Kept.{HasNewCall, WasRun};
ghost use Rattle.running.specs.Ops.{underway_of};
ghost use Rattle.running.specs.Ties.{CloseDeals};
ghost use Rattle.ms_queue.specs.code.Machine.{is_call};
ghost use Rattle.ms_queue.specs.Calls.{IsClosing, IsPassOf, IsPassWith, machine_of, machine_with, pass_in, shape_of};
ghost use Rattle.ms_queue.specs.code.Closing.{close_account};

use crate::code::closing::{CloseAt, CloseOp};
use crate::code::seeking::Seek;
use crate::life::queue::{Pass, Queue};
use queue_table::Operation;
use running::{Next, Op, Tie, whole};
use std::sync::Wait;

impl<T> Queue<T> {
    /// Begins a close, and makes no step yet. If the operation is dropped, its pass goes with it.
    #[inline]
    pub fn begin_close(&self, by: Pass<T>) -> CloseOp<T>
        requires { IsPassOf self.now by }
        ensures makes { IsClosing self.now result }
        ensures begun { underway_of (machine_of self.now) result.pass ≡ no_step (pass_in by) }
        ensures pass { result.pass ≡ by.pass }
    {
        let Pass { pass, .. } = by;
        Op::begin(
            self,
            pass,
            Operation::Close,
            CloseAt::Seeking(Seek::LoadTail),
        )
    }

    /// Closes the queue: no put follows, but values that are left can be taken. True if this call
    /// closed it, false if it was closed already. The call was a run of the machine's steps.
    #[inline]
    pub fn close<R: Wait>(&self, rt: &R, by: Pass<T>) -> (Pass<T>, bool)
        requires { IsPassOf self.now by }
        ensures of { IsPassOf self.now result.0 }
        ensures gives { CloseGives (shape_of self.now) (pass_in by) (pass_in result.0) result.1 }
        ensures answered { Answers (pass_in by) (pass_in result.0) (CloseAnswered result.1) }
        ensures ran { WasRun (machine_of self.now) (close_account self.now.table.shared.key)
            (is_call CloseCall) (pass_in by) result.0 result.1 }
        ensures new { HasNewCall by result.0 }
    {
        self.close_as(rt, by)
    }
}

impl<T, D: Tie<T>> Queue<T, D> {
    /// Closes the queue as `close` does, if it has a rule of its client, as `put_as` puts a value.
    #[inline]
    pub fn close_as<R: Wait>(&self, rt: &R, by: Pass<T>) -> (Pass<T>, bool)
        requires pass { IsPassWith D.rule self.now by }
        requires deal { CloseDeals (shape_of self.now) D.rule (pass_in by) }
        ensures of { IsPassWith D.rule self.now result.0 }
        ensures tied { D.rule (pass_in result.0).seen }
        ensures gives { CloseGives (shape_of self.now) (pass_in by) (pass_in result.0) result.1 }
        ensures answered { Answers (pass_in by) (pass_in result.0) (CloseAnswered result.1) }
        ensures ran { WasRun (machine_with D.rule self.now)
            (close_account self.now.table.shared.key)
            (is_call CloseCall) (pass_in by) result.0 result.1 }
        ensures new { HasNewCall by result.0 }
    {
        let Pass { pass, .. } = by;
        let first = CloseAt::Seeking(Seek::LoadTail);
        let Op {
            pass,
            operation,
            at,
        } = Op::begin(self, pass, Operation::Close, first);
        whole(rt, self, (pass, Next::On(at)), operation)
    }
}
