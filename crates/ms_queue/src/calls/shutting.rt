//! Shutting a queue: its head gets the second mark.
ghost use Rattle.std.specs.Prelude.{◌≡◌};
ghost use Rattle.bounded_model.specs.Laws.{Answers, ShutGives};
ghost use Rattle.bounded_model.specs.Stepping.{no_step};
ghost use Rattle.bounded_model.specs.declared.commands.Command.TheVariants.{Shut as ShutCall};
ghost use Rattle.bounded_model.specs.declared.views.Answered.TheVariants.{Shut as ShutAnswered};
ghost use Rattle.running.specs.Kept.{HasNewCall, WasRun};
ghost use Rattle.running.specs.Ops.{underway_of};
ghost use Rattle.running.specs.Ties.{ShutDeals};
ghost use Rattle.ms_queue.specs.code.Machine.{is_call};
ghost use Rattle.ms_queue.specs.Calls.{IsShutting, IsPassOf, IsPassWith, machine_of, machine_with, pass_in, shape_of};
ghost use Rattle.ms_queue.specs.code.Shutting.{shut_account};

use crate::code::shutting::{ShutAt, ShutOp};
use crate::life::queue::{Pass, Queue};
use queue_table::Operation;
use running::{Next, Op, Tie, whole};
use std::sync::Wait;

impl<T> Queue<T> {
    /// Begins a shut, and makes no step yet. If the operation is dropped, its pass goes with it.
    #[inline]
    pub fn begin_shut(&self, by: Pass<T>) -> ShutOp<T>
        requires { IsPassOf self.now by }
        ensures makes { IsShutting self.now result }
        ensures begun { underway_of (machine_of self.now) result.pass ≡ no_step (pass_in by) }
        ensures pass { result.pass ≡ by.pass }
    {
        let Pass { pass, .. } = by;
        Op::begin(self, pass, Operation::Shut, ShutAt::LoadHead)
    }

    /// Shuts the queue: no take follows, but puts may follow until it is closed. True if this call
    /// shut it, false if it was shut already. The call was a run of the machine's steps.
    #[inline]
    pub fn shut<R: Wait>(&self, rt: &R, by: Pass<T>) -> (Pass<T>, bool)
        requires { IsPassOf self.now by }
        ensures of { IsPassOf self.now result.0 }
        ensures gives { ShutGives (shape_of self.now) (pass_in by) (pass_in result.0) result.1 }
        ensures answered { Answers (pass_in by) (pass_in result.0) (ShutAnswered result.1) }
        ensures ran { WasRun (machine_of self.now) (shut_account self.now.table.shared.key)
            (is_call ShutCall) (pass_in by) result.0 result.1 }
        ensures new { HasNewCall by result.0 }
    {
        self.shut_as(rt, by)
    }
}

impl<T, D: Tie<T>> Queue<T, D> {
    /// Shuts the queue as `shut` does, if it has a rule of its client, as `put_as` puts a value.
    #[inline]
    pub fn shut_as<R: Wait>(&self, rt: &R, by: Pass<T>) -> (Pass<T>, bool)
        requires pass { IsPassWith D.rule self.now by }
        requires deal { ShutDeals (shape_of self.now) D.rule (pass_in by) }
        ensures of { IsPassWith D.rule self.now result.0 }
        ensures tied { D.rule (pass_in result.0).seen }
        ensures gives { ShutGives (shape_of self.now) (pass_in by) (pass_in result.0) result.1 }
        ensures answered { Answers (pass_in by) (pass_in result.0) (ShutAnswered result.1) }
        ensures ran { WasRun (machine_with D.rule self.now)
            (shut_account self.now.table.shared.key)
            (is_call ShutCall) (pass_in by) result.0 result.1 }
        ensures new { HasNewCall by result.0 }
    {
        let Pass { pass, .. } = by;
        let first = ShutAt::LoadHead;
        let Op {
            pass,
            operation,
            at,
        } = Op::begin(self, pass, Operation::Shut, first);
        whole(rt, self, (pass, Next::On(at)), operation)
    }
}
