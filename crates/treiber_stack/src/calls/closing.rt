//! Closing and shutting a stack: its top gets a mark.
ghost use Rattle.std.specs.Prelude.{◌≡◌};
ghost use Rattle.bounded_model.specs.Laws.{Answers, CloseGives, ShutGives};
ghost use Rattle.bounded_model.specs.Stepping.{no_step};
ghost use Rattle.bounded_model.specs.declared.commands.Command.TheVariants.{Close as CloseCall, Shut as ShutCall};
ghost use Rattle.bounded_model.specs.declared.views.Answered.TheVariants.{Close as CloseAnswered, Shut as ShutAnswered};
ghost use Rattle.running.specs.Kept.{HasNewCall, WasRun};
ghost use Rattle.running.specs.Ops.{underway_of};
ghost use Rattle.running.specs.Ties.{CloseDeals, ShutDeals};
ghost use Rattle.treiber_stack.specs.code.Machine.{is_call};
ghost use Rattle.treiber_stack.specs.Calls.{IsClosing, IsShutting, IsPassOf, IsPassWith, machine_of, machine_with, pass_in, shape_of};
ghost use Rattle.treiber_stack.specs.code.Closing.{mark_account};

use crate::code::closing::{CloseOp, Mark, MarkAt, ShutOp};
use crate::life::stack::{Pass, Stack};
use running::{Next, Op, Tie, whole};
use stack_table::Operation;
use std::sync::Wait;

impl<T> Stack<T> {
    /// Begins a close, and makes no step yet. If the operation is dropped, its pass goes with it.
    #[inline]
    pub fn begin_close(&self, by: Pass<T>) -> CloseOp<T>
        requires { IsPassOf self.now by }
        ensures makes { IsClosing self.now result }
        ensures begun { underway_of (machine_of self.now) result.pass ≡ no_step (pass_in by) }
        ensures pass { result.pass ≡ by.pass }
    {
        let Pass { pass, .. } = by;
        Op::begin(self, pass, Operation::Close, MarkAt::Load(Mark::Closed))
    }

    /// Closes the stack: no put follows, but values that are left can be taken. True if this call
    /// closed it, false if it was closed already. The call was a run of the machine's steps.
    #[inline]
    pub fn close<R: Wait>(&self, rt: &R, by: Pass<T>) -> (Pass<T>, bool)
        requires { IsPassOf self.now by }
        ensures of { IsPassOf self.now result.0 }
        ensures gives { CloseGives (shape_of self.now) (pass_in by) (pass_in result.0) result.1 }
        ensures answered { Answers (pass_in by) (pass_in result.0) (CloseAnswered result.1) }
        ensures ran { WasRun (machine_of self.now) (mark_account self.now.table.shared.key)
            (is_call CloseCall) (pass_in by) result.0 result.1 }
        ensures new { HasNewCall by result.0 }
    {
        self.close_as(rt, by)
    }

    /// Begins a shut, and makes no step yet. If the operation is dropped, its pass goes with it.
    #[inline]
    pub fn begin_shut(&self, by: Pass<T>) -> ShutOp<T>
        requires { IsPassOf self.now by }
        ensures makes { IsShutting self.now result }
        ensures begun { underway_of (machine_of self.now) result.pass ≡ no_step (pass_in by) }
        ensures pass { result.pass ≡ by.pass }
    {
        let Pass { pass, .. } = by;
        Op::begin(self, pass, Operation::Shut, MarkAt::Load(Mark::Shut))
    }

    /// Shuts the stack: no take follows, but puts may follow until it is closed. True if this call
    /// shut it, false if it was shut already. The call was a run of the machine's steps.
    #[inline]
    pub fn shut<R: Wait>(&self, rt: &R, by: Pass<T>) -> (Pass<T>, bool)
        requires { IsPassOf self.now by }
        ensures of { IsPassOf self.now result.0 }
        ensures gives { ShutGives (shape_of self.now) (pass_in by) (pass_in result.0) result.1 }
        ensures answered { Answers (pass_in by) (pass_in result.0) (ShutAnswered result.1) }
        ensures ran { WasRun (machine_of self.now) (mark_account self.now.table.shared.key)
            (is_call ShutCall) (pass_in by) result.0 result.1 }
        ensures new { HasNewCall by result.0 }
    {
        self.shut_as(rt, by)
    }
}

impl<T, D: Tie<T>> Stack<T, D> {
    /// Closes the stack as `close` does, if it has a rule of its client, as `put_as` puts a value.
    #[inline]
    pub fn close_as<R: Wait>(&self, rt: &R, by: Pass<T>) -> (Pass<T>, bool)
        requires pass { IsPassWith D.rule self.now by }
        requires deal { CloseDeals (shape_of self.now) D.rule (pass_in by) }
        ensures of { IsPassWith D.rule self.now result.0 }
        ensures tied { D.rule (pass_in result.0).seen }
        ensures gives { CloseGives (shape_of self.now) (pass_in by) (pass_in result.0) result.1 }
        ensures answered { Answers (pass_in by) (pass_in result.0) (CloseAnswered result.1) }
        ensures ran { WasRun (machine_with D.rule self.now)
            (mark_account self.now.table.shared.key)
            (is_call CloseCall) (pass_in by) result.0 result.1 }
        ensures new { HasNewCall by result.0 }
    {
        let Pass { pass, .. } = by;
        let Op {
            pass,
            operation,
            at,
        } = Op::begin(self, pass, Operation::Close, MarkAt::Load(Mark::Closed));
        whole(rt, self, (pass, Next::On(at)), operation)
    }

    /// Shuts the stack as `shut` does, if it has a rule of its client, as `put_as` puts a value.
    #[inline]
    pub fn shut_as<R: Wait>(&self, rt: &R, by: Pass<T>) -> (Pass<T>, bool)
        requires pass { IsPassWith D.rule self.now by }
        requires deal { ShutDeals (shape_of self.now) D.rule (pass_in by) }
        ensures of { IsPassWith D.rule self.now result.0 }
        ensures tied { D.rule (pass_in result.0).seen }
        ensures gives { ShutGives (shape_of self.now) (pass_in by) (pass_in result.0) result.1 }
        ensures answered { Answers (pass_in by) (pass_in result.0) (ShutAnswered result.1) }
        ensures ran { WasRun (machine_with D.rule self.now)
            (mark_account self.now.table.shared.key)
            (is_call ShutCall) (pass_in by) result.0 result.1 }
        ensures new { HasNewCall by result.0 }
    {
        let Pass { pass, .. } = by;
        let Op {
            pass,
            operation,
            at,
        } = Op::begin(self, pass, Operation::Shut, MarkAt::Load(Mark::Shut));
        whole(rt, self, (pass, Next::On(at)), operation)
    }
}
