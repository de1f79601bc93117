//! A queue's calls by single steps. One operation makes every call.
ghost use Rattle.std.specs.Prelude.{◌≡◌};
ghost use Rattle.bounded_model.specs.Stepping.{no_step};
ghost use Rattle.ms_queue.specs.Calls.{IsPassOf, pass_in, IsMakingCall, making};

use crate::calls::putting::put_operation;
use crate::code::closing::CloseAt;
use crate::code::every::{AnyOp, QueueAt};
use crate::code::looking::LookAt;
use crate::code::putting::PutAt;
use crate::code::seeking::Seek;
use crate::code::shutting::ShutAt;
use crate::code::taking::TakeAt;
use crate::life::queue::{Pass, Queue};
use bounded_model::{Command, Reply, Stepped, Stepwise};
use queue_table::Operation;
use running::Op;
use std::sync::Wait;

impl<T> Queue<T> {
    /// Begins a put, a take, a close, a shut or a look. It makes no step yet.
    #[inline(always)]
    pub fn begin(&self, by: Pass<T>, command: Command<T>) -> AnyOp<T>
        requires { IsPassOf self.now by }
        ensures call { IsMakingCall self.now command result }
        ensures begun { making result ≡ no_step (pass_in by) }
    {
        let Pass { pass, .. } = by;
        match command {
            Command::Put(value) => {
                let put = put_operation(&value);
                Op::begin(self, pass, put, QueueAt::Put(PutAt::LoadCells(value)))
            }
            Command::Take => {
                Op::begin(self, pass, Operation::Take, QueueAt::Take(TakeAt::LoadHead))
            }
            Command::Close => {
                let begun = CloseAt::Seeking(Seek::LoadTail);
                Op::begin(self, pass, Operation::Close, QueueAt::Close(begun))
            }
            Command::Shut => {
                Op::begin(self, pass, Operation::Shut, QueueAt::Shut(ShutAt::LoadHead))
            }
            Command::Look => {
                Op::begin(self, pass, Operation::Look, QueueAt::Look(LookAt::LoadHead))
            }
        }
    }
}

impl<T: Drop + Send> Stepwise<T> for Queue<T> {
    ghost use Rattle.ms_queue.specs.Calls.{IsMakingCall, making};

    type Op = AnyOp<T>;

    ghost is_making = { IsMakingCall };

    ghost making = { making };

    #[inline(always)]
    fn begin_put(&self, by: Pass<T>, value: T) -> AnyOp<T> {
        self.begin(by, Command::Put(value))
    }

    #[inline(always)]
    fn begin_take(&self, by: Pass<T>) -> AnyOp<T> {
        self.begin(by, Command::Take)
    }

    #[inline(always)]
    fn begin_close(&self, by: Pass<T>) -> AnyOp<T> {
        self.begin(by, Command::Close)
    }

    #[inline(always)]
    fn begin_shut(&self, by: Pass<T>) -> AnyOp<T> {
        self.begin(by, Command::Shut)
    }

    #[inline(always)]
    fn begin_look(&self, by: Pass<T>) -> AnyOp<T> {
        self.begin(by, Command::Look)
    }

    #[inline]
    fn step(&self, op: AnyOp<T>) -> Stepped<AnyOp<T>, Pass<T>, Reply<T>> {
        op.step(self)
    }

    #[inline]
    fn run_for(&self, op: AnyOp<T>, steps: u64) -> Stepped<AnyOp<T>, Pass<T>, Reply<T>> {
        op.run_for(self, steps)
    }

    fn look<R: Wait>(&self, rt: &R, by: Pass<T>) -> (Pass<T>, bool) {
        self.look(rt, by)
    }
}
