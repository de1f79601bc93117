//! A ring's calls by single steps. One operation makes every call.
ghost use Rattle.std.specs.Prelude.{◌≡◌};
ghost use Rattle.bounded_model.specs.Stepping.{no_step};
ghost use Rattle.ring_queue.specs.Calls.{IsPassOf, pass_in, IsMakingCall, making};

use crate::calls::putting::put_operation;
use crate::code::closing::{Mark, MarkAt};
use crate::code::every::{AnyOp, RingAt};
use crate::code::looking::LookAt;
use crate::code::putting::PutAt;
use crate::code::taking::TakeAt;
use crate::code::walking::WalkAt;
use crate::life::ring::{Pass, RingQueue};
use bounded_model::{Command, Reply, Stepped, Stepwise};
use ring_table::Operation;
use running::Op;
use std::sync::Wait;

impl<T> RingQueue<T> {
    /// Begins a put, a take, a close, a shut or a look. It makes no step yet.
    #[inline(always)]
    pub fn begin(&self, by: Pass<T>, command: Command<T>) -> AnyOp<T>
        requires { IsPassOf self.now by }
        ensures call { IsMakingCall self.now command result }
        ensures begun { making result ≡ no_step (pass_in by) }
    {
        let Pass { pass, kept } = by;
        match command {
            Command::Put(value) => {
                let put = put_operation(&value);
                Op::begin(self, pass, put, RingAt::Put(PutAt::FetchTail(kept, value)))
            }
            Command::Take => {
                Op::begin(
                    self,
                    pass,
                    Operation::Take,
                    RingAt::Take(TakeAt::Walking(WalkAt::LoadHint(kept))),
                )
            }
            Command::Close => {
                let begun = RingAt::Mark(MarkAt::Walking(Mark::Closed, WalkAt::LoadHint(kept)));
                Op::begin(self, pass, Operation::Close, begun)
            }
            Command::Shut => {
                Op::begin(
                    self,
                    pass,
                    Operation::Shut,
                    RingAt::Mark(MarkAt::Walking(Mark::Shut, WalkAt::LoadHint(kept))),
                )
            }
            Command::Look => {
                Op::begin(
                    self,
                    pass,
                    Operation::Look,
                    RingAt::Look(LookAt {
                        at: WalkAt::LoadHint(kept),
                    }),
                )
            }
        }
    }
}

impl<T: Drop + Send> Stepwise<T> for RingQueue<T> {
    ghost use Rattle.ring_queue.specs.Calls.{IsMakingCall, making};

    type Op = AnyOp<T>;

    ghost is_making = { IsMakingCall };

    ghost making = { making };

    #[inline(always)]
    fn begin_put(&self, by: Pass<T>, value: T) -> AnyOp<T> {
        self.begin(by, Command::Put(value))
    }

    #[inline(always)]
    fn begin_take(&self, by: Pass<T>) -> AnyOp<T> {
        self.begin(by, Command::Take)
    }

    #[inline(always)]
    fn begin_close(&self, by: Pass<T>) -> AnyOp<T> {
        self.begin(by, Command::Close)
    }

    #[inline(always)]
    fn begin_shut(&self, by: Pass<T>) -> AnyOp<T> {
        self.begin(by, Command::Shut)
    }

    #[inline(always)]
    fn begin_look(&self, by: Pass<T>) -> AnyOp<T> {
        self.begin(by, Command::Look)
    }

    #[inline]
    fn step(&self, op: AnyOp<T>) -> Stepped<AnyOp<T>, Pass<T>, Reply<T>> {
        op.step(self)
    }

    #[inline]
    fn run_for(&self, op: AnyOp<T>, steps: u64) -> Stepped<AnyOp<T>, Pass<T>, Reply<T>> {
        op.run_for(self, steps)
    }

    fn look<R: Wait>(&self, rt: &R, by: Pass<T>) -> (Pass<T>, bool) {
        self.look(rt, by)
    }
}
