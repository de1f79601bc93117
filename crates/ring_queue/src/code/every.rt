//! Every call of a ring as one operation.
ghost use Rattle.std.specs.Prelude.{◌≡◌};
ghost use Rattle.bounded_model.specs.declared.commands.Command.TheVariants.{Put as PutCall, Take as TakeCall, Look as LookCall};
ghost use Rattle.ring_queue.specs.Calls.{IsLooking, IsPutting, RingQueue as FreeRing, IsMakingCall, IsTaking};

use crate::code::closing::MarkAt;
use crate::code::looking::{LookAt, LookOp};
use crate::code::putting::{PutAt, PutOp};
use crate::code::taking::{TakeAt, TakeOp};
use crate::life::ring::{Answered, RingQueue};
use crate::life::spare::Spare;
use crate::rule::Ringed;
use atomic_table::Seat;
use bounded_model::Reply;
use machine::View;
use ring_table::{Operation, SeatLine};
use running::{Access, Code, Next, Op, Outcome, Replies, Tie};

/// A put, a take, a close, a shut or a look that was begun. A count and a gauge have types of their
/// own.
pub type AnyOp<T> = Op<T, SeatLine<T>, Operation<T>, RingAt<T>>;

/// The next step of a call, whichever it is.
#[derive(Drop)]
pub enum RingAt<T> {
    Put(PutAt<T>),
    Take(TakeAt<T>),
    Mark(MarkAt),
    Look(LookAt),
}

impl<T> RingAt<T> {
    /// A put that was begun, as an operation of any call.
    #[inline(always)]
    pub fn of_put(op: PutOp<T>) -> AnyOp<T>
        ensures makes { (c : FreeRing T) (x : T) → IsPutting c x op → IsMakingCall c (PutCall x) result }
        ensures same { result.pass ≡ op.pass }
    {
        let Op {
            pass,
            operation,
            at,
        } = op;
        Op {
            pass,
            operation,
            at: RingAt::Put(at),
        }
    }

    /// A take that was begun, as an operation of any call.
    #[inline(always)]
    pub fn of_take(op: TakeOp<T>) -> AnyOp<T>
        ensures makes { (c : FreeRing T) → IsTaking c op → IsMakingCall c TakeCall result }
        ensures same { result.pass ≡ op.pass }
    {
        let Op {
            pass,
            operation,
            at,
        } = op;
        Op {
            pass,
            operation,
            at: RingAt::Take(at),
        }
    }

    /// A look that was begun, as an operation of any call.
    #[inline(always)]
    pub fn of_look(op: LookOp<T>) -> AnyOp<T>
        ensures makes { (c : FreeRing T) → IsLooking c op → IsMakingCall c LookCall result }
        ensures same { result.pass ≡ op.pass }
    {
        let Op {
            pass,
            operation,
            at,
        } = op;
        Op {
            pass,
            operation,
            at: RingAt::Look(at),
        }
    }
}

impl<T, D: Tie<T>> Code<
    RingQueue<T, D>,
    T,
    SeatLine<T>,
    Operation<T>,
    Ringed<D>,
    Answered<Reply<T>>,
    0,
> for RingAt<T> {
    ghost use Rattle.ring_queue.specs.code.Every.{every_account};

    ghost account = { every_account };

    #[inline]
    fn is_refusal(answer: &Answered<Reply<T>>) -> bool {
        match &answer.reply {
            Reply::Put(said) => said.is_err(),
            Reply::Take(said) => said.is_err(),
            _ => false,
        }
    }

    #[inline(always)]
    fn access(&self, on: &RingQueue<T, D>) -> Access {
        match self {
            RingAt::Put(at) => at.access(on),
            RingAt::Take(at) => at.access(on),
            RingAt::Mark(at) => at.access(on),
            RingAt::Look(at) => at.access(on),
        }
    }

    #[inline(always)]
    fn next(
        self,
        on: &RingQueue<T, D>,
        seat: &mut Seat<Option<T>, View<T, SeatLine<T>>>,
        outcome: Outcome,
    ) -> Next<RingAt<T>, Answered<Reply<T>>> {
        match self {
            RingAt::Put(at) => match at.next(on, seat, outcome) {
                Next::On(at) => Next::On(RingAt::Put(at)),
                Next::Lost(at) => Next::Lost(RingAt::Put(at)),
                Next::Done(answer) => {
                    let Answered { kept, reply } = answer;
                    Next::Done(Answered {
                        kept,
                        reply: Reply::Put(reply),
                    })
                }
            },
            RingAt::Take(at) => match at.next(on, seat, outcome) {
                Next::On(at) => Next::On(RingAt::Take(at)),
                Next::Lost(at) => Next::Lost(RingAt::Take(at)),
                Next::Done(answer) => {
                    let Answered { kept, reply } = answer;
                    Next::Done(Answered {
                        kept,
                        reply: Reply::Take(reply),
                    })
                }
            },
            RingAt::Mark(at) => {
                let mark = at.mark();
                match at.next(on, seat, outcome) {
                    Next::On(at) => Next::On(RingAt::Mark(at)),
                    Next::Lost(at) => Next::Lost(RingAt::Mark(at)),
                    Next::Done(answer) => {
                        let Answered { kept, reply } = answer;
                        Next::Done(Answered {
                            kept,
                            reply: mark.said::<T>(reply),
                        })
                    }
                }
            }
            RingAt::Look(at) => match at.next(on, seat, outcome) {
                Next::On(at) => Next::On(RingAt::Look(at)),
                Next::Lost(at) => Next::Lost(RingAt::Look(at)),
                Next::Done(answer) => {
                    let Answered { kept, reply } = answer;
                    Next::Done(Answered {
                        kept,
                        reply: Reply::Look(reply),
                    })
                }
            },
        }
    }
}

impl<T, D: Tie<T>> Replies<
    RingQueue<T, D>,
    T,
    SeatLine<T>,
    Operation<T>,
    Ringed<D>,
    Spare,
    Reply<T>,
    0,
> for RingAt<T> {
    ghost use Rattle.std.specs.Prelude.{refl};
    ghost use Rattle.ring_queue.specs.code.KeepsEvery.{every_given, every_promises};

    ghost gives = { every_promises };

    ghost idle = { λ key o answer. refl };

    ghost given = { every_given D.rule };

    ghost kept = { λ key o answer. refl };
}
