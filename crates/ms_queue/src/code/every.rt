//! Every call of a queue as one operation.
ghost use Rattle.std.specs.Prelude.{◌≡◌};
ghost use Rattle.bounded_model.specs.declared.commands.Command.TheVariants.{Put as PutCall, Take as TakeCall, Look as LookCall};
ghost use Rattle.ms_queue.specs.Calls.{IsLooking, IsPutting, Queue as FreeQueue, IsMakingCall, IsTaking};

use crate::code::closing::CloseAt;
use crate::code::looking::{LookAt, LookOp};
use crate::code::putting::{PutAt, PutOp};
use crate::code::shutting::ShutAt;
use crate::code::taking::{TakeAt, TakeOp};
use crate::life::queue::{Answered, Queue};
use crate::rule::Queued;
use atomic_table::Seat;
use bounded_model::Reply;
use machine::View;
use queue_machine::Line;
use queue_table::Operation;
use running::{Access, Code, Next, Op, Outcome, Replies, Tie};

/// A put, a take, a close, a shut or a look that was begun. A count and a gauge have types of their
/// own.
pub type AnyOp<T> = Op<T, Line<T>, Operation<T>, QueueAt<T>>;

/// The next step of a call, whichever it is.
#[derive(Drop)]
pub enum QueueAt<T> {
    Put(PutAt<T>),
    Take(TakeAt<T>),
    Close(CloseAt),
    Shut(ShutAt),
    Look(LookAt),
}

impl<T> QueueAt<T> {
    /// A put that was begun, as an operation of any call.
    #[inline(always)]
    pub fn of_put(op: PutOp<T>) -> AnyOp<T>
        ensures makes { (c : FreeQueue T) (x : T) → IsPutting c x op → IsMakingCall c (PutCall x) result }
        ensures same { result.pass ≡ op.pass }
    {
        let Op {
            pass,
            operation,
            at,
        } = op;
        Op {
            pass,
            operation,
            at: QueueAt::Put(at),
        }
    }

    /// A take that was begun, as an operation of any call.
    #[inline(always)]
    pub fn of_take(op: TakeOp<T>) -> AnyOp<T>
        ensures makes { (c : FreeQueue T) → IsTaking c op → IsMakingCall c TakeCall result }
        ensures same { result.pass ≡ op.pass }
    {
        let Op {
            pass,
            operation,
            at,
        } = op;
        Op {
            pass,
            operation,
            at: QueueAt::Take(at),
        }
    }

    /// A look that was begun, as an operation of any call.
    #[inline(always)]
    pub fn of_look(op: LookOp<T>) -> AnyOp<T>
        ensures makes { (c : FreeQueue T) → IsLooking c op → IsMakingCall c LookCall result }
        ensures same { result.pass ≡ op.pass }
    {
        let Op {
            pass,
            operation,
            at,
        } = op;
        Op {
            pass,
            operation,
            at: QueueAt::Look(at),
        }
    }
}

impl<T, D: Tie<T>> Code<Queue<T, D>, T, Line<T>, Operation<T>, Queued<D>, Answered<Reply<T>>, 2>
    for QueueAt<T> {
    ghost use Rattle.ms_queue.specs.code.Every.{every_account};

    ghost account = { every_account };

    #[inline]
    fn is_refusal(answer: &Answered<Reply<T>>) -> bool {
        match &answer.reply {
            Reply::Put(said) => said.is_err(),
            Reply::Take(said) => said.is_err(),
            _ => false,
        }
    }

    #[inline(always)]
    fn access(&self, on: &Queue<T, D>) -> Access {
        match self {
            QueueAt::Put(at) => at.access(on),
            QueueAt::Take(at) => at.access(on),
            QueueAt::Close(at) => at.access(on),
            QueueAt::Shut(at) => at.access(on),
            QueueAt::Look(at) => at.access(on),
        }
    }

    #[inline(always)]
    fn next(
        self,
        on: &Queue<T, D>,
        seat: &mut Seat<Option<T>, View<T, Line<T>>>,
        outcome: Outcome,
    ) -> Next<QueueAt<T>, Answered<Reply<T>>> {
        match self {
            QueueAt::Put(at) => match at.next(on, seat, outcome) {
                Next::On(at) => Next::On(QueueAt::Put(at)),
                Next::Lost(at) => Next::Lost(QueueAt::Put(at)),
                Next::Done(answer) => {
                    let Answered { kept, reply } = answer;
                    Next::Done(Answered {
                        kept,
                        reply: Reply::Put(reply),
                    })
                }
            },
            QueueAt::Take(at) => match at.next(on, seat, outcome) {
                Next::On(at) => Next::On(QueueAt::Take(at)),
                Next::Lost(at) => Next::Lost(QueueAt::Take(at)),
                Next::Done(answer) => {
                    let Answered { kept, reply } = answer;
                    Next::Done(Answered {
                        kept,
                        reply: Reply::Take(reply),
                    })
                }
            },
            QueueAt::Close(at) => match at.next(on, seat, outcome) {
                Next::On(at) => Next::On(QueueAt::Close(at)),
                Next::Lost(at) => Next::Lost(QueueAt::Close(at)),
                Next::Done(answer) => {
                    let Answered { kept, reply } = answer;
                    Next::Done(Answered {
                        kept,
                        reply: Reply::Close(reply),
                    })
                }
            },
            QueueAt::Shut(at) => match at.next(on, seat, outcome) {
                Next::On(at) => Next::On(QueueAt::Shut(at)),
                Next::Lost(at) => Next::Lost(QueueAt::Shut(at)),
                Next::Done(answer) => {
                    let Answered { kept, reply } = answer;
                    Next::Done(Answered {
                        kept,
                        reply: Reply::Shut(reply),
                    })
                }
            },
            QueueAt::Look(at) => match at.next(on, seat, outcome) {
                Next::On(at) => Next::On(QueueAt::Look(at)),
                Next::Lost(at) => Next::Lost(QueueAt::Look(at)),
                Next::Done(answer) => {
                    let Answered { kept, reply } = answer;
                    Next::Done(Answered {
                        kept,
                        reply: Reply::Look(reply),
                    })
                }
            },
        }
    }
}

impl<T, D: Tie<T>> Replies<Queue<T, D>, T, Line<T>, Operation<T>, Queued<D>, (), Reply<T>, 2>
    for QueueAt<T> {
    ghost use Rattle.std.specs.Prelude.{refl};
    ghost use Rattle.ms_queue.specs.code.KeepsEvery.{every_given, every_promises};

    ghost gives = { every_promises };

    ghost idle = { λ key o answer. refl };

    ghost given = { every_given D.rule };

    ghost kept = { λ key o answer. tt };
}
