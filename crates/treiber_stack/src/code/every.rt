//! Every call of a stack as one operation.
ghost use Rattle.std.specs.Prelude.{◌≡◌};
ghost use Rattle.bounded_model.specs.declared.commands.Command.TheVariants.{Put as PutCall, Take as TakeCall, Look as LookCall};
ghost use Rattle.treiber_stack.specs.Calls.{IsLooking, IsPutting, Stack as FreeStack, IsMakingCall, IsTaking};

use crate::code::closing::MarkAt;
use crate::code::looking::{LookAt, LookOp};
use crate::code::putting::{PutAt, PutOp};
use crate::code::taking::{TakeAt, TakeOp};
use crate::life::stack::{Answered, Stack};
use crate::rule::Stacked;
use atomic_table::Seat;
use bounded_model::Reply;
use machine::View;
use running::{Access, Code, Next, Op, Outcome, Replies, Tie};
use stack_machine::Line;
use stack_table::Operation;

/// A put, a take, a close, a shut or a look that was begun.
pub type AnyOp<T> = Op<T, Line<T>, Operation<T>, StackAt<T>>;

/// The next step of a call, whichever it is.
#[derive(Drop)]
pub enum StackAt<T> {
    Put(PutAt<T>),
    Take(TakeAt<T>),
    Mark(MarkAt),
    Look(LookAt),
}

impl<T> StackAt<T> {
    /// A put that was begun, as an operation of any call.
    #[inline(always)]
    pub fn of_put(op: PutOp<T>) -> AnyOp<T>
        ensures makes { (c : FreeStack T) (x : T) → IsPutting c x op
            → IsMakingCall c (PutCall x) result }
        ensures same { result.pass ≡ op.pass }
    {
        let Op {
            pass,
            operation,
            at,
        } = op;
        Op {
            pass,
            operation,
            at: StackAt::Put(at),
        }
    }

    /// A take that was begun, as an operation of any call.
    #[inline(always)]
    pub fn of_take(op: TakeOp<T>) -> AnyOp<T>
        ensures makes { (c : FreeStack T) → IsTaking c op → IsMakingCall c TakeCall result }
        ensures same { result.pass ≡ op.pass }
    {
        let Op {
            pass,
            operation,
            at,
        } = op;
        Op {
            pass,
            operation,
            at: StackAt::Take(at),
        }
    }

    /// A look that was begun, as an operation of any call.
    #[inline(always)]
    pub fn of_look(op: LookOp<T>) -> AnyOp<T>
        ensures makes { (c : FreeStack T) → IsLooking c op → IsMakingCall c LookCall result }
        ensures same { result.pass ≡ op.pass }
    {
        let Op {
            pass,
            operation,
            at,
        } = op;
        Op {
            pass,
            operation,
            at: StackAt::Look(at),
        }
    }
}

impl<T, D: Tie<T>> Code<Stack<T, D>, T, Line<T>, Operation<T>, Stacked<D>, Answered<Reply<T>>, 2>
    for StackAt<T> {
    ghost use Rattle.treiber_stack.specs.code.Every.{every_account};

    ghost account = { every_account };

    #[inline]
    fn is_refusal(answer: &Answered<Reply<T>>) -> bool {
        match &answer.reply {
            Reply::Put(said) => said.is_err(),
            Reply::Take(said) => said.is_err(),
            _ => false,
        }
    }

    #[inline(always)]
    fn access(&self, on: &Stack<T, D>) -> Access {
        match self {
            StackAt::Put(at) => at.access(on),
            StackAt::Take(at) => at.access(on),
            StackAt::Mark(at) => at.access(on),
            StackAt::Look(at) => at.access(on),
        }
    }

    #[inline(always)]
    fn next(
        self,
        on: &Stack<T, D>,
        seat: &mut Seat<Option<T>, View<T, Line<T>>>,
        outcome: Outcome,
    ) -> Next<StackAt<T>, Answered<Reply<T>>> {
        match self {
            StackAt::Put(at) => match at.next(on, seat, outcome) {
                Next::On(at) => Next::On(StackAt::Put(at)),
                Next::Lost(at) => Next::Lost(StackAt::Put(at)),
                Next::Done(answer) => {
                    let Answered { kept, reply } = answer;
                    Next::Done(Answered {
                        kept,
                        reply: Reply::Put(reply),
                    })
                }
            },
            StackAt::Take(at) => match at.next(on, seat, outcome) {
                Next::On(at) => Next::On(StackAt::Take(at)),
                Next::Lost(at) => Next::Lost(StackAt::Take(at)),
                Next::Done(answer) => {
                    let Answered { kept, reply } = answer;
                    Next::Done(Answered {
                        kept,
                        reply: Reply::Take(reply),
                    })
                }
            },
            StackAt::Mark(at) => {
                let mark = at.mark();
                match at.next(on, seat, outcome) {
                    Next::On(at) => Next::On(StackAt::Mark(at)),
                    Next::Lost(at) => Next::Lost(StackAt::Mark(at)),
                    Next::Done(answer) => {
                        let Answered { kept, reply } = answer;
                        Next::Done(Answered {
                            kept,
                            reply: mark.said::<T>(reply),
                        })
                    }
                }
            }
            StackAt::Look(at) => match at.next(on, seat, outcome) {
                Next::On(at) => Next::On(StackAt::Look(at)),
                Next::Lost(at) => Next::Lost(StackAt::Look(at)),
                Next::Done(answer) => {
                    let Answered { kept, reply } = answer;
                    Next::Done(Answered {
                        kept,
                        reply: Reply::Look(reply),
                    })
                }
            },
        }
    }
}

impl<T, D: Tie<T>> Replies<Stack<T, D>, T, Line<T>, Operation<T>, Stacked<D>, (), Reply<T>, 2>
    for StackAt<T> {
    ghost use Rattle.std.specs.Prelude.{refl};
    ghost use Rattle.treiber_stack.specs.code.KeepsEvery.{every_given, every_promises};

    ghost gives = { every_promises };

    ghost idle = { λ key o answer. refl };

    ghost given = { every_given D.rule };

    ghost kept = { λ key o answer. tt };
}
