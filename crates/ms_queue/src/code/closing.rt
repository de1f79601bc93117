//! A close, step by step: the link of the last node gets the mark.
ghost use Rattle.ms_queue.specs.code.Closing.{close_account};

use crate::code::seeking::{End, Seek, seek_access, seek_on};
use crate::life::queue::{Answered, Queue};
use crate::rule::Queued;
use atomic_table::Seat;
use machine::seats::View;
use queue_machine::Line;
use queue_table::Operation;
use queue_table::layout::next;
use running::{Access, Code, Next, Op, Outcome, Replies, Tie, raised};
use tagged_index::{NULL, Tagged};

/// A close that was begun.
pub type CloseOp<T> = Op<T, Line<T>, Operation<T>, CloseAt>;

/// The next step of a close.
#[derive(Drop)]
pub enum CloseAt {
    /// On the way to the end of the chain.
    Seeking(Seek),
    /// Compare-and-swap the last node's `next` for null with the mark.
    Mark(Tagged, Tagged),
}

impl<T, D: Tie<T>> Code<Queue<T, D>, T, Line<T>, Operation<T>, Queued<D>, Answered<bool>, 2>
    for CloseAt {
    ghost use Rattle.ms_queue.specs.code.Closing.{close_account};

    ghost account = { close_account };

    #[inline(always)]
    fn access(&self, on: &Queue<T, D>) -> Access {
        match self {
            CloseAt::Seeking(at) => seek_access(on, at),
            CloseAt::Mark(tail, link) => {
                let new = raised(*link, NULL).marked();
                Access::Swap(next(tail.index()), *link, new)
            }
        }
    }

    #[inline(always)]
    fn next(
        self,
        on: &Queue<T, D>,
        _seat: &mut Seat<Option<T>, View<T, Line<T>>>,
        outcome: Outcome,
    ) -> Next<CloseAt, Answered<bool>> {
        match self {
            CloseAt::Seeking(at) => match seek_on(on, at, outcome) {
                Next::On(at) => Next::On(CloseAt::Seeking(at)),
                Next::Lost(at) => Next::Lost(CloseAt::Seeking(at)),
                Next::Done(end) => match end {
                    End::Closed(_) => Next::Done(Answered {
                        kept: (),
                        reply: false,
                    }),
                    End::Open(tail, link) => Next::On(CloseAt::Mark(tail, link)),
                },
            },
            CloseAt::Mark(_, _) => {
                if !outcome.won {
                    return Next::Lost(CloseAt::Seeking(Seek::LoadTail));
                }
                // The close has its effect here.
                Next::Done(Answered {
                    kept: (),
                    reply: true,
                })
            }
        }
    }
}

impl<T, D: Tie<T>> Replies<Queue<T, D>, T, Line<T>, Operation<T>, Queued<D>, (), bool, 2>
    for CloseAt {
    ghost use Rattle.std.specs.Prelude.{refl};
    ghost use Rattle.ms_queue.specs.code.KeepsAnswers.{close_given, close_promises};

    ghost gives = { close_promises };

    ghost idle = { λ key o answer. refl };

    ghost given = { close_given D.rule };

    ghost kept = { λ key o answer. tt };
}
