//! A take, step by step. The line numbers are those of Michael and Scott's `dequeue` (calls/taking.rt).
ghost use Rattle.ms_queue.specs.code.Taking.{take_account};

use crate::code::giving::{Give, Held, give_access, give_next};
use crate::life::queue::{Answered, Queue};
use crate::rule::Queued;
use atomic_table::Seat;
use bounded_model::TakeRefused;
use index_list::move_out;
use machine::seats::View;
use queue_machine::Line;
use queue_table::Operation;
use queue_table::layout::{HEAD, TAIL, cell, next};
use running::{Access, Code, Next, Op, Outcome, Replies, Tie, raised};
use tagged_index::{NULL, Tagged};

/// A take that was begun.
pub type TakeOp<T> = Op<T, Line<T>, Operation<T>, TakeAt<T>>;

/// The next step of a take, with what it has read and holds.
#[derive(Drop)]
pub enum TakeAt<T> {
    /// Load `HEAD` (D2).
    LoadHead,
    /// Load `TAIL` (D3).
    LoadTail(Tagged),
    /// Load `next` of the node that `HEAD` named (D4).
    LoadNext(Tagged, Tagged),
    /// Load `HEAD` again (D5).
    CheckHead(Tagged, Tagged, Tagged),
    /// The tail is at the dummy, which links a node: compare-and-swap `TAIL` for that node
    /// (D10).
    SwingTail(Tagged, Tagged),
    /// Load the cell of the first node (D12).
    LoadCell(Tagged, Tagged),
    /// Compare-and-swap `HEAD` for the first node (D13).
    TakeHead(Tagged, Tagged, u32),
    /// Give the old dummy (D19) and the cell back.
    GiveBack(Taken<T>, Give),
}

/// A value that was taken, with its number, and what is to be given back.
#[derive(Drop)]
pub struct Taken<T> {
    pub(crate) value: T,
    pub(crate) number: u64,
    pub(crate) held: Held,
}

/// What a take answers.
pub(crate) type Answer<T> = Result<(T, u64), TakeRefused>;

impl<T, D: Tie<T>> Code<Queue<T, D>, T, Line<T>, Operation<T>, Queued<D>, Answered<Answer<T>>, 2>
    for TakeAt<T> {
    ghost use Rattle.ms_queue.specs.code.Taking.{take_account};

    ghost account = { take_account };

    #[inline]
    fn is_refusal(answer: &Answered<Answer<T>>) -> bool {
        answer.reply.is_err()
    }

    #[inline(always)]
    fn access(&self, on: &Queue<T, D>) -> Access {
        match self {
            TakeAt::LoadHead => Access::Load(HEAD),
            TakeAt::LoadTail(_) => Access::Load(TAIL),
            TakeAt::LoadNext(head, _) => Access::Load(next(head.index())),
            TakeAt::CheckHead(_, _, _) => Access::Load(HEAD),
            TakeAt::SwingTail(tail, link) => Access::Swap(TAIL, *tail, raised(*tail, link.index())),
            TakeAt::LoadCell(_, link) => Access::Load(cell(link.index())),
            TakeAt::TakeHead(head, link, _) => {
                Access::Bring(HEAD, *head, raised(*head, link.index()))
            }
            TakeAt::GiveBack(taken, at) => give_access(on, taken.held, at),
        }
    }

    #[inline(always)]
    fn next(
        self,
        on: &Queue<T, D>,
        seat: &mut Seat<Option<T>, View<T, Line<T>>>,
        outcome: Outcome,
    ) -> Next<TakeAt<T>, Answered<Answer<T>>> {
        match self {
            TakeAt::LoadHead => {
                let head = Tagged::from_word(outcome.word);
                if head.has_second() {
                    return Next::Done(Answered {
                        kept: (),
                        reply: Err(TakeRefused::Shut),
                    });
                }
                Next::On(TakeAt::LoadTail(head))
            }
            TakeAt::LoadTail(head) => {
                let tail = Tagged::from_word(outcome.word);
                Next::On(TakeAt::LoadNext(head, tail))
            }
            TakeAt::LoadNext(head, tail) => {
                let link = Tagged::from_word(outcome.word);
                Next::On(TakeAt::CheckHead(head, tail, link))
            }
            TakeAt::CheckHead(head, tail, link) => {
                // If the head is still the same, the link was that of the dummy.
                if outcome.word != head.word() {
                    return Next::Lost(TakeAt::LoadHead);
                }
                if link.is_marked() {
                    return Next::Done(Answered {
                        kept: (),
                        reply: Err(TakeRefused::Closed),
                    });
                }
                if link.index() == NULL {
                    return Next::Done(Answered {
                        kept: (),
                        reply: Err(TakeRefused::Empty),
                    });
                }
                if tail.index() == head.index() {
                    return Next::On(TakeAt::SwingTail(tail, link));
                }
                Next::On(TakeAt::LoadCell(head, link))
            }
            // Whichever pass succeeds, the tail is then no longer at the dummy.
            TakeAt::SwingTail(_, _) => {
                if outcome.won {
                    Next::On(TakeAt::LoadHead)
                } else {
                    Next::Lost(TakeAt::LoadHead)
                }
            }
            TakeAt::LoadCell(head, link) => {
                Next::On(TakeAt::TakeHead(head, link, outcome.word as u32))
            }
            TakeAt::TakeHead(head, _, cell) => {
                if !outcome.won {
                    return Next::Lost(TakeAt::LoadHead);
                }
                // The take has its effect here; the value moves out with the cell's slot.
                let value = move_out(&on.table.shared, seat, cell);
                let taken = Taken {
                    value,
                    number: head.tag(),
                    held: Held {
                        cell,
                        node: head.index(),
                        aligned: [],
                    },
                };
                Next::On(TakeAt::GiveBack(taken, Give::LoadNodes))
            }
            TakeAt::GiveBack(taken, at) => match give_next(on, at, outcome) {
                Next::On(at) => Next::On(TakeAt::GiveBack(taken, at)),
                Next::Lost(at) => Next::Lost(TakeAt::GiveBack(taken, at)),
                Next::Done(()) => Next::Done(Answered {
                    kept: (),
                    reply: Ok((taken.value, taken.number)),
                }),
            },
        }
    }
}

impl<T, D: Tie<T>> Replies<Queue<T, D>, T, Line<T>, Operation<T>, Queued<D>, (), Answer<T>, 2>
    for TakeAt<T> {
    ghost use Rattle.std.specs.Prelude.{refl};
    ghost use Rattle.ms_queue.specs.code.KeepsAnswers.{take_given, take_promises};

    ghost gives = { take_promises };

    ghost idle = { λ key o answer. refl };

    ghost given = { take_given D.rule };

    ghost kept = { λ key o answer. tt };
}
