//! A shut, step by step: the head gets the second mark.
ghost use Rattle.ms_queue.specs.code.Shutting.{shut_account};

use crate::life::queue::{Answered, Queue};
use crate::rule::Queued;
use atomic_table::Seat;
use machine::seats::View;
use queue_machine::Line;
use queue_table::Operation;
use queue_table::layout::HEAD;
use running::{Access, Code, Next, Op, Outcome, Replies, Tie};
use tagged_index::Tagged;

/// A shut that was begun.
pub type ShutOp<T> = Op<T, Line<T>, Operation<T>, ShutAt>;

/// The next step of a shut.
#[derive(Drop)]
pub enum ShutAt {
    /// Load `HEAD`.
    LoadHead,
    /// Set its second mark.
    Mark(Tagged),
}

impl<T, D: Tie<T>> Code<Queue<T, D>, T, Line<T>, Operation<T>, Queued<D>, Answered<bool>, 2>
    for ShutAt {
    ghost use Rattle.ms_queue.specs.code.Shutting.{shut_account};

    ghost account = { shut_account };

    #[inline(always)]
    fn access(&self, _on: &Queue<T, D>) -> Access {
        match self {
            ShutAt::LoadHead => Access::Load(HEAD),
            ShutAt::Mark(head) => Access::Swap(HEAD, *head, head.with_second()),
        }
    }

    #[inline(always)]
    fn next(
        self,
        _on: &Queue<T, D>,
        _seat: &mut Seat<Option<T>, View<T, Line<T>>>,
        outcome: Outcome,
    ) -> Next<ShutAt, Answered<bool>> {
        match self {
            ShutAt::LoadHead => {
                let head = Tagged::from_word(outcome.word);
                if head.has_second() {
                    return Next::Done(Answered {
                        kept: (),
                        reply: false,
                    });
                }
                Next::On(ShutAt::Mark(head))
            }
            ShutAt::Mark(_) => {
                if !outcome.won {
                    return Next::Lost(ShutAt::LoadHead);
                }
                // The shut has its effect here.
                Next::Done(Answered {
                    kept: (),
                    reply: true,
                })
            }
        }
    }
}

impl<T, D: Tie<T>> Replies<Queue<T, D>, T, Line<T>, Operation<T>, Queued<D>, (), bool, 2>
    for ShutAt {
    ghost use Rattle.std.specs.Prelude.{refl};
    ghost use Rattle.ms_queue.specs.code.KeepsAnswers.{shut_given, shut_promises};

    ghost gives = { shut_promises };

    ghost idle = { λ key o answer. refl };

    ghost given = { shut_given D.rule };

    ghost kept = { λ key o answer. tt };
}
