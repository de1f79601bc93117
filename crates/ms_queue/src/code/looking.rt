//! A look, step by step.
ghost use Rattle.ms_queue.specs.code.Looking.{look_account};

use crate::life::queue::{Answered, Queue};
use crate::rule::Queued;
use atomic_table::Seat;
use machine::seats::View;
use queue_machine::Line;
use queue_table::Operation;
use queue_table::layout::{HEAD, next};
use running::{Access, Code, Next, Op, Outcome, Replies, Tie};
use tagged_index::{NULL, Tagged};

/// A look that was begun.
pub type LookOp<T> = Op<T, Line<T>, Operation<T>, LookAt>;

/// The next step of a look.
#[derive(Drop)]
pub enum LookAt {
    /// Load `HEAD`.
    LoadHead,
    /// Load `next` of the node that it named.
    LoadNext(Tagged),
    /// Load `HEAD` again.
    CheckHead(Tagged, Tagged),
}

impl<T, D: Tie<T>> Code<Queue<T, D>, T, Line<T>, Operation<T>, Queued<D>, Answered<bool>, 2>
    for LookAt {
    ghost use Rattle.ms_queue.specs.code.Looking.{look_account};

    ghost account = { look_account };

    #[inline(always)]
    fn access(&self, _on: &Queue<T, D>) -> Access {
        match self {
            LookAt::LoadHead => Access::Load(HEAD),
            LookAt::LoadNext(head) => Access::Load(next(head.index())),
            LookAt::CheckHead(_, _) => Access::Load(HEAD),
        }
    }

    #[inline(always)]
    fn next(
        self,
        _on: &Queue<T, D>,
        _seat: &mut Seat<Option<T>, View<T, Line<T>>>,
        outcome: Outcome,
    ) -> Next<LookAt, Answered<bool>> {
        match self {
            LookAt::LoadHead => Next::On(LookAt::LoadNext(Tagged::from_word(outcome.word))),
            LookAt::LoadNext(head) => {
                Next::On(LookAt::CheckHead(head, Tagged::from_word(outcome.word)))
            }
            LookAt::CheckHead(head, link) => {
                // If the head is still the same, the link was that of the dummy.
                if outcome.word != head.word() {
                    return Next::Lost(LookAt::LoadHead);
                }
                Next::Done(Answered {
                    kept: (),
                    reply: link.index() == NULL,
                })
            }
        }
    }
}

impl<T, D: Tie<T>> Replies<Queue<T, D>, T, Line<T>, Operation<T>, Queued<D>, (), bool, 2>
    for LookAt {
    ghost use Rattle.std.specs.Prelude.{refl};
    ghost use Rattle.ms_queue.specs.code.KeepsAnswers.{look_given, look_promises};

    ghost gives = { look_promises };

    ghost idle = { λ key o answer. refl };

    ghost given = { look_given D.rule };

    ghost kept = { λ key o answer. tt };
}
