//! A count, step by step.
ghost use Rattle.std.specs.Prelude.{◌+◌};

use crate::life::queue::{Answered, Queue};
use crate::rule::Queued;
use atomic_table::Seat;
use machine::View;
use queue_machine::Line;
use queue_table::Operation;
use queue_table::layout::{HEAD, TAIL, next};
use running::{Access, Code, Next, Op, Outcome, Replies, Tie};
use tagged_index::{NULL, Tagged};

/// A count that was begun.
pub type LenOp<T> = Op<T, Line<T>, Operation<T>, LenAt>;

/// The next step of a count, with what it has read.
#[derive(Drop)]
pub enum LenAt {
    /// Load `HEAD`.
    LoadHead,
    /// Load `TAIL`.
    LoadTail(Tagged),
    /// Load `next` of the node that it named.
    LoadNext(Tagged, Tagged),
    /// Load `HEAD` again.
    CheckHead(Tagged, Tagged, Tagged),
}

impl<T, D: Tie<T>> Code<Queue<T, D>, T, Line<T>, Operation<T>, Queued<D>, Answered<u64>, 2>
    for LenAt {
    ghost use Rattle.ms_queue.specs.code.Counting.{len_account};

    ghost account = { len_account };

    #[inline(always)]
    fn access(&self, _on: &Queue<T, D>) -> Access {
        match self {
            LenAt::LoadHead => Access::Load(HEAD),
            LenAt::LoadTail(_) => Access::Load(TAIL),
            LenAt::LoadNext(_, tail) => Access::Load(next(tail.index())),
            LenAt::CheckHead(_, _, _) => Access::Load(HEAD),
        }
    }

    #[inline(always)]
    fn next(
        self,
        _on: &Queue<T, D>,
        _seat: &mut Seat<Option<T>, View<T, Line<T>>>,
        outcome: Outcome,
    ) -> Next<LenAt, Answered<u64>> {
        let found = Tagged::from_word(outcome.word);
        match self {
            LenAt::LoadHead => Next::On(LenAt::LoadTail(found)),
            LenAt::LoadTail(head) => Next::On(LenAt::LoadNext(head, found)),
            LenAt::LoadNext(head, tail) => Next::On(LenAt::CheckHead(head, tail, found)),
            LenAt::CheckHead(head, tail, link) => {
                // If no take was made, the node of the tail was in the queue all the time.
                if outcome.word != head.word() {
                    return Next::Lost(LenAt::LoadHead);
                }
                let end = if link.index() == NULL {
                    tail.tag()
                } else {
                    tail.tag() + 1
                };
                Next::Done(Answered {
                    kept: (),
                    reply: end.saturating_sub(head.tag()),
                })
            }
        }
    }
}

impl<T, D: Tie<T>> Replies<Queue<T, D>, T, Line<T>, Operation<T>, Queued<D>, (), u64, 2> for LenAt {
    ghost use Rattle.std.specs.Prelude.{refl};
    ghost use Rattle.ms_queue.specs.code.KeepsGauge.{len_given, len_promises};

    ghost gives = { len_promises };

    ghost idle = { λ key o answer. refl };

    ghost given = { len_given D.rule };

    ghost kept = { λ key o answer. tt };
}
