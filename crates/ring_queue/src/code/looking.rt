//! A look, step by step.
ghost use Rattle.ring_queue.specs.code.Looking.{look_account};

use crate::code::walking::{WalkAt, walk_access, walk_on};
use crate::life::ring::{Answered, RingQueue};
use crate::life::spare::Spare;
use crate::rule::Ringed;
use atomic_table::Seat;
use machine::seats::View;
use ring_table::layout::HEAD;
use ring_table::{Operation, SeatLine};
use running::{Access, Code, Next, Op, Outcome, Replies, Tie};

/// A look that was begun.
pub type LookOp<T> = Op<T, SeatLine<T>, Operation<T>, LookAt>;

/// The next step of a look: one of the way to the front.
#[derive(Clone, Copy)]
pub struct LookAt {
    pub(crate) at: WalkAt,
}

impl<T, D: Tie<T>> Code<RingQueue<T, D>, T, SeatLine<T>, Operation<T>, Ringed<D>, Answered<bool>, 0>
    for LookAt {
    ghost use Rattle.ring_queue.specs.code.Looking.{look_account};

    ghost account = { look_account };

    #[inline(always)]
    fn access(&self, on: &RingQueue<T, D>) -> Access {
        walk_access(on, HEAD, &self.at)
    }

    #[inline(always)]
    fn next(
        self,
        on: &RingQueue<T, D>,
        _seat: &mut Seat<Option<T>, View<T, SeatLine<T>>>,
        outcome: Outcome,
    ) -> Next<LookAt, Answered<bool>> {
        match walk_on(on, 1, self.at, outcome) {
            Next::On(at) => Next::On(LookAt { at }),
            Next::Lost(at) => Next::Lost(LookAt { at }),
            Next::Done(end) => Next::Done(Answered {
                kept: end.walk.spare,
                reply: end.slot.tag() == 2 * end.walk.at.tag(),
            }),
        }
    }
}

impl<T, D: Tie<T>> Replies<RingQueue<T, D>, T, SeatLine<T>, Operation<T>, Ringed<D>, Spare, bool, 0>
    for LookAt {
    ghost use Rattle.std.specs.Prelude.{refl};
    ghost use Rattle.ring_queue.specs.code.KeepsAnswers.{look_given, look_promises};

    ghost gives = { look_promises };

    ghost idle = { λ key o answer. refl };

    ghost given = { look_given D.rule };

    ghost kept = { λ key o answer. refl };
}
