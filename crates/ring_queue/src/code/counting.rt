//! A count, step by step.

use crate::code::walking::{WalkAt, place_of, slot_of, walk_access, walk_on};
use crate::life::ring::{Answered, RingQueue};
use crate::life::spare::Spare;
use crate::rule::Ringed;
use atomic_table::Seat;
use machine::seats::View;
use ring_table::layout::{HEAD, TAIL};
use ring_table::{Operation, SeatLine};
use running::{Access, Code, Next, Op, Outcome, Replies, Tie};
use tagged_index::Tagged;

/// A count that was begun.
pub type LenOp<T> = Op<T, SeatLine<T>, Operation<T>, LenAt>;

/// The next step of a count, with what it has read.
#[derive(Clone, Copy)]
pub enum LenAt {
    /// On the way to the front.
    ToFront(WalkAt),
    /// The front was this. On the way to the back.
    ToBack(Tagged, WalkAt),
    /// The back was the second position: load the slot of the first again.
    CheckFront(Spare, Tagged, Tagged),
}

impl<T, D: Tie<T>> Code<RingQueue<T, D>, T, SeatLine<T>, Operation<T>, Ringed<D>, Answered<u64>, 0>
    for LenAt {
    ghost use Rattle.ring_queue.specs.code.Counting.{len_account};

    ghost account = { len_account };

    #[inline(always)]
    fn access(&self, on: &RingQueue<T, D>) -> Access {
        match self {
            LenAt::ToFront(at) => walk_access(on, HEAD, at),
            LenAt::ToBack(_, at) => walk_access(on, TAIL, at),
            LenAt::CheckFront(_, front, _) => Access::Load(slot_of(on, *front)),
        }
    }

    #[inline(always)]
    fn next(
        self,
        on: &RingQueue<T, D>,
        _seat: &mut Seat<Option<T>, View<T, SeatLine<T>>>,
        outcome: Outcome,
    ) -> Next<LenAt, Answered<u64>> {
        match self {
            LenAt::ToFront(at) => match walk_on(on, 1, at, outcome) {
                Next::On(at) => Next::On(LenAt::ToFront(at)),
                Next::Lost(at) => Next::Lost(LenAt::ToFront(at)),
                Next::Done(end) => {
                    let back = WalkAt::LoadHint(end.walk.spare);
                    Next::On(LenAt::ToBack(end.walk.at, back))
                }
            },
            LenAt::ToBack(front, at) => match walk_on(on, 0, at, outcome) {
                Next::On(at) => Next::On(LenAt::ToBack(front, at)),
                Next::Lost(at) => Next::Lost(LenAt::ToBack(front, at)),
                Next::Done(end) => {
                    Next::On(LenAt::CheckFront(end.walk.spare, front, end.walk.at))
                }
            },
            LenAt::CheckFront(spare, front, back) => {
                // If the front has not been taken, it was the front when the pass saw the back.
                let slot = Tagged::from_word(outcome.word);
                if slot.tag() > 2 * front.tag() + 1 {
                    return Next::Lost(LenAt::ToFront(WalkAt::LoadHint(spare)));
                }
                Next::Done(Answered {
                    kept: spare,
                    reply: place_of(on, back).saturating_sub(place_of(on, front)),
                })
            }
        }
    }
}

impl<T, D: Tie<T>> Replies<RingQueue<T, D>, T, SeatLine<T>, Operation<T>, Ringed<D>, Spare, u64, 0>
    for LenAt {
    ghost use Rattle.std.specs.Prelude.{refl};
    ghost use Rattle.ring_queue.specs.code.KeepsGauge.{len_given, len_promises};

    ghost gives = { len_promises };

    ghost idle = { λ key o answer. refl };

    ghost given = { len_given D.rule };

    ghost kept = { λ key o answer. refl };
}
