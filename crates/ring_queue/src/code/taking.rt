//! A take, step by step.
ghost use Rattle.std.specs.Prelude.{◌≡◌, ◌+◌};
ghost use Rattle.ring_queue.specs.code.Taking.{take_account, refusal_at};

use crate::code::walk::Walk;
use crate::code::walking::{Found, STRIDE, WalkAt, behind, place_of, walk_access, walk_on};
use crate::life::ring::{Answered, RingQueue};
use crate::life::spare::Spare;
use crate::rule::Ringed;
use atomic_table::Seat;
use bounded_model::TakeRefused;
use index_list::move_out;
use machine::seats::View;
use ring_table::layout::HEAD;
use ring_table::{Operation, SeatLine};
use running::{Access, Code, Next, Op, Outcome, Replies, Tie, raised};

/// A take that was begun.
pub type TakeOp<T> = Op<T, SeatLine<T>, Operation<T>, TakeAt<T>>;

/// The next step of a take, with what it has read and holds.
#[derive(Drop)]
pub enum TakeAt<T> {
    /// On the way to the front.
    Walking(WalkAt),
    /// Exchange the spare cell, which is empty, for the cell of the full slot.
    Exchange(Found),
    /// The value is taken at the position of the walk. Compare-and-swap `HEAD` for the next
    /// position.
    PassHead(Walk, T),
    /// Load the slot that the walk has come to once more, and lay the spare cell back home.
    Stow(Walk, T),
}

/// What a take answers.
pub(crate) type Answer<T> = Result<(T, u64), TakeRefused>;

// Why nothing can be taken at the front, or `None` if something can.
#[inline(always)]
fn refusal(end: &Found) -> Option<TakeRefused>
    ensures { result ≡ refusal_at end.now.walk.at end.now.slot }
{
    if end.slot.has_second() {
        return Some(TakeRefused::Shut);
    }
    if end.slot.tag() == end.walk.empty + 1 {
        return None;
    }
    if end.slot.is_marked() {
        return Some(TakeRefused::Closed);
    }
    Some(TakeRefused::Empty)
}

impl<T, D: Tie<T>> Code<
    RingQueue<T, D>,
    T,
    SeatLine<T>,
    Operation<T>,
    Ringed<D>,
    Answered<Answer<T>>,
    0,
> for TakeAt<T> {
    ghost use Rattle.ring_queue.specs.code.Taking.{take_account};

    ghost account = { take_account };

    #[inline]
    fn is_refusal(answer: &Answered<Answer<T>>) -> bool {
        answer.reply.is_err()
    }

    #[inline(always)]
    fn access(&self, on: &RingQueue<T, D>) -> Access {
        match self {
            TakeAt::Walking(at) => walk_access(on, HEAD, at),
            TakeAt::Exchange(end) => {
                let new = raised(end.slot, end.walk.spare.index);
                Access::Bring(end.walk.place, end.slot, new)
            }
            TakeAt::PassHead(walk, _) => Access::Swap(HEAD, walk.from, behind(on, walk.at)),
            TakeAt::Stow(walk, _) => Access::Stow(walk.place),
        }
    }

    #[inline(always)]
    fn next(
        self,
        on: &RingQueue<T, D>,
        seat: &mut Seat<Option<T>, View<T, SeatLine<T>>>,
        outcome: Outcome,
    ) -> Next<TakeAt<T>, Answered<Answer<T>>> {
        match self {
            TakeAt::Walking(at) => match walk_on(on, 1, at, outcome) {
                Next::On(at) => Next::On(TakeAt::Walking(at)),
                Next::Lost(at) => Next::Lost(TakeAt::Walking(at)),
                Next::Done(end) => match refusal(&end) {
                    None => Next::On(TakeAt::Exchange(end)),
                    Some(why) => Next::Done(Answered {
                        kept: end.walk.spare,
                        reply: Err(why),
                    }),
                },
            },
            TakeAt::Exchange(end) => {
                if !outcome.won {
                    // Another take was faster, so the walk continues by one slot: a wait would only
                    // make it longer.
                    return Next::On(TakeAt::Walking(WalkAt::LoadSlot(end.walk)));
                }
                // The take has its effect here; the value moves out with the cell that came.
                let cell = end.slot.index();
                let value = move_out(&on.table.shared, seat, cell);
                let walk = end.walk.with(Spare { index: cell });
                if walk.gone + 1 == STRIDE {
                    return Next::On(TakeAt::PassHead(walk, value));
                }
                Next::On(TakeAt::Stow(walk, value))
            }
            // Whichever pass succeeds, the head is then no longer behind this take.
            TakeAt::PassHead(walk, value) => Next::On(TakeAt::Stow(walk, value)),
            TakeAt::Stow(walk, value) => Next::Done(Answered {
                kept: walk.spare,
                reply: Ok((value, place_of(on, walk.at))),
            }),
        }
    }
}

impl<T, D: Tie<T>> Replies<
    RingQueue<T, D>,
    T,
    SeatLine<T>,
    Operation<T>,
    Ringed<D>,
    Spare,
    Answer<T>,
    0,
> for TakeAt<T> {
    ghost use Rattle.std.specs.Prelude.{refl};
    ghost use Rattle.ring_queue.specs.code.KeepsAnswers.{take_given, take_promises};

    ghost gives = { take_promises };

    ghost idle = { λ key o answer. refl };

    ghost given = { take_given D.rule };

    ghost kept = { λ key o answer. refl };
}
