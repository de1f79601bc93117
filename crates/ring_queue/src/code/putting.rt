//! A put, step by step. From the first step on the value is in the slot of the spare cell, and a
//! snapshot shows it to proofs.
ghost use Rattle.std.specs.Prelude.{◌≡◌, ◌+◌, ◌*◌};
ghost use Rattle.ring_queue.specs.code.Putting.{has_room, put_account, refused_at};
ghost use Rattle.ring_queue.specs.Calls.{laps_of};

use crate::code::walk::Walk;
use crate::code::walking::{Found, STRIDE, WalkAt, behind, place_of, walk_access, walk_on};
use crate::life::ring::{Answered, RingQueue};
use crate::life::spare::Spare;
use crate::rule::Ringed;
use atomic_table::Seat;
use bounded_model::{PutRefused, Word};
use index_list::{move_out, put_in};
use machine::seats::View;
use ring_table::layout::TAIL;
use ring_table::{Operation, SeatLine};
use running::{Access, Code, Next, Op, Outcome, Replies, Tie, raised};
use std::snapshot::Snapshot;
use tagged_index::Tagged;

/// A put that was begun.
pub type PutOp<T> = Op<T, SeatLine<T>, Operation<T>, PutAt<T>>;

/// The next step of a put, with what it has read and holds.
#[derive(Drop)]
pub enum PutAt<T> {
    /// Load `TAIL`, and take the spare cell in hand.
    FetchTail(Spare, T),
    /// On the way to the back.
    Walking(Snapshot<T>, WalkAt),
    /// Exchange the spare cell, with the value in it, for the cell of the empty slot.
    Exchange(Snapshot<T>, Found),
    /// The value is put at the position of the walk. Compare-and-swap `TAIL` for the next position.
    PassTail(Snapshot<T>, Walk),
    /// Load the slot that the walk has come to once more, and lay the spare cell back home.
    Stow(Walk, PutRefused<T>),
}

/// What a put answers.
pub(crate) type Answer<T> = Result<u64, PutRefused<T>>;

// Why a value is not put at the back, if there is no room for it.
#[inline]
fn refused<T>(walk: &Walk, slot: Tagged, value: T) -> PutRefused<T>
    ensures { result ≡ refused_at walk.now.at slot value }
{
    if slot.is_marked() {
        return PutRefused::Closed(value);
    }
    if slot.tag() == 2 * walk.at.tag() {
        return PutRefused::Spent(value, Word::Next(walk.at.index()), slot.tag());
    }
    PutRefused::Full(value)
}

// Whether a value may be put at the back: the ring is open, and the slot is empty and not worn. The
// tag of an empty slot is even, so an odd tag limit allows no more than the even one below it.
#[inline(always)]
fn has_room<T, D: Tie<T>>(on: &RingQueue<T, D>, end: &Found) -> bool
    ensures { result ≡ has_room (laps_of on.now) end.now.walk.at end.now.slot }
{
    !end.slot.is_marked()
        && end.slot.tag() == end.walk.empty
        && end.slot.tag() + 1 < on.limits.tag_limit()
}

impl<T, D: Tie<T>> Code<
    RingQueue<T, D>,
    T,
    SeatLine<T>,
    Operation<T>,
    Ringed<D>,
    Answered<Answer<T>>,
    0,
> for PutAt<T> {
    ghost use Rattle.ring_queue.specs.code.Putting.{put_account};

    ghost account = { put_account };

    #[inline]
    fn is_refusal(answer: &Answered<Answer<T>>) -> bool {
        answer.reply.is_err()
    }

    #[inline(always)]
    fn access(&self, on: &RingQueue<T, D>) -> Access {
        match self {
            PutAt::FetchTail(_, _) => Access::Fetch(TAIL),
            PutAt::Walking(_, at) => walk_access(on, TAIL, at),
            PutAt::Exchange(_, end) => {
                let new = raised(end.slot, end.walk.spare.index);
                Access::Return(end.walk.place, end.slot, new)
            }
            PutAt::PassTail(_, walk) => Access::Swap(TAIL, walk.from, behind(on, walk.at)),
            PutAt::Stow(walk, _) => Access::Stow(walk.place),
        }
    }

    #[inline(always)]
    fn next(
        self,
        on: &RingQueue<T, D>,
        seat: &mut Seat<Option<T>, View<T, SeatLine<T>>>,
        outcome: Outcome,
    ) -> Next<PutAt<T>, Answered<Answer<T>>> {
        match self {
            PutAt::FetchTail(spare, value) => {
                // With the cell comes its slot, and the value moves in.
                let shown = Snapshot::of(&value);
                put_in(&on.table.shared, seat, spare.index, value);
                let hint = Tagged::from_word(outcome.word);
                let walk = Walk::from(on, spare, hint);
                Next::On(PutAt::Walking(shown, WalkAt::LoadSlot(walk)))
            }
            PutAt::Walking(shown, at) => match walk_on(on, 0, at, outcome) {
                Next::On(at) => Next::On(PutAt::Walking(shown, at)),
                Next::Lost(at) => Next::Lost(PutAt::Walking(shown, at)),
                Next::Done(end) => {
                    if has_room(on, &end) {
                        return Next::On(PutAt::Exchange(shown, end));
                    }
                    let Found { walk, slot } = end;
                    let value = move_out(&on.table.shared, seat, walk.spare.index);
                    let why = refused(&walk, slot, value);
                    Next::On(PutAt::Stow(walk, why))
                }
            },
            PutAt::Exchange(shown, end) => {
                if !outcome.won {
                    // Another put was faster, so the walk continues by one slot: a wait would only
                    // make it longer.
                    let again = WalkAt::LoadSlot(end.walk);
                    return Next::On(PutAt::Walking(shown, again));
                }
                // The put has its effect here; the cell that lay in the slot is the spare one now.
                let walk = end.walk.with(Spare {
                    index: end.slot.index(),
                });
                if walk.gone + 1 == STRIDE {
                    return Next::On(PutAt::PassTail(shown, walk));
                }
                Next::Done(Answered {
                    kept: walk.spare,
                    reply: Ok(place_of(on, walk.at)),
                })
            }
            // Whichever pass succeeds, the tail is then no longer behind this put.
            PutAt::PassTail(shown, walk) => {
                let _ = shown;
                Next::Done(Answered {
                    kept: walk.spare,
                    reply: Ok(place_of(on, walk.at)),
                })
            }
            PutAt::Stow(walk, why) => Next::Done(Answered {
                kept: walk.spare,
                reply: Err(why),
            }),
        }
    }
}

impl<T, D: Tie<T>> Replies<
    RingQueue<T, D>,
    T,
    SeatLine<T>,
    Operation<T>,
    Ringed<D>,
    Spare,
    Answer<T>,
    0,
> for PutAt<T> {
    ghost use Rattle.std.specs.Prelude.{refl};
    ghost use Rattle.ring_queue.specs.code.KeepsAnswers.{put_given};
    ghost use Rattle.ring_queue.specs.code.KeepsAnswers.{put_promises};

    ghost gives = { put_promises };

    ghost idle = { λ key o answer. refl };

    ghost given = { put_given D.rule };

    ghost kept = { λ key o answer. refl };
}
