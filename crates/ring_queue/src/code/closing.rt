//! A close or a shut, step by step: the slot at the back gets the mark, whether it is full or empty, or
//! the slot at the front the second mark.
ghost use Rattle.std.specs.Prelude.{◌≡◌};
ghost use Rattle.running.specs.declared.code.Next.TheVariants.{On};
ghost use Rattle.ring_queue.specs.code.Walking.{full_of, hint_of};
ghost use Rattle.ring_queue.specs.code.Closing.{aim_of, is_set, mark_account, mark_of_step, mark_reply, operation_of};

use crate::code::walking::{Found, WalkAt, slot_of, walk_access, walk_on};
use crate::life::ring::{Answered, RingQueue};
use crate::life::spare::Spare;
use crate::rule::Ringed;
use atomic_table::Seat;
use bounded_model::Reply;
use machine::seats::View;
use ring_table::layout::{HEAD, TAIL};
use ring_table::{Operation, SeatLine};
use running::{Access, Code, Next, Op, Outcome, Replies, Tie};

/// A close that was begun.
pub type CloseOp<T> = Op<T, SeatLine<T>, Operation<T>, MarkAt>;

/// A shut that was begun.
pub type ShutOp<T> = Op<T, SeatLine<T>, Operation<T>, MarkAt>;

/// Which mark an operation sets.
#[derive(Clone, Copy)]
pub enum Mark {
    /// The mark of the slot at the back.
    Closed,
    /// The second mark of the slot at the front.
    Shut,
}

impl Mark {
    /// The reply of the call that sets it.
    #[inline]
    pub(crate) fn said<T>(self, done: bool) -> Reply<T>
        ensures { result ≡ mark_reply self done }
    {
        match self {
            Mark::Closed => Reply::Close(done),
            Mark::Shut => Reply::Shut(done),
        }
    }

    #[inline(always)]
    fn operation<T>(self) -> Operation<T>
        ensures { result ≡ operation_of self }
    {
        match self {
            Mark::Closed => Operation::Close,
            Mark::Shut => Operation::Shut,
        }
    }

    // The word of the hint that its walk begins at.
    #[inline(always)]
    fn hint<T>(self) -> usize
        ensures { result ≡ hint_of {T = T} (aim_of self) }
    {
        match self {
            Mark::Closed => TAIL,
            Mark::Shut => HEAD,
        }
    }

    // What its walk adds to the tag of an empty slot: it goes beyond a slot with a tag above that.
    #[inline(always)]
    fn full<T>(self) -> u64
        ensures { result ≡ full_of {T = T} (aim_of self) }
    {
        match self {
            Mark::Closed => 0,
            Mark::Shut => 1,
        }
    }

    // Whether the slot at the end of its walk has it.
    #[inline(always)]
    fn is_set(self, end: &Found) -> bool
        ensures { result ≡ is_set self end.now.slot }
    {
        match self {
            Mark::Closed => end.slot.is_marked(),
            Mark::Shut => end.slot.has_second(),
        }
    }
}

/// The next step of a close or a shut.
#[derive(Clone, Copy)]
pub enum MarkAt {
    /// On the way to the slot that is to get this mark.
    Walking(Mark, WalkAt),
    /// Set the mark of the slot there.
    Setting(Mark, Found),
}

impl MarkAt {
    /// Which mark it sets.
    #[inline]
    pub(crate) fn mark(&self) -> Mark
        ensures { result ≡ mark_of_step self.now }
    {
        match self {
            MarkAt::Walking(mark, _) => *mark,
            MarkAt::Setting(mark, _) => *mark,
        }
    }
}

impl<T, D: Tie<T>> Code<RingQueue<T, D>, T, SeatLine<T>, Operation<T>, Ringed<D>, Answered<bool>, 0>
    for MarkAt {
    ghost use Rattle.ring_queue.specs.code.Closing.{mark_account};

    ghost account = { mark_account };

    #[inline(always)]
    fn access(&self, on: &RingQueue<T, D>) -> Access {
        match self {
            MarkAt::Walking(mark, at) => walk_access(on, mark.hint::<T>(), at),
            MarkAt::Setting(Mark::Closed, end) => {
                Access::Swap(slot_of(on, end.walk.at), end.slot, end.slot.marked())
            }
            MarkAt::Setting(Mark::Shut, end) => {
                Access::Swap(slot_of(on, end.walk.at), end.slot, end.slot.with_second())
            }
        }
    }

    #[inline(always)]
    fn next(
        self,
        on: &RingQueue<T, D>,
        _seat: &mut Seat<Option<T>, View<T, SeatLine<T>>>,
        outcome: Outcome,
    ) -> Next<MarkAt, Answered<bool>> {
        match self {
            MarkAt::Walking(mark, at) => match walk_on(on, mark.full::<T>(), at, outcome) {
                Next::On(at) => Next::On(MarkAt::Walking(mark, at)),
                Next::Lost(at) => Next::Lost(MarkAt::Walking(mark, at)),
                Next::Done(end) => {
                    if mark.is_set(&end) {
                        return Next::Done(Answered {
                            kept: end.walk.spare,
                            reply: false,
                        });
                    }
                    Next::On(MarkAt::Setting(mark, end))
                }
            },
            MarkAt::Setting(mark, end) => {
                if !outcome.won {
                    return Next::Lost(MarkAt::Walking(mark, WalkAt::LoadSlot(end.walk)));
                }
                // The close or the shut has its effect here.
                Next::Done(Answered {
                    kept: end.walk.spare,
                    reply: true,
                })
            }
        }
    }
}

impl<T, D: Tie<T>> Replies<RingQueue<T, D>, T, SeatLine<T>, Operation<T>, Ringed<D>, Spare, bool, 0>
    for MarkAt {
    ghost use Rattle.std.specs.Prelude.{refl};
    ghost use Rattle.ring_queue.specs.code.KeepsAnswers.{mark_given, mark_promises};

    ghost gives = { mark_promises };

    ghost idle = { λ key o answer. refl };

    ghost given = { mark_given D.rule };

    ghost kept = { λ key o answer. refl };
}
