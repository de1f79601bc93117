//! A gauge, step by step.

use crate::calls::gauging::Gauge;
use crate::code::walking::{WalkAt, place_of, walk_access, walk_on};
use crate::life::ring::{Answered, RingQueue};
use crate::life::spare::Spare;
use crate::rule::Ringed;
use atomic_table::Seat;
use machine::seats::View;
use ring_table::layout::TAIL;
use ring_table::{Operation, SeatLine};
use running::{Access, Code, Next, Op, Outcome, Replies, Tie};

/// A gauge that was begun.
pub type GaugeOp<T> = Op<T, SeatLine<T>, Operation<T>, GaugeAt>;

/// The next step of a gauge: one of the way to the back.
#[derive(Clone, Copy)]
pub struct GaugeAt {
    pub(crate) at: WalkAt,
}

impl<T, D: Tie<T>> Code<
    RingQueue<T, D>,
    T,
    SeatLine<T>,
    Operation<T>,
    Ringed<D>,
    Answered<Gauge>,
    0,
> for GaugeAt {
    ghost use Rattle.ring_queue.specs.code.Gauging.{gauge_account};

    ghost account = { gauge_account };

    #[inline(always)]
    fn access(&self, on: &RingQueue<T, D>) -> Access {
        walk_access(on, TAIL, &self.at)
    }

    #[inline(always)]
    fn next(
        self,
        on: &RingQueue<T, D>,
        _seat: &mut Seat<Option<T>, View<T, SeatLine<T>>>,
        outcome: Outcome,
    ) -> Next<GaugeAt, Answered<Gauge>> {
        match walk_on(on, 0, self.at, outcome) {
            Next::On(at) => Next::On(GaugeAt { at }),
            Next::Lost(at) => Next::Lost(GaugeAt { at }),
            // One word says both. The slot at the back has the mark if the ring is closed, and its
            // position is the number of values put.
            Next::Done(end) => Next::Done(Answered {
                kept: end.walk.spare,
                reply: Gauge {
                    closed: end.slot.is_marked(),
                    used: place_of(on, end.walk.at),
                },
            }),
        }
    }
}

impl<T, D: Tie<T>> Replies<
    RingQueue<T, D>,
    T,
    SeatLine<T>,
    Operation<T>,
    Ringed<D>,
    Spare,
    Gauge,
    0,
> for GaugeAt {
    ghost use Rattle.std.specs.Prelude.{refl};
    ghost use Rattle.ring_queue.specs.code.KeepsGauge.{gauge_given, gauge_promises};

    ghost gives = { gauge_promises };

    ghost idle = { λ key o answer. refl };

    ghost given = { gauge_given D.rule };

    ghost kept = { λ key o answer. refl };
}
