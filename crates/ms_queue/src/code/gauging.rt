//! A gauge, step by step.

use crate::calls::gauging::Gauge;
use crate::code::seeking::{End, Seek, seek_access, seek_on};
use crate::life::queue::{Answered, Queue};
use crate::rule::Queued;
use atomic_table::Seat;
use machine::seats::View;
use queue_machine::Line;
use queue_table::Operation;
use queue_table::layout::next;
use running::{Access, Code, Next, Op, Outcome, Replies, Tie};
use tagged_index::Tagged;

/// A gauge that was begun.
pub type GaugeOp<T> = Op<T, Line<T>, Operation<T>, GaugeAt>;

/// The next step of a gauge.
#[derive(Drop)]
pub enum GaugeAt {
    /// On the way to the end of the chain.
    Seeking(Seek),
    /// Load the last node's `next` again.
    CheckNext(Tagged, Tagged),
}

impl<T, D: Tie<T>> Code<Queue<T, D>, T, Line<T>, Operation<T>, Queued<D>, Answered<Gauge>, 2>
    for GaugeAt {
    ghost use Rattle.ms_queue.specs.code.Gauging.{gauge_account};

    ghost account = { gauge_account };

    #[inline(always)]
    fn access(&self, on: &Queue<T, D>) -> Access {
        match self {
            GaugeAt::Seeking(at) => seek_access(on, at),
            GaugeAt::CheckNext(tail, _) => Access::Load(next(tail.index())),
        }
    }

    #[inline(always)]
    fn next(
        self,
        on: &Queue<T, D>,
        _seat: &mut Seat<Option<T>, View<T, Line<T>>>,
        outcome: Outcome,
    ) -> Next<GaugeAt, Answered<Gauge>> {
        match self {
            GaugeAt::Seeking(at) => match seek_on(on, at, outcome) {
                Next::On(at) => Next::On(GaugeAt::Seeking(at)),
                Next::Lost(at) => Next::Lost(GaugeAt::Seeking(at)),
                Next::Done(end) => match end {
                    // No put follows any more: the tail's tag stays.
                    End::Closed(tail) => Next::Done(Answered {
                        kept: (),
                        reply: Gauge {
                            closed: true,
                            used: tail.tag(),
                        },
                    }),
                    End::Open(tail, link) => Next::On(GaugeAt::CheckNext(tail, link)),
                },
            },
            GaugeAt::CheckNext(tail, link) => {
                // If the link is still the same, the tail's node is the last one now.
                if outcome.word != link.word() {
                    return Next::Lost(GaugeAt::Seeking(Seek::LoadTail));
                }
                let used = tail.tag();
                Next::Done(Answered {
                    kept: (),
                    reply: Gauge {
                        closed: false,
                        used,
                    },
                })
            }
        }
    }
}

impl<T, D: Tie<T>> Replies<Queue<T, D>, T, Line<T>, Operation<T>, Queued<D>, (), Gauge, 2>
    for GaugeAt {
    ghost use Rattle.std.specs.Prelude.{refl};
    ghost use Rattle.ms_queue.specs.code.KeepsGauge.{gauge_given, gauge_promises};

    ghost gives = { gauge_promises };

    ghost idle = { λ key o answer. refl };

    ghost given = { gauge_given D.rule };

    ghost kept = { λ key o answer. tt };
}
