//! Gauging a ring: whether it is closed, and how many values were put.
ghost use Rattle.std.specs.Prelude.{◌≡◌};
ghost use Rattle.bounded_model.specs.Laws.{Answers};
ghost use Rattle.bounded_model.specs.Stepping.{no_step};
ghost use Rattle.bounded_model.specs.declared.views.Answered.TheVariants.{Gauge as GaugeAnswered};
ghost use Rattle.ring_machine.specs.declared.lines.Answer.TheVariants.{Gauge as AnswerGauge};
ghost use Rattle.ring_table.specs.declared.operation.Operation.TheVariants.{Gauge as GaugeFirst};
ghost use Rattle.running.specs.Ops.{underway_of};
ghost use Rattle.running.specs.Kept.{HasNewCall};
ghost use Rattle.ring_queue.specs.Calls.{GaugeGives, IsGauging, WasRunWith, IsPassOf, laps_of, machine_of, pass_in, room_of, IsPassWith};

use crate::code::gauging::{GaugeAt, GaugeOp};
use crate::code::walking::WalkAt;
use crate::life::ring::{Pass, RingQueue};
use ring_table::Operation;
use running::{Op, Tie, first_step, whole};
use std::sync::Wait;

/// What a gauge shows.
#[derive(Clone, Copy, Debug, PartialEq, Eq)]
pub struct Gauge {
    /// Whether the ring was closed.
    pub closed: bool,
    /// How many values were put, of those that the ring can take: its laps times its capacity.
    pub used: u64,
}

impl<T> RingQueue<T> {
    /// Begins a gauge, and makes no step yet. If the operation is dropped, its pass goes with it, and
    /// its cell stays reserved.
    #[inline]
    pub fn begin_gauge(&self, by: Pass<T>) -> GaugeOp<T>
        requires { IsPassOf self.now by }
        ensures { IsGauging self.now result
            × (underway_of (machine_of self.now) result.pass ≡ no_step (pass_in by)) }
    {
        let Pass { pass, kept: spare } = by;
        let begun = GaugeAt {
            at: WalkAt::LoadHint(spare),
        };
        Op::begin(self, pass, Operation::Gauge, begun)
    }
}

impl<T, D: Tie<T>> RingQueue<T, D> {
    /// Whether the ring was closed, and how many values were put, both at one time since its pass's
    /// last step before the call. The gauge walks further while others put values. The call was a
    /// run of the machine's steps.
    pub fn gauge<R: Wait>(&self, rt: &R, by: Pass<T>) -> (Pass<T>, Gauge)
        requires { IsPassWith D.rule self.now by }
        ensures of { IsPassWith D.rule self.now result.0 }
        ensures gives { GaugeGives (room_of self.now) (laps_of self.now)
            (pass_in by) (pass_in result.0) result.1 }
        ensures answered { Answers (pass_in by) (pass_in result.0)
            (GaugeAnswered result.1.closed result.1.used) }
        ensures ran { WasRunWith D.rule self.now GaugeFirst (pass_in by) result.0 (AnswerGauge result.1.closed result.1.used) }
        ensures new { HasNewCall by result.0 }
    {
        let Pass { pass, kept } = by;
        let gauge = Operation::Gauge;
        let begun = GaugeAt {
            at: WalkAt::LoadHint(kept),
        };
        let first = first_step(&self.table.shared, self, pass, begun, &gauge);
        whole(rt, self, first, gauge)
    }
}
