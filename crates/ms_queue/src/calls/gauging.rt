//! Gauging a queue: whether it is closed, and how many of its tags are used.
ghost use Rattle.std.specs.Prelude.{◌≡◌};
ghost use Rattle.bounded_model.specs.Laws.{Answers};
ghost use Rattle.bounded_model.specs.Stepping.{no_step};
ghost use Rattle.bounded_model.specs.declared.views.Answered.TheVariants.{Gauge as GaugeAnswered};
ghost use Rattle.queue_machine.specs.declared.lines.Answer.TheVariants.{Gauge as AnswerGauge};
ghost use Rattle.queue_table.specs.declared.operation.Operation.TheVariants.{Gauge as GaugeFirst};
ghost use Rattle.running.specs.Ops.{underway_of};
ghost use Rattle.running.specs.Kept.{HasNewCall};
ghost use Rattle.ms_queue.specs.Calls.{GaugeGives, IsGauging, IsPassOf, IsPassWith, limit_of, machine_of, pass_in, room_of, WasRunWith};

use crate::code::gauging::{GaugeAt, GaugeOp};
use crate::code::seeking::Seek;
use crate::life::queue::{Pass, Queue};
use queue_table::Operation;
use running::{Op, Tie, first_step, whole};
use std::sync::Wait;

/// What a gauge shows.
#[derive(Clone, Copy, Debug, PartialEq, Eq)]
pub struct Gauge {
    /// Whether the queue was closed.
    pub closed: bool,
    /// How many values were put, at most the tag limit.
    pub used: u64,
}

impl<T> Queue<T> {
    /// Begins a gauge, and makes no step yet. If the operation is dropped, its pass goes with it.
    #[inline]
    pub fn begin_gauge(&self, by: Pass<T>) -> GaugeOp<T>
        requires { IsPassOf self.now by }
        ensures { IsGauging self.now result
            × (underway_of (machine_of self.now) result.pass ≡ no_step (pass_in by)) }
    {
        let Pass { pass, .. } = by;
        let begun = GaugeAt::Seeking(Seek::LoadTail);
        Op::begin(self, pass, Operation::Gauge, begun)
    }
}

impl<T, D: Tie<T>> Queue<T, D> {
    /// Whether the queue was closed, and how many tags were used, both at one time since its pass's
    /// last step before the call. The call retries while others put values. It was a run of the
    /// machine's steps. Called in `queue_tests`.
    pub fn gauge<R: Wait>(&self, rt: &R, by: Pass<T>) -> (Pass<T>, Gauge)
        requires { IsPassWith D.rule self.now by }
        ensures of { IsPassWith D.rule self.now result.0 }
        ensures gives { GaugeGives (room_of self.now) (limit_of self.now)
            (pass_in by) (pass_in result.0) result.1 }
        ensures answered { Answers (pass_in by) (pass_in result.0)
            (GaugeAnswered result.1.closed result.1.used) }
        ensures ran { WasRunWith D.rule self.now GaugeFirst (pass_in by) result.0
            (AnswerGauge result.1.closed result.1.used) }
        ensures new { HasNewCall by result.0 }
    {
        let Pass { pass, .. } = by;
        let gauge = Operation::Gauge;
        let begun = GaugeAt::Seeking(Seek::LoadTail);
        let first = first_step(&self.table.shared, self, pass, begun, &gauge);
        whole(rt, self, first, gauge)
    }
}
