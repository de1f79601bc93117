//! What the passes of a ring do: nothing, or a call by single steps.

ghost use Rattle.bounded_model.specs.Stepping.{MatchStepped};
ghost use Rattle.ring_queue.specs.Calls.{IsCounting, IsGauging, IsPassOf};
ghost use Rattle.ring_tests.specs.Doing.{IsDoing};

use crate::plain::{Asked, Reply};
use bounded_model::{Command, Stepped, Stepwise};
use ring_queue::{AnyOp, Gauge, GaugeOp, LenOp, Pass, RingQueue};

/// A pass between its calls, or its call under way.
#[derive(Drop)]
pub(crate) enum Doing {
    Rests(Pass<u64>),
    Calls(AnyOp<u64>),
    Counts(LenOp<u64>),
    Gauges(GaugeOp<u64>),
}

/// Begins this call.
pub(crate) fn begun(ring: &RingQueue<u64>, pass: Pass<u64>, asked: Asked) -> Doing
    requires { IsPassOf ring.now pass }
    ensures { IsDoing ring.now result }
{
    let command = match asked {
        Asked::Put(value) => Command::Put(value),
        Asked::Take => Command::Take,
        Asked::Close => Command::Close,
        Asked::Shut => Command::Shut,
        Asked::Look => Command::Look,
        Asked::Count => return Doing::Counts(ring.begin_len(pass)),
        Asked::Gauge => return Doing::Gauges(ring.begin_gauge(pass)),
    };
    Doing::Calls(ring.begin(pass, command))
}

/// Makes one step of a call. If it ends the call, the answer comes too.
pub(crate) fn stepped(ring: &RingQueue<u64>, doing: Doing) -> (Doing, Option<Reply>)
    requires { IsDoing ring.now doing }
    ensures { IsDoing ring.now result.0 }
{
    match doing {
        Doing::Rests(pass) => (Doing::Rests(pass), None),
        Doing::Calls(op) => match ring.step(op) {
            Stepped::Again(next) => (Doing::Calls(next), None),
            Stepped::Done(pass, said) => (Doing::Rests(pass), Some(Reply::of(said))),
        },
        Doing::Counts(op) => match count_on(ring, op, 1) {
            Stepped::Again(next) => (Doing::Counts(next), None),
            Stepped::Done(pass, count) => (Doing::Rests(pass), Some(Reply::Counted(count))),
        },
        Doing::Gauges(op) => match gauge_on(ring, op, 1) {
            Stepped::Again(next) => (Doing::Gauges(next), None),
            Stepped::Done(pass, gauge) => (
                Doing::Rests(pass),
                Some(Reply::Gauged(gauge.closed, gauge.used)),
            ),
        },
    }
}

/// Makes at most this number of steps of a count.
pub(crate) fn count_on(
    ring: &RingQueue<u64>,
    op: LenOp<u64>,
    steps: u64,
) -> Stepped<LenOp<u64>, Pass<u64>, u64>
    requires { IsCounting ring.now op }
    ensures { MatchStepped result (λ next. IsCounting ring.now next)
        (λ back count. IsPassOf ring.now back) }
{
    op.run_for(ring, steps)
}

/// The same for a gauge.
pub(crate) fn gauge_on(
    ring: &RingQueue<u64>,
    op: GaugeOp<u64>,
    steps: u64,
) -> Stepped<GaugeOp<u64>, Pass<u64>, Gauge>
    requires { IsGauging ring.now op }
    ensures { MatchStepped result (λ next. IsGauging ring.now next)
        (λ back gauge. IsPassOf ring.now back) }
{
    op.run_for(ring, steps)
}
