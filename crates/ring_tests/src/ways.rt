//! The ways to make a call of a ring: whole, begun as a call of any kind, and begun as one of its own
//! kind.

ghost use Rattle.ring_queue.specs.Calls.{IsPassOf};

use crate::doing::{Doing, begun, stepped};
use crate::plain::{Asked, Reply};
use bounded_model::{Container, Stepped, Stepwise};
use ring_queue::{Pass, RingQueue};
use std::process::Abort;
use std::sync::Wait;

/// A way to make a call.
#[derive(Clone, Copy, Debug, PartialEq, Eq)]
pub(crate) enum Way {
    Whole,
    BySingleSteps,
    OfItsKind,
}

/// Makes a call in this way. If it makes it by steps, exactly the last of this number ends it.
pub(crate) fn call<R: Abort + Wait>(
    rt: &R,
    ring: &RingQueue<u64>,
    by: Pass<u64>,
    way: Way,
    asked: Asked,
    steps: u64,
) -> (Pass<u64>, Reply)
    requires { IsPassOf ring.now by }
    ensures { IsPassOf ring.now result.0 }
{
    match way {
        Way::Whole => whole(rt, ring, by, asked),
        Way::BySingleSteps => by_single_steps(rt, ring, by, asked, steps),
        Way::OfItsKind => of_its_kind(rt, ring, by, asked, steps),
    }
}

// Makes a whole call.
fn whole<R: Wait>(rt: &R, ring: &RingQueue<u64>, by: Pass<u64>, asked: Asked) -> (Pass<u64>, Reply)
    requires { IsPassOf ring.now by }
    ensures { IsPassOf ring.now result.0 }
{
    match asked {
        Asked::Put(value) => {
            let (pass, put) = ring.put(rt, by, value);
            (pass, Reply::of_put(put))
        }
        Asked::Take => {
            let (pass, taken) = ring.take(rt, by);
            (pass, Reply::of_take(taken))
        }
        Asked::Close => {
            let (pass, closed) = ring.close(rt, by);
            (pass, Reply::Closed(closed))
        }
        Asked::Shut => {
            let (pass, shut) = ring.shut(rt, by);
            (pass, Reply::Shut(shut))
        }
        Asked::Look => {
            let (pass, is_empty) = ring.look(rt, by);
            (pass, Reply::Looked(is_empty))
        }
        Asked::Count => {
            let (pass, count) = ring.len(rt, by);
            (pass, Reply::Counted(u64::from(count)))
        }
        Asked::Gauge => {
            let (pass, gauge) = ring.gauge(rt, by);
            (pass, Reply::Gauged(gauge.closed, gauge.used))
        }
    }
}

// Begins a call and makes one step after another. Exactly the last of these steps ends it.
fn by_single_steps<R: Abort>(
    rt: &R,
    ring: &RingQueue<u64>,
    by: Pass<u64>,
    asked: Asked,
    steps: u64,
) -> (Pass<u64>, Reply)
    requires { IsPassOf ring.now by }
    ensures { IsPassOf ring.now result.0 }
{
    let mut doing = begun(ring, by, asked);
    for _ in 1..steps {
        let (next, reply) = stepped(ring, doing);
        assert!(rt; reply.is_none(), "the call ended early");
        doing = next;
    }
    let (end, reply) = stepped(ring, doing);
    let Doing::Rests(pass) = end else {
        panic!(rt; "the call ended late")
    };
    (pass, reply.expect(rt, "an answer"))
}

// Makes all but the last of these steps of an operation at once, and then the last, which alone ends
// it.
macro_rules! ended {
    ($rt:ident, $ring:ident, $op:expr, $steps:ident) => {{
        let Stepped::Again(last) = $op.run_for($ring, $steps.saturating_sub(1)) else {
            panic!($rt; "the call ended early")
        };
        let Stepped::Done(pass, said) = last.step($ring) else {
            panic!($rt; "the call ended late")
        };
        (pass, said)
    }};
}

// Begins a call of its own kind, and makes these steps, of which the last alone ends it.
fn of_its_kind<R: Abort>(
    rt: &R,
    ring: &RingQueue<u64>,
    by: Pass<u64>,
    asked: Asked,
    steps: u64,
) -> (Pass<u64>, Reply)
    requires { IsPassOf ring.now by }
    ensures { IsPassOf ring.now result.0 }
{
    match asked {
        Asked::Put(value) => {
            let (pass, put) = ended!(rt, ring, ring.begin_put(by, value), steps);
            (pass, Reply::of_put(put))
        }
        Asked::Take => {
            let (pass, taken) = ended!(rt, ring, ring.begin_take(by), steps);
            (pass, Reply::of_take(taken))
        }
        Asked::Close => {
            let (pass, closed) = ended!(rt, ring, ring.begin_close(by), steps);
            (pass, Reply::Closed(closed))
        }
        Asked::Shut => {
            let (pass, shut) = ended!(rt, ring, ring.begin_shut(by), steps);
            (pass, Reply::Shut(shut))
        }
        Asked::Look => {
            let (pass, is_empty) = ended!(rt, ring, ring.begin_look(by), steps);
            (pass, Reply::Looked(is_empty))
        }
        Asked::Count => {
            let (pass, count) = ended!(rt, ring, ring.begin_len(by), steps);
            (pass, Reply::Counted(count))
        }
        Asked::Gauge => {
            let (pass, gauge) = ended!(rt, ring, ring.begin_gauge(by), steps);
            (pass, Reply::Gauged(gauge.closed, gauge.used))
        }
    }
}
