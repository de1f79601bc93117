//! Gauges of a queue.

ghost use Rattle.ms_queue.specs.Calls.{IsGauging};

use bounded_model::{Container, Stepped};
use ms_queue::{Gauge, GaugeOp, Queue};
use std::process::Abort;
use tagged_index::{Limits, MAX_TAG};

// A gauge makes four steps if nothing is put meanwhile.
const GAUGE_STEPS: u32 = 4;

// Makes `steps` steps of a gauge. None of them ends it.
fn go_on<R: Abort>(rt: &R, queue: &Queue<u32>, op: GaugeOp<u32>, steps: u32) -> GaugeOp<u32>
    requires { IsGauging queue.now op }
    ensures { IsGauging queue.now result }
{
    let mut op = op;
    for _ in 0..steps {
        let Stepped::Again(next) = op.step(queue) else {
            panic!(rt; "the gauge ended early")
        };
        op = next;
    }
    op
}

// Whole calls, and one by single steps. It begins again, since a value was put before its last
// step.
#[test]
fn a_gauge_counts_what_was_put(rt: HostRuntime) {
    let limits = Limits::of(2, MAX_TAG).expect(&rt, "limits");
    let (queue, mut root) = Queue::<u32>::new(rt.alloc(), limits).expect(&rt, "memory");
    let pass = queue.split(&mut root).expect(&rt, "a pass");
    let other = queue.split(&mut root).expect(&rt, "a pass");
    let (pass, gauge) = queue.gauge(&rt, pass);
    assert_eq!(rt;
        gauge,
        Gauge {
            closed: false,
            used: 0
        }
    );
    let (pass, put) = queue.put(&rt, pass, 7);
    assert!(rt; put.is_ok());
    let (pass, taken) = queue.take(&rt, pass);
    assert!(rt; taken.is_ok());
    let op = go_on(&rt, &queue, queue.begin_gauge(other), GAUGE_STEPS - 1);
    let (pass, put) = queue.put(&rt, pass, 8);
    assert!(rt; put.is_ok());
    let op = go_on(&rt, &queue, op, GAUGE_STEPS);
    let Stepped::Done(_, gauge) = op.step(&queue) else {
        panic!(rt; "the gauge did not end")
    };
    assert_eq!(rt;
        gauge,
        Gauge {
            closed: false,
            used: 2
        }
    );
    let (pass, closed) = queue.close(&rt, pass);
    assert!(rt; closed);
    let (_, gauge) = queue.gauge(&rt, pass);
    assert_eq!(rt;
        gauge,
        Gauge {
            closed: true,
            used: 2
        }
    );
}
