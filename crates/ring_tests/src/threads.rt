//! One thread stops in the middle of a put, and one in the middle of a take. Other passes continue,
//! and the two calls end once their threads continue.

ghost use Rattle.ring_queue.specs.Calls.{IsPassOf};

use crate::calls::{call_for, call_to_the_end};
use crate::rounds::{put_all, take_all};
use crate::stopped::go_through;
use bounded_model::{Command, Container, Reply, TakeRefused};
use ring_queue::{Pass, RingLimits, RingQueue};
use std::process::Abort;
use std::sync::{Barrier, Wait};
use std::thread;
use std::thread::Threads;

/// How many values go through while the two have stopped.
const THROUGH: u64 = 3_000;

// A put stops after this number of steps, until the other passes let it continue, and reports its
// end.
fn put_between<R: Abort + Wait>(
    rt: &R,
    ring: &RingQueue<u64>,
    by: Pass<u64>,
    made: u64,
    gate: &Barrier,
)
    requires { IsPassOf ring.now by }
{
    let put = call_for(rt, ring, by, Command::Put(1_000), made);
    let _ = gate.wait(rt);
    let _ = gate.wait(rt);
    let (_, said) = call_to_the_end(rt, ring, put);
    assert!(rt; said == Reply::Put(Ok(THROUGH.saturating_add(1))));
    let _ = gate.wait(rt);
}

// The same for a take.
fn take_between<R: Abort + Wait>(
    rt: &R,
    ring: &RingQueue<u64>,
    by: Pass<u64>,
    made: u64,
    gate: &Barrier,
)
    requires { IsPassOf ring.now by }
{
    let take = call_for(rt, ring, by, Command::Take, made);
    let _ = gate.wait(rt);
    let _ = gate.wait(rt);
    let (_, said) = call_to_the_end(rt, ring, take);
    assert!(rt; said == Reply::Take(Ok((1_000, THROUGH.saturating_add(1)))));
    let _ = gate.wait(rt);
}

// Both stop before their exchange. The take has seen value 0 by then. A third pass takes that value
// and makes further calls. Then the put ends, and then the take, which takes the value of the put.
fn others_go_on<R: Abort + Threads + Wait + Sync>(
    rt: &R,
    ring: &RingQueue<u64>,
    putter: Pass<u64>,
    taker: Pass<u64>,
    other: Pass<u64>,
) -> Pass<u64>
    requires putter { IsPassOf ring.now putter }
    requires taker { IsPassOf ring.now taker }
    requires other { IsPassOf ring.now other }
    ensures { IsPassOf ring.now result }
{
    let put_gate = Barrier::new(2);
    let take_gate = Barrier::new(2);
    let (put_gate, take_gate) = (&put_gate, &take_gate);
    thread::scope(
        thread::scope_env(),
        rt,
        |scope| -> Pass<u64>
            requires putter { IsPassOf ring.now putter }
            requires taker { IsPassOf ring.now taker }
            requires other { IsPassOf ring.now other }
            ensures { IsPassOf ring.exit.now result }
        {
            let put = scope.spawn(
                move ||
                    requires { IsPassOf ring.now putter }
                { put_between(rt, ring, putter, 2, put_gate) },
            );
            assert!(rt; put.is_ok());
            let _ = put_gate.wait(rt);
            let other = put_all(rt, ring, other, 0, 1);
            let take = scope.spawn(
                move ||
                    requires { IsPassOf ring.now taker }
                { take_between(rt, ring, taker, 2, take_gate) },
            );
            assert!(rt; take.is_ok());
            let _ = take_gate.wait(rt);
            let other = take_all(rt, ring, other, 0, 1);
            let other = go_through(rt, ring, other, 1, THROUGH);
            let _ = put_gate.wait(rt);
            let _ = put_gate.wait(rt);
            let _ = take_gate.wait(rt);
            let _ = take_gate.wait(rt);
            other
        },
    )
}

#[test]
fn threads_that_stop_in_a_put_and_in_a_take_stop_nobody(rt: HostRuntime) {
    for capacity in 1..=3 {
        let limits = RingLimits::of(capacity, 10_000, 3).expect(&rt, "limits");
        let (ring, mut root) = RingQueue::<u64>::new(rt.alloc(), limits).expect(&rt, "memory");
        let putter = ring.split(&mut root).expect(&rt, "a pass");
        let taker = ring.split(&mut root).expect(&rt, "a pass");
        let other = ring.split(&mut root).expect(&rt, "a pass");
        let other = others_go_on(&rt, &ring, putter, taker, other);
        let (_, taken) = ring.take(&rt, other);
        assert!(rt; taken == Err(TakeRefused::Empty));
    }
}
