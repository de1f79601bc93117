//! The calls that wait.

use crate::alone::{stops, wears_out};
use crate::made::{Made, with_limits, with_room};
use crate::passes::all_passes;
use crate::together::{all_through, put_beside_take, take_beside_put};
use bounded_model::{Container, Order};
use std::alloc::Global;
use std::process::Abort;
use std::sync::Wait;
use std::thread::Threads;
use tagged_index::{Limits, MAX_TAG};
use waiting::{PutStopped, TakeStopped};

/// How many numbers go through a container with room for three.
const COUNT: u64 = 20_000;

// A put that is refused waits for a take.
fn put_waits_for_a_take<C: Made<u64> + Sync, R: Abort + Threads + Wait + Sync>(
    rt: &R,
    alloc: Global,
) {
    let (container, mut root) = with_room::<u64, C, R>(rt, alloc, 1);
    let first = container.split(&mut root).expect(rt, "a pass");
    let second = container.split(&mut root).expect(rt, "a pass");
    let (put, taken) = put_beside_take(rt, &container, first, second);
    assert!(rt; put.is_ok());
    assert!(rt; taken.map(|found| found.0) == Ok(1));
}

// A take that is refused waits for a put.
fn take_waits_for_a_put<C: Made<u64> + Sync, R: Abort + Threads + Wait + Sync>(
    rt: &R,
    alloc: Global,
) {
    let (container, mut root) = with_room::<u64, C, R>(rt, alloc, 1);
    let first = container.split(&mut root).expect(rt, "a pass");
    let second = container.split(&mut root).expect(rt, "a pass");
    let (put, taken) = take_beside_put(rt, &container, first, second);
    assert_eq!(rt; put, Ok(0));
    assert!(rt; taken.map(|found| found.0) == Ok(5));
}

// Each waits for the other, many times.
fn many_go_through<C: Made<u64> + Sync, R: Abort + Threads + Wait + Sync>(rt: &R, alloc: Global) {
    let (container, mut root) = with_room::<u64, C, R>(rt, alloc, 3);
    let putter = container.split(&mut root).expect(rt, "a pass");
    let taker = container.split(&mut root).expect(rt, "a pass");
    let (through, why) = all_through(rt, &container, putter, taker, COUNT);
    assert_eq!(rt; why, TakeStopped::Closed);
    assert_eq!(rt; (through.count, through.sum), (20_000, 199_990_000));
    match C::ORDER {
        Order::Fifo => assert!(rt; through.in_order),
        Order::Lifo => {}
    }
}

/// They try again, and wait for another thread.
pub(crate) fn calls_wait<C: Made<u64> + Sync, R: Abort + Threads + Wait + Sync>(
    rt: &R,
    alloc: Global,
) {
    put_waits_for_a_take::<C, R>(rt, alloc);
    take_waits_for_a_put::<C, R>(rt, alloc);
    many_go_through::<C, R>(rt, alloc);
}

/// What they do on one thread, and the passes for many.
pub(crate) fn calls_stop<C: Made<u64>, R: Abort + Wait>(rt: &R, alloc: Global) {
    let (container, mut root) = with_room::<u64, C, R>(rt, alloc, 4);
    let pass = container.split(&mut root).expect(rt, "a pass");
    stops(rt, &container, pass);
    let limits = Limits::of(1, 2).expect(rt, "limits");
    let (container, mut root) = with_limits::<u64, C, R>(rt, alloc, limits);
    let pass = container.split(&mut root).expect(rt, "a pass");
    let worn = wears_out(rt, &container, pass);
    assert!(rt; matches!(worn, Some(PutStopped::Spent(_, _, _))));
    let limits = Limits::of(4, MAX_TAG).expect(rt, "limits");
    let (container, root) = with_limits::<u64, C, R>(rt, alloc, limits);
    all_passes(rt, alloc, container, root);
}
