//! A ring goes round, closes when it is full or empty, and wears out.

ghost use Rattle.ring_queue.specs.Calls.{IsPassOf};

use bounded_model::{Container, PutRefused, Stepwise, TakeRefused, Word};
use ring_queue::{Pass, RingLimits, RingQueue};
use std::alloc::Global;
use std::process::Abort;
use std::sync::Wait;

/// A ring and one pass.
pub(crate) fn ring_of<R: Abort>(
    rt: &R,
    alloc: Global,
    capacity: u32,
    laps: u64,
) -> (RingQueue<u64>, Pass<u64>)
    ensures { IsPassOf result.0 result.1 }
{
    let limits = RingLimits::of(capacity, laps, 2).expect(rt, "limits");
    let (ring, mut root) = RingQueue::<u64>::new(alloc, limits).expect(rt, "memory");
    let pass = ring.split(&mut root).expect(rt, "a pass");
    (ring, pass)
}

/// Puts the values from one number up to another, each of which is the put's number too.
pub(crate) fn put_all<R: Abort + Wait>(
    rt: &R,
    ring: &RingQueue<u64>,
    by: Pass<u64>,
    from: u64,
    to: u64,
) -> Pass<u64>
    requires { IsPassOf ring.now by }
    ensures { IsPassOf ring.now result }
{
    let mut pass = by;
    for value in from..to {
        let (back, put) = ring.put(rt, pass, value);
        assert!(rt; put == Ok(value));
        pass = back;
    }
    pass
}

/// Takes them.
pub(crate) fn take_all<R: Abort + Wait>(
    rt: &R,
    ring: &RingQueue<u64>,
    by: Pass<u64>,
    from: u64,
    to: u64,
) -> Pass<u64>
    requires { IsPassOf ring.now by }
    ensures { IsPassOf ring.now result }
{
    let mut pass = by;
    for value in from..to {
        let (back, taken) = ring.take(rt, pass);
        assert!(rt; taken == Ok((value, value)));
        pass = back;
    }
    pass
}

// Puts and takes one value after another.
fn pass_through<R: Abort + Wait>(
    rt: &R,
    ring: &RingQueue<u64>,
    by: Pass<u64>,
    count: u64,
) -> Pass<u64>
    requires { IsPassOf ring.now by }
    ensures { IsPassOf ring.now result }
{
    let mut pass = by;
    for value in 0..count {
        let put = put_all(rt, ring, pass, value, value.saturating_add(1));
        pass = take_all(rt, ring, put, value, value.saturating_add(1));
    }
    pass
}

#[test]
fn a_ring_is_spent_after_its_laps(rt: HostRuntime) {
    for capacity in 1..=3 {
        for laps in 1..=12 {
            let (ring, pass) = ring_of(&rt, rt.alloc(), capacity, laps);
            let count = laps.saturating_mul(u64::from(capacity));
            let pass = pass_through(&rt, &ring, pass, count);
            let (pass, put) = ring.put(&rt, pass, 7);
            let tag = laps.saturating_mul(2);
            assert!(rt; put == Err(PutRefused::Spent(7, Word::Next(0), tag)));
            let (pass, taken) = ring.take(&rt, pass);
            assert!(rt; taken == Err(TakeRefused::Empty));
            let (_, gauge) = ring.gauge(&rt, pass);
            assert!(rt; !gauge.closed && gauge.used == count);
        }
    }
}

// A ring is closed after some values went through, with some values in it.
fn closed_with<R: Abort + Wait>(rt: &R, alloc: Global, capacity: u32, through: u64, there: u64) {
    let (ring, pass) = ring_of(rt, alloc, capacity, 100);
    let pass = pass_through(rt, &ring, pass, through);
    let last = through.saturating_add(there);
    let pass = put_all(rt, &ring, pass, through, last);
    let (pass, count) = ring.len(rt, pass);
    assert!(rt; u64::from(count) == there);
    let (pass, gauge) = ring.gauge(rt, pass);
    assert!(rt; !gauge.closed && gauge.used == last);
    let (pass, closed) = ring.close(rt, pass);
    assert!(rt; closed);
    let (pass, again) = ring.close(rt, pass);
    assert!(rt; !again);
    let (pass, put) = ring.put(rt, pass, 7);
    assert!(rt; put == Err(PutRefused::Closed(7)));
    let pass = take_all(rt, &ring, pass, through, last);
    let (pass, taken) = ring.take(rt, pass);
    assert!(rt; taken == Err(TakeRefused::Closed));
    let (_, gauge) = ring.gauge(rt, pass);
    assert!(rt; gauge.closed && gauge.used == last);
}

// The same for a ring that is shut: it can be filled and closed, and nothing is taken.
fn shut_with<R: Abort + Wait>(rt: &R, alloc: Global, capacity: u32, through: u64, there: u64) {
    let (ring, pass) = ring_of(rt, alloc, capacity, 100);
    let pass = pass_through(rt, &ring, pass, through);
    let pass = put_all(rt, &ring, pass, through, through.saturating_add(there));
    let (pass, shut) = ring.shut(rt, pass);
    assert!(rt; shut);
    let (pass, again) = ring.shut(rt, pass);
    assert!(rt; !again);
    let (pass, is_empty) = ring.look(rt, pass);
    assert!(rt; is_empty == (there == 0));
    let full = through.saturating_add(u64::from(capacity));
    let pass = put_all(rt, &ring, pass, through.saturating_add(there), full);
    let (pass, put) = ring.put(rt, pass, 7);
    assert!(rt; put == Err(PutRefused::Full(7)));
    let (pass, closed) = ring.close(rt, pass);
    assert!(rt; closed);
    let (pass, put) = ring.put(rt, pass, 7);
    assert!(rt; put == Err(PutRefused::Closed(7)));
    let (pass, taken) = ring.take(rt, pass);
    assert!(rt; taken == Err(TakeRefused::Shut));
    let (_, count) = ring.len(rt, pass);
    assert!(rt; count == capacity);
}

// Empty, full, and each state between, at the first lap and at later ones, and round the end of the
// circle.
#[test]
fn a_ring_is_closed_and_shut_with_any_number_of_values(rt: HostRuntime) {
    for capacity in 1..=3 {
        for through in 0..10 {
            for there in 0..=u64::from(capacity) {
                closed_with(&rt, rt.alloc(), capacity, through, there);
                shut_with(&rt, rt.alloc(), capacity, through, there);
            }
        }
    }
}
