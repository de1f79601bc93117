//! A call stops at each of its lines, and continues after others went three laps round.

ghost use Rattle.ring_queue.specs.Calls.{IsPassOf};

use crate::calls::{call_for, call_to_the_end};
use crate::rounds::{put_all, take_all};
use bounded_model::{Command, Container, PutRefused, Reply, TakeRefused};
use ring_queue::{Pass, RingLimits, RingQueue};
use std::alloc::Global;
use std::process::Abort;
use std::sync::Wait;

/// The largest number of positions between a hint and the end that it names. A walk that has passed
/// this number of positions moves the hint.
pub(crate) const LAGS: u64 = 4;

/// The number of steps that a put and a take make before their exchange, and a close and a shut
/// before they mark a slot. They load the hint, and each slot from there on. A walk that moves the
/// hint then loads the hint and a slot once more.
pub(crate) fn steps_before(lag: u64) -> u64 {
    if lag < LAGS {
        lag.saturating_add(2)
    } else {
        LAGS + 4
    }
}

/// A ring, the pass that stops, and one more, after a number of values went through. Both hints lag
/// by that number. If it is `LAGS`, a put and a take have stopped for good before they moved the
/// hints.
pub(crate) fn ring_after<R: Abort + Wait>(
    rt: &R,
    alloc: Global,
    capacity: u32,
    lag: u64,
) -> (RingQueue<u64>, Pass<u64>, Pass<u64>)
    ensures { IsPassOf result.0 result.1 × IsPassOf result.0 result.2 }
{
    let limits = RingLimits::of(capacity, 100, 4).expect(rt, "limits");
    let (ring, mut root) = RingQueue::<u64>::new(alloc, limits).expect(rt, "memory");
    let stopped = ring.split(&mut root).expect(rt, "a pass");
    let other = ring.split(&mut root).expect(rt, "a pass");
    let other = go_through(rt, &ring, other, 0, lag.min(LAGS - 1));
    if lag == LAGS {
        let putter = ring.split(&mut root).expect(rt, "a pass");
        let taker = ring.split(&mut root).expect(rt, "a pass");
        drop(call_for(rt, &ring, putter, Command::Put(7), LAGS + 2));
        drop(call_for(rt, &ring, taker, Command::Take, LAGS + 2));
    }
    (ring, stopped, other)
}

/// Puts and takes values one after another. The values are the numbers of their calls.
pub(crate) fn go_through<R: Abort + Wait>(
    rt: &R,
    ring: &RingQueue<u64>,
    by: Pass<u64>,
    from: u64,
    count: u64,
) -> Pass<u64>
    requires { IsPassOf ring.now by }
    ensures { IsPassOf ring.now result }
{
    let mut pass = by;
    for value in from..from.saturating_add(count) {
        let (back, put) = ring.put(rt, pass, value);
        assert!(rt; put == Ok(value));
        let (back, taken) = ring.take(rt, back);
        assert!(rt; taken == Ok((value, value)));
        pass = back;
    }
    pass
}

/// How many values are three laps.
pub(crate) fn three_laps(capacity: u32) -> u64 {
    u64::from(capacity).saturating_mul(3)
}

// A put stops before its exchange, which then fails or finds another slot: the put has its effect
// last.
fn put_stops<R: Abort + Wait>(rt: &R, alloc: Global, capacity: u32, lag: u64, made: u64) {
    let (ring, pass, other) = ring_after(rt, alloc, capacity, lag);
    let put = call_for(rt, &ring, pass, Command::Put(1_000), made);
    let other = go_through(rt, &ring, other, lag, three_laps(capacity));
    let number = lag.saturating_add(three_laps(capacity));
    let (_, said) = call_to_the_end(rt, &ring, put);
    assert!(rt; said == Reply::Put(Ok(number)));
    let (_, taken) = ring.take(rt, other);
    assert!(rt; taken == Ok((1_000, number)));
}

#[test]
fn a_put_that_stops_before_its_exchange_is_the_last(rt: HostRuntime) {
    for capacity in 1..=3 {
        for lag in 0..=LAGS {
            for made in 0..=steps_before(lag) {
                put_stops(&rt, rt.alloc(), capacity, lag, made);
            }
        }
    }
}

// The fourth put moves the hint after its exchange, and stops between the two. Its value is taken,
// and its number stays.
#[test]
fn a_put_that_stops_behind_its_exchange_is_the_first(rt: HostRuntime) {
    for capacity in 1..=3 {
        let (ring, pass, other) = ring_after(&rt, rt.alloc(), capacity, LAGS - 1);
        let put = call_for(&rt, &ring, pass, Command::Put(1_000), LAGS + 2);
        let (other, taken) = ring.take(&rt, other);
        assert!(rt; taken == Ok((1_000, LAGS - 1)));
        let other = go_through(&rt, &ring, other, LAGS, three_laps(capacity));
        let (_, said) = call_to_the_end(&rt, &ring, put);
        assert!(rt; said == Reply::Put(Ok(LAGS - 1)));
        let (_, taken) = ring.take(&rt, other);
        assert!(rt; taken == Err(TakeRefused::Empty));
    }
}

// A put is refused, and stops before it gets its value back: the answer stays.
#[test]
fn a_put_that_stops_behind_its_refusal_is_refused(rt: HostRuntime) {
    for capacity in 1..=3 {
        for lag in 0..=LAGS {
            let (ring, pass, other) = ring_after(&rt, rt.alloc(), capacity, lag);
            let full = lag.saturating_add(u64::from(capacity));
            let other = put_all(&rt, &ring, other, lag, full);
            let refused = (full % LAGS).saturating_add(2);
            let put = call_for(&rt, &ring, pass, Command::Put(1_000), refused);
            let other = take_all(&rt, &ring, other, lag, full);
            let _ = go_through(&rt, &ring, other, full, three_laps(capacity));
            let (_, said) = call_to_the_end(&rt, &ring, put);
            assert!(rt; said == Reply::Put(Err(PutRefused::Full(1_000))));
        }
    }
}

// A take stops before its exchange. Another pass takes the value that it has seen, and it takes the
// last.
fn take_stops_before<R: Abort + Wait>(rt: &R, alloc: Global, capacity: u32, lag: u64, made: u64) {
    let (ring, pass, other) = ring_after(rt, alloc, capacity, lag);
    let (other, put) = ring.put(rt, other, 1_000);
    assert!(rt; put == Ok(lag));
    let take = call_for(rt, &ring, pass, Command::Take, made);
    let (other, taken) = ring.take(rt, other);
    assert!(rt; taken == Ok((1_000, lag)));
    let other = go_through(
        rt,
        &ring,
        other,
        lag.saturating_add(1),
        three_laps(capacity),
    );
    let last = lag.saturating_add(1).saturating_add(three_laps(capacity));
    let (_, put) = ring.put(rt, other, 2_000);
    assert!(rt; put == Ok(last));
    let (_, said) = call_to_the_end(rt, &ring, take);
    assert!(rt; said == Reply::Take(Ok((2_000, last))));
}

// A take stops after its exchange: the value is its own, and no other pass finds one.
fn take_stops_behind<R: Abort + Wait>(rt: &R, alloc: Global, capacity: u32, lag: u64, made: u64) {
    let (ring, pass, other) = ring_after(rt, alloc, capacity, lag);
    let (other, put) = ring.put(rt, other, 1_000);
    assert!(rt; put == Ok(lag));
    let take = call_for(rt, &ring, pass, Command::Take, made);
    let (other, taken) = ring.take(rt, other);
    assert!(rt; taken == Err(TakeRefused::Empty));
    let _ = go_through(
        rt,
        &ring,
        other,
        lag.saturating_add(1),
        three_laps(capacity),
    );
    let (_, said) = call_to_the_end(rt, &ring, take);
    assert!(rt; said == Reply::Take(Ok((1_000, lag))));
}

#[test]
fn a_take_that_stops_before_its_exchange_is_the_last(rt: HostRuntime) {
    for capacity in 1..=3 {
        for lag in 0..=LAGS {
            for made in 0..=steps_before(lag) {
                take_stops_before(&rt, rt.alloc(), capacity, lag, made);
            }
        }
    }
}

#[test]
fn a_take_that_stops_behind_its_exchange_has_its_value(rt: HostRuntime) {
    for capacity in 1..=3 {
        for lag in 0..=LAGS {
            let made = steps_before(lag).saturating_add(1);
            take_stops_behind(&rt, rt.alloc(), capacity, lag, made);
        }
        take_stops_behind(&rt, rt.alloc(), capacity, LAGS - 1, LAGS + 3);
    }
}

// A close stops at each line, and closes the ring at the back that it has then.
fn close_stops<R: Abort + Wait>(rt: &R, alloc: Global, capacity: u32, lag: u64, made: u64) {
    let (ring, pass, other) = ring_after(rt, alloc, capacity, lag);
    let close = call_for(rt, &ring, pass, Command::Close, made);
    let other = go_through(rt, &ring, other, lag, three_laps(capacity));
    let number = lag.saturating_add(three_laps(capacity));
    let (other, put) = ring.put(rt, other, 1_000);
    assert!(rt; put == Ok(number));
    let (_, said) = call_to_the_end(rt, &ring, close);
    assert!(rt; said == Reply::Close(true));
    let (other, put) = ring.put(rt, other, 2_000);
    assert!(rt; put == Err(PutRefused::Closed(2_000)));
    let (other, taken) = ring.take(rt, other);
    assert!(rt; taken == Ok((1_000, number)));
    let (_, taken) = ring.take(rt, other);
    assert!(rt; taken == Err(TakeRefused::Closed));
}

// The same for a shut.
fn shut_stops<R: Abort + Wait>(rt: &R, alloc: Global, capacity: u32, lag: u64, made: u64) {
    let (ring, pass, other) = ring_after(rt, alloc, capacity, lag);
    let shut = call_for(rt, &ring, pass, Command::Shut, made);
    let other = go_through(rt, &ring, other, lag, three_laps(capacity));
    let (_, said) = call_to_the_end(rt, &ring, shut);
    assert!(rt; said == Reply::Shut(true));
    let number = lag.saturating_add(three_laps(capacity));
    let (other, put) = ring.put(rt, other, 1_000);
    assert!(rt; put == Ok(number));
    let (_, taken) = ring.take(rt, other);
    assert!(rt; taken == Err(TakeRefused::Shut));
}

#[test]
fn a_close_and_a_shut_that_stop_mark_where_the_ring_is_then(rt: HostRuntime) {
    for capacity in 1..=3 {
        for lag in 0..=LAGS {
            for made in 0..=steps_before(lag) {
                close_stops(&rt, rt.alloc(), capacity, lag, made);
                shut_stops(&rt, rt.alloc(), capacity, lag, made);
            }
        }
    }
}
