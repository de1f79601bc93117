//! A look and a count stop at each of their lines, and continue after others went three laps round.
//! Their answers are right for the ring as it is then.

use crate::calls::{call_for, call_to_the_end, count_for, count_to_the_end};
use crate::stopped::{LAGS, go_through, ring_after, steps_before, three_laps};
use bounded_model::{Command, Container, Reply};
use std::alloc::Global;
use std::process::Abort;
use std::sync::Wait;

fn look_stops<R: Abort + Wait>(rt: &R, alloc: Global, capacity: u32, lag: u64, made: u64) {
    let (ring, pass, other) = ring_after(rt, alloc, capacity, lag);
    let look = call_for(rt, &ring, pass, Command::Look, made);
    let other = go_through(rt, &ring, other, lag, three_laps(capacity));
    let (_, put) = ring.put(rt, other, 1_000);
    assert!(rt; put.is_ok());
    let (_, said) = call_to_the_end(rt, &ring, look);
    assert!(rt; said == Reply::Look(false));
}

// One that stops before its second look at the front begins again.
fn count_stops<R: Abort + Wait>(rt: &R, alloc: Global, capacity: u32, lag: u64, made: u64) {
    let (ring, pass, other) = ring_after(rt, alloc, capacity, lag);
    let count = count_for(rt, &ring, ring.begin_len(pass), made);
    let other = go_through(rt, &ring, other, lag, three_laps(capacity));
    let (_, put) = ring.put(rt, other, 1_000);
    assert!(rt; put.is_ok());
    let (_, found) = count_to_the_end(rt, &ring, count);
    assert!(rt; found == 1);
}

#[test]
fn a_look_and_a_count_that_stop_answer_of_the_ring_as_it_is_then(rt: HostRuntime) {
    for capacity in 1..=3 {
        for lag in 0..=LAGS {
            for made in 0..steps_before(lag) {
                look_stops(&rt, rt.alloc(), capacity, lag, made);
            }
            for made in 0..=steps_before(lag).saturating_mul(2) {
                count_stops(&rt, rt.alloc(), capacity, lag, made);
            }
        }
    }
}
