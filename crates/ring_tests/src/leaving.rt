//! What is left in a ring at its end.

ghost use Rattle.ring_queue.specs.code.Leaving.{left_in};

use crate::rounds::{put_all, take_all};
use bounded_model::{Container, Leaving};
use ring_queue::{Rest, RingLimits, RingQueue};
use std::alloc::Global;
use std::process::Abort;
use std::sync::Wait;

// Reads the values from one number up to another, and then none.
fn read_all<R: Abort>(rt: &R, rest: Rest<u64>, from: u64, to: u64) {
    let mut rest = rest;
    for value in from..to {
        assert!(rt; rest.next() == Some(value));
    }
    assert!(rt; rest.next() == None);
    assert!(rt; rest.next() == None);
}

// Puts the values from 0 on, takes some of them, and reads the remaining ones.
fn left_in_order<R: Abort + Wait>(rt: &R, alloc: Global, capacity: u32, taken: u64, left: u64) {
    let limits = RingLimits::of(capacity, 100, 3).expect(rt, "limits");
    let (ring, mut root) = RingQueue::<u64>::new(alloc, limits).expect(rt, "memory");
    let mut pass = ring.split(&mut root).expect(rt, "a pass");
    for value in 0..taken {
        let put = put_all(rt, &ring, pass, value, value.saturating_add(1));
        pass = take_all(rt, &ring, put, value, value.saturating_add(1));
    }
    let last = taken.saturating_add(left);
    let pass = put_all(rt, &ring, pass, taken, last);
    ring.join(&mut root, pass);
    read_all(rt, ring.finish(root), taken, last);
}

#[test]
fn a_ring_leaves_its_values_in_order(rt: HostRuntime) {
    for capacity in 1..6 {
        for taken in 0..24 {
            for left in 0..=capacity {
                left_in_order(&rt, rt.alloc(), capacity, taken, u64::from(left));
            }
        }
    }
}
