//! A put and a take, each begun over the ring's own surface, and overtaken by another pass before its
//! exchange. The counts of steps were worked out by hand from the lines of the machine: a call loads
//! its hint, and each slot from there on; if its exchange of a slot fails, it loads that slot again;
//! a take lays the cell back in the end.

use bounded_model::{Container, Stepped};
use ring_queue::{RingLimits, RingQueue};

#[test]
fn a_put_that_another_overtakes_ends_at_its_6th_step(rt: HostRuntime) {
    let limits = RingLimits::of(2, 100, 4).expect(&rt, "limits");
    let (ring, mut root) = RingQueue::<u32>::new(rt.alloc(), limits).expect(&rt, "memory");
    let overtaken = ring.split(&mut root).expect(&rt, "a pass");
    let quick = ring.split(&mut root).expect(&rt, "a pass");
    let Stepped::Again(second) = ring.begin_put(overtaken, 7).run_for(&ring, 2) else {
        panic!(rt; "the put ended before its exchange")
    };
    let (_, first) = ring.put(&rt, quick, 8);
    let Stepped::Again(second) = second.run_for(&ring, 3) else {
        panic!(rt; "the put ended early")
    };
    let Stepped::Done(_, second) = second.step(&ring) else {
        panic!(rt; "the put ended late")
    };
    assert_eq!(rt; (first, second), (Ok(0), Ok(1)));
}

#[test]
fn a_take_that_another_overtakes_ends_at_its_7th_step(rt: HostRuntime) {
    let limits = RingLimits::of(2, 100, 4).expect(&rt, "limits");
    let (ring, mut root) = RingQueue::<u32>::new(rt.alloc(), limits).expect(&rt, "memory");
    let overtaken = ring.split(&mut root).expect(&rt, "a pass");
    let quick = ring.split(&mut root).expect(&rt, "a pass");
    let (quick, lower) = ring.put(&rt, quick, 7);
    let (quick, upper) = ring.put(&rt, quick, 8);
    assert_eq!(rt; (lower, upper), (Ok(0), Ok(1)));
    let Stepped::Again(second) = ring.begin_take(overtaken).run_for(&ring, 2) else {
        panic!(rt; "the take ended before its exchange")
    };
    let (_, first) = ring.take(&rt, quick);
    let Stepped::Again(second) = second.run_for(&ring, 4) else {
        panic!(rt; "the take ended early")
    };
    let Stepped::Done(_, second) = second.step(&ring) else {
        panic!(rt; "the take ended late")
    };
    assert_eq!(rt; (first, second), (Ok((7, 0)), Ok((8, 1))));
}
