//! What a ring may be made with, and how many passes it gives.

ghost use Rattle.ring_queue.specs.Calls.{IsRootOf};

use bounded_model::Container;
use ring_queue::{RingLimits, RingQueue, Root};
use std::process::Abort;

#[test]
fn limits_are_made_in_range_alone(rt: HostRuntime) {
    for (capacity, laps, passes) in [
        (1, 1, 2),
        (1_048_573, 1, 2),
        (1, 2_199_023_255_551, 2),
        (983_040, 1, 65_535),
    ] {
        let limits = RingLimits::of(capacity, laps, passes).expect(&rt, "in range");
        assert_eq!(rt;
            (limits.capacity(), limits.laps(), limits.passes()),
            (capacity, laps, passes)
        );
    }
    for (capacity, laps, passes) in [
        (0, 1, 2),
        (1_048_574, 1, 2),
        (983_041, 1, 65_535),
        (1, 0, 2),
        (1, 2_199_023_255_552, 2),
        (1, 1, 1),
        (1, 1, 65_536),
    ] {
        assert_eq!(rt; RingLimits::of(capacity, laps, passes), None);
    }
}

#[test]
fn want_of_memory_refuses_a_ring(rt: HostRuntime) {
    let limits = RingLimits::of(40, 100, 7).expect(&rt, "limits");
    let Ok((ring, root)) = RingQueue::<u32>::new(rt.alloc(), limits) else {
        return;
    };
    assert_eq!(rt; ring.capacity(), 40);
    drop(root);
    drop(ring);
}

// Takes this number of passes from the root, and drops each.
fn dropped_passes<R: Abort>(rt: &R, ring: &RingQueue<u32>, root: &mut Root<u32>, count: u32)
    requires { IsRootOf ring.now root.old }
    ensures { IsRootOf ring.now root.new }
{
    for _ in 0..count {
        assert!(rt; ring.split(root).is_some());
    }
}

#[test]
fn a_ring_gives_the_passes_that_it_was_made_for(rt: HostRuntime) {
    for passes in [2, 3, 65_535] {
        let limits = RingLimits::of(1, 1, passes).expect(&rt, "limits");
        let (ring, mut root) = RingQueue::<u32>::new(rt.alloc(), limits).expect(&rt, "memory");
        dropped_passes(&rt, &ring, &mut root, passes.saturating_sub(1));
        let pass = ring.split(&mut root).expect(&rt, "a pass");
        assert!(rt; ring.split(&mut root).is_none());
        ring.join(&mut root, pass);
        dropped_passes(&rt, &ring, &mut root, 1);
        assert!(rt; ring.split(&mut root).is_none());
    }
}
