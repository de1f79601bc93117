//! All the passes for which a ring was made, each of which has stopped in the middle of a call.
//! Each has a cell of its own.

ghost use Rattle.ring_queue.specs.Calls.{IsRootOf};

use crate::calls::{call_for, call_to_the_end};
use bounded_model::{Command, Container, Leaving, PutRefused, Reply, TakeRefused};
use ring_queue::{RingLimits, RingQueue, Root};
use std::process::Abort;

// All passes stop in a put, with the value in their cell. The root gives no further pass. They
// continue in the opposite order, until the ring is full.
fn all_put<R: Abort>(
    rt: &R,
    ring: &RingQueue<u64>,
    root: &mut Root<u64>,
    passes: u64,
    capacity: u64,
)
    requires { IsRootOf ring.now root.old }
    ensures { IsRootOf ring.now root.new }
{
    if passes == 0 {
        assert!(rt; ring.split(root).is_none());
        return;
    }
    let pass = ring.split(root).expect(rt, "a pass");
    let put = call_for(rt, ring, pass, Command::Put(passes), 1);
    let number = passes - 1;
    all_put(rt, ring, root, number, capacity);
    let (pass, said) = call_to_the_end(rt, ring, put);
    let wanted = if number < capacity {
        Ok(number)
    } else {
        Err(PutRefused::Full(passes))
    };
    assert!(rt; said == Reply::Put(wanted));
    ring.join(root, pass);
}

// The same for takes: each has seen the first value before it stops.
fn all_take<R: Abort>(
    rt: &R,
    ring: &RingQueue<u64>,
    root: &mut Root<u64>,
    passes: u64,
    capacity: u64,
)
    requires { IsRootOf ring.now root.old }
    ensures { IsRootOf ring.now root.new }
{
    if passes == 0 {
        assert!(rt; ring.split(root).is_none());
        return;
    }
    let pass = ring.split(root).expect(rt, "a pass");
    let take = call_for(rt, ring, pass, Command::Take, 2);
    let number = passes - 1;
    all_take(rt, ring, root, number, capacity);
    let (pass, said) = call_to_the_end(rt, ring, take);
    let wanted = if number < capacity {
        Ok((passes, number))
    } else {
        Err(TakeRefused::Empty)
    };
    assert!(rt; said == Reply::Take(wanted));
    ring.join(root, pass);
}

#[test]
fn each_of_all_passes_stops_with_a_cell_of_its_own(rt: HostRuntime) {
    for capacity in 1..=3 {
        for passes in 2..=7 {
            let limits = RingLimits::of(capacity, 2, passes).expect(&rt, "limits");
            let (ring, mut root) = RingQueue::<u64>::new(rt.alloc(), limits).expect(&rt, "memory");
            all_put(
                &rt,
                &ring,
                &mut root,
                u64::from(passes),
                u64::from(capacity),
            );
            all_take(
                &rt,
                &ring,
                &mut root,
                u64::from(passes),
                u64::from(capacity.min(passes)),
            );
            assert!(rt; ring.finish(root).next().is_none());
        }
    }
}
