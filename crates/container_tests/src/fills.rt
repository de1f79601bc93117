//! Values through any container: by one thread, and by many at once.

ghost use Rattle.std.specs.Prelude.{All};

use crate::crowd::{exchange, take_after_own_put};
use crate::log::Log;
use crate::made::{Made, with_room};
use bounded_model::{Container, Order, PutRefused, TakeRefused, consume_all, consume_one};
use std::alloc::Global;
use std::process::Abort;
use std::sync::Wait;
use std::thread::Threads;

// Threads that put and threads that take, and how many values each putting thread puts.
#[derive(Clone, Copy)]
struct Crowd {
    producers: u32,
    consumers: u32,
    each: u64,
}

// `count` passes.
fn passes<C: Container<u64>, R: Abort>(
    rt: &R,
    alloc: Global,
    container: &C,
    root: &mut C::Root,
    count: u32,
) -> Vec<C::Pass>
    requires { C.is_root container.now root.old }
    ensures root { C.is_root container.now root.new }
    ensures passes { All (C.is_pass container.now) result.items }
{
    let mut all = Vec::new(alloc);
    for _ in 0..count {
        let pass = container.split(root).expect(rt, "a pass");
        assert!(rt; all.push(pass).is_ok());
    }
    all
}

// One value in and out, twice, through a container with room for one.
fn one_value_at_a_time<C: Made<u64>, R: Abort + Wait>(rt: &R, alloc: Global) {
    let (container, mut root) = with_room::<u64, C, R>(rt, alloc, 1);
    let pass = container.split(&mut root).expect(rt, "a pass");
    let (pass, put) = container.put(rt, pass, 7);
    assert!(rt; put.is_ok());
    let (pass, full) = container.put(rt, pass, 9);
    assert!(rt; full == Err(PutRefused::Full(9)));
    let (pass, taken) = container.take(rt, pass);
    assert!(rt; taken.map(|found| found.0) == Ok(7));
    let (pass, put) = container.put(rt, pass, 8);
    assert!(rt; put.is_ok());
    let (pass, taken) = container.take(rt, pass);
    assert!(rt; taken.map(|found| found.0) == Ok(8));
    let (_, empty) = container.take(rt, pass);
    assert!(rt; empty == Err(TakeRefused::Empty));
}

// Fills an empty container. It has room for `capacity` values and for no more.
fn fill<C: Container<u64>, R: Abort + Wait>(rt: &R, container: &C, by: C::Pass) -> C::Pass
    requires { C.is_pass container.now by }
    ensures { C.is_pass container.now result }
{
    let room = u64::from(container.capacity());
    let mut pass = by;
    for value in 0..room {
        let (back, put) = container.put(rt, pass, value);
        assert!(rt; put.is_ok());
        pass = back;
    }
    let (pass, full) = container.put(rt, pass, room);
    assert!(rt; full == Err(PutRefused::Full(room)));
    pass
}

// Empties a full container.
fn empty<C: Container<u64>, R: Abort + Wait>(rt: &R, container: &C, by: C::Pass) -> C::Pass
    requires { C.is_pass container.now by }
    ensures { C.is_pass container.now result }
{
    let mut pass = by;
    for _ in 0..container.capacity() {
        let (back, taken) = container.take(rt, pass);
        assert!(rt; taken.is_ok());
        pass = back;
    }
    let (pass, empty) = container.take(rt, pass);
    assert!(rt; empty == Err(TakeRefused::Empty));
    pass
}

// A container takes exactly the number of values that it has room for, and has that room again when
// they are out.
fn room_for_its_capacity<C: Made<u64>, R: Abort + Wait>(rt: &R, alloc: Global, capacity: u32) {
    let (container, mut root) = with_room::<u64, C, R>(rt, alloc, capacity);
    let pass = container.split(&mut root).expect(rt, "a pass");
    let pass = fill(rt, &container, pass);
    let pass = empty(rt, &container, pass);
    let pass = fill(rt, &container, pass);
    let _ = empty(rt, &container, pass);
}

// Of 1, 2 and 3 one is consumed and then the two that are left. Answers twice the first with its
// number, and the digits of these two.
fn consumed<C: Made<u64>, R: Abort + Wait>(rt: &R, alloc: Global) -> ((u64, u64), u64) {
    let (container, mut root) = with_room::<u64, C, R>(rt, alloc, 3);
    let pass = container.split(&mut root).expect(rt, "a pass");
    let (pass, _) = container.put(rt, pass, 1);
    let (pass, _) = container.put(rt, pass, 2);
    let (pass, _) = container.put(rt, pass, 3);
    let (pass, doubled) = consume_one(&container, rt, pass, |value: u64| value.wrapping_mul(2));
    let digits = |state: u64, value: u64| state.wrapping_mul(10).wrapping_add(value);
    let (_, folded, why) = consume_all(&container, rt, pass, 0, digits);
    assert!(rt; why == TakeRefused::Empty);
    (doubled.ok().expect(rt, "a value to take"), folded)
}

// Producers and consumers at once. Each value comes out once, and the calls are numbered without a
// gap. In the order of their numbers they are those of a container of one thread. Each producer's
// values are put in its order.
fn each_value_once<C: Made<u64> + Sync, R: Abort + Threads + Wait + Sync>(
    rt: &R,
    alloc: Global,
    capacity: u32,
    crowd: Crowd,
) {
    let (container, mut root) = with_room::<u64, C, R>(rt, alloc, capacity);
    let values = crowd.each.saturating_mul(u64::from(crowd.producers));
    let log = match C::ORDER {
        Order::Fifo => Log::of(alloc, values).expect(rt, "memory"),
        Order::Lifo => Log::of(alloc, values.saturating_mul(2)).expect(rt, "memory"),
    };
    let producers = passes(rt, alloc, &container, &mut root, crowd.producers);
    let consumers = passes(rt, alloc, &container, &mut root, crowd.consumers);
    let closer = container.split(&mut root).expect(rt, "a pass");
    assert!(rt;
        exchange(
            rt, &container, producers, consumers, closer, crowd.each, &log
        )
    );
    assert!(rt; log.is_sound());
    assert!(rt;
        matches!(
            log.has_puts_of(alloc, crowd.producers, crowd.each),
            Ok(true)
        )
    );
    match C::ORDER {
        Order::Fifo => assert!(rt; log.is_of_a_queue()),
        Order::Lifo => assert!(rt; matches!(log.is_of_a_stack(alloc), Ok(true))),
    }
}

// Threads that each put and take in turn: no take is refused.
fn own_puts_suffice<C: Made<u64> + Sync, R: Abort + Threads + Wait + Sync>(
    rt: &R,
    alloc: Global,
    capacity: u32,
    threads: u32,
    times: u64,
) {
    let (container, mut root) = with_room::<u64, C, R>(rt, alloc, capacity);
    let log = Log::of(alloc, 0).expect(rt, "memory");
    let passes = passes(rt, alloc, &container, &mut root, threads);
    assert!(rt; take_after_own_put(rt, &container, passes, times, &log));
    assert!(rt; log.is_sound());
}

// Numbers by one thread: one at a time, up to the capacity, and consumed in order.
fn numbers_go_through_one_thread<C: Made<u64>, R: Abort + Wait>(rt: &R, alloc: Global) {
    one_value_at_a_time::<C, R>(rt, alloc);
    for capacity in 1..10 {
        room_for_its_capacity::<C, R>(rt, alloc, capacity);
    }
    let wanted = match C::ORDER {
        Order::Fifo => ((2, 0), 23),
        Order::Lifo => ((6, 3), 21),
    };
    assert!(rt; consumed::<C, R>(rt, alloc) == wanted);
}

// Threads that put and threads that take, how many values each putting thread puts, and the room.
const CROWDS: [(u32, u32, u64, u32); 6] = [
    (1, 1, 20_000, 1),
    (1, 1, 20_000, 3),
    (2, 2, 20_000, 8),
    (4, 4, 5_000, 1),
    (4, 4, 5_000, 3),
    (4, 4, 5_000, 64),
];

/// Numbers by one thread, and by many at once.
pub(crate) fn numbers_go_through<C: Made<u64> + Sync, R: Abort + Threads + Wait + Sync>(
    rt: &R,
    alloc: Global,
) {
    numbers_go_through_one_thread::<C, R>(rt, alloc);
    for (producers, consumers, each, capacity) in CROWDS {
        let crowd = Crowd {
            producers,
            consumers,
            each,
        };
        each_value_once::<C, R>(rt, alloc, capacity, crowd);
    }
    for capacity in 1..=4 {
        own_puts_suffice::<C, R>(rt, alloc, capacity, 4, 5_000);
    }
}
