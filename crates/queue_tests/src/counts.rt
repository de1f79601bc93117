//! Counts of a queue: in each schedule beside a put or a take by single steps, and beside threads.

ghost use Rattle.std.specs.Prelude.{ℕ};
ghost use Rattle.ms_queue.specs.Calls.{IsCounting, IsPutting, IsPassOf, IsTaking};

use bounded_model::{Container, PutRefused, Stepped, TakeRefused};
use ms_queue::{LenOp, Pass, PutOp, Queue, TakeOp};
use std::alloc::Global;
use std::process::Abort;
use std::sync::Wait;
use std::thread;
use std::thread::Threads;
use tagged_index::{Limits, MAX_TAG};
use waiting::wait_a_little;

// A put makes 14 steps, and its value is in the queue from the 13th on.
const PUT_STEPS: u32 = 14;

const PUT_AT: u32 = 13;

// A take makes 12 steps, and its value is out of the queue from the 6th on.
const TAKE_STEPS: u32 = 12;

const TAKEN_AT: u32 = 6;

// How many steps of another call come before each of a count's four.
type Schedule = [u32; 4];

// A queue with room for `room` values, and two passes.
fn queue_of<R: Abort>(rt: &R, alloc: Global, room: u32) -> (Queue<u32>, Pass<u32>, Pass<u32>)
    ensures { IsPassOf result.0 result.1 × IsPassOf result.0 result.2 }
{
    let limits = Limits::of(room, MAX_TAG).expect(rt, "limits");
    let (queue, mut root) = Queue::<u32>::new(alloc, limits).expect(rt, "memory");
    let first = queue.split(&mut root).expect(rt, "a pass");
    let second = queue.split(&mut root).expect(rt, "a pass");
    (queue, first, second)
}

// Makes `steps` steps of a put. None of them ends it.
fn go_on_putting<R: Abort>(rt: &R, queue: &Queue<u32>, op: PutOp<u32>, steps: u32) -> PutOp<u32>
    requires { (x : ℕ) × IsPutting queue.now x op }
    ensures { (x : ℕ) × IsPutting queue.now x result }
{
    let mut op = op;
    for _ in 0..steps {
        let Stepped::Again(next) = op.step(queue) else {
            panic!(rt; "the put ended early")
        };
        op = next;
    }
    op
}

// Makes `steps` steps of a take. None of them ends it.
fn go_on_taking<R: Abort>(rt: &R, queue: &Queue<u32>, op: TakeOp<u32>, steps: u32) -> TakeOp<u32>
    requires { IsTaking queue.now op }
    ensures { IsTaking queue.now result }
{
    let mut op = op;
    for _ in 0..steps {
        let Stepped::Again(next) = op.step(queue) else {
            panic!(rt; "the take ended early")
        };
        op = next;
    }
    op
}

// Makes `steps` steps of a count. None of them ends it.
fn go_on_counting<R: Abort>(rt: &R, queue: &Queue<u32>, op: LenOp<u32>, steps: u32) -> LenOp<u32>
    requires { IsCounting queue.now op }
    ensures { IsCounting queue.now result }
{
    let mut op = op;
    for _ in 0..steps {
        let Stepped::Again(next) = op.step(queue) else {
            panic!(rt; "the count ended early")
        };
        op = next;
    }
    op
}

// Counts in this schedule beside a put into an empty queue. The count includes the value if it was
// in the queue before the third step.
fn counted_beside_a_put<R: Abort>(rt: &R, alloc: Global, schedule: Schedule) {
    let [first, second, third, fourth] = schedule;
    let (queue, putter, counter) = queue_of(rt, alloc, 1);
    let put = go_on_putting(rt, &queue, queue.begin_put(putter, 7), first);
    let count = go_on_counting(rt, &queue, queue.begin_len(counter), 1);
    let put = go_on_putting(rt, &queue, put, second.saturating_sub(first));
    let count = go_on_counting(rt, &queue, count, 1);
    let put = go_on_putting(rt, &queue, put, third.saturating_sub(second));
    let count = go_on_counting(rt, &queue, count, 1);
    let _ = go_on_putting(rt, &queue, put, fourth.saturating_sub(third));
    let Stepped::Done(_, found) = count.step(&queue) else {
        panic!(rt; "the count ended late")
    };
    let held = if third < PUT_AT { 0 } else { 1 };
    assert_eq!(rt; found, held);
}

// Counts in this schedule beside a take of the only value. If the take gets it between the first
// and the last step, the count begins again.
fn counted_beside_a_take<R: Abort + Wait>(rt: &R, alloc: Global, schedule: Schedule) {
    let [first, second, third, fourth] = schedule;
    let (queue, taker, counter) = queue_of(rt, alloc, 1);
    let (taker, put) = queue.put(rt, taker, 7);
    assert!(rt; put.is_ok());
    let take = go_on_taking(rt, &queue, queue.begin_take(taker), first);
    let count = go_on_counting(rt, &queue, queue.begin_len(counter), 1);
    let take = go_on_taking(rt, &queue, take, second.saturating_sub(first));
    let count = go_on_counting(rt, &queue, count, 1);
    let take = go_on_taking(rt, &queue, take, third.saturating_sub(second));
    let count = go_on_counting(rt, &queue, count, 1);
    let _ = go_on_taking(rt, &queue, take, fourth.saturating_sub(third));
    let again = if first < TAKEN_AT && fourth >= TAKEN_AT {
        4
    } else {
        0
    };
    let count = go_on_counting(rt, &queue, count, again);
    let Stepped::Done(_, found) = count.step(&queue) else {
        panic!(rt; "the count ended late")
    };
    let held = if fourth < TAKEN_AT { 1 } else { 0 };
    assert_eq!(rt; found, held);
}

#[test]
fn a_count_beside_a_put_tells_what_was_there(rt: HostRuntime) {
    for first in 0..PUT_STEPS {
        for second in first..PUT_STEPS {
            for third in second..PUT_STEPS {
                for fourth in third..PUT_STEPS {
                    counted_beside_a_put(&rt, rt.alloc(), [first, second, third, fourth]);
                }
            }
        }
    }
}

#[test]
fn a_count_beside_a_take_tells_what_was_there(rt: HostRuntime) {
    for first in 0..TAKE_STEPS {
        for second in first..TAKE_STEPS {
            for third in second..TAKE_STEPS {
                for fourth in third..TAKE_STEPS {
                    counted_beside_a_take(&rt, rt.alloc(), [first, second, third, fourth]);
                }
            }
        }
    }
}

// Puts a value, and waits while the queue is full. The call is the queue's own, and not one of
// `waiting`, because passing a known container to generic code takes the prover half a minute.
fn put_one<R: Wait>(rt: &R, queue: &Queue<u32>, by: Pass<u32>, value: u32) -> Pass<u32>
    requires { IsPassOf queue.now by }
    ensures { IsPassOf queue.now result }
{
    let mut pass = by;
    for _ in rt.forever() {
        let (back, put) = queue.put(rt, pass, value);
        pass = back;
        match put {
            Err(PutRefused::Full(_)) => wait_a_little(),
            _ => return pass,
        }
    }
    unreachable!()
}

// Takes a value, and waits while the queue is empty.
fn take_one<R: Wait>(rt: &R, queue: &Queue<u32>, by: Pass<u32>) -> Pass<u32>
    requires { IsPassOf queue.now by }
    ensures { IsPassOf queue.now result }
{
    let mut pass = by;
    for _ in rt.forever() {
        let (back, taken) = queue.take(rt, pass);
        pass = back;
        match taken {
            Err(TakeRefused::Empty) => wait_a_little(),
            _ => return pass,
        }
    }
    unreachable!()
}

// Puts `count` values.
fn put_many<R: Wait>(rt: &R, queue: &Queue<u32>, by: Pass<u32>, count: u32)
    requires { IsPassOf queue.now by }
{
    let mut pass = by;
    for value in 0..count {
        pass = put_one(rt, queue, pass, value);
    }
}

// Takes `count` values.
fn take_many<R: Wait>(rt: &R, queue: &Queue<u32>, by: Pass<u32>, count: u32)
    requires { IsPassOf queue.now by }
{
    let mut pass = by;
    for _ in 0..count {
        pass = take_one(rt, queue, pass);
    }
}

// The greatest of `times` counts, and the pass.
fn greatest<R: Wait>(rt: &R, queue: &Queue<u32>, by: Pass<u32>, times: u32) -> (Pass<u32>, u32)
    requires { IsPassOf queue.now by }
    ensures { IsPassOf queue.now result.0 }
{
    let mut pass = by;
    let mut most = 0;
    for _ in 0..times {
        let (back, found) = queue.len(rt, pass);
        pass = back;
        most = most.max(found);
    }
    (pass, most)
}

// The greatest of the counts that are made while values come and go, and the pass.
fn greatest_beside_threads<R: Threads + Wait + Sync>(
    rt: &R,
    queue: &Queue<u32>,
    putter: Pass<u32>,
    taker: Pass<u32>,
    counter: Pass<u32>,
) -> (Pass<u32>, u32)
    requires putter { IsPassOf queue.now putter }
    requires taker { IsPassOf queue.now taker }
    requires counter { IsPassOf queue.now counter }
    ensures { IsPassOf queue.now result.0 }
{
    thread::scope(
        thread::scope_env(),
        rt,
        |scope| -> (Pass<u32>, u32)
            requires putter { IsPassOf queue.now putter }
            requires taker { IsPassOf queue.now taker }
            requires counter { IsPassOf queue.now counter }
            ensures { IsPassOf queue.exit.now result.0 }
        {
            let puts = scope.spawn(
                move ||
                    requires { IsPassOf queue.now putter }
                { put_many(rt, queue, putter, 20_000) },
            );
            if puts.is_err() {
                return (counter, 0);
            }
            let takes = scope.spawn(
                move ||
                    requires { IsPassOf queue.now taker }
                { take_many(rt, queue, taker, 20_000) },
            );
            if takes.is_err() {
                return (counter, 0);
            }
            greatest(rt, queue, counter, 20_000)
        },
    )
}

#[test]
fn counts_beside_threads_are_within_the_capacity(rt: HostRuntime) {
    let limits = Limits::of(3, MAX_TAG).expect(&rt, "limits");
    let (queue, mut root) = Queue::<u32>::new(rt.alloc(), limits).expect(&rt, "memory");
    let putter = queue.split(&mut root).expect(&rt, "a pass");
    let taker = queue.split(&mut root).expect(&rt, "a pass");
    let counter = queue.split(&mut root).expect(&rt, "a pass");
    let (counter, most) = greatest_beside_threads(&rt, &queue, putter, taker, counter);
    assert!(rt; most <= 3);
    let (counter, found) = queue.len(&rt, counter);
    assert_eq!(rt; found, 0);
    let (counter, put) = queue.put(&rt, counter, 7);
    assert!(rt; put.is_ok());
    let (_, found) = queue.len(&rt, counter);
    assert_eq!(rt; found, 1);
}
