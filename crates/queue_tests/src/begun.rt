//! The five calls of a queue, each begun over the queue's own surface and stepped to its end, and two
//! puts that others overtake. The counts of steps are those of the scripts in `tests/cases`.

use bounded_model::{Container, Stepped};
use ms_queue::Queue;
use tagged_index::{Limits, MAX_TAG};

#[test]
fn a_put_ends_at_its_14th_step_and_a_take_at_its_12th(rt: HostRuntime) {
    let limits = Limits::of(1, MAX_TAG).expect(&rt, "limits");
    let (queue, mut root) = Queue::<u32>::new(rt.alloc(), limits).expect(&rt, "memory");
    let putter = queue.split(&mut root).expect(&rt, "a pass");
    let taker = queue.split(&mut root).expect(&rt, "a pass");
    let Stepped::Again(put) = queue.begin_put(putter, 7).run_for(&queue, 13) else {
        panic!(rt; "the put ended early")
    };
    let Stepped::Done(_, put) = put.step(&queue) else {
        panic!(rt; "the put ended late")
    };
    assert_eq!(rt; put, Ok(0));
    let Stepped::Again(take) = queue.begin_take(taker).run_for(&queue, 11) else {
        panic!(rt; "the take ended early")
    };
    let Stepped::Done(_, take) = take.step(&queue) else {
        panic!(rt; "the take ended late")
    };
    assert_eq!(rt; take, Ok((7, 0)));
}

#[test]
fn a_close_ends_at_its_4th_step_a_shut_at_its_2nd_and_a_look_at_its_3rd(rt: HostRuntime) {
    let limits = Limits::of(1, MAX_TAG).expect(&rt, "limits");
    let (queue, mut root) = Queue::<u32>::new(rt.alloc(), limits).expect(&rt, "memory");
    let closer = queue.split(&mut root).expect(&rt, "a pass");
    let shutter = queue.split(&mut root).expect(&rt, "a pass");
    let looker = queue.split(&mut root).expect(&rt, "a pass");
    let Stepped::Again(close) = queue.begin_close(closer).run_for(&queue, 3) else {
        panic!(rt; "the close ended early")
    };
    let Stepped::Done(_, close) = close.step(&queue) else {
        panic!(rt; "the close ended late")
    };
    let Stepped::Again(shut) = queue.begin_shut(shutter).run_for(&queue, 1) else {
        panic!(rt; "the shut ended early")
    };
    let Stepped::Done(_, shut) = shut.step(&queue) else {
        panic!(rt; "the shut ended late")
    };
    let Stepped::Again(look) = queue.begin_look(looker).run_for(&queue, 2) else {
        panic!(rt; "the look ended early")
    };
    let Stepped::Done(_, look) = look.step(&queue) else {
        panic!(rt; "the look ended late")
    };
    assert_eq!(rt; (close, shut, look), (true, true, true));
}

#[test]
fn a_put_that_others_overtake_ends_at_its_21st_step(rt: HostRuntime) {
    let limits = Limits::of(3, 15).expect(&rt, "limits");
    let (queue, mut root) = Queue::<u32>::new(rt.alloc(), limits).expect(&rt, "memory");
    let overtaken = queue.split(&mut root).expect(&rt, "a pass");
    let quick = queue.split(&mut root).expect(&rt, "a pass");
    let helped = queue.split(&mut root).expect(&rt, "a pass");
    let Stepped::Again(last) = queue.begin_put(overtaken, 7).run_for(&queue, 2) else {
        panic!(rt; "the put ended before the others began")
    };
    let (_, first) = queue.put(&rt, quick, 8);
    let Stepped::Again(second) = queue.begin_put(helped, 9).run_for(&queue, 13) else {
        panic!(rt; "the put ended before it moved the tail")
    };
    let Stepped::Again(last) = last.run_for(&queue, 18) else {
        panic!(rt; "the overtaken put ended early")
    };
    let Stepped::Done(_, last) = last.step(&queue) else {
        panic!(rt; "the overtaken put ended late")
    };
    let Stepped::Done(_, second) = second.step(&queue) else {
        panic!(rt; "the helped put ended late")
    };
    assert_eq!(rt; (first, second, last), (Ok(0), Ok(1), Ok(2)));
}
