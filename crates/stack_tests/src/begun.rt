//! The five calls of a stack, each begun over the stack's own surface and stepped to its end, and a
//! put and a take that others overtake. The counts of steps are those of the scripts in `tests/cases`.

use bounded_model::{Container, Stepped};
use tagged_index::{Limits, MAX_TAG};
use treiber_stack::Stack;

#[test]
fn a_put_and_a_take_end_at_their_6th_step(rt: HostRuntime) {
    let limits = Limits::of(1, MAX_TAG).expect(&rt, "limits");
    let (stack, mut root) = Stack::<u32>::new(rt.alloc(), limits).expect(&rt, "memory");
    let putter = stack.split(&mut root).expect(&rt, "a pass");
    let taker = stack.split(&mut root).expect(&rt, "a pass");
    let Stepped::Again(put) = stack.begin_put(putter, 7).run_for(&stack, 5) else {
        panic!(rt; "the put ended early")
    };
    let Stepped::Done(_, put) = put.step(&stack) else {
        panic!(rt; "the put ended late")
    };
    assert_eq!(rt; put, Ok(0));
    let Stepped::Again(take) = stack.begin_take(taker).run_for(&stack, 5) else {
        panic!(rt; "the take ended early")
    };
    let Stepped::Done(_, take) = take.step(&stack) else {
        panic!(rt; "the take ended late")
    };
    assert_eq!(rt; take, Ok((7, 1)));
}

#[test]
fn a_close_and_a_shut_end_at_their_2nd_step_and_a_look_at_its_1st(rt: HostRuntime) {
    let limits = Limits::of(1, MAX_TAG).expect(&rt, "limits");
    let (stack, mut root) = Stack::<u32>::new(rt.alloc(), limits).expect(&rt, "memory");
    let closer = stack.split(&mut root).expect(&rt, "a pass");
    let shutter = stack.split(&mut root).expect(&rt, "a pass");
    let looker = stack.split(&mut root).expect(&rt, "a pass");
    let Stepped::Again(close) = stack.begin_close(closer).run_for(&stack, 1) else {
        panic!(rt; "the close ended early")
    };
    let Stepped::Done(_, close) = close.step(&stack) else {
        panic!(rt; "the close ended late")
    };
    let Stepped::Again(shut) = stack.begin_shut(shutter).run_for(&stack, 1) else {
        panic!(rt; "the shut ended early")
    };
    let Stepped::Done(_, shut) = shut.step(&stack) else {
        panic!(rt; "the shut ended late")
    };
    let Stepped::Done(_, look) = stack.begin_look(looker).step(&stack) else {
        panic!(rt; "the look ended late")
    };
    assert_eq!(rt; (close, shut, look), (true, true, true));
}

#[test]
fn a_take_that_others_overtake_ends_at_its_9th_step(rt: HostRuntime) {
    let limits = Limits::of(3, 15).expect(&rt, "limits");
    let (stack, mut root) = Stack::<u32>::new(rt.alloc(), limits).expect(&rt, "memory");
    let overtaken = stack.split(&mut root).expect(&rt, "a pass");
    let quick = stack.split(&mut root).expect(&rt, "a pass");
    let putter = stack.split(&mut root).expect(&rt, "a pass");
    let (quick, lower) = stack.put(&rt, quick, 7);
    let (quick, upper) = stack.put(&rt, quick, 8);
    assert_eq!(rt; (lower, upper), (Ok(0), Ok(1)));
    let Stepped::Again(take) = stack.begin_take(overtaken).run_for(&stack, 2) else {
        panic!(rt; "the take ended before the others began")
    };
    let (quick, first) = stack.take(&rt, quick);
    let (quick, second) = stack.take(&rt, quick);
    assert_eq!(rt; (first, second), (Ok((8, 2)), Ok((7, 3))));
    let Stepped::Again(put) = stack.begin_put(putter, 9).run_for(&stack, 3) else {
        panic!(rt; "the put ended before its exchange")
    };
    let (_, between) = stack.put(&rt, quick, 10);
    let Stepped::Again(take) = take.run_for(&stack, 6) else {
        panic!(rt; "the overtaken take ended early")
    };
    let Stepped::Done(_, take) = take.step(&stack) else {
        panic!(rt; "the overtaken take ended late")
    };
    let Stepped::Again(put) = put.run_for(&stack, 2) else {
        panic!(rt; "the put ended early")
    };
    let Stepped::Done(_, put) = put.step(&stack) else {
        panic!(rt; "the put ended late")
    };
    assert_eq!(rt; (between, take, put), (Ok(4), Ok((10, 5)), Ok(6)));
}
