//! A call by single steps, once for every container and for values of any type: numbers, texts that
//! the container owns, and texts that somebody else owns.

ghost use Rattle.std.specs.Prelude.{IfSome};
ghost use Rattle.bounded_model.specs.Calls.{CallGives};

use crate::fault::Fault;
use bounded_model::{Command, Container, Reply, Stepped, Stepwise, begin};
use ms_queue::Queue;
use ring_queue::{RingLimits, RingQueue};
use tagged_index::{Limits, MAX_TAG};
use treiber_stack::Stack;

/// No call makes this many steps if its pass is the only one.
const ENOUGH: u64 = 32;

// A call by single steps, on any container. `None` if it is not done after `ENOUGH` steps. Then the
// operation is dropped, with its pass.
fn call_by_steps<T: Drop + Send, C: Stepwise<T>>(
    container: &C,
    by: C::Pass,
    command: Command<T>,
) -> Option<(C::Pass, Reply<T>, u64)>
    requires { C.is_pass container.now by }
    ensures { IfSome result (λ done. C.is_pass container.now done.0
        × CallGives (C.shape container.now) (C.pass by) command (C.pass done.0) done.1) }
{
    let mut op = begin(container, by, command);
    for count in 1..=ENOUGH {
        match container.step(op) {
            Stepped::Again(next) => op = next,
            Stepped::Done(pass, reply) => return Some((pass, reply, count)),
        }
    }
    None
}

// Numbers, in a queue.
fn numbers<R: AllocGlobal + Print>(rt: &R) -> Result<(), Fault> {
    let Some(limits) = Limits::of(4, MAX_TAG) else {
        unreachable!()
    };
    let (queue, mut root) = Queue::<u64>::new(rt.alloc(), limits)?;
    let Some(pass) = queue.split(&mut root) else {
        unreachable!()
    };
    let (pass, put, puts) = call_by_steps(&queue, pass, Command::Put(7)).ok_or(Fault::Steps)?;
    let (_, take, takes) = call_by_steps(&queue, pass, Command::Take).ok_or(Fault::Steps)?;
    println!(rt; "queue: {put:?} by {puts} steps, {take:?} by {takes} steps")?;
    Ok(())
}

// Texts that the container owns, in a stack.
fn texts<R: AllocGlobal + Print>(rt: &R) -> Result<(), Fault> {
    let Some(limits) = Limits::of(4, MAX_TAG) else {
        unreachable!()
    };
    let (stack, mut root) = Stack::<String>::new(rt.alloc(), limits)?;
    let Some(pass) = stack.split(&mut root) else {
        unreachable!()
    };
    let text = String::from_str(rt.alloc(), "seven")?;
    let (pass, put, puts) = call_by_steps(&stack, pass, Command::Put(text)).ok_or(Fault::Steps)?;
    let (_, take, takes) = call_by_steps(&stack, pass, Command::Take).ok_or(Fault::Steps)?;
    println!(rt; "stack: {put:?} by {puts} steps, {take:?} by {takes} steps")?;
    Ok(())
}

// Texts that the caller owns, in a ring.
fn words<'a, R: AllocGlobal + Print>(rt: &R, word: &'a str) -> Result<(), Fault> {
    let Some(limits) = RingLimits::of(4, 9, 2) else {
        unreachable!()
    };
    let (ring, mut root) = RingQueue::<&'a str>::new(rt.alloc(), limits)?;
    let Some(pass) = ring.split(&mut root) else {
        unreachable!()
    };
    let (pass, put, puts) = call_by_steps(&ring, pass, Command::Put(word)).ok_or(Fault::Steps)?;
    let (_, take, takes) = call_by_steps(&ring, pass, Command::Take).ok_or(Fault::Steps)?;
    println!(rt; "ring: {put:?} by {puts} steps, {take:?} by {takes} steps")?;
    Ok(())
}

pub fn show<R: AllocGlobal + Print>(rt: &R) -> Result<(), Fault> {
    numbers(rt)?;
    texts(rt)?;
    words(rt, "seven")
}
