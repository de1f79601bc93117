//! Calls by single steps: how many each call makes, and what becomes of the values of a call that
//! is dropped between two steps.

ghost use Rattle.std.specs.Prelude.{IfSome};
ghost use Rattle.bounded_model.specs.Calls.{CallGives};
ghost use Rattle.bounded_model.specs.declared.commands.Command.{Command as Call};

use crate::made::{Made, with_room};
use bounded_model::{
    Command, Container, Order, PutRefused, Reply, Stepped, Stepwise, TakeRefused, begin,
};
use std::alloc::Global;
use std::process::Abort;
use std::sync::{Arc, Wait};

/// How many steps the calls of a container make if no other call interferes.
#[derive(Clone, Copy)]
pub(crate) struct StepCounts {
    /// The steps of a put, ..
    pub(crate) put: u64,
    /// .. and of these, those until its value is in a cell.
    pub(crate) kept: u64,
    /// The steps of a put that finds a container for one value full.
    pub(crate) full: u64,
    /// The steps of a take, ..
    pub(crate) take: u64,
    /// .. and of these, those until it has its value.
    pub(crate) taken: u64,
    /// The steps of a take that finds the container empty.
    pub(crate) empty: u64,
    /// The steps of a put until its container is closed, ..
    pub(crate) closed: u64,
    /// .. from there on until it has its value again, ..
    pub(crate) back: u64,
    /// .. and until it ends.
    pub(crate) refused: u64,
    /// The steps of a look at an empty container.
    pub(crate) look: u64,
    /// The steps of a close of an empty container.
    pub(crate) close: u64,
    /// The steps of a shut of an empty container.
    pub(crate) shut: u64,
}

/// More steps than a call makes if no other call interferes.
const MOST_STEPS: u64 = 20;

/// A call by steps, and how many steps it made. The law of the steps makes it a whole call. `None`
/// if it is not over after `MOST_STEPS` steps.
fn call_by_steps<C: Stepwise<u64>>(
    container: &C,
    by: C::Pass,
    command: Command<u64>,
) -> Option<(C::Pass, Reply<u64>, u64)>
    requires { C.is_pass container.now by }
    ensures { IfSome result (λ r. C.is_pass container.now r.0
        × CallGives (C.shape container.now) (C.pass by) command (C.pass r.0) r.1) }
{
    let mut op = begin(container, by, command);
    for before in 0..MOST_STEPS {
        match container.step(op) {
            Stepped::Again(next) => op = next,
            Stepped::Done(pass, reply) => return Some((pass, reply, before + 1)),
        }
    }
    None
}

// A put and a take, each also where it is refused, end at their last step, and not before. A ring's
// refused put makes one step more, which lays its cell back, and each position of a ring that was
// put or taken already is one load more.
fn puts_and_takes_end<C: Made<u64>, R: Abort>(rt: &R, alloc: Global, steps: StepCounts) {
    let (container, mut root) = with_room::<u64, C, R>(rt, alloc, 1);
    let pass = container.split(&mut root).expect(rt, "a pass");
    let (pass, reply, made) = call_by_steps(&container, pass, Command::Put(7)).expect(rt, "a put");
    assert_eq!(rt; (reply, made), (Reply::Put(Ok(0)), steps.put));
    let (pass, reply, made) = call_by_steps(&container, pass, Command::Put(8)).expect(rt, "a put");
    assert_eq!(rt;
        (reply, made),
        (Reply::Put(Err(PutRefused::Full(8))), steps.full)
    );
    let number = match C::ORDER {
        Order::Fifo => 0,
        Order::Lifo => 1,
    };
    let (pass, reply, made) = call_by_steps(&container, pass, Command::Take).expect(rt, "a take");
    assert_eq!(rt; (reply, made), (Reply::Take(Ok((7, number))), steps.take));
    let (_, reply, made) = call_by_steps(&container, pass, Command::Take).expect(rt, "a take");
    assert_eq!(rt;
        (reply, made),
        (Reply::Take(Err(TakeRefused::Empty)), steps.empty)
    );
}

// So do a look, a close and a shut.
fn other_calls_end<C: Made<u64>, R: Abort>(rt: &R, alloc: Global, steps: StepCounts) {
    let (container, mut root) = with_room::<u64, C, R>(rt, alloc, 1);
    let pass = container.split(&mut root).expect(rt, "a pass");
    let (pass, reply, made) = call_by_steps(&container, pass, Command::Look).expect(rt, "a look");
    assert_eq!(rt; (reply, made), (Reply::Look(true), steps.look));
    let (pass, reply, made) = call_by_steps(&container, pass, Command::Close).expect(rt, "a close");
    assert_eq!(rt; (reply, made), (Reply::Close(true), steps.close));
    let (_, reply, made) = call_by_steps(&container, pass, Command::Shut).expect(rt, "a shut");
    assert_eq!(rt; (reply, made), (Reply::Shut(true), steps.shut));
}

/// Each call by single steps ends at its last one.
pub(crate) fn calls_make_their_steps<C: Made<u64>, R: Abort>(
    rt: &R,
    alloc: Global,
    steps: StepCounts,
) {
    puts_and_takes_end::<C, R>(rt, alloc, steps);
    other_calls_end::<C, R>(rt, alloc, steps);
}

// Makes `steps` steps of a call. None of them ends it.
fn continued<T: Drop, C: Stepwise<T>, R: Abort>(
    rt: &R,
    container: &C,
    op: C::Op,
    steps: u64,
) -> C::Op
    requires { (call : Call T) × C.is_making container.now call op }
    ensures { (call : Call T) × C.is_making container.now call result }
{
    let mut op = op;
    for _ in 0..steps {
        let Stepped::Again(next) = container.step(op) else {
            panic!(rt; "the call ended early")
        };
        op = next;
    }
    op
}

// Drops a put after `made` steps.
fn dropped_put<C: Made<Arc<u8>>, R: Abort>(rt: &R, alloc: Global, steps: StepCounts, made: u64) {
    let (container, mut root) = with_room::<Arc<u8>, C, R>(rt, alloc, 2);
    let value = Arc::new(alloc, 7u8).expect(rt, "memory");
    let pass = container.split(&mut root).expect(rt, "a pass");
    let clone = Arc::try_clone(&value).expect(rt, "a clone");
    let begun = container.begin_put(pass, clone);
    drop(continued(rt, &container, begun, made));
    let owners = if made < steps.kept { 1 } else { 2 };
    assert_eq!(rt; Arc::strong_count(&value), owners);
    drop(root);
    drop(container);
    assert_eq!(rt; Arc::strong_count(&value), 1);
}

// Drops a take after `made` steps.
fn dropped_take<C: Made<Arc<u8>>, R: Abort + Wait>(
    rt: &R,
    alloc: Global,
    steps: StepCounts,
    made: u64,
) {
    let (container, mut root) = with_room::<Arc<u8>, C, R>(rt, alloc, 2);
    let value = Arc::new(alloc, 7u8).expect(rt, "memory");
    let pass = container.split(&mut root).expect(rt, "a pass");
    let (pass, put) = container.put(rt, pass, Arc::try_clone(&value).expect(rt, "a clone"));
    assert!(rt; put.is_ok());
    let begun = container.begin_take(pass);
    drop(continued(rt, &container, begun, made));
    let owners = if made < steps.taken { 2 } else { 1 };
    assert_eq!(rt; Arc::strong_count(&value), owners);
    drop(container.finish(root));
    assert_eq!(rt; Arc::strong_count(&value), 1);
}

// Drops a put that a close overtakes, `made` steps after the close.
fn dropped_late_put<C: Made<Arc<u8>>, R: Abort + Wait>(
    rt: &R,
    alloc: Global,
    steps: StepCounts,
    made: u64,
) {
    let (container, mut root) = with_room::<Arc<u8>, C, R>(rt, alloc, 2);
    let value = Arc::new(alloc, 7u8).expect(rt, "memory");
    let pass = container.split(&mut root).expect(rt, "a pass");
    let closer = container.split(&mut root).expect(rt, "a pass");
    let clone = Arc::try_clone(&value).expect(rt, "a clone");
    let begun = container.begin_put(pass, clone);
    let put = continued(rt, &container, begun, steps.closed);
    let (_, closed) = container.close(rt, closer);
    assert!(rt; closed);
    drop(continued(rt, &container, put, made));
    let owners = if made < steps.back { 2 } else { 1 };
    assert_eq!(rt; Arc::strong_count(&value), owners);
    drop(container.finish(root));
    assert_eq!(rt; Arc::strong_count(&value), 1);
}

/// Drops calls after each number of steps: a put, a take, and a put that a close overtakes.
pub(crate) fn values_of_dropped_calls<C: Made<Arc<u8>>, R: Abort + Wait>(
    rt: &R,
    alloc: Global,
    steps: StepCounts,
) {
    for made in 0..steps.put {
        dropped_put::<C, R>(rt, alloc, steps, made);
    }
    for made in 0..steps.take {
        dropped_take::<C, R>(rt, alloc, steps, made);
    }
    for made in 0..steps.refused {
        dropped_late_put::<C, R>(rt, alloc, steps, made);
    }
}
