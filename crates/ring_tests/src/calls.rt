//! Calls by single steps: a given number of them, or all remaining ones.

ghost use Rattle.std.specs.Prelude.{ℕ};
ghost use Rattle.bounded_model.specs.declared.commands.Command.{Command as Call};
ghost use Rattle.ring_queue.specs.Calls.{IsCounting, IsPassOf, IsMakingCall};

use crate::doing::count_on;
use bounded_model::{Command, Reply, Stepped, Stepwise};
use ring_queue::{AnyOp, LenOp, Pass, RingQueue};
use std::process::Abort;

/// More steps than any call makes if nobody interferes from here on.
pub(crate) const MOST: u32 = 60;

/// Begins a call and makes this number of its steps, none of which ends it.
pub(crate) fn call_for<T: Drop + Send, R: Abort>(
    rt: &R,
    ring: &RingQueue<T>,
    by: Pass<T>,
    command: Command<T>,
    steps: u64,
) -> AnyOp<T>
    requires { IsPassOf ring.now by }
    ensures { (call : Call T) × IsMakingCall ring.now call result }
{
    let mut op = ring.begin(by, command);
    for _ in 0..steps {
        let Stepped::Again(next) = ring.step(op) else {
            panic!(rt; "the call ended early")
        };
        op = next;
    }
    op
}

/// Makes this number of steps of a count, none of which ends it.
pub(crate) fn count_for<R: Abort>(
    rt: &R,
    ring: &RingQueue<u64>,
    op: LenOp<u64>,
    steps: u64,
) -> LenOp<u64>
    requires { IsCounting ring.now op }
    ensures { IsCounting ring.now result }
{
    let Stepped::Again(next) = count_on(ring, op, steps) else {
        panic!(rt; "the count ended early")
    };
    next
}

/// Makes all remaining steps of a call.
pub(crate) fn call_to_the_end<R: Abort>(
    rt: &R,
    ring: &RingQueue<u64>,
    op: AnyOp<u64>,
) -> (Pass<u64>, Reply<u64>)
    requires { (call : Call ℕ) × IsMakingCall ring.now call op }
    ensures { IsPassOf ring.now result.0 }
{
    let mut op = op;
    for _ in 0..MOST {
        match ring.step(op) {
            Stepped::Again(next) => op = next,
            Stepped::Done(pass, said) => return (pass, said),
        }
    }
    panic!(rt; "the call does not end")
}

/// The same for a count.
pub(crate) fn count_to_the_end<R: Abort>(
    rt: &R,
    ring: &RingQueue<u64>,
    op: LenOp<u64>,
) -> (Pass<u64>, u64)
    requires { IsCounting ring.now op }
    ensures { IsPassOf ring.now result.0 }
{
    let Stepped::Done(pass, count) = count_on(ring, op, u64::from(MOST)) else {
        panic!(rt; "the count does not end")
    };
    (pass, count)
}
