//! What the names of a ring's steps tell of its compare-and-swaps of slots.

ghost use Rattle.std.specs.Prelude.{ℕ};
ghost use Rattle.bounded_model.specs.declared.commands.Command.{Command as Call};
ghost use Rattle.ring_queue.specs.Calls.{IsPassOf, IsMakingCall};

use crate::calls::{MOST, call_for};
use crate::stopped::{LAGS, go_through, ring_after, steps_before};
use bounded_model::{Command, Stepped, Stepwise};
use ring_queue::{AnyOp, Pass, RingQueue};
use std::alloc::Global;
use std::process::Abort;
use std::sync::Wait;
use step_names::{Named, Outcome};

/// How many compare-and-swaps were told to have succeeded, and how many to have failed.
type Told = (u32, u32);

/// These numbers, with what one step was told to have done.
fn with_one_more((succeeded, failed): Told, outcome: Outcome) -> Told {
    match outcome {
        Outcome::Succeeded => (succeeded.saturating_add(1), failed),
        Outcome::Failed => (succeeded, failed.saturating_add(1)),
        Outcome::Done | Outcome::Tried => (succeeded, failed),
    }
}

/// Makes all remaining steps of a call, and counts what their names tell.
fn told_to_the_end<R: Abort>(rt: &R, ring: &RingQueue<u64>, op: AnyOp<u64>) -> (Pass<u64>, Told)
    requires { (call : Call ℕ) × IsMakingCall ring.now call op }
    ensures { IsPassOf ring.now result.0 }
{
    let mut op = op;
    let mut told = (0, 0);
    for _ in 0..MOST {
        let name = RingQueue::<u64>::step_name(&op);
        match ring.step(op) {
            Stepped::Again(next) => {
                let outcome = name.outcome(Some(RingQueue::<u64>::step_name(&next)));
                told = with_one_more(told, outcome);
                op = next;
            }
            Stepped::Done(pass, _) => return (pass, with_one_more(told, name.outcome(None))),
        }
    }
    panic!(rt; "the call does not end")
}

fn told_of_calls_alone<R: Abort + Wait>(rt: &R, alloc: Global, capacity: u32, lag: u64) {
    let (ring, pass, _) = ring_after(rt, alloc, capacity, lag);
    let put = call_for(rt, &ring, pass, Command::Put(1_000), 0);
    let (pass, told) = told_to_the_end(rt, &ring, put);
    assert_eq!(rt; told, (1, 0));
    let take = call_for(rt, &ring, pass, Command::Take, 0);
    let (_, told) = told_to_the_end(rt, &ring, take);
    assert_eq!(rt; told, (1, 0));
}

fn told_of_an_overtaken_put<R: Abort + Wait>(rt: &R, alloc: Global, capacity: u32, lag: u64) {
    let (ring, stopped, other) = ring_after(rt, alloc, capacity, lag);
    let put = call_for(rt, &ring, stopped, Command::Put(1_000), steps_before(lag));
    go_through(rt, &ring, other, lag, 1);
    let (_, told) = told_to_the_end(rt, &ring, put);
    assert_eq!(rt; told, (1, 1));
}

#[test]
fn the_names_of_steps_tell_which_exchange_of_a_slot_succeeded(rt: HostRuntime) {
    for capacity in 1..=3 {
        for lag in 0..=LAGS {
            told_of_calls_alone(&rt, rt.alloc(), capacity, lag);
            told_of_an_overtaken_put(&rt, rt.alloc(), capacity, lag);
        }
    }
}
