//! With no other pass at work no call is overtaken. There is also a test of the steps that two
//! passes have made together.
ghost use Rattle.std.specs.Prelude.{◌≡◌, ℕ, ◌+◌, ◌≤◌, List, [], ◌∷◌, Result};
ghost use Rattle.bounded_model.specs.declared.answers.PutRefused.{PutRefused};
ghost use Rattle.bounded_model.specs.declared.answers.TakeRefused.{TakeRefused};
ghost use Rattle.bounded_model.specs.declared.views.Answered.TheVariants.{Put, Take};
ghost use Rattle.ms_queue.specs.Calls.{IsPassOf, IsRootOf, pass_in, root_in};
ghost use Rattle.ring_queue.specs.Calls.{IsPassOf as IsRingPassOf, pass_in as ring_pass_in, passes_of, IsRootOf as IsRingRootOf, root_in as ring_root_in};

use crate::progress::{queue, ring, stack};
use bounded_model::{Container, Stepped};
use ms_queue::{Pass, Queue, Root};
use ring_queue::{Pass as RingPass, RingLimits, RingQueue, Root as RingRoot};
use tagged_index::{Limits, MAX_TAG};
use treiber_stack::Stack;

#[test]
fn alone_the_calls_of_a_queue_end(rt: HostRuntime) {
    let limits = Limits::of(1, MAX_TAG).expect(&rt, "limits");
    let (queue, mut root) = Queue::<u32>::new(rt.alloc(), limits).expect(&rt, "memory");
    let pass = queue.split(&mut root).expect(&rt, "a pass");
    let Stepped::Done(pass, put) = queue::put_or_overtaken(&queue, pass, 7) else {
        panic!(rt; "the put was overtaken")
    };
    assert!(rt; put.is_ok());
    let Stepped::Done(_, took) = queue::take_or_overtaken(&queue, pass) else {
        panic!(rt; "the take was overtaken")
    };
    assert!(rt; matches!(took, Ok((7, 0))));
}

#[test]
fn alone_the_calls_of_a_stack_end(rt: HostRuntime) {
    let limits = Limits::of(1, MAX_TAG).expect(&rt, "limits");
    let (stack, mut root) = Stack::<u32>::new(rt.alloc(), limits).expect(&rt, "memory");
    let pass = stack.split(&mut root).expect(&rt, "a pass");
    let Stepped::Done(pass, put) = stack::put_or_overtaken(&stack, pass, 7) else {
        panic!(rt; "the put was overtaken")
    };
    assert!(rt; put.is_ok());
    let Stepped::Done(_, took) = stack::take_or_overtaken(&stack, pass) else {
        panic!(rt; "the take was overtaken")
    };
    assert!(rt; matches!(took, Ok((7, 1))));
}

#[test]
fn alone_the_calls_of_a_ring_end(rt: HostRuntime) {
    let limits = RingLimits::of(1, 1, 2).expect(&rt, "limits");
    let (ring, mut root) = RingQueue::<u32>::new(rt.alloc(), limits).expect(&rt, "memory");
    let pass = ring.split(&mut root).expect(&rt, "a pass");
    let Stepped::Done(pass, put) = ring::put_or_overtaken(&ring, pass, 7) else {
        panic!(rt; "the put was overtaken")
    };
    assert!(rt; put.is_ok());
    let Stepped::Done(_, took) = ring::take_or_overtaken(&ring, pass) else {
        panic!(rt; "the take was overtaken")
    };
    assert!(rt; matches!(took, Ok((7, 0))));
}

/// The end of a queue that has given two passes. One has made a put and the other a take. Together
/// they have made at most 61 steps, whatever the other did meanwhile: with two passes a put costs
/// at most 32, and a take 29.
fn ends_within(queue: Queue<u32>, root: Root<u32>, first: Pass<u32>, second: Pass<u32>)
    requires of { IsRootOf queue root × IsPassOf queue first × IsPassOf queue second }
    requires two { ((root_in root).given ≡ 2) × ((root_in root).account ≡ [])
        × ((root_in root).works ≡ []) }
    requires put { (r : Result ℕ (PutRefused (List ℕ))) × ((pass_in first).answers ≡ Put r ∷ []) }
    requires take { (r : Result (ℕ × ℕ) TakeRefused) × ((pass_in second).answers ≡ Take r ∷ []) }
    ensures { (pass_in first).steps + (pass_in second).steps ≤ 61 }
{
    let mut root = root;
    queue.join(&mut root, first);
    queue.join(&mut root, second);
    let _ = queue::end(queue, root);
}

#[test]
fn two_passes_make_no_more_steps_than_their_calls_cost(rt: HostRuntime) {
    let limits = Limits::of(1, MAX_TAG).expect(&rt, "limits");
    let (queue, mut root) = Queue::<u32>::new(rt.alloc(), limits).expect(&rt, "memory");
    let first = queue.split(&mut root).expect(&rt, "a pass");
    let second = queue.split(&mut root).expect(&rt, "a pass");
    let (first, put) = queue.put(&rt, first, 7);
    assert!(rt; put.is_ok());
    let (second, took) = queue.take(&rt, second);
    assert!(rt; matches!(took, Ok((7, 0))));
    ends_within(queue, root, first, second);
}

/// The same for a ring for two passes at once: at most 104 steps, since a put costs at most 54, and
/// a take 50.
fn ring_ends_within(
    held: RingQueue<u32>,
    root: RingRoot<u32>,
    first: RingPass<u32>,
    second: RingPass<u32>,
)
    requires of { IsRingRootOf held root × IsRingPassOf held first × IsRingPassOf held second }
    requires two { ((ring_root_in root).given ≡ 2) × ((ring_root_in root).account ≡ [])
        × ((ring_root_in root).works ≡ []) × (passes_of held ≡ 2) }
    requires put { (r : Result ℕ (PutRefused (List ℕ))) × ((ring_pass_in first).answers ≡ Put r ∷ []) }
    requires take { (r : Result (ℕ × ℕ) TakeRefused) × ((ring_pass_in second).answers ≡ Take r ∷ []) }
    ensures { (ring_pass_in first).steps + (ring_pass_in second).steps ≤ 104 }
{
    let mut root = root;
    held.join(&mut root, first);
    held.join(&mut root, second);
    let _ = ring::end(held, root);
}

#[test]
fn two_passes_of_a_ring_make_no_more_steps_than_their_calls_cost(rt: HostRuntime) {
    let limits = RingLimits::of(1, 1, 2).expect(&rt, "limits");
    let (held, mut root) = RingQueue::<u32>::new(rt.alloc(), limits).expect(&rt, "memory");
    let first = held.split(&mut root).expect(&rt, "a pass");
    let second = held.split(&mut root).expect(&rt, "a pass");
    let (first, put) = held.put(&rt, first, 7);
    assert!(rt; put.is_ok());
    let (second, took) = held.take(&rt, second);
    assert!(rt; matches!(took, Ok((7, 0))));
    ring_ends_within(held, root, first, second);
}
