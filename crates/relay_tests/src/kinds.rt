//! The containers that the relays of the tests go through.

ghost use Rattle.std.specs.Prelude.{◌≤◌};
ghost use Rattle.relay.specs.Messages.{AreInputsFrom};

use ms_queue::Queue;
use relay::{Gate, Message, Plan, RelayFault, Relayed, numbered, run, run_freely};
use ring_queue::{RingLimits, RingQueue};
use std::process::Abort;
use std::sync::Wait;
use std::thread::Threads;
use tagged_index::{Limits, MAX_TAG};
use treiber_stack::Stack;

/// The highest limit of a tag, which no test comes near.
pub(crate) const MOST: u64 = MAX_TAG;

/// A kind of container.
#[derive(Clone, Copy, Debug, PartialEq, Eq)]
pub(crate) enum Kind {
    Queue,
    Stack,
    Ring,
}

/// Each kind.
pub(crate) const KINDS: [Kind; 3] = [Kind::Queue, Kind::Stack, Kind::Ring];

/// A plan with this many consumers that asks for nothing else.
pub(crate) fn plan(consumers: u32) -> Plan {
    Plan {
        consumers,
        take: None,
        close_after: None,
        shut_after: None,
    }
}

/// For each length an input with that many messages, which have no text.
fn inputs<R: Abort + AllocGlobal>(rt: &R, lengths: &[u32]) -> Vec<Vec<Message>> {
    let mut inputs = Vec::new(rt.alloc());
    let mut sender: u32 = 0;
    for length in lengths {
        let mut messages = Vec::new(rt.alloc());
        for seq in 0..*length {
            let text = Vec::new(rt.alloc());
            messages
                .push(Message { sender, seq, text })
                .expect(rt, "memory");
        }
        inputs.push(messages).expect(rt, "memory");
        sender = sender.saturating_add(1);
    }
    inputs
}

/// Relays inputs of these lengths over a container of this capacity and this tag limit.
pub(crate) fn relay_over<G: Gate + Sync, R: Abort + AllocGlobal + Threads + Wait + Sync>(
    rt: &R,
    kind: Kind,
    (capacity, tag_limit): (u32, u64),
    lengths: &[u32],
    plan: Plan,
    gate: &G,
) -> Result<Relayed, RelayFault> {
    let inputs = inputs(rt, lengths);
    let Some(limits) = Limits::of(capacity, tag_limit) else {
        return Err(RelayFault::TooSmall);
    };
    if plan.consumers == 0 || !numbered(&inputs) {
        return Err(RelayFault::TooSmall);
    }
    match kind {
        Kind::Queue => through_a_queue(rt, limits, inputs, plan, gate),
        Kind::Stack => through_a_stack(rt, limits, inputs, plan, gate),
        Kind::Ring => through_a_ring(rt, limits, inputs, plan, gate),
    }
}

/// Relays inputs of these lengths over a queue of this capacity, with no gate.
pub(crate) fn relay_freely<R: Abort + AllocGlobal + Threads + Wait + Sync>(
    rt: &R,
    capacity: u32,
    lengths: &[u32],
    plan: Plan,
) -> Result<Relayed, RelayFault> {
    let inputs = inputs(rt, lengths);
    let Some(limits) = Limits::of(capacity, MOST) else {
        return Err(RelayFault::TooSmall);
    };
    if plan.consumers == 0 || !numbered(&inputs) {
        return Err(RelayFault::TooSmall);
    }
    match Queue::<Message>::new(rt.alloc(), limits) {
        Ok((queue, root)) => run_freely(rt, rt.alloc(), queue, root, inputs, plan),
        Err(_) => Err(RelayFault::NoMemory),
    }
}

fn through_a_queue<G: Gate + Sync, R: AllocGlobal + Threads + Wait + Sync>(
    rt: &R,
    limits: Limits,
    inputs: Vec<Vec<Message>>,
    plan: Plan,
    gate: &G,
) -> Result<Relayed, RelayFault>
    requires consumers { 1 ≤ plan.consumers }
    requires numbered { AreInputsFrom 0 inputs.items }
{
    match Queue::<Message>::new(rt.alloc(), limits) {
        Ok((queue, root)) => run(rt, rt.alloc(), queue, root, inputs, plan, gate),
        Err(_) => Err(RelayFault::NoMemory),
    }
}

fn through_a_stack<G: Gate + Sync, R: AllocGlobal + Threads + Wait + Sync>(
    rt: &R,
    limits: Limits,
    inputs: Vec<Vec<Message>>,
    plan: Plan,
    gate: &G,
) -> Result<Relayed, RelayFault>
    requires consumers { 1 ≤ plan.consumers }
    requires numbered { AreInputsFrom 0 inputs.items }
{
    match Stack::<Message>::new(rt.alloc(), limits) {
        Ok((stack, root)) => run(rt, rt.alloc(), stack, root, inputs, plan, gate),
        Err(_) => Err(RelayFault::NoMemory),
    }
}

fn through_a_ring<G: Gate + Sync, R: AllocGlobal + Threads + Wait + Sync>(
    rt: &R,
    limits: Limits,
    inputs: Vec<Vec<Message>>,
    plan: Plan,
    gate: &G,
) -> Result<Relayed, RelayFault>
    requires consumers { 1 ≤ plan.consumers }
    requires numbered { AreInputsFrom 0 inputs.items }
{
    let Some(limits) = RingLimits::of(limits.capacity(), limits.tag_limit() / 2, limits.passes())
    else {
        return Err(RelayFault::TooSmall);
    };
    match RingQueue::<Message>::new(rt.alloc(), limits) {
        Ok((ring, root)) => run(rt, rt.alloc(), ring, root, inputs, plan, gate),
        Err(_) => Err(RelayFault::NoMemory),
    }
}
