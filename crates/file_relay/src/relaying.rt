//! Files relayed through a container.

ghost use Rattle.std.specs.Prelude.{◌≡◌, ◌≢◌, ◌≤◌, ◌*◌, IfErr, IfOk, List, ℕ, length};
ghost use Rattle.bounded_model.specs.Laws.{fresh};
ghost use Rattle.tagged_index.specs.Limits.{capacity_of, passes_of, tag_limit_of};
ghost use Rattle.tagged_index.specs.declared.word.TheConstants.{MAX_TAG};
ghost use Rattle.relay_args.specs.declared.ranges.TheConstants.{MAX_FILES, MAX_RELAY_PASSES};
ghost use Rattle.relay_args.specs.declared.args.Kind.TheVariants.{Ring};
ghost use Rattle.ring_queue.specs.code.Machine.{laps_at};
ghost use Rattle.ring_queue.specs.declared.life.limits.TheConstants.{MAX_LAPS};
ghost use Rattle.file_relay.specs.declared.tool_fault.ToolFault.TheVariants.{Output, Relay};
ghost use Rattle.relay.specs.declared.faults.RelayFault.{RelayFault};
ghost use Rattle.relay.specs.declared.faults.RelayFault.TheVariants.{NoMemory};
ghost use Rattle.relay_args.specs.Ranges.{IsInRange};
ghost use Rattle.file_relay.specs.Relaying.{AreReady, FromReaders, IsCause, IsRelayed, RelaysInputs, plan_of, shape_for};
ghost use Rattle.told.specs.Writing.{written};

use crate::inputs::read_inputs;
use crate::outcome::write_outcome;
use crate::tool_fault::ToolFault;
use bounded_model::Container;
use ms_queue::Queue;
use relay::{FreeGate, Gate, Message, Plan, Relayed, run};
use relay_args::{Kind, MAX_RELAY_PASSES, RelayArgs};
use ring_queue::{MAX_LAPS, RingLimits, RingQueue};
use std::alloc::Global;
use std::io::{Read, Write};
use std::mem;
use std::sync::Wait;
use std::thread::Threads;
use tagged_index::{Limits, MAX_TAG};
use treiber_stack::Stack;

/// Relays what the readers give, and keeps all messages in memory for the life of the process.
///
/// Reader `k`, counted from 0, is sender `k`. Writes the outcome: the audit, and then the list if
/// `args` asks for it.
///
/// All readers are read, in order, before the container is made. The faults:
/// - `File`: the number, from 1, of the first reader that could not be read as a message file, and
///   why.
/// - `Relay`: why the relay has no outcome; `NoMemory` also comes if the container cannot be made,
///   and `NoPass` never comes.
/// - `Output`: a write or the flush failed. Then a prefix of the text went out.
///
/// After any fault but `Output` nothing was written. What was relayed is never freed, because the
/// process of a program ends after this; a caller that goes on loses the memory of all messages at
/// each call.
pub fn relay_main<T: Threads + Wait + Sync, R: Read + Drop, W: Write>(
    rt: &T,
    alloc: Global,
    args: &RelayArgs,
    readers: Vec<R>,
    writer: &mut W,
) -> Result<(), ToolFault>
    requires args { IsInRange args.now }
    requires some { 1 ≤ length readers.items }
    requires few { length readers.items ≤ MAX_FILES }
    // The output is the outcome of a relay of the messages that were read.
    ensures relays { let output = written W.contents writer.old writer.new in
        FromReaders R.remaining readers.items (RelaysInputs args.now output) result }
    ensures untouched { IfErr result (λ fault. fault ≢ Output → writer.new ≡ writer.old) }
{
    let inputs = read_inputs(alloc, readers)?;
    let relayed = relay_inputs(rt, alloc, args, inputs, &FreeGate)?;
    let written = write_outcome(&relayed, args.list, writer);
    // The process ends after this: to free each message by itself would take a seventh of its time.
    mem::forget(relayed);
    written
}

/// The outcome of a relay of these inputs through a container of the kind that `args` names. Each
/// try passes the gate.
pub(crate) fn relay_inputs<T: Threads + Wait + Sync, G: Gate + Sync>(
    rt: &T,
    alloc: Global,
    args: &RelayArgs,
    inputs: Vec<Vec<Message>>,
    gate: &G,
) -> Result<Relayed, ToolFault>
    requires args { IsInRange args.now }
    requires ready { AreReady inputs.items }
    ensures relayed { IfOk result (IsRelayed args.now inputs.items) }
    ensures fault { IfErr result (λ fault. (cause : RelayFault) × (fault ≡ Relay cause)
        × IsCause args.now inputs.items cause) }
{
    match args.kind {
        Kind::Queue => {
            let (queue, root) = Queue::new(alloc, limits_for(args))?;
            relay_through(rt, alloc, queue, root, args, inputs, gate)
        }
        Kind::Stack => {
            let (stack, root) = Stack::new(alloc, limits_for(args))?;
            relay_through(rt, alloc, stack, root, args, inputs, gate)
        }
        Kind::Ring => {
            let (ring, root) = RingQueue::new(alloc, ring_limits_for(args))?;
            relay_through(rt, alloc, ring, root, args, inputs, gate)
        }
    }
}

// The limits that `args` asks for.
fn limits_for(args: &RelayArgs) -> Limits
    requires { IsInRange args.now }
    ensures { (capacity_of result ≡ args.now.capacity) × (tag_limit_of result ≡ MAX_TAG) }
{
    match Limits::of(args.capacity, MAX_TAG) {
        Some(limits) => limits,
        None => unreachable!(),
    }
}

// The same for a ring, which has the most laps that may be, and a cell for each pass that a relay
// needs.
fn ring_limits_for(args: &RelayArgs) -> RingLimits
    requires range { IsInRange args.now }
    requires ring { args.now.kind ≡ Ring }
    ensures { (capacity_of result.limits ≡ args.now.capacity)
        × (laps_at result.limits ≡ MAX_LAPS) × (passes_of result.limits ≡ MAX_RELAY_PASSES) }
{
    match RingLimits::of(args.capacity, MAX_LAPS, MAX_RELAY_PASSES) {
        Some(limits) => limits,
        None => unreachable!(),
    }
}

// What the relay's workers are to do.
fn plan_for(args: &RelayArgs) -> Plan
    ensures { result ≡ plan_of args.now }
{
    Plan {
        consumers: args.consumers,
        take: args.take,
        close_after: args.close_after,
        shut_after: args.shut_after,
    }
}

// The outcome of a relay of these inputs through this container.
fn relay_through<T: Threads + Wait + Sync, C: Container<Message> + Sync, G: Gate + Sync>(
    rt: &T,
    alloc: Global,
    container: C,
    root: C::Root,
    args: &RelayArgs,
    inputs: Vec<Vec<Message>>,
    gate: &G,
) -> Result<Relayed, ToolFault>
    requires args { IsInRange args.now }
    requires root { C.is_root container root }
    requires fresh { C.root root ≡ fresh }
    requires shape { C.shape container ≡ shape_for args.now }
    requires ready { AreReady inputs.items }
    ensures relayed { IfOk result (IsRelayed args.now inputs.items) }
    ensures fault { IfErr result (λ fault. (cause : RelayFault) × (fault ≡ Relay cause)
        × IsCause args.now inputs.items cause) }
{
    Ok(run(rt, alloc, container, root, inputs, plan_for(args), gate)?)
}
