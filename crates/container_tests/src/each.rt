//! The tests of every container: each runs for the queue, for the stack and for the ring.
//!
//! A call that hands a known container to generic code owes the prover every method and type behind
//! the bound: half a minute for each such call. So each container is handed over once for each kind
//! of value, by a function of its own, and the tests call that function.

use crate::at_once::ranges_and_folds;
use crate::consumed::no_take_follows_a_refusal;
use crate::drops::values_are_dropped_once;
use crate::fills::numbers_go_through;
use crate::made::Made;
use crate::steps::{StepCounts, calls_make_their_steps, values_of_dropped_calls};
use crate::waits::{calls_stop, calls_wait};
use bounded_model::Bulk;
use ms_queue::Queue;
use ring_queue::RingQueue;
use std::alloc::Global;
use std::process::Abort;
use std::sync::{Arc, Wait};
use std::thread::Threads;
use treiber_stack::Stack;

const OF_A_QUEUE: StepCounts = StepCounts {
    put: 14,
    kept: 3,
    full: 4,
    take: 12,
    taken: 6,
    empty: 4,
    closed: 12,
    back: 4,
    refused: 10,
    look: 3,
    close: 4,
    shut: 2,
};

const OF_A_STACK: StepCounts = StepCounts {
    put: 6,
    kept: 3,
    full: 2,
    take: 6,
    taken: 3,
    empty: 1,
    closed: 3,
    back: 1,
    refused: 4,
    look: 1,
    close: 2,
    shut: 2,
};

const OF_A_RING: StepCounts = StepCounts {
    put: 3,
    kept: 1,
    full: 4,
    take: 4,
    taken: 3,
    empty: 3,
    closed: 2,
    back: 2,
    refused: 3,
    look: 2,
    close: 3,
    shut: 3,
};

/// What is tested with numbers.
#[derive(Clone, Copy)]
enum Numbers {
    GoThrough,
    Steps,
    Refusals,
    Wait,
    Stop,
}

fn test_numbers<C: Made<u64> + Sync, R: Abort + Threads + Wait + Sync>(
    rt: &R,
    alloc: Global,
    steps: StepCounts,
    tested: Numbers,
) {
    match tested {
        Numbers::GoThrough => numbers_go_through::<C, R>(rt, alloc),
        Numbers::Steps => calls_make_their_steps::<C, R>(rt, alloc, steps),
        Numbers::Refusals => no_take_follows_a_refusal::<C, R>(rt, alloc),
        Numbers::Wait => calls_wait::<C, R>(rt, alloc),
        Numbers::Stop => calls_stop::<C, R>(rt, alloc),
    }
}

/// What is tested with values that count their owners.
#[derive(Clone, Copy)]
enum Values {
    AreDropped,
    OfDroppedCalls,
}

fn test_values<C: Made<Arc<u8>>, R: Abort + Wait>(
    rt: &R,
    alloc: Global,
    steps: StepCounts,
    tested: Values,
) {
    match tested {
        Values::AreDropped => values_are_dropped_once::<C, R>(rt, alloc),
        Values::OfDroppedCalls => values_of_dropped_calls::<C, R>(rt, alloc, steps),
    }
}

/// What is tested with numbers of a container that has ranges and folds.
#[derive(Clone, Copy)]
enum BulkNumbers {
    /// What is tested with any container.
    Any(Numbers),
    RangesAndFolds,
}

fn test_bulk_numbers<C: Made<u64> + Bulk<u64> + Sync, R: Abort + Threads + Wait + Sync>(
    rt: &R,
    alloc: Global,
    steps: StepCounts,
    tested: BulkNumbers,
) {
    match tested {
        BulkNumbers::Any(tested) => test_numbers::<C, R>(rt, alloc, steps, tested),
        BulkNumbers::RangesAndFolds => ranges_and_folds::<C, R>(rt, alloc),
    }
}

// The only calls that hand a container over.

fn numbers_of_a_queue<R: Abort + Threads + Wait + Sync>(rt: &R, alloc: Global, tested: Numbers) {
    test_numbers::<Queue<u64>, R>(rt, alloc, OF_A_QUEUE, tested);
}

fn numbers_of_a_stack<R: Abort + Threads + Wait + Sync>(
    rt: &R,
    alloc: Global,
    tested: BulkNumbers,
) {
    test_bulk_numbers::<Stack<u64>, R>(rt, alloc, OF_A_STACK, tested);
}

fn numbers_of_a_ring<R: Abort + Threads + Wait + Sync>(rt: &R, alloc: Global, tested: Numbers) {
    test_numbers::<RingQueue<u64>, R>(rt, alloc, OF_A_RING, tested);
}

fn values_of_a_queue<R: Abort + Wait>(rt: &R, alloc: Global, tested: Values) {
    test_values::<Queue<Arc<u8>>, R>(rt, alloc, OF_A_QUEUE, tested);
}

fn values_of_a_stack<R: Abort + Wait>(rt: &R, alloc: Global, tested: Values) {
    test_values::<Stack<Arc<u8>>, R>(rt, alloc, OF_A_STACK, tested);
}

fn values_of_a_ring<R: Abort + Wait>(rt: &R, alloc: Global, tested: Values) {
    test_values::<RingQueue<Arc<u8>>, R>(rt, alloc, OF_A_RING, tested);
}

#[test]
fn numbers_go_through_a_queue(rt: HostRuntime) {
    numbers_of_a_queue(&rt, rt.alloc(), Numbers::GoThrough);
}

#[test]
fn numbers_go_through_a_stack(rt: HostRuntime) {
    numbers_of_a_stack(&rt, rt.alloc(), BulkNumbers::Any(Numbers::GoThrough));
}

#[test]
fn numbers_go_through_a_ring(rt: HostRuntime) {
    numbers_of_a_ring(&rt, rt.alloc(), Numbers::GoThrough);
}

#[test]
fn calls_of_a_queue_make_their_steps(rt: HostRuntime) {
    numbers_of_a_queue(&rt, rt.alloc(), Numbers::Steps);
}

#[test]
fn calls_of_a_stack_make_their_steps(rt: HostRuntime) {
    numbers_of_a_stack(&rt, rt.alloc(), BulkNumbers::Any(Numbers::Steps));
}

#[test]
fn calls_of_a_ring_make_their_steps(rt: HostRuntime) {
    numbers_of_a_ring(&rt, rt.alloc(), Numbers::Steps);
}

#[test]
fn no_take_follows_a_refusal_by_a_queue(rt: HostRuntime) {
    numbers_of_a_queue(&rt, rt.alloc(), Numbers::Refusals);
}

#[test]
fn no_take_follows_a_refusal_by_a_stack(rt: HostRuntime) {
    numbers_of_a_stack(&rt, rt.alloc(), BulkNumbers::Any(Numbers::Refusals));
}

#[test]
fn no_take_follows_a_refusal_by_a_ring(rt: HostRuntime) {
    numbers_of_a_ring(&rt, rt.alloc(), Numbers::Refusals);
}

#[test]
fn calls_of_a_queue_wait(rt: HostRuntime) {
    numbers_of_a_queue(&rt, rt.alloc(), Numbers::Wait);
}

#[test]
fn calls_of_a_stack_wait(rt: HostRuntime) {
    numbers_of_a_stack(&rt, rt.alloc(), BulkNumbers::Any(Numbers::Wait));
}

#[test]
fn calls_of_a_ring_wait(rt: HostRuntime) {
    numbers_of_a_ring(&rt, rt.alloc(), Numbers::Wait);
}

#[test]
fn calls_of_a_queue_stop(rt: HostRuntime) {
    numbers_of_a_queue(&rt, rt.alloc(), Numbers::Stop);
}

#[test]
fn calls_of_a_stack_stop(rt: HostRuntime) {
    numbers_of_a_stack(&rt, rt.alloc(), BulkNumbers::Any(Numbers::Stop));
}

#[test]
fn calls_of_a_ring_stop(rt: HostRuntime) {
    numbers_of_a_ring(&rt, rt.alloc(), Numbers::Stop);
}

#[test]
fn ranges_and_folds_go_through_a_stack(rt: HostRuntime) {
    numbers_of_a_stack(&rt, rt.alloc(), BulkNumbers::RangesAndFolds);
}

#[test]
fn values_of_a_queue_are_dropped_once(rt: HostRuntime) {
    values_of_a_queue(&rt, rt.alloc(), Values::AreDropped);
}

#[test]
fn values_of_a_stack_are_dropped_once(rt: HostRuntime) {
    values_of_a_stack(&rt, rt.alloc(), Values::AreDropped);
}

#[test]
fn values_of_a_ring_are_dropped_once(rt: HostRuntime) {
    values_of_a_ring(&rt, rt.alloc(), Values::AreDropped);
}

#[test]
fn values_of_dropped_calls_of_a_queue_are_dropped_once(rt: HostRuntime) {
    values_of_a_queue(&rt, rt.alloc(), Values::OfDroppedCalls);
}

#[test]
fn values_of_dropped_calls_of_a_stack_are_dropped_once(rt: HostRuntime) {
    values_of_a_stack(&rt, rt.alloc(), Values::OfDroppedCalls);
}

#[test]
fn values_of_dropped_calls_of_a_ring_are_dropped_once(rt: HostRuntime) {
    values_of_a_ring(&rt, rt.alloc(), Values::OfDroppedCalls);
}
