//! C may give a handle to another thread, also while a call is under way. So the parts of what lies
//! behind a handle may cross threads.

use ms_queue::Queue;
use ring_queue::RingQueue;
use std::alloc::Global;
use std::sync::Arc;
use treiber_stack::{FoldOp, Pass, RangeOp, Stack};

// Requires that its type may cross threads, and does nothing.
fn crosses<T: Send>(_part: &T) {}

/// A queue's share, its root, and a pass between its calls.
pub fn queue_crosses(
    container: &Arc<Queue<u64>, Global>,
    root: &ms_queue::Root<u64>,
    resting: &Option<ms_queue::Pass<u64>>,
) {
    crosses(container);
    crosses(root);
    crosses(resting);
}

/// A call that a queue's pass is in.
pub fn queue_operation_crosses(operation: &ms_queue::AnyOp<u64>) {
    crosses(operation);
}

/// A work that a queue's pass is in: a count or a gauge.
pub fn queue_work_crosses(count: &ms_queue::LenOp<u64>, gauge: &ms_queue::GaugeOp<u64>) {
    crosses(count);
    crosses(gauge);
}

/// What is left of a queue.
pub fn queue_rest_crosses(rest: &ms_queue::Rest<u64>) {
    crosses(rest);
}

/// A stack's share, its root, and a pass between its calls.
pub fn stack_crosses(
    container: &Arc<Stack<u64>, Global>,
    root: &treiber_stack::Root<u64>,
    resting: &Option<Pass<u64>>,
) {
    crosses(container);
    crosses(root);
    crosses(resting);
}

/// A call that a stack's pass is in.
pub fn stack_operation_crosses(operation: &treiber_stack::AnyOp<u64>) {
    crosses(operation);
}

/// A work that a stack's pass is in: a fold or a put of an array.
pub fn stack_work_crosses(fold: &FoldOp<u64>, copy: &RangeOp<u64>) {
    crosses(fold);
    crosses(copy);
}

/// What is left of a stack.
pub fn stack_rest_crosses(rest: &treiber_stack::Rest<u64>) {
    crosses(rest);
}

/// A ring's share, its root, and a pass between its calls.
pub fn ring_crosses(
    container: &Arc<RingQueue<u64>, Global>,
    root: &ring_queue::Root<u64>,
    resting: &Option<ring_queue::Pass<u64>>,
) {
    crosses(container);
    crosses(root);
    crosses(resting);
}

/// A call that a ring's pass is in.
pub fn ring_operation_crosses(operation: &ring_queue::AnyOp<u64>) {
    crosses(operation);
}

/// A work that a ring's pass is in: a count or a gauge.
pub fn ring_work_crosses(count: &ring_queue::LenOp<u64>, gauge: &ring_queue::GaugeOp<u64>) {
    crosses(count);
    crosses(gauge);
}

/// What is left of a ring.
pub fn ring_rest_crosses(rest: &ring_queue::Rest<u64>) {
    crosses(rest);
}
