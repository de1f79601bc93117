//! Containers that are made alike.

ghost use Rattle.std.specs.Prelude.{IfOk};

use bounded_model::{Container, MakeRefused, Stepwise};
use ms_queue::{self, Queue};
use ring_queue::{self, RingLimits, RingQueue};
use std::alloc::Global;
use std::process::Abort;
use tagged_index::{Limits, MAX_TAG};
use treiber_stack::{self, Stack};

/// A container that each test is for, with its root.
pub(crate) trait Made<T>: Stepwise<T> {
    fn made(alloc: Global, limits: Limits) -> Result<(Self, Self::Root), MakeRefused>
        ensures { IfOk result (λ made. Self.is_root made.0 made.1) };
}

impl<T: Drop + Send> Made<T> for Queue<T> {
    fn made(alloc: Global, limits: Limits) -> Result<(Queue<T>, ms_queue::Root<T>), MakeRefused> {
        Queue::new(alloc, limits)
    }
}

impl<T: Drop + Send> Made<T> for Stack<T> {
    fn made(
        alloc: Global,
        limits: Limits,
    ) -> Result<(Stack<T>, treiber_stack::Root<T>), MakeRefused> {
        Stack::new(alloc, limits)
    }
}

impl<T: Drop + Send> Made<T> for RingQueue<T> {
    fn made(
        alloc: Global,
        limits: Limits,
    ) -> Result<(RingQueue<T>, ring_queue::Root<T>), MakeRefused> {
        match RingLimits::of(limits.capacity(), limits.tag_limit() / 2, limits.passes()) {
            Some(limits) => RingQueue::new(alloc, limits),
            None => Err(MakeRefused::NoMemory),
        }
    }
}

/// A container with these limits, and its root.
pub(crate) fn with_limits<T, C: Made<T>, R: Abort>(
    rt: &R,
    alloc: Global,
    limits: Limits,
) -> (C, C::Root)
    ensures { C.is_root result.0 result.1 }
{
    C::made(alloc, limits).expect(rt, "memory")
}

/// More passes than a test has that does not say their number.
const PASSES: u32 = 16;

/// A container with room for `capacity` values, and its root.
pub(crate) fn with_room<T, C: Made<T>, R: Abort>(
    rt: &R,
    alloc: Global,
    capacity: u32,
) -> (C, C::Root)
    ensures { C.is_root result.0 result.1 }
{
    let limits = Limits::of(capacity, MAX_TAG).expect(rt, "limits");
    with_limits::<T, C, R>(rt, alloc, limits.for_passes(PASSES))
}
