//! New containers, each with its root.
ghost use Rattle.std.specs.Prelude.{◌≡◌, MatchResult};
ghost use Rattle.bounded_model.specs.Laws.{fresh};
ghost use Rattle.lockfree_c.specs.Held.{
  AreLimits,
  AreRingLimits,
  IsNewQueue,
  IsNewRing,
  IsNewStack,
  NewRefused,
};
ghost use Rattle.lockfree_c.specs.Roots.{IsNewRoot, IsRoot};

use crate::answers::{BAD_CAPACITY, NO_MEMORY};
use crate::calls::Handled;
use crate::held::Held;
use crate::root::RootOf;
use crate::side::Side;
use ms_queue::Queue;
use ring_queue::{RingLimits, RingQueue};
use std::alloc::Global;
use std::sync::Arc;
use tagged_index::Limits;
use treiber_stack::Stack;

// A new container's root, with a share of the container.
fn rooted<C: Handled>(alloc: Global, container: C, root: C::Root) -> Result<RootOf<C, C::Root>, u32>
    requires new { (C.reading container).is_root root × ((C.reading container).root root ≡ fresh) }
    ensures { MatchResult result
        (λ r. IsNewRoot C.reading (C.reading container).shape r)
        (λ code. code ≡ NO_MEMORY) }
{
    match Arc::new(alloc, container) {
        Ok(container) => Ok(RootOf { container, root }),
        Err(_) => Err(NO_MEMORY),
    }
}

/// This in a box.
pub fn boxed(alloc: Global, held: Held) -> Result<Box<Held, Global>, u32>
    ensures { MatchResult result (λ b. b.value ≡ held) (λ code. code ≡ NO_MEMORY) }
{
    match Box::new(alloc, held) {
        Ok(held) => Ok(held),
        Err(_) => Err(NO_MEMORY),
    }
}

/// A new queue's root in a box, or why there is none.
pub fn boxed_queue(alloc: Global, capacity: u32, tag_limit: u64) -> Result<Box<Held, Global>, u32>
    ensures { MatchResult result (λ b. IsNewQueue capacity tag_limit b.value)
        (λ code. NewRefused (AreLimits capacity tag_limit) code) }
{
    let Some(limits) = Limits::of(capacity, tag_limit) else {
        return Err(BAD_CAPACITY);
    };
    let Ok((queue, root)) = Queue::new(alloc, limits) else {
        return Err(NO_MEMORY);
    };
    let root = rooted(alloc, queue, root)?;
    boxed(alloc, Held::Queue(Side::Root(root)))
}

/// A new stack's root in a box, or why there is none.
pub fn boxed_stack(alloc: Global, capacity: u32, tag_limit: u64) -> Result<Box<Held, Global>, u32>
    ensures { MatchResult result (λ b. IsNewStack capacity tag_limit b.value)
        (λ code. NewRefused (AreLimits capacity tag_limit) code) }
{
    let Some(limits) = Limits::of(capacity, tag_limit) else {
        return Err(BAD_CAPACITY);
    };
    let Ok((stack, root)) = Stack::new(alloc, limits) else {
        return Err(NO_MEMORY);
    };
    let root = rooted(alloc, stack, root)?;
    boxed(alloc, Held::Stack(Side::Root(root)))
}

/// A new ring's root in a box, or why there is none.
pub fn boxed_ring(
    alloc: Global,
    capacity: u32,
    laps: u64,
    passes: u32,
) -> Result<Box<Held, Global>, u32>
    ensures { MatchResult result (λ b. IsNewRing capacity laps passes b.value)
        (λ code. NewRefused (AreRingLimits capacity laps passes) code) }
{
    let Some(limits) = RingLimits::of(capacity, laps, passes) else {
        return Err(BAD_CAPACITY);
    };
    let Ok((ring, root)) = RingQueue::new(alloc, limits) else {
        return Err(NO_MEMORY);
    };
    let root = rooted(alloc, ring, root)?;
    boxed(alloc, Held::Ring(Side::Root(root)))
}
