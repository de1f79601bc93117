//! The functions that make a container for C. Each writes its root to a slot that is empty.
ghost use Rattle.std.specs.Prelude.{◌≡◌, false, MatchResult};
ghost use Rattle.ring_queue.specs.declared.life.limits.TheConstants.{MAX_LAPS};
ghost use Rattle.tagged_index.specs.declared.word.TheConstants.{MAX_TAG};
ghost use Rattle.lockfree_c.specs.Held.{
  AreLimits,
  AreRingLimits,
  IsNewQueue,
  IsNewRing,
  IsNewStack,
};
ghost use Rattle.lockfree_c.specs.Slots.{Holds, IsEmpty, IsSlot, SlotNew};

use crate::answers::{IN_USE, OK};
use crate::held::Held;
use crate::making::{boxed_queue, boxed_ring, boxed_stack};
use crate::slot::Slot;
use ring_queue::MAX_LAPS;
use std::alloc::Global;
use tagged_index::MAX_TAG;

// Writes a new root to a slot that is empty, or gives the reason why there is none.
fn place(root: &mut Slot, made: Result<Box<Held, Global>, u32>) -> u32
    requires { root.old.full ≡ false }
    ensures { MatchResult made
        (λ b. Holds root.new b.value × (result ≡ OK))
        (λ code. IsEmpty root.new × (result ≡ code)) }
{
    match made {
        Ok(held) => {
            root.put(held);
            OK
        }
        Err(code) => code,
    }
}

// Makes a queue, and writes its root to a slot that is empty.
fn make_queue(alloc: Global, root: &mut Slot, capacity: u32, tag_limit: u64) -> u32
    requires { IsSlot root.old }
    ensures of { IsSlot root.new }
    ensures gives { SlotNew (IsNewQueue capacity tag_limit) (AreLimits capacity tag_limit) root.old root.new result }
{
    if root.full {
        return IN_USE;
    }
    place(root, boxed_queue(alloc, capacity, tag_limit))
}

// Makes a stack, and writes its root to a slot that is empty.
fn make_stack(alloc: Global, root: &mut Slot, capacity: u32, tag_limit: u64) -> u32
    requires { IsSlot root.old }
    ensures of { IsSlot root.new }
    ensures gives { SlotNew (IsNewStack capacity tag_limit) (AreLimits capacity tag_limit) root.old root.new result }
{
    if root.full {
        return IN_USE;
    }
    place(root, boxed_stack(alloc, capacity, tag_limit))
}

// Makes a ring, and writes its root to a slot that is empty.
fn make_ring(alloc: Global, root: &mut Slot, capacity: u32, laps: u64, passes: u32) -> u32
    requires { IsSlot root.old }
    ensures of { IsSlot root.new }
    ensures gives { SlotNew (IsNewRing capacity laps passes) (AreRingLimits capacity laps passes) root.old root.new result }
{
    if root.full {
        return IN_USE;
    }
    place(root, boxed_ring(alloc, capacity, laps, passes))
}

/// A new queue's root: an empty queue of this capacity, open and not shut.
#[unsafe(no_mangle)]
pub extern "C" fn lockfree_queue_new(alloc: Global, root: &mut Slot, capacity: u32) -> u32
    requires { IsSlot root.old }
    ensures of { IsSlot root.new }
    ensures gives { SlotNew (IsNewQueue capacity MAX_TAG) (AreLimits capacity MAX_TAG) root.old root.new result }
{
    make_queue(alloc, root, capacity, MAX_TAG)
}

/// A new queue's root, as by `lockfree_queue_new`, whose tags go up to this limit: 2 to 2^42 - 1.
#[unsafe(no_mangle)]
pub extern "C" fn lockfree_queue_limited(
    alloc: Global,
    root: &mut Slot,
    capacity: u32,
    tag_limit: u64,
) -> u32
    requires { IsSlot root.old }
    ensures of { IsSlot root.new }
    ensures gives { SlotNew (IsNewQueue capacity tag_limit) (AreLimits capacity tag_limit) root.old root.new result }
{
    make_queue(alloc, root, capacity, tag_limit)
}

/// A new stack's root: an empty stack of this capacity, open and not shut.
#[unsafe(no_mangle)]
pub extern "C" fn lockfree_stack_new(alloc: Global, root: &mut Slot, capacity: u32) -> u32
    requires { IsSlot root.old }
    ensures of { IsSlot root.new }
    ensures gives { SlotNew (IsNewStack capacity MAX_TAG) (AreLimits capacity MAX_TAG) root.old root.new result }
{
    make_stack(alloc, root, capacity, MAX_TAG)
}

/// A new stack's root, as by `lockfree_stack_new`, whose tags go up to this limit: 2 to 2^42 - 1.
#[unsafe(no_mangle)]
pub extern "C" fn lockfree_stack_limited(
    alloc: Global,
    root: &mut Slot,
    capacity: u32,
    tag_limit: u64,
) -> u32
    requires { IsSlot root.old }
    ensures of { IsSlot root.new }
    ensures gives { SlotNew (IsNewStack capacity tag_limit) (AreLimits capacity tag_limit) root.old root.new result }
{
    make_stack(alloc, root, capacity, tag_limit)
}

/// A new ring's root: an empty ring of this capacity for `passes` passes at once, open and not
/// shut. Each of its slots can be filled 2^41 - 1 times.
#[unsafe(no_mangle)]
pub extern "C" fn lockfree_ring_new(
    alloc: Global,
    root: &mut Slot,
    capacity: u32,
    passes: u32,
) -> u32
    requires { IsSlot root.old }
    ensures of { IsSlot root.new }
    ensures gives { SlotNew (IsNewRing capacity MAX_LAPS passes) (AreRingLimits capacity MAX_LAPS passes) root.old root.new result }
{
    make_ring(alloc, root, capacity, MAX_LAPS, passes)
}

/// A new ring's root, as by `lockfree_ring_new`. Each of its slots can be filled `laps` times: 1 to
/// 2^41 - 1.
#[unsafe(no_mangle)]
pub extern "C" fn lockfree_ring_limited(
    alloc: Global,
    root: &mut Slot,
    capacity: u32,
    laps: u64,
    passes: u32,
) -> u32
    requires { IsSlot root.old }
    ensures of { IsSlot root.new }
    ensures gives { SlotNew (IsNewRing capacity laps passes) (AreRingLimits capacity laps passes) root.old root.new result }
{
    make_ring(alloc, root, capacity, laps, passes)
}
