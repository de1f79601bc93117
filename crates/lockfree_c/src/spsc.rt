//! The functions that C calls of a ring for one producer and one consumer. Each end has a slot of its
//! own, which one thread uses at a time.
ghost use Rattle.std.specs.Prelude.{◌≡◌, ◌⊎◌, false};
ghost use Rattle.lockfree_c.specs.declared.answers.TheConstants.{OK};
ghost use Rattle.lockfree_c.specs.Ends.{
  Peeked,
  Popped,
  PoppedMany,
  Pushed,
  PushedMany,
  Room,
  Size,
};
ghost use Rattle.lockfree_c.specs.Slots.{IsSlot};
ghost use Rattle.lockfree_c.specs.Spsc.{
  ConsumerDoes,
  EndsMade,
  ProducerDoes,
  SlotClosed,
  SlotDoes,
  SlotsNew,
};

use crate::answers::{Answer, BAD_CAPACITY, IN_USE, NO_HANDLE, NO_MEMORY, OK, OTHER_HANDLE};
use crate::ends;
use crate::held::Held;
use crate::making::boxed;
use crate::slot::Slot;
use rtrb::RingBuffer;
use std::alloc::Global;

// Lets the producer behind the slot make its call.
macro_rules! by_producer {
    ($slot:expr, $end:ident => $call:expr) => {
        if $slot.full {
            match $slot.handle.open_mut() {
                Held::Producer($end) => $call,
                _ => Answer::of(OTHER_HANDLE),
            }
        } else {
            Answer::of(NO_HANDLE)
        }
    };
}

// Lets the consumer behind the slot make its call.
macro_rules! by_consumer {
    ($slot:expr, $end:ident => $call:expr) => {
        if $slot.full {
            match $slot.handle.open_mut() {
                Held::Consumer($end) => $call,
                _ => Answer::of(OTHER_HANDLE),
            }
        } else {
            Answer::of(NO_HANDLE)
        }
    };
}

// Makes both ends, for slots that are empty.
fn make_ends(alloc: Global, producer: &mut Slot, consumer: &mut Slot, capacity: u32) -> u32
    requires { (producer.old.full ≡ false) × (consumer.old.full ≡ false) }
    ensures { EndsMade capacity producer.new consumer.new result }
{
    if capacity == 0 {
        return BAD_CAPACITY;
    }
    let Ok((sends, receives)) = RingBuffer::new(alloc, capacity as usize) else {
        return NO_MEMORY;
    };
    let Ok(sends) = boxed(alloc, Held::Producer(sends)) else {
        return NO_MEMORY;
    };
    let Ok(receives) = boxed(alloc, Held::Consumer(receives)) else {
        return NO_MEMORY;
    };
    producer.put(sends);
    consumer.put(receives);
    OK
}

/// Makes a ring of this capacity for one producer and one consumer. Both slots must be empty; each
/// gets its end. `BAD_CAPACITY` if it is 0, `IN_USE` if a slot is full, or `NO_MEMORY`.
#[unsafe(no_mangle)]
pub extern "C" fn lockfree_spsc_new(
    alloc: Global,
    producer: &mut Slot,
    consumer: &mut Slot,
    capacity: u32,
) -> u32
    requires { IsSlot producer.old × IsSlot consumer.old }
    ensures of { IsSlot producer.new × IsSlot consumer.new }
    ensures gives { SlotsNew capacity producer.old consumer.old producer.new consumer.new result }
{
    if producer.full || consumer.full {
        return IN_USE;
    }
    make_ends(alloc, producer, consumer, capacity)
}

/// Pushes a value behind all others: `OK`, `FULL`, or `CLOSED` if there is no free slot and the
/// consumer has left.
#[unsafe(no_mangle)]
pub extern "C" fn lockfree_spsc_push(producer: &mut Slot, value: u64) -> Answer
    requires { IsSlot producer.old }
    ensures of { IsSlot producer.new }
    ensures gives { SlotDoes (ProducerDoes (λ p. Pushed p value)) producer.old producer.new result }
{
    by_producer!(producer, end => ends::push(end, value))
}

/// Pushes the first values of an array, as many as there are free slots; the answer's value says how
/// many. Of no values it is `OK` with 0.
#[unsafe(no_mangle)]
pub extern "C" fn lockfree_spsc_push_many(producer: &mut Slot, values: &[u64]) -> Answer
    requires { IsSlot producer.old }
    ensures of { IsSlot producer.new }
    ensures gives { SlotDoes (ProducerDoes (λ p. PushedMany p values.now)) producer.old producer.new
        result }
{
    by_producer!(producer, end => ends::push_many(end, values))
}

/// How many slots are free: so many pushes cannot be refused. The code is `CLOSED` if the consumer has
/// left, and `OK` if not.
#[unsafe(no_mangle)]
pub extern "C" fn lockfree_spsc_room(producer: &mut Slot) -> Answer
    requires { IsSlot producer.old }
    ensures of { IsSlot producer.new }
    ensures gives { SlotDoes (ProducerDoes Room) producer.old producer.new result }
{
    by_producer!(producer, end => ends::room(end))
}

/// Pops the oldest value: `OK`, `EMPTY`, or `CLOSED` if there is none and the producer has left.
#[unsafe(no_mangle)]
pub extern "C" fn lockfree_spsc_pop(consumer: &mut Slot) -> Answer
    requires { IsSlot consumer.old }
    ensures of { IsSlot consumer.new }
    ensures gives { SlotDoes (ConsumerDoes Popped) consumer.old consumer.new result }
{
    by_consumer!(consumer, end => ends::pop(end))
}

/// Pops the oldest values into the first places of an array, as many as there are and as it has
/// places; the answer's value says how many. Of no places it is `OK` with 0.
#[unsafe(no_mangle)]
pub extern "C" fn lockfree_spsc_pop_many(consumer: &mut Slot, values: &mut [u64]) -> Answer
    requires { IsSlot consumer.old }
    ensures of { IsSlot consumer.new }
    ensures gives { SlotDoes (ConsumerDoes (λ c. PoppedMany c values.old values.new)) consumer.old
        consumer.new result }
    ensures kept { (result.code ≡ OK) ⊎ (values.new ≡ values.old) }
{
    by_consumer!(consumer, end => ends::pop_many(end, values))
}

/// The oldest value, which stays: the answers of a pop.
#[unsafe(no_mangle)]
pub extern "C" fn lockfree_spsc_front(consumer: &mut Slot) -> Answer
    requires { IsSlot consumer.old }
    ensures of { IsSlot consumer.new }
    ensures gives { SlotDoes (ConsumerDoes Peeked) consumer.old consumer.new result }
{
    by_consumer!(consumer, end => ends::peek(end))
}

/// How many values there are: so many pops cannot be refused. The code is `CLOSED` if the producer has
/// left, and `OK` if not.
#[unsafe(no_mangle)]
pub extern "C" fn lockfree_spsc_size(consumer: &mut Slot) -> Answer
    requires { IsSlot consumer.old }
    ensures of { IsSlot consumer.new }
    ensures gives { SlotDoes (ConsumerDoes Size) consumer.old consumer.new result }
{
    by_consumer!(consumer, end => ends::size(end))
}

/// The producer leaves: the consumer pops what is left, and is then told `CLOSED`. The slot is empty
/// after it.
#[unsafe(no_mangle)]
pub extern "C" fn lockfree_spsc_close(alloc: Global, producer: &mut Slot) -> u32
    requires { IsSlot producer.old }
    ensures of { IsSlot producer.new }
    ensures gives { SlotClosed producer.old producer.new result }
{
    if !producer.full {
        return NO_HANDLE;
    }
    match producer.handle.open_mut() {
        Held::Producer(_) => {
            drop(producer.take(alloc));
            OK
        }
        _ => OTHER_HANDLE,
    }
}
