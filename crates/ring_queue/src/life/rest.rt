//! What is left in a ring at its end.
ghost use Rattle.std.specs.Prelude.{◌≡◌, ℕ, ◌+◌, ◌*◌, ◌<◌, ◌≤◌, slice_index};
ghost use Rattle.std.specs.Mem.Slots.{slots_items, slots_len, IsFull};
ghost use Rattle.tagged_index.specs.declared.word.TheConstants.{NULL, MAX_TAG};
ghost use Rattle.ring_table.specs.Layout.{words_for};
ghost use Rattle.ring_queue.specs.code.Left.{next_slot, HasTaken, IsFront};

use crate::code::walking::STRIDE;
use atomic_table::Closed;
use bounded_model::Leaving;
use ring_table::layout;
use std::alloc::Global;
use tagged_index::Tagged;

/// The values that are left in a ring, from the front. They stay in their cells. A cell is empty
/// once the rest has given its value.
pub struct Rest<T> {
    closed: Closed<Option<T>, Global>,
    capacity: u32,
    /// The slot of the next value.
    slot: u32,
    /// How many slots were not looked at yet.
    left: u32,
    ghost full: { IsFull closed.words × IsFull closed.slots },
    ghost words: { slots_len closed.words ≡ words_for capacity },
    ghost small: { capacity ≤ NULL },
    ghost low: { slot < capacity },
}

// The word with that number.
fn word_at<T>(closed: &Closed<Option<T>, Global>, at: usize) -> Tagged
    requires { (at < slots_len closed.now.words) × IsFull closed.now.words }
    ensures { result ≡ slice_index (slots_items closed.now.words) at }
{
    Tagged::from_word(closed.word(at))
}

// The slot after that of this lap, with its own lap.
fn behind(capacity: u32, slot: u32, lap: u64) -> (u32, u64)
    requires low { slot < capacity }
    requires small { lap ≤ 2 * MAX_TAG }
    ensures low { result.0 < capacity }
    ensures next { result.0 ≡ next_slot capacity slot }
    ensures lap { result.1 ≤ lap + 1 }
    ensures place { result.1 * capacity + result.0 ≡ lap * capacity + slot + 1 }
{
    if slot + 1 == capacity {
        (0, lap + 1)
    } else {
        (slot + 1, lap)
    }
}

// The slot at the front. The hint names it, or a position at most a stride before it.
fn front_of<T>(closed: &Closed<Option<T>, Global>, capacity: u32) -> u32
    requires full { IsFull closed.now.words }
    requires words { slots_len closed.now.words ≡ words_for capacity }
    requires small { capacity ≤ NULL }
    requires taken { (takes : ℕ) × HasTaken capacity takes (slots_items closed.now.words) }
    ensures low { result < capacity }
    ensures front { (takes : ℕ) → HasTaken capacity takes (slots_items closed.now.words)
        → IsFront capacity takes result }
{
    let hint = word_at(closed, layout::HEAD);
    let mut slot = hint.index();
    let mut lap = hint.tag();
    for _gone in 0..STRIDE {
        if word_at(closed, layout::slot(capacity, slot)).tag() <= 2 * lap + 1 {
            return slot;
        }
        let next = behind(capacity, slot, lap);
        slot = next.0;
        lap = next.1;
    }
    slot
}

impl<T> Rest<T> {
    ghost use Rattle.ring_queue.specs.code.Left.{values_from};
    ghost use Rattle.ring_queue.specs.code.Leaving.{left_in};

    // What the slots have, from the front.
    pub(crate) fn of(closed: Closed<Option<T>, Global>, capacity: u32) -> Rest<T>
        requires full { IsFull closed.words × IsFull closed.slots }
        requires words { slots_len closed.words ≡ words_for capacity }
        requires small { capacity ≤ NULL }
        requires taken { (takes : ℕ) × HasTaken capacity takes (slots_items closed.words) }
        ensures left { left_in result ≡ values_from capacity (slots_items closed.words) capacity
            (slots_items closed.slots) result.slot }
        ensures low { result.slot < capacity }
        ensures front { (takes : ℕ) → HasTaken capacity takes (slots_items closed.words)
            → IsFront capacity takes result.slot }
    {
        let slot = front_of(&closed, capacity);
        Rest {
            closed,
            capacity,
            slot,
            left: capacity,
        }
    }
}

impl<T> Leaving<T> for Rest<T> {
    ghost use Rattle.ring_queue.specs.code.Leaving.{left_in};

    ghost left = { left_in };

    fn next(&mut self) -> Option<T> {
        if self.left == 0 {
            return None;
        }
        let word = word_at(&self.closed, layout::slot(self.capacity, self.slot));
        let cell = word.index() as usize;
        if cell >= self.closed.slot_count() {
            return None;
        }
        let value = self.closed.slots.get_mut(cell).take()?;
        self.slot = behind(self.capacity, self.slot, 0).0;
        self.left -= 1;
        Some(value)
    }
}

impl<T: Drop> Drop for Rest<T> {
    fn drop(self) {
        let Rest {
            mut closed,
            capacity: _,
            slot: _,
            left: _,
        } = self;
        for at in 0..closed.slot_count() {
            drop(closed.take(at));
        }
        closed.free();
    }
}
// A caller who needs this answers `search (sendable, rest_send) depth 30`, by the lemma of
// `proofs/Crossing.antt`, since `Closed` has no such impl of its own.
unsafe impl<T: Send> Send for Rest<T> {}
