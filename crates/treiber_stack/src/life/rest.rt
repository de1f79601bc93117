//! What is left in a stack at its end.
ghost use Rattle.std.specs.Prelude.{◌≡◌, ◌<◌, ◌≤◌, slice_index};
ghost use Rattle.std.specs.Mem.Slots.{slots_items, slots_len, IsFull};
ghost use Rattle.tagged_index.specs.Fields.{index_of};
ghost use Rattle.tagged_index.specs.declared.word.TheConstants.{NULL};
ghost use Rattle.stack_table.specs.Layout.{words_for};

use atomic_table::Closed;
use bounded_model::Leaving;
use stack_table::layout::{TOP, link};
use std::alloc::Global;
use tagged_index::Tagged;

/// The values that are left in a stack, from the top down. They stay where they are: a slot has
/// none once its value was given.
pub struct Rest<T> {
    closed: Closed<Option<T>, Global>,
    /// The node of the next value. Null at the end, which is no slot's number.
    index: u32,
    ghost full: { IsFull closed.words × IsFull closed.slots },
    ghost words: { slots_len closed.words ≡ words_for (slots_len closed.slots) },
    ghost few: { slots_len closed.slots ≤ NULL },
}

// The index in a word.
fn index_at<T>(closed: &Closed<Option<T>, Global>, at: usize) -> u32
    requires { (at < slots_len closed.now.words) × IsFull closed.now.words }
    ensures { result ≡ index_of (slice_index (slots_items closed.now.words) at) }
{
    Tagged::from_word(closed.word(at)).index()
}

impl<T> Rest<T> {
    ghost use Rattle.stack_table.specs.Layout.{top_at};
    ghost use Rattle.treiber_stack.specs.code.Left.{left_in, left_along};

    // The values in the list under `TOP`.
    pub(crate) fn of(closed: Closed<Option<T>, Global>) -> Rest<T>
        requires full { IsFull closed.words × IsFull closed.slots }
        requires words { slots_len closed.words ≡ words_for (slots_len closed.slots) }
        requires few { slots_len closed.slots ≤ NULL }
        ensures { left_in result ≡ left_along (slots_items closed.words) (slots_items closed.slots)
            (index_of (slice_index (slots_items closed.words) top_at)) }
    {
        let index = index_at(&closed, TOP);
        Rest { closed, index }
    }
}

impl<T> Leaving<T> for Rest<T> {
    ghost use Rattle.treiber_stack.specs.code.Left.{left_in};

    ghost left = { left_in };

    fn next(&mut self) -> Option<T> {
        let at = self.index as usize;
        if at >= self.closed.slot_count() {
            return None;
        }
        let value = self.closed.slots.get_mut(at).take()?;
        self.index = index_at(&self.closed, link(self.index));
        Some(value)
    }
}

impl<T: Drop> Drop for Rest<T> {
    fn drop(self) {
        let Rest {
            mut closed,
            index: _,
        } = self;
        for at in 0..closed.slot_count() {
            drop(closed.take(at));
        }
        closed.free();
    }
}
// A caller who needs this answers `search (sendable, rest_send) depth 30`, by the lemma of
// `proofs/Crossing.antt`, since `Closed` has no such impl of its own.
unsafe impl<T: Send> Send for Rest<T> {}
