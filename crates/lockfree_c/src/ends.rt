//! The calls of the two ends of a ring for one producer and one consumer.
ghost use Rattle.std.specs.Prelude.{◌≡◌, ◌⊎◌, []};
ghost use Rattle.rtrb.specs.Ring.{known_items};
ghost use Rattle.lockfree_c.specs.Codes.{bare};
ghost use Rattle.lockfree_c.specs.Ends.{
  Peeked,
  Popped,
  PoppedMany,
  Pushed,
  PushedMany,
  Room,
  Size,
};
ghost use Rattle.lockfree_c.specs.declared.answers.TheConstants.{FULL, EMPTY, CLOSED};

use crate::answers::{Answer, CLOSED, EMPTY, FULL, OK};
use rtrb::{Consumer, Producer};

// Why a push is refused; whether the consumer has left.
fn no_room(gone: bool) -> Answer
    ensures { (result ≡ bare FULL) ⊎ (result ≡ bare CLOSED) }
{
    Answer::of(if gone { CLOSED } else { FULL })
}

// Why a pop is refused; whether the producer has left.
fn no_item(gone: bool) -> Answer
    ensures { (result ≡ bare EMPTY) ⊎ (result ≡ bare CLOSED) }
{
    Answer::of(if gone { CLOSED } else { EMPTY })
}

/// Pushes a value: `OK`, or `FULL`, or `CLOSED` if no slot is free and the consumer has left.
#[inline(always)]
pub fn push(end: &mut Producer<u64>, value: u64) -> Answer
    ensures { Pushed end.old value end.new result }
{
    match end.push(value) {
        Ok(()) => Answer::of(OK),
        Err(_) => no_room(end.is_abandoned()),
    }
}

/// Pushes the first values of an array, as many as there are slots for, and says how many.
pub fn push_many(end: &mut Producer<u64>, values: &[u64]) -> Answer
    ensures { PushedMany end.old values.now end.new result }
{
    if values.is_empty() {
        return Answer::with(OK, 0);
    }
    let (pushed, _) = end.push_partial_slice(values);
    if pushed.is_empty() {
        return no_room(end.is_abandoned());
    }
    Answer::with(OK, pushed.len() as u64)
}

/// How many slots are free. The code is `CLOSED` if the consumer has left.
pub fn room(end: &mut Producer<u64>) -> Answer
    ensures { Room end.old end.new result }
{
    let code = if end.is_abandoned() { CLOSED } else { OK };
    Answer::with(code, end.slots() as u64)
}

/// Pops the oldest value: `OK`, or `EMPTY`, or `CLOSED` if there is none and the producer has left.
#[inline(always)]
pub fn pop(end: &mut Consumer<u64>) -> Answer
    ensures { Popped end.old end.new result }
{
    if end.cached_slots() > 0 {
        return Answer::with(OK, end.pop_known());
    }
    pop_unseen(end)
}

// A pop by an end that knows of no item.
#[inline(never)]
fn pop_unseen(end: &mut Consumer<u64>) -> Answer
    requires { known_items end.old ≡ [] }
    ensures { Popped end.old end.new result }
{
    // Read first, because what the producer pushed before it left is popped before `CLOSED` is said.
    let gone = end.is_abandoned();
    match end.pop() {
        Ok(value) => Answer::with(OK, value),
        Err(_) => no_item(gone),
    }
}

/// Pops the oldest values into the first places of an array, as many as there are, and says how many.
pub fn pop_many(end: &mut Consumer<u64>, values: &mut [u64]) -> Answer
    ensures { PoppedMany end.old values.old values.new end.new result }
{
    if values.is_empty() {
        return Answer::with(OK, 0);
    }
    // Read first, as in `pop_unseen`.
    let gone = end.is_abandoned();
    let count = end.pop_partial_slice(values);
    if count == 0 {
        return no_item(gone);
    }
    Answer::with(OK, count as u64)
}

/// The oldest value, which stays.
pub fn peek(end: &mut Consumer<u64>) -> Answer
    ensures { Peeked end.old end.new result }
{
    // Read first, as in `pop_unseen`.
    let gone = end.is_abandoned();
    if end.is_empty() {
        return no_item(gone);
    }
    Answer::with(OK, *end.peek_known())
}

/// How many values there are. The code is `CLOSED` if the producer has left.
pub fn size(end: &mut Consumer<u64>) -> Answer
    ensures { Size end.old end.new result }
{
    let code = if end.is_abandoned() { CLOSED } else { OK };
    Answer::with(code, end.slots() as u64)
}
