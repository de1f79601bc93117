//! What a pass and a root know of their container's history. A running program makes no value of
//! these types: only definitions and proofs use them.

use crate::{Event, PutRefused, TakeRefused};
use std::collections::LinkedList;

/// What one call of a pass answered.
pub enum Answered<T> {
    /// A put of one value or of several: the number, or the refusal with the values.
    Put(Result<u64, PutRefused<LinkedList<T>>>),
    /// A take: the value and the number.
    Take(Result<(T, u64), TakeRefused>),
    /// A fold: the values and the number.
    Fold(Result<(LinkedList<T>, u64), TakeRefused>),
    /// Whether this call closed the container.
    Close(bool),
    /// Whether this call shut the container.
    Shut(bool),
    /// Whether the container was empty.
    Look(bool),
    /// How many values it held.
    Len(u64),
    /// Whether it was closed, and how many tags were used.
    Gauge(bool, u64),
    /// The pass met another or heard a note.
    Heard,
}

/// A pass: its number, the history that it has seen, how many atomic steps it has made, and the
/// answers of its calls, the newest first.
pub struct PassView<T> {
    pub number: u64,
    pub seen: LinkedList<Event<T>>,
    pub steps: u64,
    pub answers: LinkedList<Answered<T>>,
}

/// What a pass had done when it was joined: how many atomic steps it had made, and the answers of
/// its calls.
pub struct Work<T> {
    pub number: u64,
    pub steps: u64,
    pub answers: LinkedList<Answered<T>>,
}

/// A root:
///
/// - `seen`: the history that it has seen.
/// - `given`: how many passes it has given. They are numbered from 0.
/// - `account`: the number of each joined pass, and that pass's own events.
/// - `works`: what each joined pass had done.
pub struct RootView<T> {
    pub seen: LinkedList<Event<T>>,
    pub given: u64,
    pub account: LinkedList<(u64, LinkedList<Event<T>>)>,
    pub works: LinkedList<Work<T>>,
}
