//! What a history is made of.

use std::collections::LinkedList;

/// In which order the values of a container leave it.
#[derive(Clone, Copy, Debug, PartialEq, Eq)]
pub enum Order {
    /// A queue: the oldest value first.
    Fifo,
    /// A stack: the newest value first.
    Lifo,
}

/// What one pass did to a container. The first field is the pass's number. A running program makes
/// no value of this type: only definitions and proofs use events.
pub enum Event<T> {
    /// The pass took a free cell into its hand.
    Hold(u64),
    /// The pass put values, each in a cell of its hand, by the call of this number.
    Put(u64, LinkedList<T>, u64),
    /// The pass took one value, by the call of this number, and holds its cell.
    Take(u64, T, u64),
    /// The pass took all values, by the call of this number, and holds their cells.
    TakeAll(u64, LinkedList<T>, u64),
    /// The pass gave this number of cells of its hand back.
    Free(u64, u64),
    /// The pass closed the container: no put follows.
    Close(u64),
    /// The pass shut the container: no take follows.
    Shut(u64),
}
