//! The line of a pass of the ring between two of its atomic steps. The ring is a bounded queue in a
//! circle of slots. A slot's word names a cell. Its tag is even if the slot is empty, odd if it is
//! full, and rises at each put and each take. A pass always has one spare cell, and exchanges it
//! for that of a slot. Between calls the spare cell lies at home, empty. A put has it in hand from
//! its first step on, and a take has the cell that it took until its last step. No value of these
//! types is made at run time: they stand in definitions, proofs and views.
//!
//! A position is a word: its index says which slot, and its tag in which lap. Puts and takes pass
//! through the positions in their order, and each has the number of its position.

use bounded_model::{PutRefused, TakeRefused};
use tagged_index::Fields;

/// A tagged word.
pub enum Place {
    /// A position near the front, from which a pass looks for the front.
    Head,
    /// A position near the back, from which a pass looks for the back.
    Tail,
    /// The word of a slot.
    Slot(u32),
}

/// A walk along the positions, from one that `HEAD` or `TAIL` named.
pub struct Walk {
    /// The spare cell of the pass.
    pub cell: u32,
    /// The word that was read.
    pub from: Fields,
    /// The position that the walk has come to.
    pub at: Fields,
    /// How many positions it has passed.
    pub gone: u32,
}

/// Why a pass goes to the back: the first position that was not put.
pub enum Back<T> {
    /// To put this value there.
    ToPut(T),
    /// To close the ring there.
    ToClose,
    /// To say how many values stand before it, if this position was the front.
    ToCount(Fields),
    /// To say whether the ring is closed there, and how many values were put before it.
    ToGauge,
}

/// Why a pass goes to the front: the first position that was not taken.
pub enum Front {
    /// To take the value there.
    ToTake,
    /// To shut the ring there.
    ToShut,
    /// To say whether a value is there.
    ToLook,
    /// To count from there.
    ToCount,
}

/// What an operation answers.
pub enum Answer<T> {
    /// The number. A refusal hands the value back.
    Put(Result<u64, PutRefused<T>>),
    /// The value and the number.
    Take(Result<(T, u64), TakeRefused>),
    /// Whether this operation closed the ring.
    Close(bool),
    /// Whether this operation shut the ring.
    Shut(bool),
    /// Whether the ring was empty.
    Look(bool),
    /// How many values it held.
    Len(u64),
    /// Whether it was closed, and how many values had been put.
    Gauge(bool, u64),
}

/// The next atomic step of a pass, with its spare cell and what it has read. The word that the pass
/// read last is the last field.
pub enum Line<T> {
    /// No operation. The answer is that of the last one.
    Idle(u32, Option<Answer<T>>),
    /// Load `TAIL`, and take the spare cell in hand, for this value.
    FetchTail(u32, T),
    /// Load `TAIL`.
    LoadTail(u32, Back<T>),
    /// Load the slot that the walk to the back has come to.
    LoadBack(Walk, Back<T>),
    /// The walk has gone far: compare-and-swap `TAIL` for the position that it has come to.
    MoveTail(Walk, Back<T>),
    /// Exchange the spare cell, with the value in it, for the cell of the empty slot.
    PutCell(Walk, T, Fields),
    /// The value is put at the position of the walk. Compare-and-swap `TAIL` for the next position.
    PassTail(Walk),
    /// Set the mark of the slot at the back.
    MarkBack(Walk, Fields),
    /// Load `HEAD`.
    LoadHead(u32, Front),
    /// Load the slot that the walk to the front has come to.
    LoadFront(Walk, Front),
    /// The walk has gone far: compare-and-swap `HEAD` for the position that it has come to.
    MoveHead(Walk, Front),
    /// Exchange the spare cell, which is empty, for the cell of the full slot.
    TakeCell(Walk, Fields),
    /// The value is taken at the position of the walk. Compare-and-swap `HEAD` for the next
    /// position.
    PassHead(Walk, T),
    /// Load the slot that the walk has come to once more, and lay the spare cell, which is empty,
    /// back home. Then the operation answers.
    Stow(Walk, Answer<T>),
    /// Set the second mark of the slot at the front.
    ShutFront(Walk, Fields),
    /// The front was the first position while the back was the second: load its slot again.
    CheckFront(u32, Fields, Fields),
}

/// An operation to be begun.
pub enum Call<T> {
    Put(T),
    Take,
    Close,
    Shut,
    Look,
    Len,
    Gauge,
}
