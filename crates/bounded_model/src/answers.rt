//! Why a call was refused, and what a single step answers.

ghost use Rattle.std.specs.Prelude.{◌≡◌};
ghost use Rattle.bounded_model.specs.declared.answers.MakeRefused.TheVariants.{NoMemory};

use std::alloc::AllocError;
use thiserror::Error;

/// The word whose tag allows no further rise.
#[derive(Clone, Copy, Debug, PartialEq, Eq)]
pub enum Word {
    /// The top of a queue's free cells.
    Cells,
    /// The top of a queue's free nodes.
    Nodes,
    /// The `next` word of this node of a queue, or this slot of a ring.
    Next(u32),
    /// The top of a stack's free nodes.
    Free,
    /// The top of a stack.
    Top,
    /// No word: the number of calls of a sequential list.
    Count,
}

/// Why a put was refused. The refusal hands the value back.
#[derive(Debug, Drop, Error, PartialEq)]
pub enum PutRefused<T> {
    /// The container was open, and each cell held a value or was in a pass's hand.
    #[error("full")]
    Full(T),
    /// The container is closed.
    #[error("closed")]
    Closed(T),
    /// The tag of this word allows no further rise: the value, the word, and the tag that was read.
    #[error("spent")]
    Spent(T, Word, u64),
}

/// Why a take was refused.
#[derive(Debug, Drop, Error, PartialEq)]
pub enum TakeRefused {
    /// The container held no value, and it was neither closed nor shut.
    #[error("empty")]
    Empty,
    /// The container held no value, and it was closed but not shut.
    #[error("closed")]
    Closed,
    /// The tag of this word allows no further rise: the word, and the tag that was read.
    #[error("spent")]
    Spent(Word, u64),
    /// The container is shut.
    #[error("shut")]
    Shut,
}

/// Why a container could not be made, or its commands could not be run.
#[derive(Debug, Drop, Error)]
pub enum MakeRefused {
    /// The allocator had no memory.
    #[error("no memory")]
    NoMemory,
}

impl From<AllocError> for MakeRefused {
    ghost from_gives = { λ _ e. e ≡ NoMemory };

    fn from(_refused: AllocError) -> MakeRefused {
        MakeRefused::NoMemory
    }
}

/// What one step of an operation answers.
#[derive(Drop)]
pub enum Stepped<O, P, A> {
    /// The operation is not ended yet.
    Again(O),
    /// The operation has ended. Its pass comes back with the call's answer.
    Done(P, A),
}
