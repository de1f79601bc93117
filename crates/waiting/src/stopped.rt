//! Why a call that waits stopped without what it waited for.

use bounded_model::Word;
use thiserror::Error;

/// Why a waiting put put nothing. The value comes back.
#[derive(Debug, Drop, Error, PartialEq)]
pub enum PutStopped<T> {
    /// The container is closed.
    #[error("closed")]
    Closed(T),
    /// The tag of this word has reached the limit: the value, the word, and the tag that was read.
    #[error("spent")]
    Spent(T, Word, u64),
}

/// Why a waiting take took nothing.
#[derive(Debug, Drop, Error, PartialEq)]
pub enum TakeStopped {
    /// There is no value, and the container is closed.
    #[error("closed")]
    Closed,
    /// The container is shut.
    #[error("shut")]
    Shut,
    /// The tag of this word has reached the limit: the word, and the tag that was read.
    #[error("spent")]
    Spent(Word, u64),
}

/// What was not put.
#[derive(Drop)]
pub struct Unsent<T, I> {
    /// The first of the values, and why it was refused.
    pub first: PutStopped<T>,
    /// The iterator of the values after it.
    pub rest: I,
}
