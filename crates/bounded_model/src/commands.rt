//! The calls of a container as values, and their answers.

use crate::{PutRefused, TakeRefused};

/// A whole call.
#[derive(Drop)]
pub enum Command<T> {
    Put(T),
    Take,
    Close,
    Shut,
    Look,
}

/// What that call answered.
#[derive(Debug, Drop, PartialEq)]
pub enum Reply<T> {
    /// The put's number, or the refusal with the value.
    Put(Result<u64, PutRefused<T>>),
    /// The value and the take's number, or the refusal.
    Take(Result<(T, u64), TakeRefused>),
    /// Whether this call closed the container.
    Close(bool),
    /// Whether this call shut the container.
    Shut(bool),
    /// Whether the container was empty.
    Look(bool),
}
