//! Calls that wait, over any bounded container: a put that tries again while the container is full,
//! a take that tries again while it is empty, many of either, and passes for many threads.
//!
//! Each call is written once and proved from the laws of `Container` alone. A waiting put promises
//! what a put does, and never answers that the container is full. A waiting take promises what a
//! take does, and never answers that it is empty.
//!
//! A put returns when another thread has made room or closed the container. A take returns when
//! another thread has put a value, closed the container or shut it. Either stops if a tag is at its
//! limit. Nothing is promised of how long that takes, nor that it happens.
//!
//! [`Shared`] is a container as the threads that share it see it. Every `Container` is one.
#![tactic(auto)]

mod passes;
mod pause;
mod put;
mod shared;
mod stopped;
mod take;

pub use passes::{SplitRefused, join_all, split_many};
pub use pause::wait_a_little;
pub use put::{put_all, put_waiting, put_waiting_with};
pub use shared::Shared;
pub use stopped::{PutStopped, TakeStopped, Unsent};
pub use take::{take_all_until_closed, take_waiting, take_waiting_with};
