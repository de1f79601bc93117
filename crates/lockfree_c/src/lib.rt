//! The queue, the stack, the ring and the ring for one producer and one consumer for C, C++ and Rust: what a program that is not Rattle holds,
//! and the calls that it makes.
//!
//! Promised, as long as C keeps the rules of `c/lockfree.h`:
//! - An export returns what the container's law says of the call.
//! - A pass is used with its own container only.
//!
//! A test shows that the last handle of a container frees it. No contract says it.
#![tactic(auto)]

mod answers;
mod bulk;
mod calls;
mod creating;
mod crossing;
mod ends;
mod exports;
mod handle;
mod held;
mod making;
mod parts;
mod pass;
mod root;
mod side;
mod slot;
mod spsc;
mod stage;
mod steps;
mod work;
