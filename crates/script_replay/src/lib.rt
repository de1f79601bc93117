//! Scripts replayed through a queue or a stack.
//!
//! Promised (`replay`):
//! - A text is accepted only if it is a script. A script is refused only for a fault outside the
//!   text.
//! - The fault of a refused text is its missing last newline or its first bad line.
//! - The script is read and checked whole before anything is written.
//! - Each line after the first gets a reply: what the calls of a new queue or stack return, under
//!   the container's own laws.
//! - After any fault but `Output` nothing was written.
//!
//! `replay_traced` then writes a line for each step that was made, with the name that its operation
//! gave it.
#![tactic(auto)]

mod answer;
mod fault;
mod input;
mod output;
mod queue;
mod replaying;
mod stack;

pub use fault::ReplayFault;
pub use input::MAX_READS;
pub use replaying::{replay, replay_traced};
