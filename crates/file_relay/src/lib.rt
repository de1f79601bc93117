//! Files relayed through a queue, a stack or a ring. Each reader gives the messages of one sender.
//!
//! Promised: the output is the outcome of a relay of the messages that were read (`relay_main`).
//! That also holds if stats of that very relay are then written on standard error
//! (`relay_measured`, `Stats`). After a fault of a file, of a relay or of memory nothing was
//! written.
#![tactic(auto)]

mod inputs;
mod measuring;
mod outcome;
mod relaying;
mod stats;
mod tool_fault;
mod tries;

pub use measuring::relay_measured;
pub use relaying::relay_main;
pub use stats::Stats;
pub use tool_fault::ToolFault;
pub use tries::Tries;
