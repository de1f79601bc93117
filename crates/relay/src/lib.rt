//! A relay: producer threads put the messages of their inputs into a bounded container, consumer
//! threads take them out, and nothing is lost, duplicated, or put out of a sender's order.
//!
//! [`run`] promises, from the laws of a container alone:
//! - Every message of every input is delivered, left in the container, or unsent, each once.
//! - Over a queue each sender's messages keep their order.
//! - Numbers rise. Over a queue they are 0, 1, 2, ..
//! - No consumer takes more than its share.
//! - While no tag can reach its limit, nothing is unsent or left that the plan did not ask for. If
//!   something is left then and the plan asks for no shut, each consumer took its share.
//! - A relay that is too small for its messages is refused before anything starts.
//!
//! [`run_freely`] promises the same, and holds no thread at a gate.
//!
//! [`numbered`] says whether inputs are numbered as a relay wants them, and a [`Gate`] lets a test
//! hold threads where it wants them.
//!
//! `running` makes a relay. It first looks at its `plan` and its `memory`. Then `threads` start the
//! `workers`, whose puts and takes wait, and `merge` puts together what they took.
#![tactic(auto)]

mod faults;
mod gates;
mod memory;
mod merge;
mod messages;
mod outcome;
mod plan;
mod running;
mod threads;
mod workers;

pub use faults::RelayFault;
pub use gates::{FreeGate, Gate};
pub use messages::{Message, numbered};
pub use outcome::{Plan, Relayed, Taken};
pub use running::{run, run_freely};
