//! The names of atomic steps, for those who watch a container's calls step by step.
//!
//! Promised: the name that a container gives the next step of an operation under way is that of its
//! machine's step, by the table of steps (`Named`, `specs/Names.antt`). The name says whether the
//! step loads, stores or compare-and-swaps, and which word. From the names of a step and of the one
//! that follows it, `StepName::outcome` tells whether a compare-and-swap succeeded. The answer is
//! right for each machine whose table the names are of (`names_tell`).
#![tactic(auto)]

mod law;
mod location;
mod named;
mod step_name;

pub use law::names_tell;
pub use location::Location;
pub use named::Named;
pub use step_name::{Outcome, StepName};
