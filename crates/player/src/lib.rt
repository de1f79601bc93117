//! Scripts played over a container, by single steps.
//!
//! Promised (`play`, `specs/Plays.antt`):
//! - Each line of a script gets a reply of one line: the text of what its call returned. The line's
//!   pass makes the call on the container, under the container's own laws.
//! - `busy`, `nothing begun` and `no pass` come exactly when the formats say. Then the line did
//!   nothing but split passes off.
//! - If a trace is kept, it gains one line for each step, in their order, with the name that the
//!   operation gave the step before it was made (`specs/Traces.antt`).
//!
//! All output is kept in memory. If memory runs out, nothing was written yet.
#![tactic(auto)]

mod acts;
mod bulk_ranges;
mod place;
mod playing;
mod ranges;
mod stage;
mod trace;

pub use bulk_ranges::BulkRanges;
pub use playing::play;
pub use ranges::Ranges;
pub use trace::{MadeStep, Trace};
