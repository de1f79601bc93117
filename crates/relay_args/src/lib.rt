//! How a relay of files is run, as values: which container, how many consumers, when each worker
//! stops (`RelayArgs`).
//!
//! Promised: `RelayArgs::is_in_range` says exactly whether each value lies in its range (`IsInRange`).
//! A command line gives such values, and a relay takes them; neither knows the other.
#![tactic(auto)]

mod args;
mod ranges;

pub use args::{Kind, RelayArgs};
pub use ranges::{MAX_CONSUMERS, MAX_COUNT, MAX_FILES, MAX_RELAY_PASSES, MAX_RING_CAPACITY};
