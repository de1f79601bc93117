//! A text that goes out to a writer.
//!
//! `tell` writes a text and flushes the writer. It says whether all of the text went out, or a
//! front of it because a write or the flush failed (`Told`).
#![tactic(auto)]

mod writing;

pub use writing::{Told, tell};
