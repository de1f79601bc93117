//! The machine of the ring on a table of atomic words: where its words lie, which access each of
//! its lines makes, and the proof that each access does to the table what the machine's step does
//! to its memory. It also has the spare cells of the root and of passes that meet, and the laws
//! that running code needs.
#![tactic(auto)]

pub mod layout;
mod line;
mod operation;

pub use line::SeatLine;
pub use operation::Operation;
