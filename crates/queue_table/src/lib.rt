//! The machine of the queue of Michael and Scott (PODC 1996) on a table of atomic words. It says
//! where the words lie, and which access each line of the machine makes. Each access does to the
//! table what the machine's step does to its memory.
#![tactic(auto)]

pub mod layout;
mod operation;

pub use operation::Operation;
