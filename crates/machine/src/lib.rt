//! What the pure machines of all containers share. It knows no container.
//!
//! - tagged words, and lists of indexes in links
//! - chains of nodes with their slots
//! - what a pass that has read a top may depend on
//! - which seat answers for which pass's events
//!
//! A container shows its machine as one record of `specs/Schedule`: the first memory, the line of a
//! pass at rest, the line at which a call starts, what one step does, and which steps are
//! compare-and-swaps that succeed. `run` plays any schedule of it.
//!
//! `proofs/Stories` then needs one lemma for each kind of act: a begin and a step keep the rule,
//! and keep true what a line says of what its pass has seen. Both then hold in every schedule.
//! `proofs/Paying` needs weights of lines that fall, and prices of compare-and-swaps that pay for
//! what they raise. It gives the bounds of `specs/Bound` and `specs/Progress`: lock-freedom, by
//! number.
#![tactic(auto)]

pub mod seats;

pub use seats::View;
