//! One list of cells that is no container: what a seat knows of it, what holds of its table, and
//! the laws of its host. The tests of the list steps use it.
#![tactic(auto)]

mod knows;

pub use knows::Knows;
