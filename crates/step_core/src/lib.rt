//! The laws of the pure machines, true of every schedule of any number of passes.
//!
//! The functions here make no step. The contract of each is a law. The contract of `.._exhibits` is
//! a list of played rows. That of `.._near_misses` is a list of wrong machines, each with a
//! schedule in which it breaks a law. No container depends on this crate.
#![tactic(auto)]

mod list_laws;
mod list_shown;
mod queue_laws;
mod queue_shown;
mod ring_laws;
mod ring_shown;
mod stack_laws;
mod stack_shown;

pub use list_laws::list_core;
pub use list_shown::list_exhibits;
pub use queue_laws::{
    queue_answers, queue_bound, queue_core, queue_full_means_full, queue_linearizable,
    queue_lock_free, queue_nodes, queue_order, queue_rule,
};
pub use queue_shown::{queue_exhibits, queue_near_misses};
pub use ring_laws::{
    ring_answers, ring_bound, ring_cells, ring_core, ring_full_means_full, ring_linearizable,
    ring_lock_free, ring_order, ring_rule,
};
pub use ring_shown::{ring_exhibits, ring_near_misses};
pub use stack_laws::{
    stack_answers, stack_bound, stack_core, stack_full_means_full, stack_linearizable,
    stack_lock_free, stack_nodes, stack_rule,
};
pub use stack_shown::{stack_exhibits, stack_near_misses};
