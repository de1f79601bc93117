//! Laws of the acts that led to a running container's table: all its passes see one history, their
//! calls are linearizable, and the steps that they make are bounded.
//!
//! `order`, `one_run` and `counting` are of all machines: calls in one order and in real time, and
//! operations whose caller makes each step and counts it. `queue_laws`, `stack_laws` and `ring_laws`
//! say of each container that its acts are a schedule of its machine, with all that follows from it.
//! Their functions make no step: the contract of each is a law of what the passes know. `progress`
//! has the bounds as a caller of a container sees them.
#![tactic(auto)]

mod counting;
mod one_run;
mod order;
pub mod progress;
mod queue_laws;
mod ring_laws;
mod shown;
mod stack_laws;

pub use counting::step_for;
pub use one_run::calls_keep_time;
pub use order::{calls_in_one_order, calls_near_misses, each_call_did_once};
pub use queue_laws::{
    queue_acts_are_a_schedule, queue_acts_are_linearizable, queue_acts_are_lock_free,
    queue_call_has_point, queue_full_put, queue_headline, queue_headline_as,
    queue_headline_near_misses, queue_one_run, queue_spent_near_misses, queue_spent_put,
    queue_steps_are_bounded, queue_total_work,
};
pub use ring_laws::{
    ring_acts_are_a_schedule, ring_acts_are_linearizable, ring_acts_are_lock_free,
    ring_call_has_point, ring_full_put, ring_headline, ring_headline_as, ring_one_run,
    ring_steps_are_bounded, ring_total_work,
};
pub use shown::seats_near_misses;
pub use stack_laws::{
    stack_acts_are_a_schedule, stack_acts_are_linearizable, stack_acts_are_lock_free,
    stack_call_has_point, stack_full_put, stack_headline, stack_headline_as, stack_one_run,
    stack_steps_are_bounded, stack_total_work,
};
