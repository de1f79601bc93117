//! Laws of the acts that led to a running queue's table. They are a schedule of its machine, and their calls
//! are linearizable. The number of steps of an operation under way is bounded by how often other passes have
//! succeeded meanwhile. If no pass is out, all passes together have made no more steps than their calls cost.
//! No function here makes a step: the contract of each is a law of what the passes know.

mod bounds;
mod full;
mod headline;
mod life;
mod linearizable;
mod lock_free;
mod one_run;
mod work;

pub use bounds::{queue_acts_are_a_schedule, queue_steps_are_bounded};
pub use full::{queue_call_has_point, queue_full_put};
pub use headline::{queue_headline, queue_headline_as, queue_headline_near_misses};
pub use life::{queue_spent_near_misses, queue_spent_put};
pub use linearizable::queue_acts_are_linearizable;
pub use lock_free::queue_acts_are_lock_free;
pub use one_run::queue_one_run;
pub use work::queue_total_work;
