//! Laws of the acts that led to a running stack's table. They are a schedule of its machine, and their calls
//! are linearizable. The number of steps of an operation under way is bounded by how often other passes have
//! succeeded meanwhile. If no pass is out, all passes together have made no more steps than their calls cost,
//! and the loads that read a refused range back. No function here makes a step: the contract of each is a law
//! of what the passes know.

mod bounds;
mod full;
mod headline;
mod linearizable;
mod lock_free;
mod one_run;
mod work;

pub use bounds::{stack_acts_are_a_schedule, stack_steps_are_bounded};
pub use full::{stack_call_has_point, stack_full_put};
pub use headline::{stack_headline, stack_headline_as};
pub use linearizable::stack_acts_are_linearizable;
pub use lock_free::stack_acts_are_lock_free;
pub use one_run::stack_one_run;
pub use work::stack_total_work;
