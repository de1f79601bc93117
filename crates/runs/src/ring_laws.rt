//! Laws of the acts that led to a running ring's table. They are a schedule of its machine, and
//! their calls are linearizable. The steps of an operation under way are bounded, by how often
//! others have succeeded meanwhile. Among a bounded number of steps some call ends. If no pass is
//! out, all passes together have made no more steps than their calls cost. A joined pass leaves its
//! spare cell to a later one, so in the machine here each begin says which cell the pass has. The
//! laws hold of acts in which each operation was begun with a cell that was free, as in a running
//! ring. No function here makes a step: the contract of each is a law of what the passes know.

mod bounds;
mod full;
mod headline;
mod linearizable;
mod lock_free;
mod one_run;
mod work;

pub use bounds::{ring_acts_are_a_schedule, ring_steps_are_bounded};
pub use full::{ring_call_has_point, ring_full_put};
pub use headline::{ring_headline, ring_headline_as};
pub use linearizable::ring_acts_are_linearizable;
pub use lock_free::ring_acts_are_lock_free;
pub use one_run::ring_one_run;
pub use work::ring_total_work;
