//! How long a call waits after a failed compare-and-swap. If a thread waits, the thread that
//! succeeded keeps its cache lines. This helps threads that do nothing but put and take. It hurts if
//! callers do other work between their calls. So a pass remembers which of the two its caller does:
//! that is its `Density`. A call waits by it: that is its `Pause`.
//!
//! Promised: a pass with less evidence than `DENSE` never waits. The waits of a call get longer, and
//! none has more than 640 spin hints. No function here looks at a container: a caller brings the
//! word that it found.
#![tactic(auto)]

mod density;
mod pause;

pub use density::{DENSE, Density, Known, MOST_EVIDENCE, Sight};
pub use pause::{MOST_HINTS, Pause};
