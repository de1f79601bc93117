//! A ring as a bounded queue: a circle of slots, each of which names a cell, and one cell more for
//! each pass. A put exchanges the cell of its pass, with the value in it, for that of the first
//! empty slot. A take exchanges it for that of the first full one. There are no free lists and no
//! links, and no call takes memory except `RingQueue::new`.
//!
//! Promised:
//! - Between any two atomic steps the words, the slots and what the passes know meet the rule of
//!   `ring_machine`.
//! - Each step of an operation is one line of that machine, from a memory and a history that meet
//!   the rule. The events that the step adds and its answer are that line's.
//! - So what a pass has seen is always a legal history of one sequential queue, which only grows.
//! - A refusal was right at some time between the pass's last step before the call and the answer.
//!
//! An operation is begun and then made step by step. A whole call makes the same steps on a fast
//! path, and retries while others interfere. A bounded call makes a bounded number of steps, and
//! the caller can continue it. If a put or a take was too late, it continues at once, one slot
//! further. If the compare-and-swap of a close or a shut failed, the call waits, if its pass calls
//! back to back.
#![tactic(auto)]

mod calls;
mod code;
mod container;
mod life;
mod naming;
mod places;
mod rule;
mod stepwise;

pub use calls::gauging::Gauge;
pub use code::closing::{CloseOp, ShutOp};
pub use code::counting::LenOp;
pub use code::every::{AnyOp, RingAt};
pub use code::gauging::GaugeOp;
pub use code::looking::LookOp;
pub use code::putting::PutOp;
pub use code::taking::TakeOp;
pub use life::limits::{MAX_LAPS, MIN_LAPS, RingLimits};
pub use life::rest::Rest;
pub use life::ring::{Answered, Note, Pass, RingQueue, Root};
pub use life::spare::Spare;
pub use places::ring_places;
pub use rule::Ringed;
