//! The queue of Michael and Scott (PODC 1996) over a fixed pool of nodes and cells, as
//! Boost.Lockfree's bounded queue. It has tagged words, free lists of nodes and of cells, closing
//! and shutting. Only `Queue::new` takes memory.
//!
//! Promised: between any two atomic steps the words, the slots and what the passes know meet the
//! rule of `queue_machine`. Each step of an operation is one line of that machine, from a memory
//! and a history that meet the rule. The step adds that line's events, and gives its answer. So
//! what a pass has seen is always a legal history of one sequential queue, which only grows. A
//! refusal was right at some time between the pass's last step before the call and the answer.
//!
//! Passes are split off a root, meet and are joined again. An operation runs in one of three ways:
//! - by single steps, after it was begun;
//! - by a whole call, a fast path over the same steps that retries, with a wait, while others
//!   interfere;
//! - for a bounded number of steps, after which the caller can continue it.
#![tactic(auto)]

mod calls;
mod code;
mod container;
mod life;
mod naming;
mod places;
mod rule;
mod stepwise;

pub use calls::gauging::Gauge;
pub use code::closing::CloseOp;
pub use code::counting::LenOp;
pub use code::every::{AnyOp, QueueAt};
pub use code::gauging::GaugeOp;
pub use code::looking::LookOp;
pub use code::putting::PutOp;
pub use code::shutting::ShutOp;
pub use code::taking::TakeOp;
pub use life::queue::{Answered, Note, Pass, Queue, Root};
pub use life::rest::Rest;
pub use places::queue_places;
pub use rule::Queued;
