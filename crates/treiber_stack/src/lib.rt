//! Treiber's stack (IBM RJ 5118, 1986) over a fixed pool of nodes, as Boost.Lockfree's bounded
//! stack. It has tagged words, a free list of nodes, closing and shutting. Only `Stack::new` takes
//! memory.
//!
//! Promised: between any two atomic steps the words, the slots and what the passes know meet the
//! rule of `stack_machine`. Each step of an operation is one line of that machine, from a memory
//! and a history that meet the rule. The step adds that line's events, and gives its answer. So
//! what a pass has seen is always a legal history of one sequential stack, which only grows. A
//! refusal was right at some time between the pass's last step before the call and the answer.
//!
//! Passes are split off a root, meet and are joined again. An operation runs in one of three ways:
//! - by single steps, after it was begun;
//! - by a whole call, which retries while others interfere;
//! - for a bounded number of steps, after which the caller can continue it.
#![tactic(auto)]

mod bulk;
mod calls;
mod code;
mod container;
mod life;
mod naming;
mod places;
mod rule;
mod stepwise;

pub use bounded_model::{Folded, RangeRefused, Ranged};
pub use bulk::fold_op::{FoldMade, FoldOp};
pub use bulk::range_trying::{RangeMade, RangeOp};
pub use calls::gauging::Gauge;
pub use code::closing::{CloseOp, ShutOp};
pub use code::every::{AnyOp, StackAt};
pub use code::looking::LookOp;
pub use code::putting::PutOp;
pub use code::taking::TakeOp;
pub use life::rest::Rest;
pub use life::stack::{Answered, Note, Pass, Root, Stack};
pub use places::stack_places;
pub use rule::Stacked;
