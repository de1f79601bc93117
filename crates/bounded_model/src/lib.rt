//! What a bounded container is, without words or threads:
//!
//! - its events
//! - the machine that says which histories are legal
//! - the sequential list that runs this machine
//! - the laws of every container
#![tactic(auto)]

mod answers;
mod bulk;
mod commands;
mod consume;
mod container;
mod history;
mod plain_list;
mod stepwise;
mod theorems;
mod views;

pub use answers::{MakeRefused, PutRefused, Stepped, TakeRefused, Word};
pub use bulk::{Bulk, Folded, RangeRefused, Ranged};
pub use commands::{Command, Reply};
pub use consume::{consume_all, consume_one};
pub use container::{Container, Leaving, MAX_PASSES, MIN_PASSES};
pub use history::{Event, Order};
pub use plain_list::{COUNT_LIMIT, MAX_LIST_CAPACITY, PlainList};
pub use stepwise::{Stepwise, begin};
pub use theorems::{
    calls_alone_are_a_list, capacity_is_kept, closing_is_final, nothing_is_lost, queue_keeps_order,
    stack_keeps_order,
};
pub use views::{Answered, PassView, RootView, Work};
