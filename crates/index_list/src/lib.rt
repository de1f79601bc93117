//! Lists of indexes among the words of a table, like the free lists of Treiber 1986 and of
//! Boost.Lockfree. A tagged top names the first index, and each index's link names the next.
//!
//! `ListHost` says where a table's lists are, and has a law over plain data for each kind of step.
//! The step functions are written once for every host. Each makes one step of the table:
//!
//! - A successful take gives the first of the list, which no pass held.
//! - A successful give puts what the pass held before the list.
//! - A successful mark sets the mark and changes nothing else.
//! - A load gives the word as it was.
//! - A store changes only the link of a held index.
//!
//! The caller's proof picks what a step tells its caller (`Telling`). `specs` has the words of such
//! facts: the homes after slots have left them or come back, and the table as a step finds it and
//! leaves it. `proofs` shows that a step may be made, from what a rule's law says of plain data.
#![tactic(auto)]

mod change;
mod changes;
mod front;
mod host;
mod links;
mod slots;
mod told;

pub use change::Change;
pub use changes::{raised, try_give, try_give_chain, try_mark, try_shut, try_take, try_take_all};
pub use front::Front;
pub use host::ListHost;
pub use links::{keep_link, load_link, load_top, store_link};
pub use slots::{move_out, put_in};
pub use told::{Telling, load_as, store_as, try_as};
