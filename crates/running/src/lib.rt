//! The layer between a pure machine and a table of atomic words, written once for all containers.
//! It says what access each line of the machine makes, how the table makes a step of it, and what
//! the step tells the pass. A container gives its machine (`Machine`), and builds its operations
//! from the step functions here.
#![tactic(auto)]

mod access;
mod call;
mod calls;
mod code;
mod fast_path;
mod kept;
mod leaving;
mod lists;
mod op;
mod passes;
mod pause;
mod replies;
mod rule;
mod seats;
mod stepping;
mod steps;
mod tie;
mod whole_calls;

pub use access::{Access, Outcome};
pub use call::HasTable;
pub use calls::{to_the_end, try_for};
pub use code::{Code, Next, OnTable};
pub use index_list::raised;
pub use kept::{Answered, PassWith, RootWith, told};
pub use leaving::aside;
pub use lists::{ListMachine, load_top_step, store_link_step};
pub use op::Op;
pub use passes::{Note, Pass, Root, heed, join, make_note, meet, split};
pub use replies::{Keeping, Replies};
pub use rule::{Lawful, Machine, Running};
pub use seats::peek;
pub use stepping::{any, first_step};
pub use tie::{Free, Tie};
pub use whole_calls::{leave, whole};
