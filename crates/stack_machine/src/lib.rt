//! The stack as a pure machine, as far as running code needs it. It has the stack's words and
//! slots. For each pass it has the line that the pass is at, with what it has read and holds. A
//! step is one load, store or compare-and-swap of one word. A rule says what holds between any two
//! steps. Lemmas, which running code cites, say that each step keeps the rule.
#![tactic(auto)]

pub mod lines;

pub use lines::{Answer, Call, Direction, Giving, Line, Link, Putting, Taking, Top};
