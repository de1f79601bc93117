//! The queue as a pure machine, as far as running code needs it. It has the queue's words and value
//! cells. For each pass it has the line that the pass is at, with what it has read and holds. A
//! step is one load, store or compare-and-swap of one word. A rule says what holds between any two
//! steps. Lemmas, which running code cites, say that each step keeps the rule.
#![tactic(auto)]

pub mod lines;

pub use lines::{Answer, Call, Freeing, Giving, Line, Linking, Number, Place, Placing, Seeking};
