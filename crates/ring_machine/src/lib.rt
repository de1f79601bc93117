//! The ring as a pure machine, as far as running code needs it: its words and value cells, the line
//! of each pass with its spare cell and what it has read, and the effect of one step. A step is one
//! load or compare-and-swap of one word. A rule says what holds between any two steps. Lemmas prove
//! that each step keeps it from any state in which it holds, and running code cites those lemmas.
#![tactic(auto)]

pub mod lines;

pub use lines::{Answer, Back, Call, Front, Line, Place, Walk};
