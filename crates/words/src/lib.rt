//! What the arguments of the command line ask for: a script to replay, or files to relay.
//!
//! Each value that is read lies in its range, and a relay has 1 to 16 files. `read_words` refuses
//! all other arguments. If they ask for the help or the version, the refusal has that text.
#![tactic(auto)]

mod chosen;
mod command_line;

pub use chosen::{Chosen, WordsRefused, read_words};
pub use command_line::VERSION;
