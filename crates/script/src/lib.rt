//! The grammar of scripts: a container's capacity and tag limit, and lines that use it.
//!
//! Promised: unless memory runs out, `parse` accepts exactly the texts of the grammar
//! (`specs/Script.antt`), and gives the script that the text is. For any other text it names the
//! fault: a missing newline after the last line, or the first line that a script cannot have there.
#![tactic(auto)]

mod answer;
mod fault;
mod grammar;
mod header;
mod line;
mod lines;
mod number;
mod reading;
mod reply;
mod value;
mod value_list;

pub use answer::{Answer, RangeReply};
pub use fault::ScriptFault;
pub use header::Header;
pub use line::{Act, Line, PassName};
pub use reading::{MAX_SCRIPT_LEN, Script, parse};
pub use reply::ReplyText;
pub use value::{MAX_VALUE_LEN, Value, Values};
pub use value_list::ValueList;
