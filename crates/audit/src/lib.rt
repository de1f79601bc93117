//! The files that a relay reads, the texts that tell what it did, and checks of its outcome.
//!
//! [`read_messages`] accepts exactly the message files, unless memory, the reader or the count of
//! reads is at fault. It names the first fault of any other file. [`write_audit`] and
//! [`write_list`] write exactly the audit and the list of an outcome. If the writer fails, they say
//! how many bytes of that text went out. [`check_queue`] and [`check_stack`] say whether an outcome
//! is one that a queue, or a stack, allows.
#![tactic(auto)]

mod audit_text;
mod checks;
mod counts;
mod digits;
mod faults;
mod list_text;
mod message_file;
mod output;
mod tallies;
mod text;

pub use audit_text::write_audit;
pub use checks::{check_queue, check_stack};
pub use faults::{AuditFault, ReadFault};
pub use list_text::write_list;
pub use message_file::{MAX_LINE, MAX_LINES, MAX_READS, read_messages};
pub use output::MAX_INTERRUPTIONS;
