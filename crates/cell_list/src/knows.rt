//! What a seat knows of the list. A running program makes no value of it: only views use it.
use tagged_index::Fields;

pub enum Knows {
    Nothing,
    /// The top, as it was read.
    Top(Fields),
    /// The top, and the link of its index, as it was read after.
    Below(Fields, u64),
    /// A cell held.
    Has(u32),
    /// A cell held, and what the seat has stored in its link.
    Linked(u32, u64),
}
