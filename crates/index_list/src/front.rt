//! Which end of a list comes first among the slots of a seat.

/// Which slot comes to the front of a seat's slots when the seat takes a whole list: that of the
/// list's first index or that of its last. Only the front slot's value can be moved.
#[derive(Clone, Copy, PartialEq, Eq, Debug)]
pub enum Front {
    First,
    Last,
}
