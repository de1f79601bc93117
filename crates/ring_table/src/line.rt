//! What a seat of the ring's table is at.
use std::collections::LinkedList;

/// A pass has a spare cell between its calls too, and its line says which. So each seat says which
/// spare cells it has. They move from seat to seat as passes are given and taken back.
pub enum SeatLine<T> {
    /// A pass, at this line of the machine.
    At(ring_machine::Line<T>),
    /// Spare cells that lie at home, empty: those that the root has for new passes, those of two
    /// passes that meet, or none.
    Stock(LinkedList<u32>),
}
