//! What a compare-and-swap of a list's top is for.
use crate::front::Front;

/// A compare-and-swap of a list's top. The contracts of the step functions treat all six kinds
/// alike.
#[derive(Clone, Copy)]
pub enum Change {
    /// A take of the first index, whose link names this next one.
    Take(u32),
    /// A take of the whole list, with the slot of its first or its last index in front.
    TakeAll(Front),
    /// A give of this held index.
    Give(u32),
    /// A give of the whole hand, a chain that begins with this index.
    GiveChain(u32),
    /// Sets the first mark.
    Mark,
    /// Sets the second mark.
    Shut,
}
