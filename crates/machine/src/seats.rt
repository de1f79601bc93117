//! What the seats of a container's table know: which seat answers for which pass's events, and how
//! seats hand this on when passes are split off, meet and are joined. This module knows neither
//! words nor steps, so it serves every container. A running program makes no value of these types:
//! only views use them.

use bounded_model::{Event, PassView, RootView};
use std::collections::LinkedList;

/// What a pass does to a machine of lines `L`.
pub enum Doing<L> {
    /// It begins an operation, at its first line.
    Begins(L),
    /// It makes the step of its line.
    Steps,
    /// It loads a word in an operation. The load belongs to no line.
    Looks,
    /// It loads a word between its operations, to see what others have done.
    Hears,
}

/// What a pass knew as its operation was begun: the pass as it was, and what all passes had done by
/// then. It also has what they had done by the pass's last step, which it keeps between its
/// operations. In both lists the newest stands first.
pub struct Begun<T, L> {
    pub view: PassView<T>,
    pub before: LinkedList<(u64, Doing<L>)>,
    pub now: LinkedList<(u64, Doing<L>)>,
}

/// What is handed on to a root or by a note: a history that a pass had seen, and the acts that it
/// kept then, the newest first.
pub struct Handed<T, L> {
    pub seen: LinkedList<Event<T>>,
    pub acts: LinkedList<(u64, Doing<L>)>,
}

/// What one seat knows. `L` is where a pass of this container is between two steps.
pub enum View<T, L> {
    /// The root, what it knows of the acts, what the pass that it has just joined hands on, and its
    /// line.
    AtRoot(RootView<T>, LinkedList<(u64, Doing<L>)>, Handed<T, L>, L),
    /// A pass: as it is, what it knew as its operation was begun, and its line.
    AtPass(PassView<T>, Begun<T, L>, L),
    /// Two passes that meet in one seat, each with what it knew of the acts at its last step, and its
    /// line.
    AtMeeting(
        PassView<T>,
        LinkedList<(u64, Doing<L>)>,
        L,
        PassView<T>,
        LinkedList<(u64, Doing<L>)>,
        L,
    ),
    /// A note: what its pass had seen, and kept of the acts, when it was made.
    AtNote(Handed<T, L>),
    /// A pass that hears a note, what it knew of the acts at its last step, and its line.
    AtHearing(PassView<T>, LinkedList<(u64, Doing<L>)>, L, Handed<T, L>),
    /// A seat that was joined to another.
    Left,
}
