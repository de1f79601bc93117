//! What a pass of the stack is at between two of its atomic steps. The stack is Treiber's (IBM RJ
//! 5118, 1986) over an array of nodes, with tagged words, a free list, closing, shutting, range
//! puts and folds. No value of these types is made at run time. They stand in definitions, proofs
//! and views.

use bounded_model::{PutRefused, TakeRefused};
use std::collections::LinkedList;
use tagged_index::Fields;

/// A tagged word: the top of a list of nodes.
pub enum Top {
    /// Of the free nodes.
    Free,
    /// Of the stack.
    Stack,
}

/// The link of a node on this list.
pub struct Link {
    pub top: Top,
    pub index: u32,
}

/// A put of one value or of a range: both are the same operation. The first value is put lowest.
pub struct Putting<T> {
    /// All values of the operation, the lowest first.
    pub values: LinkedList<T>,
    /// The nodes held, the one taken last first. Each node is for one value, from the front of
    /// `values`, and is linked to the node taken before it.
    pub chain: LinkedList<u32>,
}

/// In which order a fold goes through the values that it took.
pub enum Direction {
    /// From the top to the bottom.
    Down,
    /// From the bottom to the top: the chain is turned round first.
    Up,
}

/// What a take wants.
pub enum Taking {
    /// The value on top.
    One,
    /// All values at once, to be folded.
    Whole(Direction),
}

/// What an operation answers.
pub enum Answer<T> {
    /// The number, and the values that found no node and were not put. A refusal hands all values
    /// back.
    Put(Result<(u64, LinkedList<T>), PutRefused<LinkedList<T>>>),
    /// The value and the number.
    Take(Result<(T, u64), TakeRefused>),
    /// The values in the order folded, and the number.
    Fold(Result<(LinkedList<T>, u64), TakeRefused>),
    /// Whether this operation closed the stack.
    Close(bool),
    /// Whether this operation shut the stack.
    Shut(bool),
    /// Whether the stack was empty.
    Look(bool),
    /// Whether it was closed, and how many of its top's tags were used: one for each put and each
    /// take.
    Gauge(bool, u64),
}

/// A chain of nodes whose values have been moved out. The pass gives it to the free list, and then
/// the operation answers.
pub struct Giving<T> {
    /// The nodes held, each linked to the next.
    pub chain: LinkedList<u32>,
    pub answer: Answer<T>,
}

/// The next atomic step of a pass, with what it has read and what it holds. The word that it read
/// last is the last field: first a top, then a link.
pub enum Line<T> {
    /// No operation. The answer is that of the last one.
    Idle(Option<Answer<T>>),
    /// Load `FREE`.
    LoadFree(Putting<T>),
    /// Load the link of the free node.
    LoadFreeLink(Putting<T>, Fields),
    /// Compare-and-swap `FREE` for the next free node.
    TakeFree(Putting<T>, Fields, u32),
    /// Link the node taken last to the one taken before it.
    LinkTaken(Putting<T>),
    /// Load `TOP`.
    LoadTop(Putting<T>),
    /// Link the chain's last node to the top.
    LinkToTop(Putting<T>, Fields),
    /// Compare-and-swap `TOP` for the chain's first node.
    SwapTop(Putting<T>, Fields),
    /// No node is free: load `TOP`, to say why nothing can be put.
    LoadTopToRefuse(LinkedList<T>),
    /// Load `TOP`.
    LoadTopToTake(Taking),
    /// Load the link of the top node.
    LoadTopLink(Fields),
    /// Compare-and-swap `TOP` for the node below it.
    TakeTop(Fields, u32),
    /// Compare-and-swap `TOP` for null: the whole chain is held.
    TakeChain(Direction, Fields),
    /// Load the link of a node of the chain. The first index is its upper neighbour.
    LoadLinkToTurn(Giving<T>, u32, u32),
    /// Link this node to its upper neighbour.
    TurnLink(Giving<T>, u32, u32, u32),
    /// Move the value out of this node of the chain, and load its link.
    LoadLinkToFold(Giving<T>, u32),
    /// Load `FREE`.
    LoadFreeToGive(Giving<T>),
    /// Link the chain's last node to the free one.
    LinkToFree(Giving<T>, Fields),
    /// Compare-and-swap `FREE` for the chain's first node.
    GiveBack(Giving<T>, Fields),
    /// Load `TOP`.
    LoadTopToClose,
    /// Set its mark.
    MarkTop(Fields),
    /// Load `TOP`.
    LoadTopToShut,
    /// Set its second mark.
    ShutTop(Fields),
    /// Load `TOP`, to see whether it is null.
    LoadTopToLook,
    /// Load `TOP`, to see its mark and its tag.
    LoadTopToGauge,
}

/// An operation to be begun.
pub enum Call<T> {
    /// Put a value, and these further ones above it.
    Put(T, LinkedList<T>),
    Take(Taking),
    Close,
    Shut,
    Look,
    Gauge,
}
