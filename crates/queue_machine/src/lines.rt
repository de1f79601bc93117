//! What a pass of the queue is at between two of its atomic steps. The queue is that of Michael and
//! Scott (PODC 1996) over an array of nodes, with tagged words, a free list of nodes, a free list
//! of value cells, closing and shutting. No value of these types is made at run time. They stand in
//! definitions, proofs and views.

use bounded_model::{Event, PutRefused, TakeRefused};
use std::collections::LinkedList;
use tagged_index::Fields;

/// A tagged word.
pub enum Place {
    /// The top of the free cells.
    Cells,
    /// The top of the free nodes.
    Nodes,
    /// The first node of the chain, the dummy.
    Head,
    /// The last one, or the last but one.
    Tail,
    /// The node after a node of the chain.
    Next(u32),
}

/// A plain number in a word.
pub enum Number {
    /// The free cell below a free cell.
    CellLink(u32),
    /// The free node below a free node.
    NodeLink(u32),
    /// The cell of a node.
    Cell(u32),
}

/// A put that has its cell and no node yet.
pub struct Placing<T> {
    pub value: T,
    pub cell: u32,
}

/// A put that has its cell and its node.
pub struct Linking<T> {
    pub value: T,
    pub cell: u32,
    pub node: u32,
}

/// Why a pass goes to the end of the chain.
pub enum Seeking<T> {
    /// To link its node after the last one.
    ToLink(Linking<T>),
    /// To say why this value cannot be put: no cell is free.
    ToRefuse(T),
    /// To close the queue.
    ToClose,
    /// To say whether the queue is closed and how many values were put.
    ToGauge,
}

/// What an operation answers.
pub enum Answer<T> {
    /// The number. A refusal hands the value back.
    Put(Result<u64, PutRefused<T>>),
    /// The value and the number.
    Take(Result<(T, u64), TakeRefused>),
    /// Whether this operation closed the queue.
    Close(bool),
    /// Whether this operation shut the queue.
    Shut(bool),
    /// Whether the queue was empty.
    Look(bool),
    /// How many values it held.
    Len(u64),
    /// Whether it was closed, and how many of its tail's tags were used: the number of values put.
    Gauge(bool, u64),
}

/// A node and a cell whose value has been moved out. The pass gives them back, the node first, and
/// then the operation answers.
pub struct Giving<T> {
    pub cell: u32,
    pub node: u32,
    pub answer: Answer<T>,
}

/// The pass still gives the cell alone back.
pub struct Freeing<T> {
    pub cell: u32,
    pub answer: Answer<T>,
}

/// The next atomic step of a pass, with what it has read and what it holds. The word that it read
/// last is the last field.
pub enum Line<T> {
    /// No operation. The answer is that of the last one.
    Idle(Option<Answer<T>>),
    /// Load `CELLS`.
    LoadCells(T),
    /// Load the link of the free cell.
    LoadCellLink(T, Fields),
    /// Compare-and-swap `CELLS` for the next free cell.
    TakeCell(T, Fields, u32),
    /// Load `NODES`.
    LoadNodes(Placing<T>),
    /// Load the link of the free node.
    LoadNodeLink(Placing<T>, Fields),
    /// Compare-and-swap `NODES` for the next free node.
    TakeNode(Placing<T>, Fields, u32),
    /// Store the cell in the node.
    StoreCell(Linking<T>),
    /// Load the node's `next`.
    LoadNext(Linking<T>),
    /// Store null with the next tag in it.
    PrepareNext(Linking<T>, Fields),
    /// Load `TAIL`.
    LoadTail(Seeking<T>),
    /// Load `next` of the node that it named.
    LoadTailNext(Seeking<T>, Fields),
    /// Load `TAIL` again.
    CheckTail(Seeking<T>, Fields, Fields),
    /// The tail lags: compare-and-swap it for the next node.
    SwingTail(Seeking<T>, Fields, Fields),
    /// Exchange the last node's `next` for the held node.
    LinkNext(Linking<T>, Fields, Fields),
    /// The value is put. Compare-and-swap `TAIL` for the node that has it; the second word is the
    /// link.
    SwingToLinked(T, Fields, Fields),
    /// Exchange the last node's `next` for null with the mark.
    MarkNext(Fields, Fields),
    /// Load `HEAD`.
    LoadHead,
    /// Load `TAIL`.
    LoadTailToTake(Fields),
    /// Load `next` of the node that `HEAD` named.
    LoadHeadNext(Fields, Fields),
    /// Load `HEAD` again.
    CheckHead(Fields, Fields, Fields),
    /// The tail is at the dummy, which links a node: compare-and-swap `TAIL` for that node.
    SwingTailToTake(Fields, Fields),
    /// Load the cell of the first node.
    LoadCell(Fields, Fields),
    /// Compare-and-swap `HEAD` for the first node.
    TakeHead(Fields, Fields, u32),
    /// Load `NODES`.
    LoadNodesToGive(Giving<T>),
    /// Link the node to the free one.
    LinkToNodes(Giving<T>, Fields),
    /// Compare-and-swap `NODES` for the node.
    GiveNode(Giving<T>, Fields),
    /// Load `CELLS`.
    LoadCellsToGive(Freeing<T>),
    /// Link the cell to the free one.
    LinkToCells(Freeing<T>, Fields),
    /// Compare-and-swap `CELLS` for the cell.
    GiveCell(Freeing<T>, Fields),
    /// Load `HEAD`.
    LoadHeadToLook,
    /// Load `next` of the node that it named.
    LoadNextToLook(Fields),
    /// Load `HEAD` again.
    CheckHeadToLook(Fields, Fields),
    /// Load `HEAD`.
    LoadHeadToCount,
    /// Load `TAIL`.
    LoadTailToCount(Fields),
    /// Load `next` of the node that `TAIL` named.
    LoadNextToCount(Fields, Fields),
    /// Load `HEAD` again.
    CheckHeadToCount(Fields, Fields, Fields),
    /// Load the last node's `next` again. While it is the same, no put was made since, and the
    /// queue is open.
    CheckNextToGauge(Fields, Fields),
    /// Load `HEAD`.
    LoadHeadToShut,
    /// Set its second mark.
    ShutHead(Fields),
}

/// An operation to be begun.
pub enum Call<T> {
    Put(T),
    Take,
    Close,
    Shut,
    Look,
    Len,
    Gauge,
}
