//! The words of a container in memory.

use std::fmt;

/// A word of a container in memory.
#[derive(Clone, Copy, Debug, PartialEq, Eq)]
pub enum Location {
    /// The top of a queue's free cells.
    Cells,
    /// The top of a queue's free nodes.
    Nodes,
    /// Which node of a queue's chain is the first, the dummy; a position near a ring's front.
    Head,
    /// Which node of a queue's chain is the last, or the last but one; a position near a ring's back.
    Tail,
    /// Which node of a queue follows this one.
    Next(u32),
    /// Which cell has the value of this node of a queue.
    Cell(u32),
    /// The link of this free cell of a queue.
    CellLink(u32),
    /// The link of this free node of a queue.
    NodeLink(u32),
    /// The top of a stack's free nodes.
    Free,
    /// The top of a stack.
    Top,
    /// The link of this node of a stack.
    Link(u32),
    /// This slot of a ring.
    Slot(u32),
}

impl fmt::Display for Location {
    ghost use Rattle.std.specs.Prelude.{Some};
    ghost use Rattle.step_names.specs.Texts.{location_text};

    ghost output = { λ location. Some (location_text location) };

    fn fmt<W: fmt::Write>(&self, f: &mut fmt::Formatter<W>) -> fmt::Result {
        match self {
            Location::Cells => write!(f, "CELLS"),
            Location::Nodes => write!(f, "NODES"),
            Location::Head => write!(f, "HEAD"),
            Location::Tail => write!(f, "TAIL"),
            Location::Next(node) => write!(f, "next {node}"),
            Location::Cell(node) => write!(f, "cell {node}"),
            Location::CellLink(cell) => write!(f, "cell link {cell}"),
            Location::NodeLink(node) => write!(f, "node link {node}"),
            Location::Free => write!(f, "FREE"),
            Location::Top => write!(f, "TOP"),
            Location::Link(node) => write!(f, "link {node}"),
            Location::Slot(index) => write!(f, "slot {index}"),
        }
    }
}
