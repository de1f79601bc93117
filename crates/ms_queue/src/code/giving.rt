//! Giving a node and then a cell back to their free lists. A take and a put that is refused make
//! the same steps.
ghost use Rattle.std.specs.Prelude.{ℕ, List, Option as Slot};
ghost use Rattle.queue_machine.specs.declared.lines.Answer.{Answer};
ghost use Rattle.queue_table.specs.Lists.{lists};
ghost use Rattle.running.specs.Code.{IsAccess};
ghost use Rattle.ms_queue.specs.Calls.{room_of, machine_of};
ghost use Rattle.ms_queue.specs.code.Giving.{AreHeld, give_line, held_slot};
ghost use Rattle.ms_queue.specs.code.Steps.{GaveTo};

use crate::life::queue::Queue;
use queue_table::layout::{CELL_LIST, NODE_LIST};
use running::{Access, Next, Outcome, Tie};
use tagged_index::Tagged;

/// The node and the cell that are to be given back. The cell's slot is empty.
#[derive(Clone, Copy)]
pub struct Held {
    pub(crate) cell: u32,
    pub(crate) node: u32,
    /// Nothing: it starts the pair at a multiple of 8 bytes, so that it is moved as one word.
    pub(crate) aligned: [u64; 0],
}

/// The next step of giving back, with what was read.
#[derive(Drop)]
pub enum Give {
    /// Load `NODES`.
    LoadNodes,
    /// Link the node to the free one.
    LinkNode(Tagged),
    /// Compare-and-swap `NODES` for the node.
    GiveNode(Tagged),
    /// Load `CELLS`.
    LoadCells,
    /// Link the cell to the free one.
    LinkCell(Tagged),
    /// Compare-and-swap `CELLS` for the cell.
    GiveCell(Tagged),
}

/// What the next step of giving back does.
#[inline(always)]
pub(crate) fn give_access<T, D: Tie<T>>(on: &Queue<T, D>, held: Held, at: &Give) -> Access
    requires { AreHeld (room_of on.now) held }
    ensures { (a : Answer T) → IsAccess (machine_of on.now).core lists 2
        on.now.table.shared.table_id.words (give_line a held at.now) (held_slot held)
        result }
{
    match at {
        Give::LoadNodes => Access::LoadTop(NODE_LIST),
        Give::LinkNode(nodes) => Access::KeepLink(NODE_LIST, held.node, nodes.index() as u64),
        Give::GiveNode(nodes) => Access::GiveBare(NODE_LIST, *nodes, held.node),
        Give::LoadCells => Access::LoadTop(CELL_LIST),
        Give::LinkCell(cells) => Access::KeepLink(CELL_LIST, held.cell, cells.index() as u64),
        Give::GiveCell(cells) => Access::Give(CELL_LIST, *cells, held.cell),
    }
}

/// Where the operation continues after a step that came to this.
#[inline(always)]
pub(crate) fn give_next<T, D: Tie<T>>(
    on: &Queue<T, D>,
    at: Give,
    outcome: Outcome,
) -> Next<Give, ()>
    ensures { (a : Answer T) (held : Held) (has : List (ℕ × Slot T))
        → GaveTo on.now a held at outcome has result }
{
    match at {
        Give::LoadNodes => Next::On(Give::LinkNode(Tagged::from_word(outcome.word))),
        Give::LinkNode(nodes) => Next::On(Give::GiveNode(nodes)),
        Give::GiveNode(_) => {
            if !outcome.won {
                return Next::Lost(Give::LoadNodes);
            }
            Next::On(Give::LoadCells)
        }
        Give::LoadCells => Next::On(Give::LinkCell(Tagged::from_word(outcome.word))),
        Give::LinkCell(cells) => Next::On(Give::GiveCell(cells)),
        Give::GiveCell(_) => {
            if !outcome.won {
                return Next::Lost(Give::LoadCells);
            }
            // With the cell goes its slot.
            Next::Done(())
        }
    }
}
