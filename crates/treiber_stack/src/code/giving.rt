//! Giving a chain of nodes back to the free list: after a take, a fold, or a put that is refused.
ghost use Rattle.std.specs.Prelude.{◌≡◌, ℕ, ◌<◌, List, Option as Slot};
ghost use Rattle.stack_machine.specs.declared.lines.Giving.{Giving};
ghost use Rattle.running.specs.Code.{IsAccess};
ghost use Rattle.stack_table.specs.Lists.{lists};
ghost use Rattle.stack_table.specs.Slots.{vacant};
ghost use Rattle.treiber_stack.specs.code.Steps.{GaveTo};
ghost use Rattle.treiber_stack.specs.code.Giving.{AreNodes, give_line};
ghost use Rattle.treiber_stack.specs.Calls.{machine_of, room_of};

use crate::life::stack::Stack;
use running::{Access, Next, Outcome, Tie};
use stack_table::layout::FREE_LIST;
use tagged_index::Tagged;

/// A chain of nodes held, each linked to the next: its first and its last.
#[derive(Clone, Copy)]
pub struct Chain {
    pub(crate) first: u32,
    pub(crate) last: u32,
}

impl Chain {
    /// A chain of one node.
    #[inline]
    pub(crate) fn of(index: u32) -> Chain
        ensures { result ≡ record { first = index; last = index } }
    {
        Chain {
            first: index,
            last: index,
        }
    }
}

/// The next step of giving a chain back, with what was read. Its slots are empty.
#[derive(Drop)]
pub enum Give {
    /// Load `FREE`.
    Load,
    /// Link the last node to the free one.
    Link(Tagged),
    /// Compare-and-swap `FREE` for the first node.
    Exchange(Tagged),
}

/// What the next step of giving a chain back does.
#[inline(always)]
pub(crate) fn give_access<T, D: Tie<T>>(on: &Stack<T, D>, chain: Chain, at: &Give) -> Access
    requires { (chain.first < room_of on.now) × (chain.last < room_of on.now) }
    ensures { (giving : Giving T) → AreNodes (room_of on.now) giving.chain chain
        → IsAccess (machine_of on.now).core lists 2 on.now.table.shared.table_id.words
        (give_line giving at.now) (vacant giving.chain) result }
{
    match at {
        Give::Load => Access::LoadTop(FREE_LIST),
        Give::Link(free) => Access::StoreLink(FREE_LIST, chain.last, free.index() as u64),
        Give::Exchange(free) => Access::GiveChain(FREE_LIST, *free, chain.first),
    }
}

/// Where the operation continues after a step that came to this.
#[inline(always)]
pub(crate) fn give_next<T, D: Tie<T>>(
    on: &Stack<T, D>,
    at: Give,
    outcome: Outcome,
) -> Next<Give, ()>
    ensures { (giving : Giving T) (has : List (ℕ × Slot T))
        → GaveTo on.now giving at outcome has result }
{
    match at {
        Give::Load => Next::On(Give::Link(Tagged::from_word(outcome.word))),
        Give::Link(free) => Next::On(Give::Exchange(free)),
        Give::Exchange(_) => {
            if outcome.won {
                Next::Done(())
            } else {
                Next::Lost(Give::Load)
            }
        }
    }
}
