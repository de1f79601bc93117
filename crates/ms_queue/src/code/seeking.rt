//! Going to the end of the chain. Four callers make the same steps: to link a node there, to mark it, to see
//! why nothing can be put, or to gauge the queue.
ghost use Rattle.std.specs.Prelude.{ℕ, List, Option as Slot};
ghost use Rattle.queue_machine.specs.declared.lines.Seeking.{Seeking};
ghost use Rattle.queue_table.specs.Lists.{lists};
ghost use Rattle.running.specs.Code.{IsAccess};
ghost use Rattle.ms_queue.specs.Calls.{room_of, limit_of, machine_of};
ghost use Rattle.ms_queue.specs.code.Seeking.{IsRead, seek_line};
ghost use Rattle.ms_queue.specs.code.Steps.{SoughtTo};

use crate::life::queue::Queue;
use queue_table::layout::{TAIL, next};
use running::{Access, Next, Outcome, Tie, raised};
use tagged_index::{NULL, Tagged};

/// The next step on the way to the end of the chain, with what was read.
#[derive(Drop)]
pub enum Seek {
    /// Load `TAIL`.
    LoadTail,
    /// Load `next` of the node that it named.
    LoadNext(Tagged),
    /// Load `TAIL` again.
    CheckTail(Tagged, Tagged),
    /// The tail lags: compare-and-swap it for the next node.
    SwingTail(Tagged, Tagged),
}

/// The end of the chain.
#[derive(Clone, Copy)]
pub enum End {
    /// It has the mark: the tail.
    Closed(Tagged),
    /// The tail, and the null link of its node.
    Open(Tagged, Tagged),
}

/// What the next step to the end of the chain does.
#[inline(always)]
pub(crate) fn seek_access<T, D: Tie<T>>(on: &Queue<T, D>, at: &Seek) -> Access
    requires { IsRead (room_of on.now) (limit_of on.now) at.now }
    ensures { (s : Seeking T) (slots : List (ℕ × Slot T))
        → IsAccess (machine_of on.now).core lists 2 on.now.table.shared.table_id.words
        (seek_line s at.now) slots result }
{
    match at {
        Seek::LoadTail => Access::Load(TAIL),
        Seek::LoadNext(tail) => Access::Load(next(tail.index())),
        Seek::CheckTail(_, _) => Access::Load(TAIL),
        Seek::SwingTail(tail, link) => Access::Swap(TAIL, *tail, raised(*tail, link.index())),
    }
}

/// Where the operation continues after a step that came to this.
#[inline(always)]
pub(crate) fn seek_on<T, D: Tie<T>>(on: &Queue<T, D>, at: Seek, outcome: Outcome) -> Next<Seek, End>
    requires { IsRead (room_of on.now) (limit_of on.now) at }
    ensures { (s : Seeking T) (had has : List (ℕ × Slot T))
        → SoughtTo on.now s at outcome had has result }
{
    match at {
        Seek::LoadTail => Next::On(Seek::LoadNext(Tagged::from_word(outcome.word))),
        Seek::LoadNext(tail) => { Next::On(Seek::CheckTail(tail, Tagged::from_word(outcome.word))) }
        Seek::CheckTail(tail, link) => {
            // If the tail is still the same, the link was that of its node.
            if outcome.word != tail.word() {
                return Next::Lost(Seek::LoadTail);
            }
            if link.is_marked() {
                return Next::Done(End::Closed(tail));
            }
            if link.index() == NULL {
                return Next::Done(End::Open(tail, link));
            }
            Next::On(Seek::SwingTail(tail, link))
        }
        // Whichever pass succeeds, the tail is then no longer the same.
        Seek::SwingTail(_, _) => {
            if outcome.won {
                Next::On(Seek::LoadTail)
            } else {
                Next::Lost(Seek::LoadTail)
            }
        }
    }
}
