//! The code of an operation: two functions of what it is at.
ghost use Rattle.std.specs.Prelude.{◌≡◌, ◌<◌};
ghost use Rattle.atomic_table.specs.Seated.{TableId};
ghost use Rattle.tagged_index.specs.declared.limit.Limits.{Limits};
ghost use Rattle.running.specs.Code.{Account, IsAccess, Came, Finding, Leads, Tells};

use crate::access::{Access, Outcome};
use crate::lists::ListMachine;
use atomic_table::Seat;
use machine::View;

/// What an operation does after a step.
pub enum Next<S, A> {
    /// It continues in this state.
    On(S),
    /// It continues in this state, and another pass was faster.
    Lost(S),
    /// It has stopped with this: it has answered, or its caller must act before it continues.
    Done(A),
}

/// A container, with its table of atomic words.
pub trait OnTable {
    /// The limits that it was made with, and which table it is.
    ghost key: { Self → Limits };

    ghost id: { Self → TableId };

    /// The word that a pass looks at, to see whether other threads got something done: one that many
    /// calls change.
    fn watched(&self) -> usize
        ensures { result < (id self.now).words };
}

/// The states of an operation between two of its atomic steps, on a container `C` of a machine `M`
/// with `N` lists. `access` says what the next step does, and `next` says where it leads. The
/// answer is an `A`.
pub trait Code<C: OnTable, T, L, O, M: ListMachine<T, L, O, N>, A, const N: usize>: Sized {
    /// How proofs read its states.
    ghost account: { Limits → Account T L O Self A };

    /// Whether this answer refuses what the caller asked for. The caller then does something else
    /// before it asks again.
    #[inline]
    fn is_refusal(answer: &A) -> bool {
        let _ = answer;
        false
    }

    /// What its next step does.
    fn access(&self, on: &C) -> Access
        requires { (account (C.key on.now)).knows self.now }
        ensures { IsAccess (M.machine (C.key on.now)).core M.lists N (C.id on.now).words
            ((account (C.key on.now)).line self.now) ((account (C.key on.now)).slots self.now) result };

    /// Where a step with this outcome leads. It may move the value out of a slot that came, or a
    /// value in. It does nothing else to the table.
    fn next(self, on: &C, seat: &mut Seat<Option<T>, View<T, L>>, outcome: Outcome) -> Next<Self, A>
        requires table { seat.old.table_id ≡ C.id on.now }
        requires knows { (account (C.key on.now)).knows self }
        requires came { Came (M.machine (C.key on.now)).core ((account (C.key on.now)).line self)
            outcome ((account (C.key on.now)).slots self) seat.old.me.1 }
        ensures seat { (seat.new.table_id ≡ seat.old.table_id)
            × (seat.new.me.0 ≡ seat.old.me.0) }
        ensures leads { Finding (M.machine (C.key on.now)).core
            ((account (C.key on.now)).line self) outcome ((account (C.key on.now)).slots self)
            seat.old.me.1 (λ found came. Leads M.names (account (C.key on.now)) self
            ((M.machine (C.key on.now)).core.next ((account (C.key on.now)).line self) found came)
            seat.new.me.1 result) }
        ensures told { Tells (account (C.key on.now)).told self result };
}
