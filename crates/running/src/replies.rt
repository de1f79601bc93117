//! Operations that stop only with a reply, and what their passes then keep.
ghost use Rattle.std.specs.Prelude.{◌≡◌, true};
ghost use Rattle.bounded_model.specs.declared.views.PassView.{PassView};
ghost use Rattle.machine.specs.Seats.{pass_of};
ghost use Rattle.machine.specs.declared.seats.View.{View};
ghost use Rattle.running.specs.Going.{Ended};
ghost use Rattle.running.specs.declared.kept.Answered.{Answered};
ghost use Rattle.tagged_index.specs.declared.limit.Limits.{Limits};

use crate::code::{Code, OnTable};
use crate::kept::Answered;
use crate::lists::ListMachine;

/// A container whose passes keep a `K` between their calls.
pub trait Keeping<L, K>: OnTable {
    /// What a pass keeps, by its line between its calls.
    ghost keeps: { L → K → Type 0 };
}

/// An operation that stops only with its reply.
pub trait Replies<
    C: Keeping<L, K>,
    T,
    L,
    O,
    M: ListMachine<T, L, O, N>,
    K,
    R,
    const N: usize,
>: Code<C, T, L, O, M, Answered<K, R>, N> {
    /// What its reply tells. It speaks of the operation, of the pass as the operation was begun,
    /// and of the pass as it is now.
    ghost gives: { Limits → O → PassView T → PassView T → R → Type 0 };

    /// The machine is idle at the line of its answer.
    ghost idle: { (key : Limits) (o : O) (a : Answered K R)
        → M.names.is_idle ((Self.account key).answer o a) ≡ true };

    /// When it has ended, its reply tells what `gives` says.
    ghost given: { (key : Limits) (o : O) (v : View T L) (begun : PassView T) (a : Answered K R)
        → Ended (M.machine key) o v begun ((Self.account key).answer o a)
        → gives key o begun (pass_of v) a.reply };

    /// And its pass keeps what its answer has.
    ghost kept: { (key : Limits) (o : O) (a : Answered K R)
        → C.keeps (M.names.quiet ((Self.account key).answer o a)) a.kept };
}
