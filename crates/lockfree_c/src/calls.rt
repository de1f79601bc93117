//! What the library needs of a container: one small trait for each kind of call.
//!
//! They are small because a call through a trait owes the prover each function and each type of that
//! trait. None of them is a `Container`, whose calls may wait. Code that is generic over these traits
//! links no call that may wait, so a library for programs without a runtime can use it.
ghost use Rattle.std.specs.Prelude.{◌≡◌, ℕ, MatchOption};
ghost use Rattle.bounded_model.specs.Laws.{IsFullOfPasses, Joins, Leaves, Splits};
ghost use Rattle.bounded_model.specs.declared.commands.Command.TheVariants.{Put, Take, Look};
ghost use Rattle.bounded_model.specs.declared.views.PassView.{PassView};
ghost use Rattle.lockfree_c.specs.Calls.{
  Begins,
  IsWorked,
  MakesSome,
  Reading,
  Tried,
  TriedFrom,
  TookAtLeast,
  TookAtMost,
  TookFor,
};
ghost use Rattle.lockfree_c.specs.declared.work.Worked.{Worked};

use crate::work::Worked;
use bounded_model::{Command, Leaving, Reply, Stepped};

mod queue;
mod ring;
mod stack;

pub use queue::QueueWork;
pub use ring::RingWork;
pub use stack::{StackWork, copy_on, fold_on};

/// A container whose calls give up after a number of tries, by the types of what its handles have.
pub trait Handled: Drop {
    type Root: Drop;

    type Pass: Drop;

    /// A call that was begun.
    type Operation: Drop;

    /// A work that was begun.
    type Work: Drop;

    /// How its root, its passes, its calls and its works are read.
    ghost reading: { Self → Reading Self.Root Self.Pass Self.Operation Self.Work };
}

/// Gives passes, and ends.
pub trait Ends: Handled {
    type Rest: Leaving<u64> + Drop;

    /// The container's `split`: a pass, or `None` if the largest number of passes is out.
    fn split_off(&self, parent: &mut Self::Root) -> Option<Self::Pass>
        requires { (Self.reading self.now).is_root parent.old }
        ensures root { (Self.reading self.now).is_root parent.new }
        ensures gives { let r = Self.reading self.now in MatchOption result
            ((r.root parent.new ≡ r.root parent.old) × IsFullOfPasses r.shape (r.root parent.old))
            (λ p. r.is_pass p × Splits r.shape (r.root parent.old) (r.root parent.new) (r.pass p)) };

    /// The container's `finish`: ends the container, and returns what is left.
    fn end_with(self, parent: Self::Root) -> Self::Rest
        requires { (Self.reading self).is_root parent }
        ensures { Leaves (Self.reading self).shape ((Self.reading self).root parent)
            (Self.Rest.left result) };
}

/// Takes passes back.
pub trait TakesBack: Handled {
    /// The container's `join`: the root has now seen what the pass has, and may give its place to
    /// another pass.
    fn take_back(&self, parent: &mut Self::Root, by: Self::Pass)
        requires root { (Self.reading self.now).is_root parent.old }
        requires pass { (Self.reading self.now).is_pass by }
        ensures root { (Self.reading self.now).is_root parent.new }
        ensures gives { let r = Self.reading self.now in
            Joins (r.root parent.old) (r.pass by) (r.root parent.new) };
}

/// Continues what was begun.
pub trait Tries: Handled {
    /// How many steps this number of tries of a call allows.
    ghost steps: { ℕ → ℕ };

    /// Continues a call for the steps of this number of tries. If it is still under way then, it
    /// was begun as before and has made exactly these steps more. If it has ended, it has made at
    /// most these steps. Each is a function of its own, so that its caller's code has only the fast
    /// path.
    fn try_on(
        &self,
        operation: Self::Operation,
        tries: u64,
    ) -> Stepped<Self::Operation, Self::Pass, Reply<u64>>
        requires { MakesSome (Self.reading self.now) operation }
        ensures tried { Tried (Self.reading self.now) operation result }
        ensures took { TookFor (Self.reading self.now) (steps tries) operation result };

    /// Continues a work for the steps of this number of tries.
    fn work_on(&self, work: Self::Work, tries: u64) -> Worked<Self::Work, Self::Pass>
        requires { (Self.reading self.now).is_work work }
        ensures of { IsWorked (Self.reading self.now) result }
        ensures gives { (Self.reading self.now).works_on tries work result };
}

/// Begins any call.
pub trait BeginsAny: Tries {
    /// A call that makes no step yet.
    fn begin(&self, by: Self::Pass, command: Command<u64>) -> Self::Operation
        requires { (Self.reading self.now).is_pass by }
        ensures { Begins (Self.reading self.now) by command result };
}

/// Has fast paths.
pub trait AtOnce: Tries {
    /// A put's fast path.
    fn put_at_once(
        &self,
        by: Self::Pass,
        value: u64,
    ) -> Stepped<Self::Operation, Self::Pass, Reply<u64>>
        requires { (Self.reading self.now).is_pass by }
        ensures tried { TriedFrom (Self.reading self.now) ((Self.reading self.now).pass by) (Put value) result }
        ensures took { TookAtLeast (Self.reading self.now) 0 ((Self.reading self.now).pass by) result }
        ensures most { TookAtMost (Self.reading self.now) ((Self.reading self.now).at_once (Put value))
            ((Self.reading self.now).pass by) result };

    /// A take's fast path.
    fn take_at_once(&self, by: Self::Pass) -> Stepped<Self::Operation, Self::Pass, Reply<u64>>
        requires { (Self.reading self.now).is_pass by }
        ensures tried { TriedFrom (Self.reading self.now) ((Self.reading self.now).pass by) Take result }
        ensures took { TookAtLeast (Self.reading self.now) 0 ((Self.reading self.now).pass by) result }
        ensures most { TookAtMost (Self.reading self.now) ((Self.reading self.now).at_once Take)
            ((Self.reading self.now).pass by) result };

    /// A look's fast path.
    fn look_at_once(&self, by: Self::Pass) -> Stepped<Self::Operation, Self::Pass, Reply<u64>>
        requires { (Self.reading self.now).is_pass by }
        ensures tried { TriedFrom (Self.reading self.now) ((Self.reading self.now).pass by) Look result }
        ensures took { TookAtLeast (Self.reading self.now) 0 ((Self.reading self.now).pass by) result }
        ensures most { TookAtMost (Self.reading self.now) ((Self.reading self.now).at_once Look)
            ((Self.reading self.now).pass by) result };
}

/// Can be gauged.
pub trait Gauges: Handled {
    /// What a gauge gives that its pass began as this, after this number of tries.
    ghost gauges: { Self → ℕ → PassView ℕ → Worked Self.Work Self.Pass → Type 0 };

    /// Gauges the container, for the steps of this number of tries.
    fn gauge_for(&self, by: Self::Pass, tries: u64) -> Worked<Self::Work, Self::Pass>
        requires { (Self.reading self.now).is_pass by }
        ensures of { IsWorked (Self.reading self.now) result }
        ensures gives { gauges self.now tries ((Self.reading self.now).pass by) result };
}

/// Can be counted.
pub trait Counts: Handled {
    /// What a count gives that its pass began as this, after this number of tries.
    ghost counts: { Self → ℕ → PassView ℕ → Worked Self.Work Self.Pass → Type 0 };

    /// Counts the values, for the steps of this number of tries.
    fn count_for(&self, by: Self::Pass, tries: u64) -> Worked<Self::Work, Self::Pass>
        requires { (Self.reading self.now).is_pass by }
        ensures of { IsWorked (Self.reading self.now) result }
        ensures gives { counts self.now tries ((Self.reading self.now).pass by) result };
}
