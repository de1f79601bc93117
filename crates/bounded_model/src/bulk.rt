//! Containers that put or take many values by one compare-and-swap.

ghost use Rattle.std.specs.Prelude.{◌≡◌, reverse, IsSome};
ghost use Rattle.std.specs.List.{AllByRecursion as Every};
ghost use Rattle.bounded_model.specs.Consumes.{Folds};
ghost use Rattle.bounded_model.specs.Bulk.{PutsRange, RangeAnswers, FoldsAll, FoldAnswers, somes};

use crate::{Stepwise, TakeRefused, Word};
use std::sync::Wait;
use thiserror::Error;

/// A range put that put at least one value.
#[derive(Clone, Copy, Debug, PartialEq, Eq)]
pub struct Ranged {
    /// The put's number.
    pub number: u64,
    /// How many values were put, from the front: at least 1.
    pub count: u32,
}

/// Why a range was not put. Every value is still in its place.
#[derive(Clone, Copy, Debug, Error, PartialEq, Eq)]
pub enum RangeRefused {
    /// The range is empty.
    #[error("nothing to put")]
    Nothing,
    /// The container was open, and each cell held a value or was in a pass's hand.
    #[error("full")]
    Full,
    /// The container is closed.
    #[error("closed")]
    Closed,
    /// The tag of this word allows no further rise: the word, and the tag that was read.
    #[error("spent")]
    Spent(Word, u64),
}

/// A fold that took all values.
#[derive(Clone, Copy, Debug, PartialEq, Eq)]
pub struct Folded {
    /// The number of the compare-and-swap that took them.
    pub number: u64,
    /// How many values there were.
    pub count: u32,
}

/// A container that puts several values, and takes all values, by one compare-and-swap each.
pub trait Bulk<T>: Stepwise<T> {
    /// Puts values from the front of the range by one compare-and-swap, at least one. Their places
    /// are then `None`. Values stay in the range only if at some time of the call no cell could be
    /// had for the next one. A refusal leaves every place as it was. It is `Nothing` if the range
    /// is empty, and otherwise a refusal of `put`, for the same reason. Called in
    /// `examples::stack`.
    fn put_range<R: Wait>(
        &self,
        rt: &R,
        by: Self::Pass,
        values: &mut [Option<T>],
    ) -> (Self::Pass, Result<Ranged, RangeRefused>)
        requires pass { Self.is_pass self.now by }
        requires values { Every (λ place. IsSome place) values.old }
        ensures of { Self.is_pass self.now result.0 }
        ensures gives { PutsRange
            (record { shape = Self.shape self.now; from = Self.pass by; to = Self.pass result.0 })
            values.old values.new result.1 }
        ensures answered { RangeAnswers (somes values.old) result.1
            (Self.pass by) (Self.pass result.0) };

    /// Takes all values by one compare-and-swap, and folds them in the order in which takes would
    /// give them. Returns the last state. If the fold is refused, it takes nothing and returns the
    /// state that was handed in. The refusals are those of `take`. Called in `examples::buffers`.
    fn fold_all_atomic<R: Wait, S, F: Fn(S, T) -> S + Drop>(
        &self,
        rt: &R,
        by: Self::Pass,
        state: S,
        f: F,
    ) -> (Self::Pass, S, Result<Folded, TakeRefused>)
        requires pass { Self.is_pass self.now by }
        requires call { F.IsAlwaysCallable f }
        ensures of { Self.is_pass self.now result.0 }
        ensures gives { FoldsAll
            (record { shape = Self.shape self.now; from = Self.pass by; to = Self.pass result.0 })
            (λ values. Folds (λ s x t. F.post f s x t) state values result.1)
            (result.1 ≡ state) result.2 }
        ensures answered { FoldAnswers (λ values. values) result.2
            (Self.pass by) (Self.pass result.0) };

    /// Like `fold_all_atomic`, but folds the values in the opposite order. Called in
    /// `examples::stack`.
    fn fold_all_atomic_reversed<R: Wait, S, F: Fn(S, T) -> S + Drop>(
        &self,
        rt: &R,
        by: Self::Pass,
        state: S,
        f: F,
    ) -> (Self::Pass, S, Result<Folded, TakeRefused>)
        requires pass { Self.is_pass self.now by }
        requires call { F.IsAlwaysCallable f }
        ensures of { Self.is_pass self.now result.0 }
        ensures gives { FoldsAll
            (record { shape = Self.shape self.now; from = Self.pass by; to = Self.pass result.0 })
            (λ values. Folds (λ s x t. F.post f s x t) state (reverse values) result.1)
            (result.1 ≡ state) result.2 }
        ensures answered { FoldAnswers reverse result.2
            (Self.pass by) (Self.pass result.0) };
}
