//! A stack's ranges and folds, as `Bulk` has them.
pub(crate) mod fold_op;
pub(crate) mod folding;
pub(crate) mod loading;
pub(crate) mod range_steps;
pub(crate) mod range_trying;
pub(crate) mod ranging;
pub(crate) mod source;

use crate::life::stack::{Pass, Stack};
use bounded_model::{Bulk, Folded, RangeRefused, Ranged, TakeRefused};
use std::sync::Wait;

impl<T: Drop + Send> Bulk<T> for Stack<T> {
    fn put_range<R: Wait>(
        &self,
        rt: &R,
        by: Pass<T>,
        values: &mut [Option<T>],
    ) -> (Pass<T>, Result<Ranged, RangeRefused>) {
        self.put_range(rt, by, values)
    }

    fn fold_all_atomic<R: Wait, S, F: Fn(S, T) -> S + Drop>(
        &self,
        rt: &R,
        by: Pass<T>,
        state: S,
        f: F,
    ) -> (Pass<T>, S, Result<Folded, TakeRefused>) {
        self.fold_all_atomic(rt, by, state, f)
    }

    fn fold_all_atomic_reversed<R: Wait, S, F: Fn(S, T) -> S + Drop>(
        &self,
        rt: &R,
        by: Pass<T>,
        state: S,
        f: F,
    ) -> (Pass<T>, S, Result<Folded, TakeRefused>) {
        self.fold_all_atomic_reversed(rt, by, state, f)
    }
}
