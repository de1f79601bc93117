//! The calls of a script's lines that not every container has.

ghost use Rattle.std.specs.Prelude.{◌≡◌, IfOk};
ghost use Rattle.bounded_model.specs.declared.history.Order.TheVariants.{Lifo};
ghost use Rattle.player.specs.Plays.{FoldTold, RangeTold};

use bounded_model::{Container, TakeRefused};
use script::{RangeReply, Value, ValueList, Values};
use std::alloc::{AllocError, Global};
use std::sync::Wait;

/// How the ranges and folds of a script are made on a container. Only a stack's script has such
/// lines, so a type beside the container makes them.
pub trait Ranges<'a, C: Container<Value<'a>>> {
    /// If the container is a stack, puts a range of values by one compare-and-swap. Returns the
    /// values that were not put, too.
    fn range<R: Wait>(
        container: &C,
        rt: &R,
        alloc: Global,
        by: C::Pass,
        values: Values<'a>,
    ) -> Result<(C::Pass, RangeReply, ValueList<'a>), AllocError>
        requires { C.is_pass container.now by }
        ensures of { IfOk result (λ done. C.is_pass container.now done.0) }
        ensures gives { (C.shape container.now).order ≡ Lifo
            → IfOk result (λ done. RangeTold (C.shape container.now)
            (C.pass by) (C.pass done.0) values.entry done.1 done.2) };

    /// If the container is a stack, takes all values by one compare-and-swap, and returns them from
    /// the top down, or the other way round.
    fn fold<R: Wait>(
        container: &C,
        rt: &R,
        alloc: Global,
        by: C::Pass,
        reversed: bool,
    ) -> Result<(C::Pass, Result<(u64, ValueList<'a>), TakeRefused>), AllocError>
        requires { C.is_pass container.now by }
        ensures of { IfOk result (λ done. C.is_pass container.now done.0) }
        ensures gives { (C.shape container.now).order ≡ Lifo
            → IfOk result (λ done. FoldTold (C.shape container.now) reversed
            (C.pass by) (C.pass done.0) done.1) };
}
