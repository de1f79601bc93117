//! Ranges and folds by a container's own calls.

ghost use Rattle.std.specs.Prelude.{◌≡◌};
ghost use Rattle.player.specs.Folds.{AddsOne, numbered};
ghost use Rattle.player.specs.Plays.{range_reply};

use crate::ranges::Ranges;
use bounded_model::{Bulk, Folded, RangeRefused, Ranged, TakeRefused};
use script::{RangeReply, Value, ValueList, Values};
use std::alloc::{AllocError, Global};
use std::marker::PhantomData;
use std::sync::Wait;

/// The ranges and folds of a container that has such calls.
pub struct BulkRanges<'a, C> {
    /// The prover finds the lifetime and the container here.
    of: PhantomData<(Value<'a>, C)>,
}

impl<'a, C: Bulk<Value<'a>>> Ranges<'a, C> for BulkRanges<'a, C> {
    fn range<R: Wait>(
        container: &C,
        rt: &R,
        alloc: Global,
        by: C::Pass,
        values: Values<'a>,
    ) -> Result<(C::Pass, RangeReply, ValueList<'a>), AllocError> {
        let mut places = values.to_places(alloc)?;
        let (pass, answer) = container.put_range(rt, by, &mut places);
        Ok((pass, reply_of(answer), ValueList::left_in(places)))
    }

    fn fold<R: Wait>(
        container: &C,
        rt: &R,
        alloc: Global,
        by: C::Pass,
        reversed: bool,
    ) -> Result<(C::Pass, Result<(u64, ValueList<'a>), TakeRefused>), AllocError> {
        let none = Ok(ValueList::new(alloc));
        if reversed {
            let (pass, values, answer) = container.fold_all_atomic_reversed(rt, by, none, pushed);
            Ok((pass, numbered(values?, answer)))
        } else {
            let (pass, values, answer) = container.fold_all_atomic(rt, by, none, pushed);
            Ok((pass, numbered(values?, answer)))
        }
    }
}

/// What a range's result is called in a script.
fn reply_of(answer: Result<Ranged, RangeRefused>) -> RangeReply
    ensures { result ≡ range_reply answer }
{
    match answer {
        Ok(ranged) => RangeReply::Put(ranged.number, ranged.count),
        Err(RangeRefused::Nothing) => RangeReply::Nothing,
        Err(RangeRefused::Full) => RangeReply::Full,
        Err(RangeRefused::Closed) => RangeReply::Closed,
        Err(RangeRefused::Spent(word, tag)) => RangeReply::Spent(word, tag),
    }
}

/// The values with one more at the end, unless there was no memory for one of them.
fn pushed<'a>(
    values: Result<ValueList<'a>, AllocError>,
    value: Value<'a>,
) -> Result<ValueList<'a>, AllocError>
    ensures { AddsOne values.entry value.entry result }
{
    let mut values = values?;
    values.push(value)?;
    Ok(values)
}

/// A fold's number with its values, or why it took none.
fn numbered<'a>(
    values: ValueList<'a>,
    answer: Result<Folded, TakeRefused>,
) -> Result<(u64, ValueList<'a>), TakeRefused>
    ensures { result ≡ numbered values.entry answer }
{
    match answer {
        Ok(folded) => Ok((folded.number, values)),
        Err(refused) => Err(refused),
    }
}
