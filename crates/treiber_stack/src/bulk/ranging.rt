//! Putting a range of values by one compare-and-swap of the top. It takes a node for each value,
//! from the front, until there is none for the next. Each node is linked to the one taken before
//! it. A whole call continues the parts until the range is over.
ghost use Rattle.std.specs.Prelude.{◌≡◌, List, length, IsSome};
ghost use Rattle.std.specs.List.{AllByRecursion as Every};
ghost use Rattle.bounded_model.specs.declared.answers.Stepped.TheVariants.{Done};
ghost use Rattle.bounded_model.specs.Bulk.{PutsRange, RangeAnswers, somes};
ghost use Rattle.running.specs.Ties.{PutAllDeals};
ghost use Rattle.treiber_stack.specs.Bulk.{CopyBegun, CopyTried, IsCopying, IsRanging, RangeBegun, RangeMost, RangeSteps, RangeTried};
ghost use Rattle.treiber_stack.specs.Calls.{WasRange, WasRangeWith, IsPassOf, IsPassWith, begun_of, begun_with, call_of, pass_in, shape_of};
ghost use Rattle.treiber_stack.specs.code.RangeTrying.{IsRangeOpWith, RangeCame, left_at, put_of};

use crate::bulk::range_trying::{RangeMade, RangeOp, begin, run_for};
use crate::bulk::source::{Copies, Places, Source, put_of_copies, put_of_places};
use crate::life::stack::{Pass, Stack};
use bounded_model::{RangeRefused, Ranged, Stepped};
use running::Tie;
use std::sync::Wait;

impl<T> Stack<T> {
    /// Puts a value for each node that it gets, from the front, by one compare-and-swap. The last of them is
    /// the new top, and their places are then `None`. A refusal leaves every place as it was: it is `Nothing`
    /// for an empty range, else as that of a put. The call, if the range is not empty, was one run of the
    /// machine's steps. Called in `examples::stack`.
    #[inline]
    pub fn put_range<R: Wait>(
        &self,
        rt: &R,
        by: Pass<T>,
        values: &mut [Option<T>],
    ) -> (Pass<T>, Result<Ranged, RangeRefused>)
        requires pass { IsPassOf self.now by }
        requires values { Every (λ place. IsSome place) values.old }
        ensures of { IsPassOf self.now result.0 }
        ensures gives { PutsRange (call_of self.now by result.0) values.old values.new result.1 }
        ensures answered { RangeAnswers (somes values.old) result.1 (pass_in by) (pass_in result.0) }
        ensures ran { WasRange self.now (pass_in by) (somes values.old) result.1 result.0 }
    {
        self.put_range_as(rt, by, values)
    }

    /// A put of the values in these places that makes no step yet. It refuses an empty range at
    /// once, as `Nothing`.
    pub fn begin_range(&self, by: Pass<T>, values: &[Option<T>]) -> RangeMade<T>
        requires pass { IsPassOf self.now by }
        requires values { Every (λ place. IsSome place) values.now }
        ensures { RangeBegun self.now (pass_in by) values.now result }
    {
        begin(self, by, put_of_places(values))
    }

    /// Continues the put with the places as it left them, and waits after each compare-and-swap
    /// that failed. It makes at most `steps` steps to take each node, `steps` to put them onto the
    /// top and `steps` to give them back. A node that is linked, or whose value goes back, is one
    /// step more. If the range ends, it returns what `put_range` does, and leaves the places so.
    /// A part in which the range is first refused or turns back has a bound of its own, `most`: at
    /// most `steps + 2` steps for each value, and twice `steps` more. A step is one atomic access.
    pub fn run_range_for(
        &self,
        op: RangeOp<T>,
        values: &mut [Option<T>],
        steps: u64,
    ) -> RangeMade<T>
        requires { (vs : List T) × IsRanging self.now vs values.old op }
        ensures tried { (vs : List T) → IsRanging self.now vs values.old op
            → RangeTried self.now vs (begun_of self.now op.pass) values.new result }
        ensures took { RangeSteps steps op result }
        ensures most { (vs : List T) → IsRanging self.now vs values.old op
            → RangeMost steps (length vs) op result }
    {
        let mut places = Places { places: values };
        run_for(self, op, &mut places, steps)
    }
}

impl<T: Copy> Stack<T> {
    /// A put of copies of these values, which makes no step yet. They need no place for each value.
    /// It refuses an empty range at once, as `Nothing`.
    pub fn begin_copies(&self, by: Pass<T>, values: &[T]) -> RangeMade<T>
        requires { IsPassOf self.now by }
        ensures { CopyBegun self.now values.now (pass_in by) result }
    {
        begin(self, by, put_of_copies(values))
    }

    /// Continues the put with the values that it was begun with, as `run_range_for` does with
    /// places.
    pub fn run_copies_for(&self, op: RangeOp<T>, values: &[T], steps: u64) -> RangeMade<T>
        requires { IsCopying self.now values.now op }
        ensures tried { CopyTried self.now values.now (begun_of self.now op.pass) result }
        ensures took { RangeSteps steps op result }
        ensures most { RangeMost steps (length values.now) op result }
    {
        let mut copies = Copies { values };
        run_for(self, op, &mut copies, steps)
    }
}

impl<T, D: Tie<T>> Stack<T, D> {
    /// Puts a range as `put_range` does, in a stack with a rule of its client, as `put_as` puts one
    /// value. The caller shows it for each number of values that may have got nodes.
    pub fn put_range_as<R: Wait>(
        &self,
        rt: &R,
        by: Pass<T>,
        values: &mut [Option<T>],
    ) -> (Pass<T>, Result<Ranged, RangeRefused>)
        requires pass { IsPassWith D.rule self.now by }
        requires values { Every (λ place. IsSome place) values.old }
        requires deal { PutAllDeals (shape_of self.now) D.rule (pass_in by) (somes values.old) }
        ensures of { IsPassWith D.rule self.now result.0 }
        ensures tied { D.rule (pass_in result.0).seen }
        ensures gives { PutsRange (call_of self.now by result.0) values.old values.new result.1 }
        ensures answered { RangeAnswers (somes values.old) result.1 (pass_in by) (pass_in result.0) }
        ensures ran { WasRangeWith D.rule self.now (pass_in by) (somes values.old) result.1
            result.0 }
    {
        match begin(self, by, put_of_places(values)) {
            Stepped::Again(begun) => {
                let mut places = Places { places: values };
                run_whole(self, rt, begun, &mut places)
            }
            Stepped::Done(pass, answer) => (pass, answer),
        }
    }
}

// Continues a range that was begun until it is over. Each part may make as many steps as there are.
fn run_whole<T, D: Tie<T>, V: Source<T>, R: Wait>(
    on: &Stack<T, D>,
    rt: &R,
    begun: RangeOp<T>,
    values: &mut V,
) -> (Pass<T>, Result<Ranged, RangeRefused>)
    requires { (vs : List T) × IsRangeOpWith D.rule on.now vs begun
        × V.left values.old vs (left_at begun.at.at begun.at.held) }
    ensures came { (vs : List T) → IsRangeOpWith D.rule on.now vs begun
        → V.left values.old vs (left_at begun.at.at begun.at.held)
        → RangeCame D.rule on.now vs (begun_with D.rule on.now begun.pass) (Done result.0 result.1)
        × V.left values.new vs (put_of result.1) }
    ensures same { V.borrow values.new ≡ V.borrow values.old }
{
    let mut range = begun;
    for _ in rt.forever() {
        match run_for(on, range, values, u64::MAX) {
            Stepped::Again(next) => range = next,
            Stepped::Done(pass, answer) => return (pass, answer),
        }
    }
    unreachable!()
}
