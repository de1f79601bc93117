//! Folds of all values for callers that may not wait: a fold makes a bounded number of steps at a
//! time, and hands out each value by itself.
ghost use Rattle.std.specs.Prelude.{◌≡◌, List, []};
ghost use Rattle.index_list.specs.declared.front.Front.{Front};
ghost use Rattle.index_list.specs.declared.front.Front.TheVariants.{First, Last};
ghost use Rattle.bounded_model.specs.Stepping.{no_step};
ghost use Rattle.running.specs.Ops.{underway_of};
ghost use Rattle.running.specs.Passes as passes;
ghost use Rattle.treiber_stack.specs.Bulk.{IsFolding, FoldTried, FoldSteps};
ghost use Rattle.treiber_stack.specs.Calls.{IsPassOf, machine_of, pass_in, begun_of};

use crate::bulk::folding::{FoldAt, FoldStop};
use crate::life::stack::{Pass, Stack};
use bounded_model::{Folded, Stepped, TakeRefused};
use index_list::Front;
use running::{Next, Op, try_for};
use stack_machine::Line;
use stack_table::Operation;

/// A fold under way, between two of its steps. If it is dropped, the nodes that it holds are never
/// free again.
pub type FoldOp<T> = Op<T, Line<T>, Operation<T>, FoldAt<T>>;

/// What a fold that was run for some steps has come to.
#[derive(Drop)]
pub enum FoldMade<T> {
    /// The steps are used up, and the fold is under way.
    Again(FoldOp<T>),
    /// The next value, and the fold is under way.
    Value(T, FoldOp<T>),
    /// The fold has handed out all values, and their nodes are free; or it was refused, as a take
    /// is, and has handed out none.
    Done(Pass<T>, Result<Folded, TakeRefused>),
}

impl<T> Stack<T> {
    /// A fold from the top down that makes no step yet.
    #[inline]
    pub fn begin_fold(&self, by: Pass<T>) -> FoldOp<T>
        requires { IsPassOf self.now by }
        ensures { IsFolding self.now First [] result
            × (underway_of (machine_of self.now) result.pass ≡ no_step (pass_in by)) }
    {
        let Pass { pass, .. } = by;
        let operation = Operation::Fold(Front::First);
        Op::begin(self, pass, operation, FoldAt::Load(Front::First))
    }

    /// A fold from the bottom up that makes no step yet.
    #[inline]
    pub fn begin_fold_reversed(&self, by: Pass<T>) -> FoldOp<T>
        requires { IsPassOf self.now by }
        ensures { IsFolding self.now Last [] result
            × (underway_of (machine_of self.now) result.pass ≡ no_step (pass_in by)) }
    {
        let Pass { pass, .. } = by;
        let operation = Operation::Fold(Front::Last);
        Op::begin(self, pass, operation, FoldAt::Load(Front::Last))
    }

    /// Continues a fold until the next value or the end, for at most `steps` steps. It waits after
    /// each compare-and-swap that failed. One compare-and-swap takes all values, so a value
    /// that is put after it is not among them. `Again` comes after exactly `steps` steps, a value or
    /// the end after at most `steps`. A step is one atomic access.
    #[inline]
    pub fn run_fold_for(&self, fold: FoldOp<T>, steps: u64) -> FoldMade<T>
        requires { (front : Front) × (values : List T) × IsFolding self.now front values fold }
        ensures tried { (front : Front) (values : List T) → IsFolding self.now front values fold
            → FoldTried self.now front values (begun_of self.now fold.pass) result }
        ensures took { FoldSteps steps (passes.pass_in fold.pass) result }
    {
        let Op {
            pass,
            operation,
            at,
        } = fold;
        let first = (pass, Next::On(at));
        match try_for(&self.table.shared, self, first, &operation, steps) {
            Stepped::Again((pass, at)) => FoldMade::Again(Op {
                pass,
                operation,
                at,
            }),
            Stepped::Done(pass, stop) => match stop {
                FoldStop::Yields(value, at) => {
                    let next = Op {
                        pass,
                        operation,
                        at,
                    };
                    FoldMade::Value(value, next)
                }
                FoldStop::Ended(batch, count) => {
                    let number = batch.number;
                    FoldMade::Done(Pass { pass, kept: () }, Ok(Folded { number, count }))
                }
                FoldStop::Refused(why) => FoldMade::Done(Pass { pass, kept: () }, Err(why)),
            },
        }
    }
}
