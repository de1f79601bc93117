//! A stack's calls and works: each makes its fast path and then a bounded number of steps.
ghost use Rattle.std.specs.Prelude.{ℕ, List};
ghost use Rattle.index_list.specs.declared.front.Front.{Front};
ghost use Rattle.treiber_stack.specs.Bulk.{IsCopying, IsFolding};
ghost use Rattle.treiber_stack.specs.Calls.{begun_of};
ghost use Rattle.running.specs.Passes.{pass_in};
ghost use Rattle.lockfree_c.specs.Stacks.{CopiedOn, FoldTried, WorkedAtMost, bulk_steps};

use crate::calls::{AtOnce, BeginsAny, Ends, Gauges, Handled, TakesBack, Tries};
use crate::steps::{STACK_BULK, STACK_CALL, steps_for};
use crate::work::{Said, Worked};
use bounded_model::{Command, Reply, Stepped};
use treiber_stack::{AnyOp, FoldMade, FoldOp, Pass, RangeOp, Rest, Root, Stack, StackAt};

/// A stack's work.
#[derive(Drop)]
pub enum StackWork {
    /// A fold of all values.
    Fold(FoldOp<u64>),
    /// A put of an array of C's, which keeps the array, and gives it again to continue the put.
    Copy(RangeOp<u64>),
}

/// Continues a fold until its next value or its end, or until the tries are used up.
pub fn fold_on(stack: &Stack<u64>, op: FoldOp<u64>, tries: u64) -> Worked<StackWork, Pass<u64>>
    requires { (front : Front) × (values : List ℕ) × IsFolding stack.now front values op }
    ensures tried { (front : Front) (values : List ℕ) → IsFolding stack.now front values op
        → FoldTried stack.now front values (begun_of stack.now op.pass) result }
    ensures took { WorkedAtMost (bulk_steps tries) (pass_in op.pass) result }
{
    match stack.run_fold_for(op, steps_for(STACK_BULK, tries)) {
        FoldMade::Again(op) => Worked::Again(StackWork::Fold(op)),
        FoldMade::Value(value, op) => Worked::Value(value, StackWork::Fold(op)),
        FoldMade::Done(by, said) => Worked::Done(by, Said::Fold(said)),
    }
}

/// Continues a put of these values, which it was begun with.
pub fn copy_on(
    stack: &Stack<u64>,
    op: RangeOp<u64>,
    values: &[u64],
    tries: u64,
) -> Worked<StackWork, Pass<u64>>
    requires { IsCopying stack.now values.now op }
    ensures { CopiedOn stack.now tries values.now op result }
{
    match stack.run_copies_for(op, values, steps_for(STACK_BULK, tries)) {
        Stepped::Again(op) => Worked::Again(StackWork::Copy(op)),
        Stepped::Done(by, said) => Worked::Done(by, Said::Range(said)),
    }
}

impl Handled for Stack<u64> {
    ghost use Rattle.lockfree_c.specs.Stacks.{stack_reading};

    type Root = Root<u64>;

    type Pass = Pass<u64>;

    type Operation = AnyOp<u64>;

    type Work = StackWork;

    ghost reading = { stack_reading };
}

impl Ends for Stack<u64> {
    type Rest = Rest<u64>;

    #[inline]
    fn split_off(&self, parent: &mut Root<u64>) -> Option<Pass<u64>> {
        self.split(parent)
    }

    #[inline]
    fn end_with(self, parent: Root<u64>) -> Rest<u64> {
        self.finish(parent)
    }
}

impl TakesBack for Stack<u64> {
    #[inline]
    fn take_back(&self, parent: &mut Root<u64>, by: Pass<u64>) {
        self.join(parent, by)
    }
}

impl Tries for Stack<u64> {
    ghost use Rattle.lockfree_c.specs.Stacks.{stack_steps};

    ghost steps = { stack_steps };

    #[inline(never)]
    fn try_on(
        &self,
        operation: AnyOp<u64>,
        tries: u64,
    ) -> Stepped<AnyOp<u64>, Pass<u64>, Reply<u64>> {
        operation.run_for(self, steps_for(STACK_CALL, tries))
    }

    fn work_on(&self, work: StackWork, tries: u64) -> Worked<StackWork, Pass<u64>> {
        match work {
            StackWork::Fold(op) => fold_on(self, op, tries),
            StackWork::Copy(op) => Worked::Waits(StackWork::Copy(op)),
        }
    }
}

impl BeginsAny for Stack<u64> {
    ghost use Rattle.lockfree_c.specs.Calls.{Begins};
    ghost use Rattle.lockfree_c.specs.Stacks.{stack_reading};
    ghost use Rattle.treiber_stack.specs.Calls.{IsPassOf};

    #[inline(always)]
    fn begin(&self, by: Pass<u64>, command: Command<u64>) -> AnyOp<u64>
        requires { IsPassOf self.now by }
        ensures { Begins (stack_reading self.now) by command result }
    {
        self.begin(by, command)
    }
}

impl AtOnce for Stack<u64> {
    #[inline(always)]
    fn put_at_once(&self, by: Pass<u64>, value: u64) -> Stepped<AnyOp<u64>, Pass<u64>, Reply<u64>> {
        match self.put_at_once(by, value) {
            Stepped::Again(op) => Stepped::Again(StackAt::of_put(op)),
            Stepped::Done(back, said) => Stepped::Done(back, Reply::Put(said)),
        }
    }

    #[inline(always)]
    fn take_at_once(&self, by: Pass<u64>) -> Stepped<AnyOp<u64>, Pass<u64>, Reply<u64>> {
        match self.take_at_once(by) {
            Stepped::Again(op) => Stepped::Again(StackAt::of_take(op)),
            Stepped::Done(back, said) => Stepped::Done(back, Reply::Take(said)),
        }
    }

    #[inline(always)]
    fn look_at_once(&self, by: Pass<u64>) -> Stepped<AnyOp<u64>, Pass<u64>, Reply<u64>> {
        match self.look_at_once(by) {
            Stepped::Again(op) => Stepped::Again(StackAt::of_look(op)),
            Stepped::Done(back, said) => Stepped::Done(back, Reply::Look(said)),
        }
    }
}

impl Gauges for Stack<u64> {
    ghost use Rattle.lockfree_c.specs.Stacks.{Gauged};

    ghost gauges = { Gauged };

    // One load of the top.
    fn gauge_for(&self, by: Pass<u64>, _tries: u64) -> Worked<StackWork, Pass<u64>> {
        let (by, shown) = self.gauge(by);
        Worked::Done(by, Said::Gauge(shown.closed, shown.used))
    }
}
