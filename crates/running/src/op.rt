//! An operation that was begun, on any container: one type for all operations of a machine.
ghost use Rattle.std.specs.Prelude.{◌≡◌, ◌<◌};
ghost use Rattle.running.specs.Going.{Owes};
ghost use Rattle.running.specs.Kept.{OpRunsFor, OpSteps};
ghost use Rattle.running.specs.Ops.{IsFirst, IsUnderWay, underway_of};
ghost use Rattle.bounded_model.specs.Stepping.{no_step};
ghost use Rattle.running.specs.Passes.{IsPassOn, pass_in};
ghost use Rattle.running.specs.Rule.{line_in};

use crate::call::HasTable;
use crate::calls::try_for;
use crate::code::{Code, Next, OnTable};
use crate::kept::{Answered, PassWith};
use crate::lists::ListMachine;
use crate::passes::Pass;
use crate::replies::{Keeping, Replies};
use crate::stepping::single_step;
use bounded_model::Stepped;

/// An operation that was begun: its pass, which operation it is, and its next step.
#[derive(Drop)]
pub struct Op<T, L, O, S> {
    pub pass: Pass<T, L>,
    pub operation: O,
    pub at: S,
}

impl<T, L, O: Drop, S> Op<T, L, O, S> {
    /// Begins an operation in its first state. It makes no step yet.
    #[inline]
    pub fn begin<C: OnTable, M: ListMachine<T, L, O, N>, A, const N: usize>(
        on: &C,
        by: Pass<T, L>,
        operation: O,
        at: S,
    ) -> Op<T, L, O, S>
    where
        S: Code<C, T, L, O, M, A, N>,
        requires pass { IsPassOn (M.machine (C.key on.now)) (C.id on.now) by }
        requires first { IsFirst M.names (S.account (C.key on.now))
            (line_in M.names by.seat.me.0) operation at }
        requires owes { Owes (M.machine (C.key on.now)) operation (pass_in by) }
        ensures under_way { IsUnderWay (M.machine (C.key on.now)) (S.account (C.key on.now))
            (C.id on.now) result }
        ensures begun { underway_of (M.machine (C.key on.now)) result.pass ≡ no_step (pass_in by) }
        ensures same { (result.operation ≡ operation) × (result.at ≡ at) }
        ensures pass { result.pass ≡ by }
    {
        let _ = on;
        Op {
            pass: by,
            operation,
            at,
        }
    }

    /// Makes one step of the machine, which is one act of its pass. If it ends the operation, the
    /// pass comes back with what it keeps now, and the reply.
    #[inline]
    pub fn step<
        C: HasTable<T, L, O, M> + Keeping<L, K>,
        M: ListMachine<T, L, O, N>,
        K,
        R,
        const N: usize,
    >(self, on: &C) -> Stepped<Op<T, L, O, S>, PassWith<T, L, K>, R>
    where
        S: Replies<C, T, L, O, M, K, R, N>,
        requires { IsUnderWay (M.machine (C.key on.now)) (S.account (C.key on.now)) (C.id on.now)
            self }
        ensures { OpSteps (M.machine (C.key on.now)) (S.account (C.key on.now)) C.keeps
            (C.id on.now) (S.gives (C.key on.now)) self result }
    {
        let Op {
            pass,
            operation,
            at,
        } = self;
        match single_step::<C, T, L, O, M, _, S, N>(on.table(), on, pass, at, &operation) {
            Stepped::Again((pass, at)) => Stepped::Again(Op {
                pass,
                operation,
                at,
            }),
            Stepped::Done(pass, answer) => {
                let Answered { kept, reply } = answer;
                Stepped::Done(PassWith { pass, kept }, reply)
            }
        }
    }

    /// Makes at most `steps` steps, with a wait after each compare-and-swap that failed.
    #[inline]
    pub fn run_for<
        C: HasTable<T, L, O, M> + Keeping<L, K>,
        M: ListMachine<T, L, O, N>,
        K,
        R,
        const N: usize,
    >(self, on: &C, steps: u64) -> Stepped<Op<T, L, O, S>, PassWith<T, L, K>, R>
    where
        S: Replies<C, T, L, O, M, K, R, N>,
        requires { IsUnderWay (M.machine (C.key on.now)) (S.account (C.key on.now)) (C.id on.now)
            self }
        ensures { OpRunsFor (M.machine (C.key on.now)) (S.account (C.key on.now)) C.keeps
            (C.id on.now) (S.gives (C.key on.now)) steps self result }
    {
        let Op {
            pass,
            operation,
            at,
        } = self;
        let first = (pass, Next::On(at));
        match try_for::<C, T, L, O, M, _, S, N>(on.table(), on, first, &operation, steps) {
            Stepped::Again((pass, at)) => Stepped::Again(Op {
                pass,
                operation,
                at,
            }),
            Stepped::Done(pass, answer) => {
                let Answered { kept, reply } = answer;
                Stepped::Done(PassWith { pass, kept }, reply)
            }
        }
    }
}
