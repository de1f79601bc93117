//! Taking one value: the pop of Treiber's stack (1986), with a tag in each word that is exchanged.
//!
//! What a take does if no other pass is faster, by the functions that follow:
//! 1. `take_fast_top`: loads the top and the link of the node that it names, and exchanges the top for
//!    that link, which is the take's effect. The tag sees to it that the link is still that of the top
//!    node. The value moves out of the node's slot.
//! 2. `take_fast_back`: gives the node to the list of free nodes.
//!
//! If the top names no node, the take is refused: the stack is empty, or closed if the top has the
//! mark. It is refused too if the top has the second mark, because the stack is shut then, or if the
//! top's tag is at its limit. If another pass was faster, the take is at some
//! state of `TakeAt`, and continues from there (code/taking.rt): it loads the top again, or pushes the
//! node again.
//!
//! The steps are those of `next` in code/taking.rt, repeated and cut in parts for the reasons that
//! putting.rt gives. Change `next` first.
ghost use Rattle.std.specs.Prelude.{◌≡◌, ◌≤◌, ◌+◌};
ghost use Rattle.bounded_model.specs.Laws.{Answers, TakeGives};
ghost use Rattle.bounded_model.specs.Stepping.{MatchStepped, no_step};
ghost use Rattle.bounded_model.specs.declared.commands.Command.TheVariants.{Take as TakeCall};
ghost use Rattle.bounded_model.specs.declared.views.Answered.TheVariants.{Take as TakeAnswered};
ghost use Rattle.running.specs.Kept.{HasNewCall, WasRun};
ghost use Rattle.running.specs.Ops.{underway_of};
ghost use Rattle.running.specs.Passes.{pass_in as pass_now};
ghost use Rattle.running.specs.Ties.{TakeDeals};
ghost use Rattle.stack_table.specs.declared.operation.Operation.TheVariants.{Take as TakeFirst};
ghost use Rattle.treiber_stack.specs.code.Machine.{is_call};
ghost use Rattle.treiber_stack.specs.Calls.{IsPassOf, IsPassWith, machine_of, machine_with, pass_in, shape_of, IsTaking, TakeTried};
ghost use Rattle.treiber_stack.specs.code.Steps.{IsSeatWith, TakeStands, TakeRan};
ghost use Rattle.treiber_stack.specs.code.Taking.{take_account};

use crate::code::giving::Give;
use crate::code::taking::{Answer, TakeAt, TakeOp};
use crate::life::stack::{Answered, Pass, Stack};
use bounded_model::{Stepped, TakeRefused};
use running::{Next, Op, Tie, any, fast_step, first_step, leave, told, whole};
use stack_machine::Line;
use stack_table::Operation;
use std::sync::Wait;

/// A take's steps on its fast path, as long as no other pass is faster.
#[inline(always)]
pub(crate) fn take_fast<T, D: Tie<T>>(
    on: &Stack<T, D>,
    by: running::Pass<T, Line<T>>,
    take: &Operation<T>,
) -> (
    running::Pass<T, Line<T>>,
    Next<TakeAt<T>, Answered<Answer<T>>>,
)
    requires named { take.now ≡ TakeFirst }
    requires pass { IsSeatWith D.rule on.now by }
    requires deal { TakeDeals (shape_of on.now) D.rule (pass_now by) }
    ensures ran { TakeRan D.rule on.now take.now by result.0 result.1 }
    ensures took { (pass_now result.0).steps ≤ (pass_now by).steps + 6 }
{
    let (pass, at) = fast_step!(take_fast_top(on, by, take));
    take_fast_back(on, pass, at, take)
}

// First the steps that take the top node.
#[inline]
fn take_fast_top<T, D: Tie<T>>(
    on: &Stack<T, D>,
    by: running::Pass<T, Line<T>>,
    take: &Operation<T>,
) -> (
    running::Pass<T, Line<T>>,
    Next<TakeAt<T>, Answered<Answer<T>>>,
)
    requires named { take.now ≡ TakeFirst }
    requires pass { IsSeatWith D.rule on.now by }
    requires deal { TakeDeals (shape_of on.now) D.rule (pass_now by) }
    ensures ran { TakeRan D.rule on.now take.now by result.0 result.1 }
    ensures took { (pass_now result.0).steps ≤ (pass_now by).steps + 3 }
{
    let table = &on.table.shared;
    let (pass, top) = fast_step!(
        first_step(table, on, by, TakeAt::Load, take),
        TakeAt::Link(top) => top
    );
    let (pass, top, below) = fast_step!(
        any(table, on, pass, TakeAt::Link(top), take),
        TakeAt::Exchange(top, below) => top, below
    );
    any(table, on, pass, TakeAt::Exchange(top, below), take)
}

// Then the steps that give it back.
#[inline]
fn take_fast_back<T, D: Tie<T>>(
    on: &Stack<T, D>,
    by: running::Pass<T, Line<T>>,
    won: TakeAt<T>,
    take: &Operation<T>,
) -> (
    running::Pass<T, Line<T>>,
    Next<TakeAt<T>, Answered<Answer<T>>>,
)
    requires named { take.now ≡ TakeFirst }
    requires stands { TakeStands D.rule on.now by won }
    ensures ran { TakeRan D.rule on.now take.now by result.0 result.1 }
    ensures took { (pass_now result.0).steps ≤ (pass_now by).steps + 3 }
{
    let TakeAt::GiveBack(taken, Give::Load) = won else {
        return (by, Next::On(won));
    };
    let table = &on.table.shared;
    let (pass, taken, at) = fast_step!(
        any(table, on, by, TakeAt::GiveBack(taken, Give::Load), take),
        TakeAt::GiveBack(taken, at) => taken, at
    );
    let (pass, taken, at) = fast_step!(
        any(table, on, pass, TakeAt::GiveBack(taken, at), take),
        TakeAt::GiveBack(taken, at) => taken, at
    );
    any(table, on, pass, TakeAt::GiveBack(taken, at), take)
}

impl<T> Stack<T> {
    /// Begins a take, and makes no step yet. If the operation is dropped, its pass goes with it, and
    /// its node.
    #[inline]
    pub fn begin_take(&self, by: Pass<T>) -> TakeOp<T>
        requires { IsPassOf self.now by }
        ensures makes { IsTaking self.now result }
        ensures begun { underway_of (machine_of self.now) result.pass ≡ no_step (pass_in by) }
    {
        let Pass { pass, .. } = by;
        Op::begin(self, pass, Operation::Take, TakeAt::Load)
    }

    /// Takes a value. The call retries while others interfere.
    /// - `Ok`: the value, and the take's number.
    /// - `Shut`: it was shut.
    /// - `Closed`: it had no value, and was closed and not shut.
    /// - `Empty`: it had no value, and was neither closed nor shut.
    /// - `Spent(Top, _)`: the top is worn out. Only `finish` gives what is left.
    ///
    /// The call was a run of the machine's steps.
    #[inline(always)]
    pub fn take<R: Wait>(&self, rt: &R, by: Pass<T>) -> (Pass<T>, Result<(T, u64), TakeRefused>)
        requires { IsPassOf self.now by }
        ensures of { IsPassOf self.now result.0 }
        ensures gives { TakeGives (shape_of self.now) (pass_in by) (pass_in result.0) result.1 }
        ensures answered { Answers (pass_in by) (pass_in result.0) (TakeAnswered result.1) }
        ensures ran { WasRun (machine_of self.now) (take_account self.now.table.shared.key)
            (is_call TakeCall) (pass_in by) result.0 result.1 }
        ensures new { HasNewCall by result.0 }
    {
        let Pass { pass, .. } = by;
        let take = Operation::Take;
        // Repeats `take_as`, for the reason that `put` gives.
        match take_fast(self, pass, &take) {
            (pass, Next::Done(answer)) => told(pass, answer),
            under_way => whole(rt, self, under_way, take),
        }
    }

    /// Takes a value on the fast path alone, as `put_at_once` puts one. The call makes at most 6
    /// steps. The answers are those of `take`.
    #[inline(always)]
    pub fn take_at_once(
        &self,
        by: Pass<T>,
    ) -> Stepped<TakeOp<T>, Pass<T>, Result<(T, u64), TakeRefused>>
        requires { IsPassOf self.now by }
        ensures gives { TakeTried self.now (pass_in by) result }
        ensures took { MatchStepped result (λ op. (pass_now op.pass).steps ≤ (pass_in by).steps + 6)
            (λ back answer. (pass_in back).steps ≤ (pass_in by).steps + 6) }
    {
        let Pass { pass, .. } = by;
        let take = Operation::Take;
        match take_fast(self, pass, &take) {
            (pass, Next::Done(answer)) => {
                let (back, reply) = told(pass, answer);
                Stepped::Done(back, reply)
            }
            under_way => leave(self, under_way, take),
        }
    }
}

impl<T, D: Tie<T>> Stack<T, D> {
    /// Takes a value as `take` does, in a stack with a rule of its client, as `put_as` puts one.
    #[inline(always)]
    pub fn take_as<R: Wait>(&self, rt: &R, by: Pass<T>) -> (Pass<T>, Result<(T, u64), TakeRefused>)
        requires pass { IsPassWith D.rule self.now by }
        requires deal { TakeDeals (shape_of self.now) D.rule (pass_in by) }
        ensures of { IsPassWith D.rule self.now result.0 }
        ensures tied { D.rule (pass_in result.0).seen }
        ensures gives { TakeGives (shape_of self.now) (pass_in by) (pass_in result.0) result.1 }
        ensures answered { Answers (pass_in by) (pass_in result.0) (TakeAnswered result.1) }
        ensures ran { WasRun (machine_with D.rule self.now)
            (take_account self.now.table.shared.key)
            (is_call TakeCall) (pass_in by) result.0 result.1 }
        ensures new { HasNewCall by result.0 }
    {
        let Pass { pass, .. } = by;
        let take = Operation::Take;
        // Looked at here for the same reason as in `put_as`.
        match take_fast(self, pass, &take) {
            (pass, Next::Done(answer)) => told(pass, answer),
            under_way => whole(rt, self, under_way, take),
        }
    }
}
