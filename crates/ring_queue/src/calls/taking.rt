//! Taking one value.
//!
//! What a take does if no other pass is faster, by the functions that follow:
//! 1. `take_fast`: loads `HEAD`, which is only a hint: the front is at the position that it names, or
//!    further on.
//! 2. `take_fast_walk`: loads one slot after the other, from the hint on, until a slot is not yet
//!    emptied in the lap of its position. That is the front of the ring.
//! 3. `take_fast_exchange`: exchanges the cell of this slot for the pass's spare cell, which is empty:
//!    the take's effect. The value moves out of the cell that lay there, which is the spare one from
//!    now on.
//! 4. `take_fast_pass`: one take in four moves `HEAD` to the position behind its own.
//!
//! If the slot at the front is empty, the take is refused: the ring is empty, or closed if the slot
//! has the mark. A mark at `HEAD` says that it is shut. If another take was faster, this one
//! continues its walk by one slot (code/taking.rt).
//!
//! The steps are those of `next` in code/taking.rt, repeated for the reasons that putting.rt gives.
//! Change `next` first.
ghost use Rattle.std.specs.Prelude.{◌≡◌, ◌≤◌, ◌+◌};
ghost use Rattle.bounded_model.specs.Laws.{Answers, TakeGives};
ghost use Rattle.bounded_model.specs.Stepping.{MatchStepped, no_step};
ghost use Rattle.bounded_model.specs.declared.commands.Command.TheVariants.{Take as TakeCall};
ghost use Rattle.bounded_model.specs.declared.views.Answered.TheVariants.{Take as TakeAnswered};
ghost use Rattle.running.specs.Kept.{HasNewCall, WasRun};
ghost use Rattle.running.specs.Ops.{underway_of};
ghost use Rattle.running.specs.Passes.{pass_in as pass_now};
ghost use Rattle.running.specs.Ties.{TakeDeals};
ghost use Rattle.ring_table.specs.declared.operation.Operation.TheVariants.{Take as TakeFirst};
ghost use Rattle.ring_queue.specs.code.Machine.{is_call};
ghost use Rattle.ring_queue.specs.Calls.{IsPassOf, IsPassWith, machine_of, machine_with, pass_in, shape_of, IsTaking, TakeTried};
ghost use Rattle.ring_queue.specs.code.Taking.{take_account};
ghost use Rattle.ring_queue.specs.code.Steps.{TakeStands, TakeRan};
ghost use Rattle.ring_queue.specs.declared.code.taking.TakeAt.TheVariants.{Walking};
ghost use Rattle.ring_queue.specs.declared.code.walking.WalkAt.TheVariants.{LoadSlot};

use crate::code::taking::{Answer, TakeAt, TakeOp};
use crate::code::walk::Walk;
use crate::code::walking::{FAST_ROUNDS, WalkAt};
use crate::life::ring::{Answered, Pass, RingQueue};
use bounded_model::{Stepped, TakeRefused};
use ring_table::{Operation, SeatLine};
use running::{Next, Op, Tie, any, aside, fast_step, first_step, leave, told, whole};
use std::sync::Wait;

/// A take's steps on its fast path, until another pass is faster.
#[inline(always)]
pub(crate) fn take_fast<T, D: Tie<T>>(
    on: &RingQueue<T, D>,
    by: Pass<T>,
    take: &Operation<T>,
) -> (
    running::Pass<T, SeatLine<T>>,
    Next<TakeAt<T>, Answered<Answer<T>>>,
)
    requires named { take.now ≡ TakeFirst }
    requires pass { IsPassWith D.rule on.now by }
    requires deal { TakeDeals (shape_of on.now) D.rule (pass_in by) }
    ensures ran { TakeRan D.rule on.now take.now by.pass result.0 result.1 }
    ensures took { (pass_now result.0).steps ≤ (pass_now by.pass).steps + 12 }
{
    let Pass { pass, kept: spare } = by;
    let table = &on.table.shared;
    let begun = TakeAt::Walking(WalkAt::LoadHint(spare));
    let (pass, walking) = fast_step!(
        first_step(table, on, pass, begun, take),
        TakeAt::Walking(walking) => walking
    );
    let WalkAt::LoadSlot(walk) = walking else {
        aside();
        return (pass, Next::On(TakeAt::Walking(walking)));
    };
    let (pass, at) = match take_fast_walk(on, pass, walk, take) {
        (pass, Next::On(at)) => (pass, at),
        other => return other,
    };
    let (pass, at) = fast_step!(take_fast_exchange(on, pass, at, take));
    let (pass, at) = fast_step!(take_fast_pass(on, pass, at, take));
    any(table, on, pass, at, take)
}

// The walk, as long as the hint is near enough.
#[inline]
fn take_fast_walk<T, D: Tie<T>>(
    on: &RingQueue<T, D>,
    by: running::Pass<T, SeatLine<T>>,
    begun: Walk,
    take: &Operation<T>,
) -> (
    running::Pass<T, SeatLine<T>>,
    Next<TakeAt<T>, Answered<Answer<T>>>,
)
    requires named { take.now ≡ TakeFirst }
    requires stands { TakeStands D.rule on.now by (Walking (LoadSlot begun)) }
    ensures ran { TakeRan D.rule on.now take.now by result.0 result.1 }
    ensures took { (pass_now result.0).steps ≤ (pass_now by).steps + 8 }
{
    let mut pass = by;
    let mut walk = begun;
    for _gone in 0..FAST_ROUNDS {
        let read = TakeAt::Walking(WalkAt::LoadSlot(walk));
        match any(&on.table.shared, on, pass, read, take) {
            (next, Next::On(at)) => match at {
                TakeAt::Walking(walking) => match walking {
                    WalkAt::LoadSlot(further) => {
                        pass = next;
                        walk = further;
                    }
                    walking => return (next, Next::On(TakeAt::Walking(walking))),
                },
                at => return (next, Next::On(at)),
            },
            other => return other,
        }
    }
    (pass, Next::On(TakeAt::Walking(WalkAt::LoadSlot(walk))))
}

// The exchange, which takes the value.
#[inline]
fn take_fast_exchange<T, D: Tie<T>>(
    on: &RingQueue<T, D>,
    by: running::Pass<T, SeatLine<T>>,
    there: TakeAt<T>,
    take: &Operation<T>,
) -> (
    running::Pass<T, SeatLine<T>>,
    Next<TakeAt<T>, Answered<Answer<T>>>,
)
    requires named { take.now ≡ TakeFirst }
    requires stands { TakeStands D.rule on.now by there }
    ensures ran { TakeRan D.rule on.now take.now by result.0 result.1 }
    ensures took { (pass_now result.0).steps ≤ (pass_now by).steps + 1 }
{
    let TakeAt::Exchange(end) = there else {
        aside();
        return (by, Next::On(there));
    };
    any(&on.table.shared, on, by, TakeAt::Exchange(end), take)
}

// The move of the head, which follows one take in four.
#[inline]
fn take_fast_pass<T, D: Tie<T>>(
    on: &RingQueue<T, D>,
    by: running::Pass<T, SeatLine<T>>,
    taken: TakeAt<T>,
    take: &Operation<T>,
) -> (
    running::Pass<T, SeatLine<T>>,
    Next<TakeAt<T>, Answered<Answer<T>>>,
)
    requires named { take.now ≡ TakeFirst }
    requires stands { TakeStands D.rule on.now by taken }
    ensures ran { TakeRan D.rule on.now take.now by result.0 result.1 }
    ensures took { (pass_now result.0).steps ≤ (pass_now by).steps + 1 }
{
    let TakeAt::PassHead(walk, value) = taken else {
        return (by, Next::On(taken));
    };
    let passing = TakeAt::PassHead(walk, value);
    any(&on.table.shared, on, by, passing, take)
}

impl<T> RingQueue<T> {
    /// Begins a take, and makes no step yet. If the operation is dropped, its pass goes with it, and
    /// its cell stays reserved.
    #[inline]
    pub fn begin_take(&self, by: Pass<T>) -> TakeOp<T>
        requires { IsPassOf self.now by }
        ensures makes { IsTaking self.now result }
        ensures begun { underway_of (machine_of self.now) result.pass ≡ no_step (pass_in by) }
    {
        let Pass { pass, kept } = by;
        let begun = TakeAt::Walking(WalkAt::LoadHint(kept));
        Op::begin(self, pass, Operation::Take, begun)
    }

    /// Takes a value. The call retries while others interfere.
    /// - `Ok`: the value, and the take's number.
    /// - `Shut`: the ring was shut.
    /// - `Closed`: it held no value, and was closed and not shut.
    /// - `Empty`: it held no value, and was neither closed nor shut.
    ///
    /// It is never `Spent`. The call was a run of the machine's steps.
    #[inline(always)]
    pub fn take<R: Wait>(&self, rt: &R, by: Pass<T>) -> (Pass<T>, Result<(T, u64), TakeRefused>)
        requires { IsPassOf self.now by }
        ensures of { IsPassOf self.now result.0 }
        ensures gives { TakeGives (shape_of self.now) (pass_in by) (pass_in result.0) result.1 }
        ensures answered { Answers (pass_in by) (pass_in result.0) (TakeAnswered result.1) }
        ensures ran { WasRun (machine_of self.now) (take_account self.now.table.shared.key)
            (is_call TakeCall) (pass_in by) result.0 result.1 }
        ensures new { HasNewCall by result.0 }
    {
        let take = Operation::Take;
        // Repeats `take_as`, for the reason that `put` gives.
        match take_fast(self, by, &take) {
            (pass, Next::Done(answer)) => told(pass, answer),
            under_way => whole(rt, self, under_way, take),
        }
    }

    /// Takes a value on the fast path alone, as `put_at_once` puts one. The call makes at most 12
    /// steps. The answers are those of `take`.
    #[inline(always)]
    pub fn take_at_once(
        &self,
        by: Pass<T>,
    ) -> Stepped<TakeOp<T>, Pass<T>, Result<(T, u64), TakeRefused>>
        requires { IsPassOf self.now by }
        ensures gives { TakeTried self.now (pass_in by) result }
        ensures took { MatchStepped result (λ op. (pass_now op.pass).steps ≤ (pass_in by).steps + 12)
            (λ back answer. (pass_in back).steps ≤ (pass_in by).steps + 12) }
    {
        let take = Operation::Take;
        match take_fast(self, by, &take) {
            (pass, Next::Done(answer)) => {
                let (back, reply) = told(pass, answer);
                Stepped::Done(back, reply)
            }
            under_way => leave(self, under_way, take),
        }
    }
}

impl<T, D: Tie<T>> RingQueue<T, D> {
    /// Takes a value as `take` does, in a ring with a rule of its client, as `put_as` puts one.
    #[inline(always)]
    pub fn take_as<R: Wait>(&self, rt: &R, by: Pass<T>) -> (Pass<T>, Result<(T, u64), TakeRefused>)
        requires pass { IsPassWith D.rule self.now by }
        requires deal { TakeDeals (shape_of self.now) D.rule (pass_in by) }
        ensures of { IsPassWith D.rule self.now result.0 }
        ensures tied { D.rule (pass_in result.0).seen }
        ensures gives { TakeGives (shape_of self.now) (pass_in by) (pass_in result.0) result.1 }
        ensures answered { Answers (pass_in by) (pass_in result.0) (TakeAnswered result.1) }
        ensures ran { WasRun (machine_with D.rule self.now)
            (take_account self.now.table.shared.key)
            (is_call TakeCall) (pass_in by) result.0 result.1 }
        ensures new { HasNewCall by result.0 }
    {
        let take = Operation::Take;
        // Looked at here for the same reason as in `put_as`.
        match take_fast(self, by, &take) {
            (pass, Next::Done(answer)) => told(pass, answer),
            under_way => whole(rt, self, under_way, take),
        }
    }
}
