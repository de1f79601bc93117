//! Putting one value.
//!
//! What a put does if no other pass is faster, by the functions that follow:
//! 1. `put_fast`: the value moves into the slot of the pass's spare cell, and `TAIL` is loaded, which
//!    is only a hint: the back is at the position that it names, or further on.
//! 2. `put_fast_walk`: loads one slot after the other, from the hint on, until a slot is not filled in
//!    the lap of its position. That is the back of the ring.
//! 3. `put_fast_end`: exchanges the cell of this slot, which is empty, for the spare cell with the
//!    value: the put's effect. The cell that lay there is the pass's spare one from now on. If the slot
//!    has a mark, still holds the value of the lap before, or was filled in its last lap, the put is
//!    refused instead: the value moves out of the spare cell and is handed back.
//! 4. `put_fast_pass`: one put in four moves `TAIL` to the position behind its own.
//!
//! If another put was faster, this one continues its walk by one slot (code/putting.rt): a wait would
//! only make the walk longer. A hint that lags costs the others steps and nothing else, because
//! whoever has walked four positions moves it.
//!
//! The steps are those of `next` in code/putting.rt: change these first. They are repeated here
//! because the loop over steps (`to_the_end`, `run_for`) holds a put's state in memory, and finds out
//! anew before each step what to do. Between two steps here there are only plain words, which the
//! compiler keeps in registers. The measure is the number of instructions of a put and a take in turn
//! on one thread, and of a put to a full ring.
ghost use Rattle.std.specs.Prelude.{◌≡◌, ◌≤◌, ◌+◌};
ghost use Rattle.bounded_model.specs.Laws.{Answers, PutGives, put_answered};
ghost use Rattle.bounded_model.specs.Stepping.{MatchStepped, no_step};
ghost use Rattle.bounded_model.specs.declared.commands.Command.TheVariants.{Put as PutCall};
ghost use Rattle.running.specs.Kept.{HasNewCall, WasRun};
ghost use Rattle.running.specs.Ops.{underway_of};
ghost use Rattle.running.specs.Passes.{pass_in as pass_now};
ghost use Rattle.running.specs.Ties.{PutDeals};
ghost use Rattle.ring_machine.specs.declared.lines.Call.TheVariants.{Put as CallPut};
ghost use Rattle.ring_table.specs.Lines.{call_of};
ghost use Rattle.ring_queue.specs.code.Machine.{is_call, put_of};
ghost use Rattle.ring_queue.specs.Calls.{IsPutting, FullTells, FullTried, SpentTells, SpentTried, IsPassOf, IsPassWith, machine_of, machine_with, pass_in, shape_of, PutTried};
ghost use Rattle.ring_queue.specs.code.Putting.{put_account};
ghost use Rattle.ring_queue.specs.code.Steps.{PutStands, PutRan};
ghost use Rattle.ring_queue.specs.declared.code.putting.PutAt.TheVariants.{Walking};
ghost use Rattle.ring_queue.specs.declared.code.walking.WalkAt.TheVariants.{LoadSlot};

use crate::code::putting::{Answer, PutAt, PutOp};
use crate::code::walk::Walk;
use crate::code::walking::{FAST_ROUNDS, WalkAt};
use crate::life::ring::{Answered, Pass, RingQueue};
use bounded_model::{PutRefused, Stepped};
use ring_table::{Operation, SeatLine};
use running::{Next, Op, Tie, any, aside, fast_step, first_step, leave, told, whole};
use std::snapshot::Snapshot;
use std::sync::Wait;

/// A put's steps on its fast path, until another pass is faster.
#[inline(always)]
pub(crate) fn put_fast<T, D: Tie<T>>(
    on: &RingQueue<T, D>,
    by: Pass<T>,
    value: T,
    put: &Operation<T>,
) -> (
    running::Pass<T, SeatLine<T>>,
    Next<PutAt<T>, Answered<Answer<T>>>,
)
    requires named { put.now ≡ put_of value }
    requires pass { IsPassWith D.rule on.now by }
    requires deal { PutDeals (shape_of on.now) D.rule (pass_in by) value }
    ensures ran { PutRan D.rule on.now put.now by.pass result.0 result.1 }
    ensures took { (pass_now result.0).steps ≤ (pass_now by.pass).steps + 11 }
{
    let Pass { pass, kept: spare } = by;
    let table = &on.table.shared;
    let (pass, shown, walking) = fast_step!(
        first_step(table, on, pass, PutAt::FetchTail(spare, value), put),
        PutAt::Walking(shown, walking) => shown, walking
    );
    let WalkAt::LoadSlot(walk) = walking else {
        aside();
        return (pass, Next::On(PutAt::Walking(shown, walking)));
    };
    let (pass, at) = fast_step!(put_fast_walk(on, pass, shown, walk, put));
    let (pass, at) = match put_fast_end(on, pass, at, put) {
        (pass, Next::On(at)) => (pass, at),
        other => return other,
    };
    put_fast_pass(on, pass, at, put)
}

// At the back: the exchange, which puts the value, or the way home of the spare cell, if the
// value is refused.
#[inline]
fn put_fast_end<T, D: Tie<T>>(
    on: &RingQueue<T, D>,
    by: running::Pass<T, SeatLine<T>>,
    there: PutAt<T>,
    put: &Operation<T>,
) -> (
    running::Pass<T, SeatLine<T>>,
    Next<PutAt<T>, Answered<Answer<T>>>,
)
    requires stands { PutStands D.rule on.now put.now by there }
    ensures ran { PutRan D.rule on.now put.now by result.0 result.1 }
    ensures took { (pass_now result.0).steps ≤ (pass_now by).steps + 1 }
{
    let table = &on.table.shared;
    match there {
        PutAt::Exchange(shown, end) => any(table, on, by, PutAt::Exchange(shown, end), put),
        PutAt::Stow(walk, why) => any(table, on, by, PutAt::Stow(walk, why), put),
        at => {
            aside();
            (by, Next::On(at))
        }
    }
}

// One put in four moves the tail as well.
#[inline]
fn put_fast_pass<T, D: Tie<T>>(
    on: &RingQueue<T, D>,
    by: running::Pass<T, SeatLine<T>>,
    put_there: PutAt<T>,
    put: &Operation<T>,
) -> (
    running::Pass<T, SeatLine<T>>,
    Next<PutAt<T>, Answered<Answer<T>>>,
)
    requires stands { PutStands D.rule on.now put.now by put_there }
    ensures ran { PutRan D.rule on.now put.now by result.0 result.1 }
    ensures took { (pass_now result.0).steps ≤ (pass_now by).steps + 1 }
{
    let PutAt::PassTail(shown, walk) = put_there else {
        aside();
        return (by, Next::On(put_there));
    };
    any(&on.table.shared, on, by, PutAt::PassTail(shown, walk), put)
}

// The walk, as long as the hint is near enough.
#[inline]
fn put_fast_walk<T, D: Tie<T>>(
    on: &RingQueue<T, D>,
    by: running::Pass<T, SeatLine<T>>,
    value: Snapshot<T>,
    begun: Walk,
    put: &Operation<T>,
) -> (
    running::Pass<T, SeatLine<T>>,
    Next<PutAt<T>, Answered<Answer<T>>>,
)
    requires stands { PutStands D.rule on.now put.now by (Walking value (LoadSlot begun)) }
    ensures ran { PutRan D.rule on.now put.now by result.0 result.1 }
    ensures took { (pass_now result.0).steps ≤ (pass_now by).steps + 8 }
{
    let mut pass = by;
    let mut shown = value;
    let mut walk = begun;
    for _gone in 0..FAST_ROUNDS {
        let read = PutAt::Walking(shown, WalkAt::LoadSlot(walk));
        match any(&on.table.shared, on, pass, read, put) {
            (next, Next::On(at)) => match at {
                PutAt::Walking(still, walking) => match walking {
                    WalkAt::LoadSlot(further) => {
                        pass = next;
                        shown = still;
                        walk = further;
                    }
                    walking => return (next, Next::On(PutAt::Walking(still, walking))),
                },
                at => return (next, Next::On(at)),
            },
            other => return other,
        }
    }
    (
        pass,
        Next::On(PutAt::Walking(shown, WalkAt::LoadSlot(walk))),
    )
}

/// The put of this value.
#[inline(always)]
pub(crate) fn put_operation<T>(value: &T) -> Operation<T>
    ensures { (result ≡ put_of value.now) × (call_of result ≡ CallPut value.now) }
{
    Operation::Put(Snapshot::of(value))
}

impl<T> RingQueue<T> {
    /// Begins a put of this value, and makes no step yet. If the operation is dropped, its pass goes
    /// with it, and its cell stays reserved.
    #[inline]
    pub fn begin_put(&self, by: Pass<T>, value: T) -> PutOp<T>
        requires { IsPassOf self.now by }
        ensures makes { IsPutting self.now value result }
        ensures begun { underway_of (machine_of self.now) result.pass ≡ no_step (pass_in by) }
    {
        let Pass { pass, kept } = by;
        let put = put_operation(&value);
        Op::begin(self, pass, put, PutAt::FetchTail(kept, value))
    }

    /// Puts a value. The call retries while others interfere.
    /// - `Ok`: the put's number. Puts count 0, 1, 2, ….
    /// - `Full`: the ring was open, and each slot held a value.
    /// - `Closed`: it was closed.
    /// - `Spent`: it is worn out for good, because each slot was filled in each lap. The word is
    ///   `Next`, with the slot at the back.
    ///
    /// Each refusal hands the value back. The call was a run of the machine's steps.
    #[inline(always)]
    pub fn put<R: Wait>(
        &self,
        rt: &R,
        by: Pass<T>,
        value: T,
    ) -> (Pass<T>, Result<u64, PutRefused<T>>)
        requires { IsPassOf self.now by }
        ensures of { IsPassOf self.now result.0 }
        ensures gives { PutGives (shape_of self.now) (pass_in by) value (pass_in result.0)
            result.1 }
        ensures full { FullTells self.now (pass_in by) (pass_in result.0) result.1 }
        ensures spent { SpentTells self.now (pass_in by) (pass_in result.0) result.1 }
        ensures answered { Answers (pass_in by) (pass_in result.0) (put_answered result.1) }
        ensures ran { WasRun (machine_of self.now) (put_account self.now.table.shared.key)
            (is_call (PutCall value)) (pass_in by) result.0 result.1 }
        ensures new { HasNewCall by result.0 }
    {
        let put = put_operation(&value);
        // Repeats `put_as`, because each layer of a call that may wait costs two instructions.
        match put_fast(self, by, value, &put) {
            (pass, Next::Done(answer)) => told(pass, answer),
            under_way => whole(rt, self, under_way, put),
        }
    }

    /// Puts a value on the fast path alone. If this does not end the put, it comes back under way. The
    /// call makes at most 11 steps. The answers are those of `put`.
    #[inline(always)]
    pub fn put_at_once(
        &self,
        by: Pass<T>,
        value: T,
    ) -> Stepped<PutOp<T>, Pass<T>, Result<u64, PutRefused<T>>>
        requires { IsPassOf self.now by }
        ensures gives { PutTried self.now value (pass_in by) result }
        ensures full { FullTried self.now (pass_in by) result }
        ensures spent { SpentTried self.now (pass_in by) result }
        ensures took { MatchStepped result (λ op. (pass_now op.pass).steps ≤ (pass_in by).steps + 11)
            (λ back answer. (pass_in back).steps ≤ (pass_in by).steps + 11) }
    {
        let put = put_operation(&value);
        match put_fast(self, by, value, &put) {
            (pass, Next::Done(answer)) => {
                let (back, reply) = told(pass, answer);
                Stepped::Done(back, reply)
            }
            under_way => leave(self, under_way, put),
        }
    }
}

impl<T, D: Tie<T>> RingQueue<T, D> {
    /// Puts a value as `put` does, in a ring with a rule of its client. The caller shows that the put
    /// keeps the rule, whichever history it finds at its effect. What its pass has then seen keeps
    /// the rule, whatever the answer is.
    #[inline(always)]
    pub fn put_as<R: Wait>(
        &self,
        rt: &R,
        by: Pass<T>,
        value: T,
    ) -> (Pass<T>, Result<u64, PutRefused<T>>)
        requires pass { IsPassWith D.rule self.now by }
        requires deal { PutDeals (shape_of self.now) D.rule (pass_in by) value }
        ensures of { IsPassWith D.rule self.now result.0 }
        ensures tied { D.rule (pass_in result.0).seen }
        ensures gives { PutGives (shape_of self.now) (pass_in by) value (pass_in result.0)
            result.1 }
        ensures full { FullTells self.now (pass_in by) (pass_in result.0) result.1 }
        ensures spent { SpentTells self.now (pass_in by) (pass_in result.0) result.1 }
        ensures answered { Answers (pass_in by) (pass_in result.0) (put_answered result.1) }
        ensures ran { WasRun (machine_with D.rule self.now)
            (put_account self.now.table.shared.key)
            (is_call (PutCall value)) (pass_in by) result.0 result.1 }
        ensures new { HasNewCall by result.0 }
    {
        let put = put_operation(&value);
        // Looked at here, before a call copies it, so that the answer need not go through memory.
        match put_fast(self, by, value, &put) {
            (pass, Next::Done(answer)) => told(pass, answer),
            under_way => whole(rt, self, under_way, put),
        }
    }
}
