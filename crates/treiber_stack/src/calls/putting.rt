//! Putting one value: the push of Treiber's stack (1986), with a tag in each word that is exchanged.
//!
//! What a put does if no other pass is faster, by the functions that follow:
//! 1. `put_fast_node`: takes a free node from the list of free nodes, and the value moves into the
//!    node's slot.
//! 2. `put_fast_top`: loads the top, stores the node that it names in the link of the new node, and
//!    exchanges the top for the new node, which is the put's effect.
//!
//! If no node is free, `put_fast_refuse` loads the top to see whether the stack was full or closed. If
//! another pass was faster, the put is at some state of `PutAt`, and continues from there
//! (code/putting.rt): it takes another node, or loads the top again. If the top has the mark, or its
//! tag is at its limit, the put gives the node back, and the value moves out of the slot and is handed
//! back.
//!
//! The steps are those of `next` in code/putting.rt: change these first. They are repeated here
//! because a loop over states keeps its state in memory, and in parts of three steps because the
//! compiler would not keep longer chains in their caller. The measure is the number of instructions
//! of a put and a take in turn on one thread.
ghost use Rattle.std.specs.Prelude.{◌≡◌, ◌≤◌, ◌+◌};
ghost use Rattle.bounded_model.specs.Laws.{Answers, PutGives, put_answered};
ghost use Rattle.bounded_model.specs.Stepping.{MatchStepped, no_step};
ghost use Rattle.bounded_model.specs.declared.commands.Command.TheVariants.{Put as PutCall};
ghost use Rattle.running.specs.Kept.{HasNewCall, WasRun};
ghost use Rattle.running.specs.Ops.{underway_of};
ghost use Rattle.running.specs.Passes.{pass_in as pass_now};
ghost use Rattle.running.specs.Ties.{PutDeals};
ghost use Rattle.treiber_stack.specs.code.Machine.{is_call, put_of};
ghost use Rattle.treiber_stack.specs.Calls.{IsPutting, IsPassOf, IsPassWith, machine_of, machine_with, pass_in, shape_of, PutTried};
ghost use Rattle.treiber_stack.specs.code.Putting.{put_account};
ghost use Rattle.treiber_stack.specs.code.Steps.{PutStands, PutRan, IsSeatWith};
ghost use Rattle.treiber_stack.specs.declared.code.putting.PutAt.TheVariants.{Refuse};

use crate::code::putting::{Answer, PutAt, PutOp};
use crate::life::stack::{Answered, Pass, Stack};
use bounded_model::{PutRefused, Stepped};
use running::{Next, Op, Tie, any, fast_step, first_step, leave, told, whole};
use stack_machine::Line;
use stack_table::{Listed, Operation};
use std::snapshot::Snapshot;
use std::sync::Wait;

/// A put's steps on its fast path, as long as no other pass is faster.
#[inline(always)]
pub(crate) fn put_fast<T, D: Tie<T>>(
    on: &Stack<T, D>,
    by: running::Pass<T, Line<T>>,
    value: T,
    put: &Operation<T>,
) -> (
    running::Pass<T, Line<T>>,
    Next<PutAt<T>, Answered<Answer<T>>>,
)
    requires named { put.now ≡ put_of value }
    requires pass { IsSeatWith D.rule on.now by }
    requires deal { PutDeals (shape_of on.now) D.rule (pass_now by) value }
    ensures ran { PutRan D.rule on.now put.now by result.0 result.1 }
    ensures took { (pass_now result.0).steps ≤ (pass_now by).steps + 6 }
{
    let (pass, at) = fast_step!(put_fast_node(on, by, value, put));
    match at {
        PutAt::Refuse(value) => put_fast_refuse(on, pass, value, put),
        at => put_fast_top(on, pass, at, put),
    }
}

// First the steps that take a node.
#[inline]
fn put_fast_node<T, D: Tie<T>>(
    on: &Stack<T, D>,
    by: running::Pass<T, Line<T>>,
    value: T,
    put: &Operation<T>,
) -> (
    running::Pass<T, Line<T>>,
    Next<PutAt<T>, Answered<Answer<T>>>,
)
    requires named { put.now ≡ put_of value }
    requires pass { IsSeatWith D.rule on.now by }
    requires deal { PutDeals (shape_of on.now) D.rule (pass_now by) value }
    ensures ran { PutRan D.rule on.now put.now by result.0 result.1 }
    ensures took { (pass_now result.0).steps ≤ (pass_now by).steps + 3 }
{
    let table = &on.table.shared;
    let (pass, value, free) = fast_step!(
        first_step(table, on, by, PutAt::LoadFree(value), put),
        PutAt::Link(value, free) => value, free
    );
    let (pass, value, free, below) = fast_step!(
        any(table, on, pass, PutAt::Link(value, free), put),
        PutAt::Hold(value, free, below) => value, free, below
    );
    any(table, on, pass, PutAt::Hold(value, free, below), put)
}

// The step that says why nothing can be put, if no node is free.
#[inline]
fn put_fast_refuse<T, D: Tie<T>>(
    on: &Stack<T, D>,
    by: running::Pass<T, Line<T>>,
    value: T,
    put: &Operation<T>,
) -> (
    running::Pass<T, Line<T>>,
    Next<PutAt<T>, Answered<Answer<T>>>,
)
    requires stands { PutStands D.rule on.now put.now by (Refuse value) }
    ensures ran { PutRan D.rule on.now put.now by result.0 result.1 }
    ensures took { (pass_now result.0).steps ≤ (pass_now by).steps + 1 }
{
    any(&on.table.shared, on, by, PutAt::Refuse(value), put)
}

// Then the steps that put the node onto the top.
#[inline]
fn put_fast_top<T, D: Tie<T>>(
    on: &Stack<T, D>,
    by: running::Pass<T, Line<T>>,
    has_node: PutAt<T>,
    put: &Operation<T>,
) -> (
    running::Pass<T, Line<T>>,
    Next<PutAt<T>, Answered<Answer<T>>>,
)
    requires stands { PutStands D.rule on.now put.now by has_node }
    ensures ran { PutRan D.rule on.now put.now by result.0 result.1 }
    ensures took { (pass_now result.0).steps ≤ (pass_now by).steps + 3 }
{
    let PutAt::Load(shown, index) = has_node else {
        return (by, Next::On(has_node));
    };
    let table = &on.table.shared;
    let (pass, shown, index, top) = fast_step!(
        any(table, on, by, PutAt::Load(shown, index), put),
        PutAt::LinkTo(shown, index, top) => shown, index, top
    );
    let (pass, shown, index, top) = fast_step!(
        any(table, on, pass, PutAt::LinkTo(shown, index, top), put),
        PutAt::Exchange(shown, index, top) => shown, index, top
    );
    any(table, on, pass, PutAt::Exchange(shown, index, top), put)
}

/// The put of this value.
#[inline(always)]
pub(crate) fn put_operation<T>(value: &T) -> Operation<T>
    ensures { result ≡ put_of value.now }
{
    Operation::Put(Snapshot::of(value), Listed::End)
}

impl<T> Stack<T> {
    /// Begins a put of this value, and makes no step yet. If the operation is dropped, its pass goes
    /// with it, and its node.
    #[inline]
    pub fn begin_put(&self, by: Pass<T>, value: T) -> PutOp<T>
        requires { IsPassOf self.now by }
        ensures makes { IsPutting self.now value result }
        ensures begun { underway_of (machine_of self.now) result.pass ≡ no_step (pass_in by) }
    {
        let Pass { pass, .. } = by;
        let put = put_operation(&value);
        Op::begin(self, pass, put, PutAt::LoadFree(value))
    }

    /// Puts a value. The call retries while others interfere.
    /// - `Ok`: the put's number. Puts and takes count together.
    /// - `Full`: the stack was open, and each node held a value or was in a pass's hand.
    /// - `Closed`: it was closed.
    /// - `Spent`: it is worn out for good. The word is `Free` or `Top`.
    ///
    /// Each refusal hands the value back. The call was a run of the machine's steps.
    #[inline(always)]
    pub fn put<R: Wait>(
        &self,
        rt: &R,
        by: Pass<T>,
        value: T,
    ) -> (Pass<T>, Result<u64, PutRefused<T>>)
        requires { IsPassOf self.now by }
        ensures of { IsPassOf self.now result.0 }
        ensures gives { PutGives (shape_of self.now) (pass_in by) value (pass_in result.0)
            result.1 }
        ensures answered { Answers (pass_in by) (pass_in result.0) (put_answered result.1) }
        ensures ran { WasRun (machine_of self.now) (put_account self.now.table.shared.key)
            (is_call (PutCall value)) (pass_in by) result.0 result.1 }
        ensures new { HasNewCall by result.0 }
    {
        let Pass { pass, .. } = by;
        let put = put_operation(&value);
        // Repeats `put_as`, because each layer of a call that may wait costs two instructions.
        match put_fast(self, pass, value, &put) {
            (pass, Next::Done(answer)) => told(pass, answer),
            under_way => whole(rt, self, under_way, put),
        }
    }

    /// Puts a value on the fast path alone, with a wait of at most 640 spin hints if a
    /// compare-and-swap failed. If this does not end the put, it comes back under way. The call
    /// makes at most 6 steps. The answers are those of `put`.
    #[inline(always)]
    pub fn put_at_once(
        &self,
        by: Pass<T>,
        value: T,
    ) -> Stepped<PutOp<T>, Pass<T>, Result<u64, PutRefused<T>>>
        requires { IsPassOf self.now by }
        ensures gives { PutTried self.now value (pass_in by) result }
        ensures took { MatchStepped result (λ op. (pass_now op.pass).steps ≤ (pass_in by).steps + 6)
            (λ back answer. (pass_in back).steps ≤ (pass_in by).steps + 6) }
    {
        let Pass { pass, .. } = by;
        let put = put_operation(&value);
        match put_fast(self, pass, value, &put) {
            (pass, Next::Done(answer)) => {
                let (back, reply) = told(pass, answer);
                Stepped::Done(back, reply)
            }
            under_way => leave(self, under_way, put),
        }
    }
}

impl<T, D: Tie<T>> Stack<T, D> {
    /// Puts a value as `put` does, in a stack with a rule of its client. The caller shows that the
    /// put keeps the rule, whichever history it finds at its effect. What its pass has then seen
    /// keeps the rule, whatever the answer is.
    #[inline(always)]
    pub fn put_as<R: Wait>(
        &self,
        rt: &R,
        by: Pass<T>,
        value: T,
    ) -> (Pass<T>, Result<u64, PutRefused<T>>)
        requires pass { IsPassWith D.rule self.now by }
        requires deal { PutDeals (shape_of self.now) D.rule (pass_in by) value }
        ensures of { IsPassWith D.rule self.now result.0 }
        ensures tied { D.rule (pass_in result.0).seen }
        ensures gives { PutGives (shape_of self.now) (pass_in by) value (pass_in result.0)
            result.1 }
        ensures answered { Answers (pass_in by) (pass_in result.0) (put_answered result.1) }
        ensures ran { WasRun (machine_with D.rule self.now)
            (put_account self.now.table.shared.key)
            (is_call (PutCall value)) (pass_in by) result.0 result.1 }
        ensures new { HasNewCall by result.0 }
    {
        let Pass { pass, .. } = by;
        let put = put_operation(&value);
        // Looked at here, before a call copies it, so that the answer need not go through memory.
        match put_fast(self, pass, value, &put) {
            (pass, Next::Done(answer)) => told(pass, answer),
            under_way => whole(rt, self, under_way, put),
        }
    }
}
