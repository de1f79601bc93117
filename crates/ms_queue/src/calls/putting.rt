//! Putting one value: `enqueue` of Michael and Scott (PODC 1996), whose line numbers are E1 to E17.
//!
//! What a put does if no other pass is faster, by the functions that follow:
//! 1. `put_fast_cell`: takes a free cell from the list of free cells, and the value moves into the
//!    cell's slot. (In the paper the value stands in the node.)
//! 2. `put_fast_node`: takes a free node (E1).
//! 3. `put_fast_prepare`: stores the cell in the node (E2), and null with the next tag in the node's
//!    `next` (E3).
//! 4. `put_fast_seek`: loads `TAIL` (E5) and the `next` of the last node (E6), and sees that `TAIL`
//!    is still the same (E7) and the link null (E8).
//! 5. `put_fast_link`: exchanges that null for the node (E9), which is the put's effect, and swings
//!    `TAIL` to the node (E17).
//!
//! If no cell is free, `put_fast_refuse` goes to the end of the chain to see whether the queue was
//! full or closed. If another pass was faster, the put is at some state of `PutAt`, and continues
//! from there (code/putting.rt): it takes another cell or node, helps a tail that lags behind (E13)
//! and seeks the end again (E4). If the queue is closed, or a tag at its limit, it gives the node and
//! the cell back, and the value is moved out of the slot and handed back.
//!
//! The steps are those of `next` in code/putting.rt: change these first. They are repeated here
//! because a loop over states keeps its state in memory, and in parts of three steps because the
//! compiler would not keep longer chains in their caller. The measure is the number of instructions
//! of a put and a take in turn on one thread.
ghost use Rattle.std.specs.Prelude.{◌≡◌, ◌≤◌, ◌+◌};
ghost use Rattle.bounded_model.specs.Laws.{Answers, PutGives, put_answered};
ghost use Rattle.bounded_model.specs.Stepping.{MatchStepped, no_step};
ghost use Rattle.bounded_model.specs.declared.commands.Command.TheVariants.{Put as PutCall};
ghost use Rattle.running.specs.Kept.{HasNewCall, WasRun};
ghost use Rattle.running.specs.Ops.{underway_of};
ghost use Rattle.running.specs.Passes.{pass_in as pass_now};
ghost use Rattle.running.specs.Ties.{PutDeals};
ghost use Rattle.queue_machine.specs.declared.lines.Call.TheVariants.{Put as CallPut};
ghost use Rattle.queue_table.specs.Lines.{call_of};
ghost use Rattle.ms_queue.specs.code.Machine.{is_call, put_of};
ghost use Rattle.ms_queue.specs.Calls.{IsPutting, IsPassOf, IsPassWith, machine_of, machine_with, pass_in, shape_of, PutTried};
ghost use Rattle.ms_queue.specs.code.Putting.{put_account};
ghost use Rattle.ms_queue.specs.code.Steps.{PutStands, PutRan};
ghost use Rattle.ms_queue.specs.declared.code.putting.PutAt.TheVariants.{LoadNodes};

use crate::code::putting::{Answer, PutAt, PutOp};
use crate::code::seeking::Seek;
use crate::life::queue::{Answered, Pass, Queue};
use bounded_model::{PutRefused, Stepped};
use queue_machine::Line;
use queue_table::Operation;
use running::{Next, Op, Tie, any, aside, fast_step, first_step, leave, told, whole};
use std::snapshot::Snapshot;
use std::sync::Wait;

/// A put's steps on its fast path, as long as no other pass is faster. If no cell is free, these
/// are the steps that say why nothing can be put.
#[inline(always)]
pub(crate) fn put_fast<T, D: Tie<T>>(
    on: &Queue<T, D>,
    by: Pass<T>,
    value: T,
    put: &Operation<T>,
) -> (
    running::Pass<T, Line<T>>,
    Next<PutAt<T>, Answered<Answer<T>>>,
)
    requires named { put.now ≡ put_of value }
    requires pass { IsPassWith D.rule on.now by }
    requires deal { PutDeals (shape_of on.now) D.rule (pass_in by) value }
    ensures ran { PutRan D.rule on.now put.now by.pass result.0 result.1 }
    ensures took { (pass_now result.0).steps ≤ (pass_now by.pass).steps + 14 }
{
    let (pass, at) = fast_step!(put_fast_cell(on, by, value, put));
    let PutAt::LoadNodes(shown, cell) = at else {
        return put_fast_refuse(on, pass, at, put);
    };
    let (pass, at) = fast_step!(put_fast_node(on, pass, shown, cell, put));
    let (pass, at) = fast_step!(put_fast_prepare(on, pass, at, put));
    let (pass, at) = fast_step!(put_fast_seek(on, pass, at, put));
    put_fast_link(on, pass, at, put)
}

// First the steps that take a cell.
#[inline]
fn put_fast_cell<T, D: Tie<T>>(
    on: &Queue<T, D>,
    by: Pass<T>,
    value: T,
    put: &Operation<T>,
) -> (
    running::Pass<T, Line<T>>,
    Next<PutAt<T>, Answered<Answer<T>>>,
)
    requires named { put.now ≡ put_of value }
    requires pass { IsPassWith D.rule on.now by }
    requires deal { PutDeals (shape_of on.now) D.rule (pass_in by) value }
    ensures ran { PutRan D.rule on.now put.now by.pass result.0 result.1 }
    ensures took { (pass_now result.0).steps ≤ (pass_now by.pass).steps + 3 }
{
    let Pass { pass, .. } = by;
    let table = &on.table.shared;
    let (pass, value, cells) = fast_step!(
        first_step(table, on, pass, PutAt::LoadCells(value), put),
        PutAt::LoadCellLink(value, cells) => value, cells
    );
    let (pass, value, cells, link) = fast_step!(
        any(table, on, pass, PutAt::LoadCellLink(value, cells), put),
        PutAt::TakeCell(value, cells, link) => value, cells, link
    );
    any(table, on, pass, PutAt::TakeCell(value, cells, link), put)
}

// The steps that say why nothing can be put, if no cell is free.
#[inline]
fn put_fast_refuse<T, D: Tie<T>>(
    on: &Queue<T, D>,
    by: running::Pass<T, Line<T>>,
    no_cell: PutAt<T>,
    put: &Operation<T>,
) -> (
    running::Pass<T, Line<T>>,
    Next<PutAt<T>, Answered<Answer<T>>>,
)
    requires stands { PutStands D.rule on.now put.now by no_cell }
    ensures ran { PutRan D.rule on.now put.now by result.0 result.1 }
    ensures took { (pass_now result.0).steps ≤ (pass_now by).steps + 3 }
{
    let PutAt::Refusing(value, Seek::LoadTail) = no_cell else {
        return (by, Next::On(no_cell));
    };
    let table = &on.table.shared;
    let begun = PutAt::Refusing(value, Seek::LoadTail);
    let (pass, at) = fast_step!(any(table, on, by, begun, put));
    let (pass, at) = fast_step!(any(table, on, pass, at, put));
    any(table, on, pass, at, put)
}

// Then the steps that take a node (E1).
#[inline]
fn put_fast_node<T, D: Tie<T>>(
    on: &Queue<T, D>,
    by: running::Pass<T, Line<T>>,
    shown: Snapshot<T>,
    cell: u32,
    put: &Operation<T>,
) -> (
    running::Pass<T, Line<T>>,
    Next<PutAt<T>, Answered<Answer<T>>>,
)
    requires stands { PutStands D.rule on.now put.now by (LoadNodes shown cell) }
    ensures ran { PutRan D.rule on.now put.now by result.0 result.1 }
    ensures took { (pass_now result.0).steps ≤ (pass_now by).steps + 3 }
{
    let table = &on.table.shared;
    let (pass, shown, cell, nodes) = fast_step!(
        any(table, on, by, PutAt::LoadNodes(shown, cell), put),
        PutAt::LoadNodeLink(shown, cell, nodes) => shown, cell, nodes
    );
    let (pass, at) = fast_step!(any(
        table,
        on,
        pass,
        PutAt::LoadNodeLink(shown, cell, nodes),
        put,
    ));
    any(table, on, pass, at, put)
}

// The steps that prepare the node (E2, E3).
#[inline]
fn put_fast_prepare<T, D: Tie<T>>(
    on: &Queue<T, D>,
    by: running::Pass<T, Line<T>>,
    held: PutAt<T>,
    put: &Operation<T>,
) -> (
    running::Pass<T, Line<T>>,
    Next<PutAt<T>, Answered<Answer<T>>>,
)
    requires stands { PutStands D.rule on.now put.now by held }
    ensures ran { PutRan D.rule on.now put.now by result.0 result.1 }
    ensures took { (pass_now result.0).steps ≤ (pass_now by).steps + 3 }
{
    let PutAt::StoreCell(shown, held) = held else {
        return (by, Next::On(held));
    };
    let table = &on.table.shared;
    let (pass, at) = fast_step!(any(table, on, by, PutAt::StoreCell(shown, held), put));
    let (pass, shown, held, link) = fast_step!(
        any(table, on, pass, at, put),
        PutAt::PrepareNext(shown, held, link) => shown, held, link
    );
    any(table, on, pass, PutAt::PrepareNext(shown, held, link), put)
}

// The steps that go to the end of the chain (E5 to E8).
#[inline]
fn put_fast_seek<T, D: Tie<T>>(
    on: &Queue<T, D>,
    by: running::Pass<T, Line<T>>,
    prepared: PutAt<T>,
    put: &Operation<T>,
) -> (
    running::Pass<T, Line<T>>,
    Next<PutAt<T>, Answered<Answer<T>>>,
)
    requires stands { PutStands D.rule on.now put.now by prepared }
    ensures ran { PutRan D.rule on.now put.now by result.0 result.1 }
    ensures took { (pass_now result.0).steps ≤ (pass_now by).steps + 3 }
{
    let PutAt::Seeking(shown, held, Seek::LoadTail) = prepared else {
        return (by, Next::On(prepared));
    };
    let table = &on.table.shared;
    let begun = PutAt::Seeking(shown, held, Seek::LoadTail);
    let (pass, at) = fast_step!(any(table, on, by, begun, put));
    let (pass, at) = fast_step!(any(table, on, pass, at, put));
    any(table, on, pass, at, put)
}

// The steps that link the node there (E9) and swing the tail (E17).
#[inline]
fn put_fast_link<T, D: Tie<T>>(
    on: &Queue<T, D>,
    by: running::Pass<T, Line<T>>,
    there: PutAt<T>,
    put: &Operation<T>,
) -> (
    running::Pass<T, Line<T>>,
    Next<PutAt<T>, Answered<Answer<T>>>,
)
    requires stands { PutStands D.rule on.now put.now by there }
    ensures ran { PutRan D.rule on.now put.now by result.0 result.1 }
    ensures took { (pass_now result.0).steps ≤ (pass_now by).steps + 2 }
{
    let PutAt::LinkNext(shown, held, tail, link) = there else {
        return (by, Next::On(there));
    };
    let table = &on.table.shared;
    let (pass, at) = fast_step!(any(
        table,
        on,
        by,
        PutAt::LinkNext(shown, held, tail, link),
        put,
    ));
    any(table, on, pass, at, put)
}

/// The put of this value.
#[inline(always)]
pub(crate) fn put_operation<T>(value: &T) -> Operation<T>
    ensures { (result ≡ put_of value.now) × (call_of result ≡ CallPut value.now) }
{
    Operation::Put(Snapshot::of(value))
}

impl<T> Queue<T> {
    /// Begins a put of this value, and makes no step yet. If the operation is dropped, its pass goes
    /// with it, and its cell stays reserved.
    #[inline]
    pub fn begin_put(&self, by: Pass<T>, value: T) -> PutOp<T>
        requires { IsPassOf self.now by }
        ensures makes { IsPutting self.now value result }
        ensures begun { underway_of (machine_of self.now) result.pass ≡ no_step (pass_in by) }
    {
        let Pass { pass, .. } = by;
        let put = put_operation(&value);
        Op::begin(self, pass, put, PutAt::LoadCells(value))
    }

    /// Puts a value. The call retries while others interfere.
    /// - `Ok`: the put's number. Puts count 0, 1, 2, …
    /// - `Full`: the queue was open, and each cell held a value or was in a pass's hand.
    /// - `Closed`: the queue was closed.
    /// - `Spent`: the queue is worn out for good. The word is `Cells` or `Next`.
    ///
    /// Each refusal hands the value back. The call was a run of the machine's steps.
    #[inline(always)]
    pub fn put<R: Wait>(
        &self,
        rt: &R,
        by: Pass<T>,
        value: T,
    ) -> (Pass<T>, Result<u64, PutRefused<T>>)
        requires { IsPassOf self.now by }
        ensures of { IsPassOf self.now result.0 }
        ensures gives { PutGives (shape_of self.now) (pass_in by) value (pass_in result.0)
            result.1 }
        ensures answered { Answers (pass_in by) (pass_in result.0) (put_answered result.1) }
        ensures ran { WasRun (machine_of self.now) (put_account self.now.table.shared.key)
            (is_call (PutCall value)) (pass_in by) result.0 result.1 }
        ensures new { HasNewCall by result.0 }
    {
        let put = put_operation(&value);
        // Repeats `put_as`, because each layer of a call that may wait costs two instructions.
        match put_fast(self, by, value, &put) {
            (pass, Next::Done(answer)) => told(pass, answer),
            under_way => whole(rt, self, under_way, put),
        }
    }

    /// Puts a value on the fast path alone, with a wait of at most 640 spin hints if a
    /// compare-and-swap failed. If this does not end the put, it comes back under way. The call
    /// makes at most 14 steps. The answers are those of `put`.
    #[inline(always)]
    pub fn put_at_once(
        &self,
        by: Pass<T>,
        value: T,
    ) -> Stepped<PutOp<T>, Pass<T>, Result<u64, PutRefused<T>>>
        requires { IsPassOf self.now by }
        ensures gives { PutTried self.now value (pass_in by) result }
        ensures took { MatchStepped result (λ op. (pass_now op.pass).steps ≤ (pass_in by).steps + 14)
            (λ back answer. (pass_in back).steps ≤ (pass_in by).steps + 14) }
    {
        let put = put_operation(&value);
        match put_fast(self, by, value, &put) {
            (pass, Next::Done(answer)) => {
                let (back, reply) = told(pass, answer);
                Stepped::Done(back, reply)
            }
            under_way => leave(self, under_way, put),
        }
    }
}

impl<T, D: Tie<T>> Queue<T, D> {
    /// Puts a value as `put` does, in a queue with a rule of its client. The caller shows that the
    /// put keeps the rule, whichever history it finds at its effect. What its pass has then seen
    /// keeps the rule, whatever the answer is.
    #[inline(always)]
    pub fn put_as<R: Wait>(
        &self,
        rt: &R,
        by: Pass<T>,
        value: T,
    ) -> (Pass<T>, Result<u64, PutRefused<T>>)
        requires pass { IsPassWith D.rule self.now by }
        requires deal { PutDeals (shape_of self.now) D.rule (pass_in by) value }
        ensures of { IsPassWith D.rule self.now result.0 }
        ensures tied { D.rule (pass_in result.0).seen }
        ensures gives { PutGives (shape_of self.now) (pass_in by) value (pass_in result.0)
            result.1 }
        ensures answered { Answers (pass_in by) (pass_in result.0) (put_answered result.1) }
        ensures ran { WasRun (machine_with D.rule self.now)
            (put_account self.now.table.shared.key)
            (is_call (PutCall value)) (pass_in by) result.0 result.1 }
        ensures new { HasNewCall by result.0 }
    {
        let put = put_operation(&value);
        // Looked at here, before a call copies it, so that the answer need not go through memory.
        match put_fast(self, by, value, &put) {
            (pass, Next::Done(answer)) => told(pass, answer),
            under_way => whole(rt, self, under_way, put),
        }
    }
}
