//! Taking one value: `dequeue` of Michael and Scott (PODC 1996), whose line numbers are D1 to D20.
//!
//! What a take does if no other pass is faster, by the functions that follow:
//! 1. `take_fast_read`: loads `HEAD` (D2), `TAIL` (D3) and the `next` of the node that `HEAD` names
//!    (D4). That node is the dummy, and `next` names the first node with a value.
//! 2. `take_fast_head`: sees that `HEAD` is still the same (D5), that the dummy is not the last node
//!    (D6) and links another (D7), loads that one's cell (D12), and exchanges the dummy for it at
//!    `HEAD` (D13), which is the take's effect. The value moves out of the cell's slot.
//! 3. `take_fast_node`: gives the old dummy to the list of free nodes (D19).
//! 4. `take_fast_cell`: gives the cell to the list of free cells. (The paper's node has the value.)
//!
//! A mark at `HEAD` says that the queue is shut, and a mark at the last link that it is closed. If
//! another pass was faster, the take is at some state of `TakeAt`, and continues from there
//! (code/taking.rt): it begins again (D1), swings a tail that still names the dummy (D10), or pushes
//! the dummy or the cell again.
//!
//! The steps are those of `next` in code/taking.rt, repeated and cut in parts for the reasons that
//! putting.rt gives. Change `next` first.
ghost use Rattle.std.specs.Prelude.{◌≡◌, ◌≤◌, ◌+◌};
ghost use Rattle.bounded_model.specs.Laws.{Answers, TakeGives};
ghost use Rattle.bounded_model.specs.Stepping.{MatchStepped, no_step};
ghost use Rattle.bounded_model.specs.declared.commands.Command.TheVariants.{Take as TakeCall};
ghost use Rattle.bounded_model.specs.declared.views.Answered.TheVariants.{Take as TakeAnswered};
ghost use Rattle.running.specs.Kept.{HasNewCall, WasRun};
ghost use Rattle.running.specs.Ops.{underway_of};
ghost use Rattle.running.specs.Passes.{pass_in as pass_now};
ghost use Rattle.running.specs.Ties.{TakeDeals};
ghost use Rattle.queue_table.specs.declared.operation.Operation.TheVariants.{Take as TakeFirst};
ghost use Rattle.ms_queue.specs.code.Machine.{is_call};
ghost use Rattle.ms_queue.specs.Calls.{IsPassOf, IsPassWith, machine_of, machine_with, pass_in, shape_of, IsTaking, TakeTried};
ghost use Rattle.ms_queue.specs.code.Taking.{take_account};
ghost use Rattle.ms_queue.specs.code.Steps.{TakeStands, TakeRan};

use crate::code::giving::Give;
use crate::code::taking::{Answer, TakeAt, TakeOp};
use crate::life::queue::{Answered, Pass, Queue};
use bounded_model::{Stepped, TakeRefused};
use queue_machine::Line;
use queue_table::Operation;
use running::{Next, Op, Tie, any, aside, fast_step, first_step, leave, told, whole};
use std::sync::Wait;

/// A take's steps on its fast path, as long as no other pass is faster.
#[inline(always)]
pub(crate) fn take_fast<T, D: Tie<T>>(
    on: &Queue<T, D>,
    by: Pass<T>,
    take: &Operation<T>,
) -> (
    running::Pass<T, Line<T>>,
    Next<TakeAt<T>, Answered<Answer<T>>>,
)
    requires named { take.now ≡ TakeFirst }
    requires pass { IsPassWith D.rule on.now by }
    requires deal { TakeDeals (shape_of on.now) D.rule (pass_in by) }
    ensures ran { TakeRan D.rule on.now take.now by.pass result.0 result.1 }
    ensures took { (pass_now result.0).steps ≤ (pass_now by.pass).steps + 12 }
{
    let (pass, at) = fast_step!(take_fast_read(on, by, take));
    let (pass, at) = fast_step!(take_fast_head(on, pass, at, take));
    let (pass, at) = fast_step!(take_fast_node(on, pass, at, take));
    take_fast_cell(on, pass, at, take)
}

// First the steps that read the head, the tail and the link of the dummy (D2 to D4).
#[inline]
fn take_fast_read<T, D: Tie<T>>(
    on: &Queue<T, D>,
    by: Pass<T>,
    take: &Operation<T>,
) -> (
    running::Pass<T, Line<T>>,
    Next<TakeAt<T>, Answered<Answer<T>>>,
)
    requires named { take.now ≡ TakeFirst }
    requires pass { IsPassWith D.rule on.now by }
    requires deal { TakeDeals (shape_of on.now) D.rule (pass_in by) }
    ensures ran { TakeRan D.rule on.now take.now by.pass result.0 result.1 }
    ensures took { (pass_now result.0).steps ≤ (pass_now by.pass).steps + 3 }
{
    let Pass { pass, .. } = by;
    let table = &on.table.shared;
    let (pass, head) = fast_step!(
        first_step(table, on, pass, TakeAt::LoadHead, take),
        TakeAt::LoadTail(head) => head
    );
    let (pass, head, tail) = fast_step!(
        any(table, on, pass, TakeAt::LoadTail(head), take),
        TakeAt::LoadNext(head, tail) => head, tail
    );
    any(table, on, pass, TakeAt::LoadNext(head, tail), take)
}

// Then the steps that take the first value (D5 to D13).
#[inline]
fn take_fast_head<T, D: Tie<T>>(
    on: &Queue<T, D>,
    by: running::Pass<T, Line<T>>,
    read: TakeAt<T>,
    take: &Operation<T>,
) -> (
    running::Pass<T, Line<T>>,
    Next<TakeAt<T>, Answered<Answer<T>>>,
)
    requires named { take.now ≡ TakeFirst }
    requires stands { TakeStands D.rule on.now by read }
    ensures ran { TakeRan D.rule on.now take.now by result.0 result.1 }
    ensures took { (pass_now result.0).steps ≤ (pass_now by).steps + 3 }
{
    let TakeAt::CheckHead(head, tail, link) = read else {
        return (by, Next::On(read));
    };
    let table = &on.table.shared;
    let (pass, head, link) = fast_step!(
        any(table, on, by, TakeAt::CheckHead(head, tail, link), take),
        TakeAt::LoadCell(head, link) => head, link
    );
    let (pass, head, link, cell) = fast_step!(
        any(table, on, pass, TakeAt::LoadCell(head, link), take),
        TakeAt::TakeHead(head, link, cell) => head, link, cell
    );
    any(table, on, pass, TakeAt::TakeHead(head, link, cell), take)
}

// The steps that give the old dummy back (D19).
#[inline]
fn take_fast_node<T, D: Tie<T>>(
    on: &Queue<T, D>,
    by: running::Pass<T, Line<T>>,
    won: TakeAt<T>,
    take: &Operation<T>,
) -> (
    running::Pass<T, Line<T>>,
    Next<TakeAt<T>, Answered<Answer<T>>>,
)
    requires named { take.now ≡ TakeFirst }
    requires stands { TakeStands D.rule on.now by won }
    ensures ran { TakeRan D.rule on.now take.now by result.0 result.1 }
    ensures took { (pass_now result.0).steps ≤ (pass_now by).steps + 3 }
{
    let TakeAt::GiveBack(taken, Give::LoadNodes) = won else {
        return (by, Next::On(won));
    };
    let table = &on.table.shared;
    let begun = TakeAt::GiveBack(taken, Give::LoadNodes);
    let (pass, at) = fast_step!(any(table, on, by, begun, take));
    let (pass, at) = fast_step!(any(table, on, pass, at, take));
    any(table, on, pass, at, take)
}

// The steps that give the cell back.
#[inline]
fn take_fast_cell<T, D: Tie<T>>(
    on: &Queue<T, D>,
    by: running::Pass<T, Line<T>>,
    given: TakeAt<T>,
    take: &Operation<T>,
) -> (
    running::Pass<T, Line<T>>,
    Next<TakeAt<T>, Answered<Answer<T>>>,
)
    requires named { take.now ≡ TakeFirst }
    requires stands { TakeStands D.rule on.now by given }
    ensures ran { TakeRan D.rule on.now take.now by result.0 result.1 }
    ensures took { (pass_now result.0).steps ≤ (pass_now by).steps + 3 }
{
    let TakeAt::GiveBack(taken, Give::LoadCells) = given else {
        return (by, Next::On(given));
    };
    let table = &on.table.shared;
    let begun = TakeAt::GiveBack(taken, Give::LoadCells);
    let (pass, at) = fast_step!(any(table, on, by, begun, take));
    let (pass, at) = fast_step!(any(table, on, pass, at, take));
    any(table, on, pass, at, take)
}

impl<T> Queue<T> {
    /// Begins a take, and makes no step yet. If the operation is dropped, its pass goes with it, and
    /// its cell stays reserved.
    #[inline]
    pub fn begin_take(&self, by: Pass<T>) -> TakeOp<T>
        requires { IsPassOf self.now by }
        ensures makes { IsTaking self.now result }
        ensures begun { underway_of (machine_of self.now) result.pass ≡ no_step (pass_in by) }
    {
        let Pass { pass, .. } = by;
        Op::begin(self, pass, Operation::Take, TakeAt::LoadHead)
    }

    /// Takes a value. The call retries while others interfere.
    /// - `Ok`: the value, and the take's number.
    /// - `Shut`: the queue was shut.
    /// - `Closed`: the queue held no value, and it was closed but not shut.
    /// - `Empty`: the queue held no value, and it was neither closed nor shut.
    ///
    /// It is never `Spent`. The call was a run of the machine's steps.
    #[inline(always)]
    pub fn take<R: Wait>(&self, rt: &R, by: Pass<T>) -> (Pass<T>, Result<(T, u64), TakeRefused>)
        requires { IsPassOf self.now by }
        ensures of { IsPassOf self.now result.0 }
        ensures gives { TakeGives (shape_of self.now) (pass_in by) (pass_in result.0) result.1 }
        ensures answered { Answers (pass_in by) (pass_in result.0) (TakeAnswered result.1) }
        ensures ran { WasRun (machine_of self.now) (take_account self.now.table.shared.key)
            (is_call TakeCall) (pass_in by) result.0 result.1 }
        ensures new { HasNewCall by result.0 }
    {
        let take = Operation::Take;
        // Repeats `take_as`, for the reason that `put` gives.
        match take_fast(self, by, &take) {
            (pass, Next::Done(answer)) => told(pass, answer),
            under_way => whole(rt, self, under_way, take),
        }
    }

    /// Takes a value on the fast path alone, as `put_at_once` puts one. The call makes at most 12
    /// steps. The answers are those of `take`.
    #[inline(always)]
    pub fn take_at_once(
        &self,
        by: Pass<T>,
    ) -> Stepped<TakeOp<T>, Pass<T>, Result<(T, u64), TakeRefused>>
        requires { IsPassOf self.now by }
        ensures gives { TakeTried self.now (pass_in by) result }
        ensures took { MatchStepped result (λ op. (pass_now op.pass).steps ≤ (pass_in by).steps + 12)
            (λ back answer. (pass_in back).steps ≤ (pass_in by).steps + 12) }
    {
        let take = Operation::Take;
        match take_fast(self, by, &take) {
            (pass, Next::Done(answer)) => {
                let (back, reply) = told(pass, answer);
                Stepped::Done(back, reply)
            }
            under_way => leave(self, under_way, take),
        }
    }
}

impl<T, D: Tie<T>> Queue<T, D> {
    /// Takes a value as `take` does, in a queue with a rule of its client, as `put_as` puts one.
    #[inline(always)]
    pub fn take_as<R: Wait>(&self, rt: &R, by: Pass<T>) -> (Pass<T>, Result<(T, u64), TakeRefused>)
        requires pass { IsPassWith D.rule self.now by }
        requires deal { TakeDeals (shape_of self.now) D.rule (pass_in by) }
        ensures of { IsPassWith D.rule self.now result.0 }
        ensures tied { D.rule (pass_in result.0).seen }
        ensures gives { TakeGives (shape_of self.now) (pass_in by) (pass_in result.0) result.1 }
        ensures answered { Answers (pass_in by) (pass_in result.0) (TakeAnswered result.1) }
        ensures ran { WasRun (machine_with D.rule self.now)
            (take_account self.now.table.shared.key)
            (is_call TakeCall) (pass_in by) result.0 result.1 }
        ensures new { HasNewCall by result.0 }
    {
        let take = Operation::Take;
        // Looked at here for the same reason as in `put_as`.
        match take_fast(self, by, &take) {
            (pass, Next::Done(answer)) => told(pass, answer),
            under_way => whole(rt, self, under_way, take),
        }
    }
}
