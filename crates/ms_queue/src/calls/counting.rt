//! How many values a queue holds.
ghost use Rattle.std.specs.Prelude.{◌≡◌, ◌≤◌, ◌+◌};
ghost use Rattle.bounded_model.specs.Laws.{Answers, LenGives};
ghost use Rattle.bounded_model.specs.Stepping.{MatchStepped, no_step};
ghost use Rattle.bounded_model.specs.declared.views.Answered.TheVariants.{Len as LenAnswered};
ghost use Rattle.queue_machine.specs.declared.lines.Answer.TheVariants.{Len as AnswerLen};
ghost use Rattle.queue_table.specs.declared.operation.Operation.TheVariants.{Len as LenFirst};
ghost use Rattle.running.specs.Ops.{underway_of};
ghost use Rattle.running.specs.Passes.{pass_in as pass_now};
ghost use Rattle.running.specs.Kept.{HasNewCall};
ghost use Rattle.ms_queue.specs.Calls.{IsCounting, IsPassOf, IsPassWith, machine_of, pass_in, shape_of, WasRunWith, LenTried};
ghost use Rattle.ms_queue.specs.code.Steps.{LenRan};

use crate::code::counting::{LenAt, LenOp};
use crate::life::queue::{Answered, Pass, Queue};
use bounded_model::Stepped;
use queue_machine::Line;
use queue_table::Operation;
use running::{Next, Op, Tie, any, aside, fast_step, first_step, leave, whole};
use std::sync::Wait;

impl<T> Queue<T> {
    /// Begins a count, and makes no step yet. If the operation is dropped, its pass goes with it.
    #[inline]
    pub fn begin_len(&self, by: Pass<T>) -> LenOp<T>
        requires { IsPassOf self.now by }
        ensures { IsCounting self.now result
            × (underway_of (machine_of self.now) result.pass ≡ no_step (pass_in by)) }
    {
        let Pass { pass, .. } = by;
        Op::begin(self, pass, Operation::Len, LenAt::LoadHead)
    }

    /// Counts the values on the fast path alone, as `put_at_once` puts one. The call makes at most 4
    /// steps. The count is from 0 to the capacity. The answers are those of `len`.
    #[inline]
    pub fn len_at_once(&self, by: Pass<T>) -> Stepped<LenOp<T>, Pass<T>, u64>
        requires { IsPassOf self.now by }
        ensures gives { LenTried self.now (pass_in by) result }
        ensures took { MatchStepped result (λ op. (pass_now op.pass).steps ≤ (pass_in by).steps + 4)
            (λ back answer. (pass_in back).steps ≤ (pass_in by).steps + 4) }
    {
        let len = Operation::Len;
        let first = len_fast(self, by, &len);
        leave(self, first, len)
    }
}

impl<T, D: Tie<T>> Queue<T, D> {
    /// How many values the queue held at some time since its pass's last step before the call, from
    /// 0 to the capacity. The call retries while takes change the head. It was a run of the
    /// machine's steps.
    pub fn len<R: Wait>(&self, rt: &R, by: Pass<T>) -> (Pass<T>, u32)
        requires { IsPassWith D.rule self.now by }
        ensures of { IsPassWith D.rule self.now result.0 }
        ensures gives { LenGives (shape_of self.now) (pass_in by) (pass_in result.0) result.1 }
        ensures answered { Answers (pass_in by) (pass_in result.0) (LenAnswered result.1) }
        ensures ran { WasRunWith D.rule self.now LenFirst (pass_in by) result.0 (AnswerLen result.1) }
        ensures new { HasNewCall by result.0 }
    {
        let Pass { pass, .. } = by;
        let len = Operation::Len;
        let first = first_step(&self.table.shared, self, pass, LenAt::LoadHead, &len);
        let (pass, count) = whole(rt, self, first, len);
        (pass, count as u32)
    }
}

// A count's four loads, as long as no other pass changes the head.
#[inline]
fn len_fast<T, D: Tie<T>>(
    on: &Queue<T, D>,
    by: Pass<T>,
    len: &Operation<T>,
) -> (running::Pass<T, Line<T>>, Next<LenAt, Answered<u64>>)
    requires named { len.now ≡ LenFirst }
    requires pass { IsPassWith D.rule on.now by }
    ensures ran { LenRan D.rule on.now len.now by.pass result.0 result.1 }
    ensures took { (pass_now result.0).steps ≤ (pass_now by.pass).steps + 4 }
{
    let Pass { pass, .. } = by;
    let table = &on.table.shared;
    let (pass, head) = fast_step!(
        first_step(table, on, pass, LenAt::LoadHead, len),
        LenAt::LoadTail(head) => head
    );
    let (pass, head, tail) = fast_step!(
        any(table, on, pass, LenAt::LoadTail(head), len),
        LenAt::LoadNext(head, tail) => head, tail
    );
    let (pass, head, tail, link) = fast_step!(
        any(table, on, pass, LenAt::LoadNext(head, tail), len),
        LenAt::CheckHead(head, tail, link) => head, tail, link
    );
    any(table, on, pass, LenAt::CheckHead(head, tail, link), len)
}
