//! How many values a ring holds.
ghost use Rattle.std.specs.Prelude.{◌≡◌};
ghost use Rattle.bounded_model.specs.Laws.{Answers, LenGives};
ghost use Rattle.bounded_model.specs.Stepping.{no_step};
ghost use Rattle.bounded_model.specs.declared.views.Answered.TheVariants.{Len as LenAnswered};
ghost use Rattle.ring_machine.specs.declared.lines.Answer.TheVariants.{Len as AnswerLen};
ghost use Rattle.ring_table.specs.declared.operation.Operation.TheVariants.{Len as LenFirst};
ghost use Rattle.running.specs.Ops.{underway_of};
ghost use Rattle.running.specs.Kept.{HasNewCall};
ghost use Rattle.ring_queue.specs.Calls.{IsCounting, WasRunWith, IsPassOf, machine_of, pass_in, shape_of, IsPassWith};

use crate::code::counting::{LenAt, LenOp};
use crate::code::walking::WalkAt;
use crate::life::ring::{Pass, RingQueue};
use ring_table::Operation;
use running::{Op, Tie, first_step, whole};
use std::sync::Wait;

impl<T> RingQueue<T> {
    /// Begins a count, and makes no step yet. If the operation is dropped, its pass goes with it, and
    /// its cell stays reserved.
    #[inline]
    pub fn begin_len(&self, by: Pass<T>) -> LenOp<T>
        requires { IsPassOf self.now by }
        ensures { IsCounting self.now result
            × (underway_of (machine_of self.now) result.pass ≡ no_step (pass_in by)) }
    {
        let Pass { pass, kept: spare } = by;
        let begun = LenAt::ToFront(WalkAt::LoadHint(spare));
        Op::begin(self, pass, Operation::Len, begun)
    }
}

impl<T, D: Tie<T>> RingQueue<T, D> {
    /// How many values the ring held at some time since its pass's last step before the call, from
    /// 0 to the capacity. It retries while values are taken. The call was a run of the machine's steps.
    pub fn len<R: Wait>(&self, rt: &R, by: Pass<T>) -> (Pass<T>, u32)
        requires { IsPassWith D.rule self.now by }
        ensures of { IsPassWith D.rule self.now result.0 }
        ensures gives { LenGives (shape_of self.now) (pass_in by) (pass_in result.0) result.1 }
        ensures answered { Answers (pass_in by) (pass_in result.0) (LenAnswered result.1) }
        ensures ran { WasRunWith D.rule self.now LenFirst (pass_in by) result.0 (AnswerLen result.1) }
        ensures new { HasNewCall by result.0 }
    {
        let Pass { pass, kept } = by;
        let len = Operation::Len;
        let begun = LenAt::ToFront(WalkAt::LoadHint(kept));
        let first = first_step(&self.table.shared, self, pass, begun, &len);
        let (pass, count) = whole(rt, self, first, len);
        (pass, count as u32)
    }
}
