//! Looking whether a stack is empty: one load of its top.
ghost use Rattle.std.specs.Prelude.{◌≡◌, ◌≤◌, ◌+◌};
ghost use Rattle.bounded_model.specs.Laws.{Answers, LookGives};
ghost use Rattle.bounded_model.specs.Stepping.{MatchStepped, no_step};
ghost use Rattle.bounded_model.specs.declared.commands.Command.TheVariants.{Look as LookCall};
ghost use Rattle.bounded_model.specs.declared.views.Answered.TheVariants.{Look as LookAnswered};
ghost use Rattle.running.specs.Kept.{HasNewCall, WasRun as WasRunBy};
ghost use Rattle.running.specs.Ops.{underway_of};
ghost use Rattle.running.specs.Passes.{pass_in as pass_now};
ghost use Rattle.stack_machine.specs.Machine.{ends};
ghost use Rattle.stack_machine.specs.declared.lines.Answer.TheVariants.{Look as Looked};
ghost use Rattle.stack_machine.specs.declared.lines.Line.TheVariants.{LoadTopToLook};
ghost use Rattle.stack_table.specs.declared.operation.Operation.TheVariants.{Look as LookFirst};
ghost use Rattle.treiber_stack.specs.code.Machine.{is_call};
ghost use Rattle.treiber_stack.specs.code.Steps.{HasLooked, LookRan, IsSeatWith, OneLineWith};
ghost use Rattle.treiber_stack.specs.Calls.{IsLooking, WasRunWith, IsPassOf, IsPassWith, machine_of, machine_with, pass_in, shape_of, LookTried};
ghost use Rattle.treiber_stack.specs.code.Looking.{look_account};

use crate::code::looking::{LookAt, LookOp};
use crate::life::stack::{Answered, Pass, Stack};
use bounded_model::Stepped;
use running::{Next, Op, Tie, leave, load_top_step, whole};
use stack_machine::Line;
use stack_table::Operation;
use stack_table::layout::STACK_LIST;
use std::sync::Wait;
use tagged_index::NULL;

impl<T> Stack<T> {
    /// Begins a look, and makes no step yet. If the operation is dropped, its pass goes with it.
    #[inline]
    pub fn begin_look(&self, by: Pass<T>) -> LookOp<T>
        requires { IsPassOf self.now by }
        ensures makes { IsLooking self.now result }
        ensures begun { underway_of (machine_of self.now) result.pass ≡ no_step (pass_in by) }
    {
        let Pass { pass, .. } = by;
        Op::begin(self, pass, Operation::Look, LookAt::Load)
    }

    /// Looks on the fast path alone, as `put_at_once` puts. The call makes at most 1 step. The
    /// answers are those of `look`.
    #[inline(always)]
    pub fn look_at_once(&self, by: Pass<T>) -> Stepped<LookOp<T>, Pass<T>, bool>
        requires { IsPassOf self.now by }
        ensures gives { LookTried self.now (pass_in by) result }
        ensures took { MatchStepped result (λ op. (pass_now op.pass).steps ≤ (pass_in by).steps + 1)
            (λ back answer. (pass_in back).steps ≤ (pass_in by).steps + 1) }
    {
        let Pass { pass, .. } = by;
        let look = Operation::Look;
        let first = look_fast(self, pass, &look);
        leave(self, first, look)
    }
}

impl<T, D: Tie<T>> Stack<T, D> {
    /// Whether the stack held no value at some time since its pass's last step before the call, also
    /// if it is closed or shut. The call is one load of the top, and needs no `rt`. It was a run of
    /// the machine's steps.
    #[inline]
    pub fn is_empty(&self, by: Pass<T>) -> (Pass<T>, bool)
        requires { IsPassWith D.rule self.now by }
        ensures of { IsPassWith D.rule self.now result.0 }
        ensures gives { LookGives (shape_of self.now) (pass_in by) (pass_in result.0) result.1 }
        ensures line { OneLineWith D.rule self.now by.pass result.0.pass LoadTopToLook
            (ends (Looked result.1)) }
        ensures answered { Answers (pass_in by) (pass_in result.0) (LookAnswered result.1) }
        ensures ran { WasRunWith D.rule self.now LookFirst (pass_in by) result.0 (Looked result.1) }
        ensures new { HasNewCall by result.0 }
    {
        let Pass { pass, kept } = by;
        let (pass, empty) = look_once(self, pass, &Operation::Look);
        (Pass { pass, kept }, empty)
    }

    /// Whether the stack held no value at some time since its pass's last step before the call, also
    /// if it is closed or shut. As `is_empty`, which needs no `rt`. The call was a run of the
    /// machine's steps.
    #[inline]
    pub fn look<R: Wait>(&self, rt: &R, by: Pass<T>) -> (Pass<T>, bool)
        requires { IsPassWith D.rule self.now by }
        ensures of { IsPassWith D.rule self.now result.0 }
        ensures gives { LookGives (shape_of self.now) (pass_in by) (pass_in result.0) result.1 }
        ensures answered { Answers (pass_in by) (pass_in result.0) (LookAnswered result.1) }
        ensures ran { WasRunBy (machine_with D.rule self.now)
            (look_account self.now.table.shared.key)
            (is_call LookCall) (pass_in by) result.0 result.1 }
        ensures new { HasNewCall by result.0 }
    {
        let Pass { pass, .. } = by;
        let look = Operation::Look;
        let first = look_fast(self, pass, &look);
        whole(rt, self, first, look)
    }
}

// A look's one step, as its operation makes it.
#[inline(always)]
fn look_fast<T, D: Tie<T>>(
    on: &Stack<T, D>,
    by: running::Pass<T, Line<T>>,
    look: &Operation<T>,
) -> (running::Pass<T, Line<T>>, Next<LookAt, Answered<bool>>)
    requires named { look.now ≡ LookFirst }
    requires pass { IsSeatWith D.rule on.now by }
    ensures ran { LookRan D.rule on.now look.now by result.0 result.1 }
    ensures took { (pass_now result.0).steps ≤ (pass_now by).steps + 1 }
{
    let (pass, reply) = look_once(on, by, look);
    (pass, Next::Done(Answered { kept: (), reply }))
}

/// The one step of a look.
#[inline]
pub(crate) fn look_once<T, D: Tie<T>>(
    on: &Stack<T, D>,
    by: running::Pass<T, Line<T>>,
    look: &Operation<T>,
) -> (running::Pass<T, Line<T>>, bool)
    requires named { look.now ≡ LookFirst }
    requires pass { IsSeatWith D.rule on.now by }
    ensures { HasLooked D.rule on.now by result.0 result.1 }
{
    let mut pass = by;
    let top = load_top_step(&on.table.shared, &mut pass.seat, STACK_LIST, look);
    (pass, top.index() == NULL)
}
