//! What the answer of a whole call says of the queue, by the run of the call.
ghost use Rattle.std.specs.Prelude.{◌≡◌, ℕ, ◌<◌, Err};
ghost use Rattle.tagged_index.specs.declared.word.TheConstants.{NULL};
ghost use Rattle.bounded_model.specs.declared.answers.PutRefused.TheVariants.{Full};
ghost use Rattle.bounded_model.specs.declared.views.PassView.{PassView};
ghost use Rattle.machine.specs.declared.seats.View.{View};
ghost use Rattle.machine.specs.Seats.{pass_of};
ghost use Rattle.queue_machine.specs.declared.lines.Answer.{Answer};
ghost use Rattle.queue_machine.specs.declared.lines.Answer.TheVariants.{Put as AnswerPut};
ghost use Rattle.queue_machine.specs.declared.lines.Call.TheVariants.{Put as CallPut};
ghost use Rattle.queue_machine.specs.declared.lines.Line.{Line};
ghost use Rattle.queue_machine.specs.Machine.{ends};
ghost use Rattle.queue_table.specs.declared.operation.Operation.{Operation};
ghost use Rattle.queue_table.specs.Core.{core, queue};
ghost use Rattle.queue_table.specs.Lines.{call_of, names};
ghost use Rattle.running.specs.Going.{HasRun};
ghost use Rattle.step_core.specs.queue.Object.{object, answer};
ghost use Rattle.runs.specs.Heard.{heard, IsLinearizable};
ghost use Rattle.runs.specs.Point.{HasPoint};
ghost use Rattle.runs.specs.queue.Bounded.{call_at};
ghost use Rattle.runs.specs.queue.Full.{WasFull};

/// A whole call has one point in each linearization of its own run (clause `ran` of the call), with the
/// answer that the caller got. The point stands after the call's invocation and before its response.
pub fn queue_call_has_point<T>()
    ensures { (n limit : ℕ) (o : Operation T) (v : View T (Line T)) (begun : PassView T) (said : Answer T)
        → (ran : HasRun (queue T n limit) o v begun (ends said))
        → (calls : IsLinearizable names (core T n limit) call_at answer (object n limit) ran.now)
        → HasPoint calls.course (heard names (core T n limit) call_at answer ran.before)
        (record { by = (pass_of v).number; call = call_of o; answer = said }) }
{}

/// Full means full, to the caller of a put that was refused so. By the put's run (its clause `ran`), there is a
/// linearization of all acts of that run in which the refusal has one point, after the put was invoked and
/// before it responded. If k other calls are under way there, at least n - k of the n cells hold values.
pub fn queue_full_put<T>()
    ensures { (n limit : ℕ) → 0 < n → n < NULL → 0 < limit
        → (o : Operation T) (v : View T (Line T)) (begun : PassView T) (x y : T) → call_of o ≡ CallPut x
        → (ran : HasRun (queue T n limit) o v begun (ends (AnswerPut (Err (Full y)))))
        → WasFull n limit (pass_of v).number x y ran.before ran.now }
{}
