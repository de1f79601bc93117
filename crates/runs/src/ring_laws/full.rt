//! What the answer of a whole call says of the ring, by the run of the call.
ghost use Rattle.std.specs.Prelude.{◌≡◌, ℕ, ◌<◌, Err};
ghost use Rattle.bounded_model.specs.declared.answers.PutRefused.TheVariants.{Full};
ghost use Rattle.bounded_model.specs.declared.views.PassView.{PassView};
ghost use Rattle.machine.specs.declared.seats.View.{View};
ghost use Rattle.machine.specs.Seats.{pass_of};
ghost use Rattle.ring_machine.specs.declared.lines.Answer.{Answer};
ghost use Rattle.ring_machine.specs.declared.lines.Answer.TheVariants.{Put as AnswerPut};
ghost use Rattle.ring_machine.specs.declared.lines.Call.TheVariants.{Put as CallPut};
ghost use Rattle.ring_machine.specs.Machine.{ends};
ghost use Rattle.ring_table.specs.declared.line.SeatLine.{SeatLine};
ghost use Rattle.ring_table.specs.declared.line.SeatLine.TheVariants.{At};
ghost use Rattle.ring_table.specs.declared.operation.Operation.{Operation};
ghost use Rattle.ring_table.specs.Core.{core, ring_on};
ghost use Rattle.ring_table.specs.Lines.{call_of};
ghost use Rattle.ring_table.specs.Seats.{names};
ghost use Rattle.running.specs.Going.{HasRun};
ghost use Rattle.step_core.specs.ring.Object.{object};
ghost use Rattle.runs.specs.Heard.{heard, IsLinearizable};
ghost use Rattle.runs.specs.Point.{HasPoint};
ghost use Rattle.runs.specs.ring.Bounded.{call_in};
ghost use Rattle.runs.specs.ring.Full.{WasFull};
ghost use Rattle.runs.specs.ring.Linearizable.{answer_at};

/// A whole call has one point in each linearization of its own run (clause `ran` of the call), with the
/// answer that the caller got. The point stands after the call's invocation and before its response.
pub fn ring_call_has_point<T>()
    ensures { (n laps passes : ℕ) (o : Operation T) (v : View T (SeatLine T)) (begun : PassView T) (c : ℕ) (said : Answer T)
        → (ran : HasRun (ring_on T n laps passes) o v begun (At (ends c said)))
        → (calls : IsLinearizable names (core T n laps passes) call_in answer_at (object n laps) ran.now)
        → HasPoint calls.course (heard names (core T n laps passes) call_in answer_at ran.before)
        (record { by = (pass_of v).number; call = call_of o; answer = said }) }
{}

/// Full means full, to the caller of a put that was refused so. By the put's run (its clause `ran`), there is a
/// linearization of all acts of that run in which the refusal has one point, after the put was invoked and
/// before it responded. If k other calls are under way there, at least n - k of the n slots hold values.
pub fn ring_full_put<T>()
    ensures { (n laps passes : ℕ) → 0 < n
        → (o : Operation T) (v : View T (SeatLine T)) (begun : PassView T) (c : ℕ) (x y : T) → call_of o ≡ CallPut x
        → (ran : HasRun (ring_on T n laps passes) o v begun (At (ends c (AnswerPut (Err (Full y))))))
        → WasFull n laps passes (pass_of v).number x y ran.before ran.now }
{}
