//! The calls of a run of threads are linearizable.
ghost use Rattle.std.specs.Prelude.{ℕ, ◌<◌, ◌++◌, List};
ghost use Rattle.std.specs.List.{AllByRecursion};
ghost use Rattle.machine.specs.Seats.{Acts};
ghost use Rattle.ring_machine.specs.declared.lines.Answer.{Answer};
ghost use Rattle.ring_machine.specs.declared.lines.Call.{Call};
ghost use Rattle.ring_table.specs.declared.line.SeatLine.{SeatLine};
ghost use Rattle.ring_table.specs.Seats.{names};
ghost use Rattle.ring_table.specs.Core.{core};
ghost use Rattle.step_core.specs.Linearizable.{Entry, IsLinearization, IsLinearizationWithAnyHands, KeepsRealTimeOrder};
ghost use Rattle.step_core.specs.ring.Object.{object, object_with_any_hands};
ghost use Rattle.running.specs.Acts.{AllFresh, IsAllowed};
ghost use Rattle.runs.specs.Heard.{IsLinearizable};
ghost use Rattle.runs.specs.ring.Bounded.{call_in};
ghost use Rattle.runs.specs.ring.Linearizable.{answer_at};

/// The calls of a run of threads on a ring, refused ones included, are linearizable (Herlihy and
/// Wing 1990). The condition is that each pass began its operations with a spare cell that was
/// free. A cell is free if it is in no slot, and with no pass in an operation.
///
/// Linearization points can be put into the invocations and responses of the acts that led to the
/// ring's table, in the order of the acts. In the order of the points the operations are a legal
/// history of the bounded queue, with their answers and with the events that the acts have made.
/// The order of the points keeps real time. At each prefix of such a history, the operations of a
/// pass that have taken effect are those that it has completed, or these and its pending one. This
/// does not need the bounds on hands, so it is stated without them (`with_any_hands`).
pub fn ring_acts_are_linearizable<T>()
    ensures points { (n laps passes : ℕ) (acts : Acts (SeatLine T)) → 0 < n
        → AllByRecursion (λ a. IsAllowed names (core T n laps passes) a.1) acts → AllFresh names (core T n laps passes) acts
        → IsLinearizable names (core T n laps passes) call_in answer_at (object n laps) acts }
    ensures with_any_hands { (n laps : ℕ) (course : List (Entry T (Call T) (Answer T))) →
        IsLinearization (object n laps) course → IsLinearizationWithAnyHands (object_with_any_hands n laps) course }
    ensures keeps_real_time_order { (n laps p : ℕ) (newer older : List (Entry T (Call T) (Answer T))) →
        IsLinearizationWithAnyHands (object_with_any_hands n laps) (newer ++ older) → KeepsRealTimeOrder p older }
{}
