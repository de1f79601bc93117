//! The calls of a run of threads are linearizable.
ghost use Rattle.std.specs.Prelude.{ℕ, ◌<◌, ◌++◌, List};
ghost use Rattle.std.specs.List.{AllByRecursion};
ghost use Rattle.tagged_index.specs.declared.word.TheConstants.{NULL};
ghost use Rattle.machine.specs.Seats.{Acts};
ghost use Rattle.queue_machine.specs.declared.lines.Answer.{Answer};
ghost use Rattle.queue_machine.specs.declared.lines.Call.{Call};
ghost use Rattle.queue_machine.specs.declared.lines.Line.{Line};
ghost use Rattle.queue_table.specs.Lines.{names};
ghost use Rattle.queue_table.specs.Core.{core};
ghost use Rattle.step_core.specs.Linearizable.{Entry, IsLinearization, IsLinearizationWithAnyHands, KeepsRealTimeOrder};
ghost use Rattle.step_core.specs.queue.Object.{object, object_with_any_hands, answer};
ghost use Rattle.running.specs.Acts.{IsAllowed};
ghost use Rattle.runs.specs.Heard.{IsLinearizable};
ghost use Rattle.runs.specs.queue.Bounded.{call_at};

/// The calls of a run of threads on a queue are linearizable (Herlihy and Wing 1990), refusals included.
/// Whatever acts led to a queue's table, linearization points can be put into their invocations and
/// responses, in the order of the acts. In the order of the points the operations are a legal history of the
/// bounded queue, with the answers that were given and the events that the acts have made. The order of the
/// points keeps real time. If such a history is cut anywhere, the operations of a pass that have taken effect
/// are those that it has completed by then, with or without its pending one. This does not need the bounds on
/// hands, so it is stated without them (`with_any_hands`).
pub fn queue_acts_are_linearizable<T>()
    ensures points { (n limit : ℕ) (acts : Acts (Line T)) → 0 < n → n < NULL → 0 < limit
        → AllByRecursion (λ a. IsAllowed names (core T n limit) a.1) acts
        → IsLinearizable names (core T n limit) call_at answer (object n limit) acts }
    ensures with_any_hands { (n limit : ℕ) (course : List (Entry T (Call T) (Answer T))) →
        IsLinearization (object n limit) course → IsLinearizationWithAnyHands (object_with_any_hands n limit) course }
    ensures keeps_real_time_order { (n limit p : ℕ) (newer older : List (Entry T (Call T) (Answer T))) →
        IsLinearizationWithAnyHands (object_with_any_hands n limit) (newer ++ older) → KeepsRealTimeOrder p older }
{}
