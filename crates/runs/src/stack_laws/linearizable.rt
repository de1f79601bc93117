//! The calls of a run of threads are linearizable.
ghost use Rattle.std.specs.Prelude.{ℕ, ◌<◌, ◌≤◌, ◌++◌, List};
ghost use Rattle.std.specs.List.{AllByRecursion};
ghost use Rattle.tagged_index.specs.declared.word.TheConstants.{NULL};
ghost use Rattle.machine.specs.Seats.{Acts};
ghost use Rattle.stack_machine.specs.declared.lines.Answer.{Answer};
ghost use Rattle.stack_machine.specs.declared.lines.Call.{Call};
ghost use Rattle.stack_machine.specs.declared.lines.Line.{Line};
ghost use Rattle.stack_table.specs.Lines.{names};
ghost use Rattle.stack_table.specs.Core.{core};
ghost use Rattle.step_core.specs.Linearizable.{Entry, IsLinearization, IsLinearizationWithAnyHands, KeepsRealTimeOrder};
ghost use Rattle.step_core.specs.stack.Object.{object, object_with_any_hands, answer};
ghost use Rattle.running.specs.Acts.{IsAllowed};
ghost use Rattle.runs.specs.Heard.{IsLinearizable};
ghost use Rattle.runs.specs.stack.Bounded.{call_at};

/// The calls of a run of threads on a stack are linearizable, as those on a queue are
/// (`queue_acts_are_linearizable`). A put of several values takes effect at one point, and so does a
/// fold of all values.
pub fn stack_acts_are_linearizable<T>()
    ensures points { (n limit : ℕ) (acts : Acts (Line T)) → 0 < n → n ≤ NULL
        → AllByRecursion (λ a. IsAllowed names (core T n limit) a.1) acts
        → IsLinearizable names (core T n limit) call_at answer (object n limit) acts }
    ensures with_any_hands { (n limit : ℕ) (course : List (Entry T (Call T) (Answer T))) →
        IsLinearization (object n limit) course → IsLinearizationWithAnyHands (object_with_any_hands n limit) course }
    ensures keeps_real_time_order { (n limit p : ℕ) (newer older : List (Entry T (Call T) (Answer T))) →
        IsLinearizationWithAnyHands (object_with_any_hands n limit) (newer ++ older) → KeepsRealTimeOrder p older }
{}
