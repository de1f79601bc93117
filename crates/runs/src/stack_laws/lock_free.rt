//! A run of threads on a stack is lock-free.
ghost use Rattle.std.specs.Prelude.{◌≡◌, ℕ, suc, ◌<◌, ◌≤◌};
ghost use mathlib.Core.Option.{some};
ghost use lib.ListN.{get_elem?};
ghost use Rattle.tagged_index.specs.declared.word.TheConstants.{NULL};
ghost use Rattle.machine.specs.Progress.{AtOnce, Only};
ghost use Rattle.machine.specs.Seats.{Acts};
ghost use Rattle.stack_machine.specs.declared.lines.Line.{Line};
ghost use Rattle.stack_machine.specs.Machine.{Pass, stack};
ghost use Rattle.stack_machine.specs.Answers.{shape};
ghost use Rattle.step_core.specs.stack.Bound.{IsSingle};
ghost use Rattle.step_core.specs.stack.Costs.{IsSingleCall};
ghost use Rattle.runs.specs.Runs.{schedule_of};
ghost use Rattle.runs.specs.stack.Bounded.{call_at, state_after};
ghost use Rattle.runs.specs.stack.Ended.{CallsEnd, CallsOfOneValueEnd};

/// A run of threads on a stack is lock-free, as one on a queue is (`queue_acts_are_lock_free`). If E calls ended
/// in the acts from any point on, and never more than P = 1 + `others` passes are in a call at once in them, the
/// passes have made in them, together:
/// - at most `((3 * n + 4) * P + n + 2) * (E + P)` steps, for a capacity of n;
/// - at most `(7 * P + 2) * (E + P)` steps if each call in them is of one value, no fold among them.
pub fn stack_acts_are_lock_free<T>()
    ensures at_once { (n limit passes others : ℕ) (later earlier : Acts (Line T)) → 0 < n → n ≤ NULL
        → AtOnce (stack (shape n limit)) (suc others) (schedule_of call_at later) (state_after n limit passes earlier)
        → CallsEnd n limit passes others later earlier }
    ensures of_all { (n limit others : ℕ) (later earlier : Acts (Line T)) → 0 < n → n ≤ NULL
        → CallsEnd n limit (suc others) others later earlier }
    ensures of_one_value { (n limit passes others : ℕ) (later earlier : Acts (Line T)) → 0 < n → n ≤ NULL
        → AtOnce (stack (shape n limit)) (suc others) (schedule_of call_at later) (state_after n limit passes earlier)
        → ((q : ℕ) (v : Pass T) → get_elem? (state_after n limit passes earlier).passes q ≡ some v → IsSingle v.line)
        → Only IsSingleCall (schedule_of call_at later)
        → CallsOfOneValueEnd n limit passes others later earlier }
{}
