//! A run of threads on a queue is lock-free.
ghost use Rattle.std.specs.Prelude.{ℕ, suc, ◌<◌};
ghost use Rattle.tagged_index.specs.declared.word.TheConstants.{NULL};
ghost use Rattle.machine.specs.Progress.{AtOnce};
ghost use Rattle.machine.specs.Seats.{Acts};
ghost use Rattle.queue_machine.specs.declared.lines.Line.{Line};
ghost use Rattle.queue_machine.specs.Machine.{queue};
ghost use Rattle.queue_machine.specs.Answers.{shape};
ghost use Rattle.runs.specs.Runs.{schedule_of};
ghost use Rattle.runs.specs.queue.Bounded.{call_at, state_after};
ghost use Rattle.runs.specs.queue.Ended.{CallsEnd};

/// A run of threads on a queue is lock-free (Herlihy 1993, there non-blocking), by number and without any
/// fairness. Take the acts that led to its table, from any point on, and suppose that never more than
/// P = 1 + `others` passes are in a call at once in them. Say that E calls ended in them. Then the passes have
/// made at most `(14 * P + 6) * (E + P)` steps in them, together. So among any `P * (14 * P + 6) + 1` steps some
/// call ends. If P passes make all acts, no more can be in a call at once (clause `of_all`).
pub fn queue_acts_are_lock_free<T>()
    ensures at_once { (n limit passes others : ℕ) (later earlier : Acts (Line T)) → 0 < n → n < NULL → 0 < limit
        → AtOnce (queue (shape n limit)) (suc others) (schedule_of call_at later) (state_after n limit passes earlier)
        → CallsEnd n limit passes others later earlier }
    ensures of_all { (n limit others : ℕ) (later earlier : Acts (Line T)) → 0 < n → n < NULL → 0 < limit
        → CallsEnd n limit (suc others) others later earlier }
{}
