//! A run of threads on a ring is lock-free.
ghost use Rattle.std.specs.Prelude.{ℕ, ◌<◌, ◌++◌};
ghost use Rattle.std.specs.List.{AllByRecursion};
ghost use Rattle.machine.specs.Seats.{Acts};
ghost use Rattle.ring_table.specs.declared.line.SeatLine.{SeatLine};
ghost use Rattle.ring_table.specs.Seats.{names};
ghost use Rattle.ring_table.specs.Core.{core};
ghost use Rattle.running.specs.Acts.{AllFresh, IsAllowed};
ghost use Rattle.runs.specs.Runs.{Below};
ghost use Rattle.runs.specs.ring.Ended.{CallsEnd};

/// A run of threads on a ring is lock-free (Herlihy 1993, there non-blocking), by number and
/// without any fairness, if each pass began its operations with a spare cell that was free. Let the
/// ring be for P passes at once, and take the acts that led to its table, from any point on. Say
/// that E calls ended in them. Then the passes have made at most `(24 * P + 7) * (E + P)` steps in
/// them, together. So among any `P * (24 * P + 7) + 1` steps some call ends, for any number of
/// passes in all.
pub fn ring_acts_are_lock_free<T>()
    ensures { (n laps passes numbers : ℕ) (later earlier : Acts (SeatLine T)) → 0 < n → 0 < passes
        → Below numbers (later ++ earlier)
        → AllByRecursion (λ a. IsAllowed names (core T n laps passes) a.1) (later ++ earlier)
        → AllFresh names (core T n laps passes) (later ++ earlier)
        → CallsEnd n laps passes numbers later earlier }
{}
