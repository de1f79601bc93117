//! The bound on the steps of an operation that runs.
ghost use Rattle.std.specs.Prelude.{◌≡◌, ℕ, ◌<◌, false};
ghost use Rattle.std.specs.List.{AllByRecursion};
ghost use Rattle.machine.specs.Seats.{Acts};
ghost use Rattle.ring_table.specs.declared.line.SeatLine.{SeatLine};
ghost use Rattle.ring_table.specs.Seats.{is_idle, names};
ghost use Rattle.ring_table.specs.Core.{core, ring_on};
ghost use Rattle.running.specs.Acts.{AllProper, AllFresh, Course, IsAllowed, played};
ghost use Rattle.runs.specs.Runs.{Below, Shows};
ghost use Rattle.runs.specs.ring.Machine.{cell_ring};
ghost use Rattle.runs.specs.ring.Bounded.{IsBounded, MeetsRule, call_at, state_after};

/// An operation of a ring that is under way has made at most 31 steps, and 18 for each
/// compare-and-swap by which another pass has succeeded since it was begun. So has one that has ended, if each act
/// of its run does something, as in the run of each whole call.
pub fn ring_steps_are_bounded<T>()
    ensures under_way { (n laps passes x : ℕ) (before now : Acts (SeatLine T)) (first l : SeatLine T) → 0 < n
        → Course names (core T n laps passes) before now x first l → is_idle l ≡ false
        → IsBounded n laps passes before now x first }
    ensures ended { (n laps passes x : ℕ) (before now : Acts (SeatLine T)) (first l : SeatLine T) → 0 < n
        → Course names (core T n laps passes) before now x first l → AllProper names (core T n laps passes) now
        → IsBounded n laps passes before now x first }
{}

/// The acts that led to a ring's table are a schedule of its machine. With enough numbers of passes
/// and from the words of a new ring, that schedule leads the machine to the same words, history and
/// lines. A joined pass leaves its spare cell to a later one with a new number, so there may be
/// more numbers than passes at once. Suppose each pass began its operations with a spare cell that
/// was free: in no slot, and with no pass that was in an operation. Then the ring's rule holds
/// there of the passes in an operation and of the free cells, so all laws that are proved of such
/// states hold of the ring.
pub fn ring_acts_are_a_schedule<T>()
    ensures shows { (n laps passes numbers : ℕ) (acts : Acts (SeatLine T)) → Below numbers acts
        → AllByRecursion (λ a. IsAllowed names (core T n laps passes) a.1) acts
        → Shows (ring_on T n laps passes) (cell_ring n laps passes) call_at numbers
        (state_after n laps passes numbers acts) (played names (core T n laps passes) acts) }
    ensures meets { (n laps passes numbers : ℕ) (acts : Acts (SeatLine T)) → 0 < n → Below numbers acts
        → AllByRecursion (λ a. IsAllowed names (core T n laps passes) a.1) acts → AllFresh names (core T n laps passes) acts
        → MeetsRule n laps passes (state_after n laps passes numbers acts) }
{}
