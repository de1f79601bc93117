//! One run for the calls of all passes.
ghost use Rattle.std.specs.Prelude.{ℕ, List, ◌<◌};
ghost use Rattle.bounded_model.specs.declared.views.RootView.{RootView};
ghost use Rattle.machine.specs.Seats.{Acts};
ghost use Rattle.ring_table.specs.declared.line.SeatLine.{SeatLine};
ghost use Rattle.ring_table.specs.Core.{ring_on};
ghost use Rattle.step_core.specs.ring.Object.{object};
ghost use Rattle.runs.specs.ring.Bounded.{call_in};
ghost use Rattle.runs.specs.ring.Linearizable.{answer_at};
ghost use Rattle.running.specs.Ends.{IsRunAfter};
ghost use Rattle.runs.specs.OneRun.{OneRun};

/// The run that the end of a ring tells is one run for the calls of all its passes. Let the root keep
/// these acts at the end. Then:
/// - the calls of the run's acts are linearizable;
/// - each whole call whose acts the root was handed stands in it. So a joined pass's calls do, each with the
///   answer that its caller got, and those of passes of which a joined one had heard;
/// - all calls whose events the root has seen, as their callers know them, are in one order of the history of
///   that run, which keeps what their callers had heard (`calls_in_one_order`).
///
/// A call that was begun after its caller had heard of the end of another stands after that call
/// (`calls_keep_time`).
pub fn ring_one_run<T>()
    ensures { (n laps passes : ℕ) → 0 < n
        → (kept : Acts (SeatLine T)) (r : RootView T) (left : List T)
        → (all : IsRunAfter (ring_on T n laps passes) kept r left)
        → OneRun (ring_on T n laps passes) call_in answer_at (object n laps) kept r left all }
{}
