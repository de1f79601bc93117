//! One run for the calls of all passes.
ghost use Rattle.std.specs.Prelude.{ℕ, List, ◌<◌, ◌≤◌};
ghost use Rattle.tagged_index.specs.declared.word.TheConstants.{NULL};
ghost use Rattle.bounded_model.specs.declared.views.RootView.{RootView};
ghost use Rattle.machine.specs.Seats.{Acts};
ghost use Rattle.stack_machine.specs.declared.lines.Line.{Line};
ghost use Rattle.stack_table.specs.Core.{stack};
ghost use Rattle.step_core.specs.stack.Object.{object, answer};
ghost use Rattle.runs.specs.stack.Bounded.{call_at};
ghost use Rattle.running.specs.Ends.{IsRunAfter};
ghost use Rattle.runs.specs.OneRun.{OneRun};

/// The run that the end of a stack tells is one run for the calls of all its passes. Let the root keep
/// these acts at the end. Then:
/// - the calls of the run's acts are linearizable;
/// - each whole call whose acts the root was handed stands in it. So a joined pass's calls do, each with the
///   answer that its caller got, and those of passes of which a joined one had heard;
/// - all calls whose events the root has seen, as their callers know them, are in one order of the history of
///   that run, which keeps what their callers had heard (`calls_in_one_order`).
///
/// A call that was begun after its caller had heard of the end of another stands after that call
/// (`calls_keep_time`).
pub fn stack_one_run<T>()
    ensures { (n limit : ℕ) → 0 < n → n ≤ NULL
        → (kept : Acts (Line T)) (r : RootView T) (left : List T)
        → (all : IsRunAfter (stack T n limit) kept r left)
        → OneRun (stack T n limit) call_at answer (object n limit) kept r left all }
{}
