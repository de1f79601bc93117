//! How many steps all passes of a ring make together.
ghost use Rattle.std.specs.Prelude.{ℕ, ◌<◌, List};
ghost use Rattle.bounded_model.specs.Laws.{IsSound, NoneOut};
ghost use Rattle.bounded_model.specs.declared.views.RootView.{RootView};
ghost use Rattle.ring_table.specs.Core.{ring_on, shape_for};
ghost use Rattle.running.specs.Ends.{IsRun};
ghost use Rattle.runs.specs.ring.Work.{TotalWork};

/// The total work on a ring for P passes at once, if all passes have been joined, for any number of
/// passes in all. Together they have made at most as many steps as their calls cost:
/// - a put `24 * P - 14`, a take `23 * P - 12`, a close or a shut `14 * P - 5`,
/// - a look or a gauge 8, a count 17, a meeting or a note heard 1.
///
/// This bound holds for the calls that the root keeps of each joined pass by their answers, and for
/// those that the acts of the run begin. So they have made at most `24 * P - 7` steps for each
/// answer.
pub fn ring_total_work<T>()
    ensures { (n laps passes : ℕ) (r : RootView T) (left : List T) → 0 < n
        → (ran : IsRun (ring_on T n laps passes) r left)
        → IsSound (shape_for T n laps passes) r → NoneOut r → TotalWork passes r ran.acts }
{}
