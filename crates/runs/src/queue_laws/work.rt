//! How many steps all passes of a queue make together.
ghost use Rattle.std.specs.Prelude.{ℕ, ◌<◌, List};
ghost use Rattle.tagged_index.specs.declared.word.TheConstants.{NULL};
ghost use Rattle.bounded_model.specs.Laws.{IsSound, NoneOut};
ghost use Rattle.bounded_model.specs.declared.views.RootView.{RootView};
ghost use Rattle.queue_machine.specs.Answers.{shape};
ghost use Rattle.queue_table.specs.Core.{queue};
ghost use Rattle.running.specs.Ends.{IsRun};
ghost use Rattle.runs.specs.queue.Work.{TotalWork};

/// The total work on a queue whose root gave G passes, if all have been joined. Together they have
/// made at most the sum of the steps that their calls cost. This holds of the calls that the root
/// keeps of each joined pass, by their answers, and of the calls that the acts of the run begin. The
/// costs:
/// - a put `14 * G + 4`, a take `12 * G + 5`, a close `8 * G`, a shut `6 * G - 4`;
/// - a look 3, a count 4, a gauge 8, a meeting or a note heard 1.
pub fn queue_total_work<T>()
    ensures { (n limit : ℕ) (r : RootView T) (left : List T) → 0 < n → n < NULL → 0 < limit
        → (ran : IsRun (queue T n limit) r left) → IsSound (shape n limit) r → NoneOut r
        → TotalWork r ran.acts }
{}
