//! How many steps all passes of a stack make together.
ghost use Rattle.std.specs.Prelude.{ℕ, ◌<◌, ◌≤◌, List};
ghost use Rattle.tagged_index.specs.declared.word.TheConstants.{NULL};
ghost use Rattle.bounded_model.specs.Laws.{IsSound, NoneOut};
ghost use Rattle.bounded_model.specs.declared.views.RootView.{RootView};
ghost use Rattle.stack_machine.specs.Answers.{shape};
ghost use Rattle.stack_table.specs.Core.{stack};
ghost use Rattle.running.specs.Ends.{IsRun};
ghost use Rattle.runs.specs.stack.Work.{TotalWork};

/// The total work on a stack of `n` nodes whose root gave G passes, if all have been joined. Together
/// they have made at most the sum of the steps that their calls cost, and 1 for each load that reads a
/// refused range back. A put's answer does not tell its number r of values. So by the answers each put
/// costs at most `(3 * n + 4) * G + n`, or `7 * G` if all puts and takes are of one value. The costs:
/// - a take `7 * G - 1`, a close or a shut `4 * G - 2`, a look, a gauge, a meeting or a note heard 1;
/// - a fold at most `7 * G + 3 * n - 2`;
/// - a put of r values `(3 * r + 4) * G + r - 1` if r is at most `n`, else `(3 * n + 4) * G + n`.
pub fn stack_total_work<T>()
    ensures { (n limit : ℕ) (r : RootView T) (left : List T) → 0 < n → n ≤ NULL
        → (ran : IsRun (stack T n limit) r left) → IsSound (shape n limit) r → NoneOut r
        → TotalWork n r ran.acts }
{}
