//! The bound on the steps of an operation that runs.
ghost use Rattle.std.specs.Prelude.{◌≡◌, ℕ, ◌<◌, ◌≤◌, false};
ghost use Rattle.std.specs.List.{AllByRecursion};
ghost use Rattle.tagged_index.specs.declared.word.TheConstants.{NULL};
ghost use Rattle.machine.specs.Seats.{Acts};
ghost use Rattle.stack_machine.specs.declared.lines.Line.{Line};
ghost use Rattle.stack_machine.specs.Machine.{is_idle};
ghost use Rattle.stack_machine.specs.Machine.{stack as machine};
ghost use Rattle.stack_machine.specs.Answers.{shape};
ghost use Rattle.stack_table.specs.Lines.{names};
ghost use Rattle.stack_table.specs.Core.{core, stack};
ghost use Rattle.step_core.specs.stack.Law.{MeetsRule};
ghost use Rattle.running.specs.Acts.{AllProper, Course, IsAllowed, played};
ghost use Rattle.runs.specs.Runs.{Below, Shows};
ghost use Rattle.runs.specs.stack.Bounded.{IsBounded, call_at, state_after};

/// An operation of a stack of `n` nodes that is under way has made at most `4 * n + 6` steps since it was
/// begun, and 4 for each compare-and-swap by which another pass has succeeded since. For an operation of one
/// value, a close, a shut, a look or a gauge, the first number is 9. The same holds of an operation that has
/// ended, if each act of its run does something, as in the run of each whole call, and of the steps from any
/// point of an operation on.
pub fn stack_steps_are_bounded<T>()
    ensures under_way { (n limit x : ℕ) (before now : Acts (Line T)) (first l : Line T) → 0 < n → n ≤ NULL
        → Course names (core T n limit) before now x first l → is_idle l ≡ false
        → IsBounded n limit before now x first }
    ensures ended { (n limit x : ℕ) (before now : Acts (Line T)) (first l : Line T) → 0 < n → n ≤ NULL
        → Course names (core T n limit) before now x first l → AllProper names (core T n limit) now
        → IsBounded n limit before now x first }
{}

/// The acts that led to a stack's table are a schedule of its machine. Run with any number of passes that is
/// above the number of each pass, from the words of a new stack, it comes to the same words, history and
/// lines. The machine's rule holds there, so all that is proved of such states holds of the stack.
pub fn stack_acts_are_a_schedule<T>()
    ensures shows { (n limit passes : ℕ) (acts : Acts (Line T)) → Below passes acts
        → AllByRecursion (λ a. IsAllowed names (core T n limit) a.1) acts
        → Shows (stack T n limit) (machine (shape n limit)) call_at passes
        (state_after n limit passes acts) (played names (core T n limit) acts) }
    ensures meets { (n limit passes : ℕ) (acts : Acts (Line T)) → 0 < n → n ≤ NULL
        → MeetsRule n limit (state_after n limit passes acts) }
{}
