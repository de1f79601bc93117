//! What any table of a stack says as a whole.
ghost use Rattle.std.specs.Prelude.{ℕ, ◌<◌, ◌≤◌, Option as Slot};
ghost use Rattle.tagged_index.specs.declared.word.TheConstants.{NULL};
ghost use Rattle.atomic_table.specs.Table.{State};
ghost use Rattle.machine.specs.declared.seats.View.{View};
ghost use Rattle.stack_machine.specs.declared.lines.Line.{Line};
ghost use Rattle.stack_table.specs.Core.{stack, stack_with};
ghost use Rattle.running.specs.Rule.{Rule};
ghost use Rattle.runs.specs.stack.Headline.{Headline};

use running::Tie;

/// All passes of a stack see one history of one bounded stack. This holds in any table that meets
/// the rule of a stack, as each stack's does between any two atomic steps of any threads:
/// - the history is legal. In it no value is lost, duplicated or reordered, and no put follows the close;
/// - the values that this history leaves are those in the nodes along the links from the top;
/// - each pass has seen a part of it, with all its own events. No two seats are of one pass, and of two
///   passes one has seen all that the other has;
/// - no node is in two places;
/// - the acts that led to the table have made that history. Each pass has made its steps in them, and
///   its calls have answered in them what its view says;
/// - the calls of these acts are linearizable.
pub fn stack_headline<T>()
    ensures { (n limit : ℕ) → 0 < n → n ≤ NULL
        → (s : State (Slot T) (View T (Line T))) (r : Rule (stack T n limit) s)
        → Headline T n limit s r }
{}

/// The same of a stack whose client has given it a rule: its history keeps that rule too.
pub fn stack_headline_as<T, D: Tie<T>>()
    ensures { (n limit : ℕ) → 0 < n → n ≤ NULL
        → (s : State (Slot T) (View T (Line T))) (r : Rule (stack_with T n limit D.rule) s)
        → Headline T n limit s r }
{}
