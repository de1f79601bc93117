//! What any table of a queue says as a whole.
ghost use Rattle.std.specs.Prelude.{ℕ, ◌<◌, true, List, [], ◌∷◌, Option as Slot};
ghost use Rattle.tagged_index.specs.declared.word.TheConstants.{NULL};
ghost use Rattle.atomic_table.specs.Table.{State};
ghost use Rattle.bounded_model.specs.declared.history.Event.{Event};
ghost use Rattle.bounded_model.specs.declared.views.Answered.TheVariants.{Look};
ghost use Rattle.machine.specs.declared.seats.View.{View};
ghost use Rattle.queue_machine.specs.declared.lines.Line.{Line};
ghost use Rattle.queue_machine.specs.Machine.{Memory};
ghost use Rattle.queue_table.specs.Lines.{names};
ghost use Rattle.queue_table.specs.Core.{core, queue, queue_with};
ghost use Rattle.running.specs.Acts.{HasDone};
ghost use Rattle.running.specs.Rule.{Rule};
ghost use Rattle.runs.specs.Table.{LedTo};
ghost use Rattle.runs.specs.queue.Headline.{Headline};
ghost use Rattle.runs.specs.queue.WrongActs.{idle_step, hearing_in_a_look, one_look};

use running::Tie;

/// All passes of a queue see one history of one bounded queue. This holds in any table that meets
/// the rule of a queue, as each queue's does between any two atomic steps of any threads:
/// - the history is legal. In it no value is lost, duplicated or reordered, and no put follows the close;
/// - the values that this history leaves are those in the cells along the chain;
/// - each pass has seen a part of it, with all its own events. No two seats are of one pass, and of two
///   passes one has seen all that the other has;
/// - at no time has a pass more than one cell in hand;
/// - no cell and no node is in two places;
/// - the acts that led to the table have made that history. Each pass has made its steps in them, and
///   its calls have answered in them what its view says;
/// - the calls of these acts are linearizable.
pub fn queue_headline<T>()
    ensures { (n limit : ℕ) → 0 < n → n < NULL → 0 < limit
        → (s : State (Slot T) (View T (Line T))) (r : Rule (queue T n limit) s)
        → Headline T n limit s r }
{}

/// The same of a queue whose client has given it a rule: its history keeps that rule too.
pub fn queue_headline_as<T, D: Tie<T>>()
    ensures { (n limit : ℕ) → 0 < n → n < NULL → 0 < limit
        → (s : State (Slot T) (View T (Line T))) (r : Rule (queue_with T n limit D.rule) s)
        → Headline T n limit s r }
{}

/// Near misses of the acts that led to a table. A step of a pass that is in no operation is none of them,
/// and neither is a pass's hearing of others in the middle of its look. In the acts of a look the pass has
/// made its three steps and has its answer: a view that forgets the answer or a step is not what they led
/// to.
pub fn queue_headline_near_misses()
    ensures idle_step_refused { (memory : Memory ℕ) (h : List (Event ℕ)) (views : List (View ℕ (Line ℕ))) →
        ¬ LedTo names (core ℕ 1 15) idle_step memory h views }
    ensures hearing_in_a_look_refused { (memory : Memory ℕ) (h : List (Event ℕ)) (views : List (View ℕ (Line ℕ))) →
        ¬ LedTo names (core ℕ 1 15) hearing_in_a_look memory h views }
    ensures one_look_done { HasDone names (core ℕ 1 15) one_look 0 3 (Look true ∷ []) }
    ensures forgotten_answer_refused { ¬ HasDone names (core ℕ 1 15) one_look 0 3 [] }
    ensures forgotten_step_refused { ¬ HasDone names (core ℕ 1 15) one_look 0 2 (Look true ∷ []) }
{}
