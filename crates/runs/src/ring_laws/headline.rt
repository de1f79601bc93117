//! What any table of a ring says as a whole.
ghost use Rattle.std.specs.Prelude.{ℕ, ◌<◌, Option as Slot};
ghost use Rattle.atomic_table.specs.Table.{State};
ghost use Rattle.machine.specs.declared.seats.View.{View};
ghost use Rattle.ring_table.specs.declared.line.SeatLine.{SeatLine};
ghost use Rattle.ring_table.specs.Core.{ring_on, ring_with};
ghost use Rattle.running.specs.Rule.{Rule};
ghost use Rattle.runs.specs.ring.Headline.{Headline};

use running::Tie;

/// All passes of a ring see one history of one bounded queue. This holds in any table that meets
/// the rule of a ring, as each ring's does between any two atomic steps of any threads:
/// - the history is legal. In it no value is lost, duplicated or reordered, and no put follows the close;
/// - the values that this history leaves are those in the slots from the front to the back;
/// - each pass has seen a part of it, with all its own events. No two seats are of one pass, and of two
///   passes one has seen all that the other has;
/// - at no time has a pass more than one cell in hand;
/// - no cell is in two places;
/// - the acts that led to the table have made that history. Each pass has made its steps in them, and
///   its calls have answered in them what its view says;
/// - the calls of these acts are linearizable.
pub fn ring_headline<T>()
    ensures { (n laps passes : ℕ) → 0 < n
        → (s : State (Slot T) (View T (SeatLine T))) (r : Rule (ring_on T n laps passes) s)
        → Headline T n laps passes s r }
{}

/// The same of a ring whose client has given it a rule: its history keeps that rule too.
pub fn ring_headline_as<T, D: Tie<T>>()
    ensures { (n laps passes : ℕ) → 0 < n
        → (s : State (Slot T) (View T (SeatLine T))) (r : Rule (ring_with T n laps passes D.rule) s)
        → Headline T n laps passes s r }
{}
