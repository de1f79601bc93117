//! The law that no cell is in two places.
ghost use Rattle.std.specs.Prelude.{ℕ, ◌+◌, map, Option as Slot};
ghost use Rattle.atomic_table.specs.Table.{State};
ghost use Rattle.machine.specs.declared.seats.View.{View};
ghost use Rattle.ring_machine.specs.Places.{NothingTwice};
ghost use Rattle.ring_table.specs.declared.line.SeatLine.{SeatLine};
ghost use Rattle.ring_table.specs.Memories.{memory_of};
ghost use Rattle.ring_table.specs.Seats.{names, passes_of};
ghost use Rattle.ring_table.specs.Core.{ring_on};
ghost use Rattle.running.specs.Rule.{Rule, line_in};

/// No cell is in two places, in any table that meets the rule of a ring. Each ring's table meets it
/// between any two atomic steps of any threads. Each cell is that of one slot, or the spare one of
/// one pass, or one that the root has for a pass. The contract of each step has the clause `unheld`
/// of `IsLine`: no pass had a cell that the step brings into its pass's hand.
pub fn ring_places<T>()
    ensures { (n laps passes : ℕ) (s : State (Slot T) (View T (SeatLine T))) →
        Rule (ring_on T n laps passes) s →
        NothingTwice n (n + passes) (memory_of n (n + passes) s.words s.homes)
        (passes_of (map (line_in names) s.views)) }
{}
