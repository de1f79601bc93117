//! That no cell and no node is in two places.
ghost use Rattle.std.specs.Prelude.{ℕ, map, Option as Slot};
ghost use Rattle.atomic_table.specs.Table.{State};
ghost use Rattle.machine.specs.declared.seats.View.{View};
ghost use Rattle.queue_machine.specs.declared.lines.Line.{Line};
ghost use Rattle.queue_machine.specs.Places.{NothingTwice};
ghost use Rattle.queue_table.specs.Lines.{names};
ghost use Rattle.queue_table.specs.Memories.{memory_of};
ghost use Rattle.queue_table.specs.Core.{queue};
ghost use Rattle.running.specs.Rule.{Rule, line_in};

/// No cell and no node is in two places: each is free, in the chain, or held by one pass. This
/// holds in any table that meets the rule of a queue for `n` values, as each queue's does between
/// any two atomic steps of any threads. A step brings into its pass's hand only what no pass had:
/// that is the clause `unheld` of `IsLine`, which the contract of each step has.
pub fn queue_places<T>()
    ensures { (n limit : ℕ) (s : State (Slot T) (View T (Line T))) →
        Rule (queue T n limit) s →
        NothingTwice n (memory_of s.words s.homes) (map (line_in names) s.views) }
{}
