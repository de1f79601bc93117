//! That no node is in two places.
ghost use Rattle.std.specs.Prelude.{ℕ, map, Option as Slot};
ghost use Rattle.atomic_table.specs.Table.{State};
ghost use Rattle.machine.specs.declared.seats.View.{View};
ghost use Rattle.running.specs.Rule.{Rule, line_in};
ghost use Rattle.stack_machine.specs.declared.lines.Line.{Line};
ghost use Rattle.stack_machine.specs.Places.{NoNodeTwice};
ghost use Rattle.stack_table.specs.Core.{stack};
ghost use Rattle.stack_table.specs.Lines.{names};
ghost use Rattle.stack_table.specs.Memories.{memory_of};

/// No node is in two places: each is free, on the stack, or held by one pass. This holds in any
/// table that meets the rule of a stack of `n` nodes, as each stack's does between any two atomic
/// steps of any threads. A step brings into its pass's hand only what no pass had: that is the
/// clause `unheld` of `IsLine`, which the contract of each step has.
pub fn stack_places<T>()
    ensures { (n limit : ℕ) (s : State (Slot T) (View T (Line T))) →
        Rule (stack T n limit) s →
        NoNodeTwice n (memory_of s.words s.homes) (map (line_in names) s.views) }
{}
