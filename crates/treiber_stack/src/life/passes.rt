//! The passes of a stack: they are split off its root, meet, tell each other, and are joined again.
ghost use Rattle.std.specs.Prelude.{◌≡◌, IfSome, IsSome, MatchOption, true};
ghost use Rattle.bounded_model.specs.Laws.{Heeds, IsFullOfPasses, Joins, MeetGives, Splits};
ghost use Rattle.machine.specs.Seats.{Extends};
ghost use Rattle.running.specs.Kept.{acts_in, acts_of_root};
ghost use Rattle.running.specs.Passes.{acts_of_note, told_in};
ghost use Rattle.treiber_stack.specs.Calls.{IsNoteWith, IsPassWith, IsRootWith, pass_in, root_in, shape_of};

use crate::life::stack::{Note, Pass, Root, Stack};
use crate::rule::Stacked;
use bounded_model::MAX_PASSES;
use running::Tie;
use stack_machine::Line;
use stack_table::Operation;

impl<T, D: Tie<T>> Stack<T, D> {
    /// Gives a new pass, which has seen what the root has and keeps its acts. `None` exactly if 65,535 passes
    /// (`MAX_PASSES`) are out; then nothing has changed.
    pub fn split(&self, parent: &mut Root<T>) -> Option<Pass<T>>
        requires { IsRootWith D.rule self.now parent.old }
        ensures root { IsRootWith D.rule self.now parent.new }
        ensures gives { MatchOption result
            ((root_in parent.new ≡ root_in parent.old)
            × IsFullOfPasses (shape_of self.now) (root_in parent.old))
            (λ p. IsPassWith D.rule self.now p
            × Splits (shape_of self.now) (root_in parent.old) (root_in parent.new) (pass_in p)) }
        ensures acts { MatchOption result
            (acts_of_root parent.new ≡ acts_of_root parent.old)
            (λ p. (acts_of_root parent.new ≡ acts_of_root parent.old)
            × (acts_in p ≡ acts_of_root parent.old)) }
    {
        let pass = running::split::<T, Line<T>, Operation<T>, Stacked<D>>(
            &self.table.shared,
            &mut parent.root,
            MAX_PASSES,
        )?;
        Some(Pass { pass, kept: () })
    }

    /// Lets the first pass see what the second has seen, and keep its acts too. The first pass counts one step. The second
    /// comes back as it was. The answer is always true, since the table never lacks a seat.
    pub fn meet(&self, first: &mut Pass<T>, second: Pass<T>) -> (Pass<T>, bool)
        requires first { IsPassWith D.rule self.now first.old }
        requires second { IsPassWith D.rule self.now second }
        ensures first { IsPassWith D.rule self.now first.new }
        ensures second { IsPassWith D.rule self.now result.0 × (pass_in result.0 ≡ pass_in second) }
        ensures gives { MeetGives (pass_in first.old) (pass_in second) (pass_in first.new)
            result.1 }
        ensures met { result.1 ≡ true }
        ensures acts { Extends (acts_in first.old) (acts_in first.new)
            × Extends (acts_in second) (acts_in first.new)
            × (acts_in result.0 ≡ acts_in second) }
    {
        let Pass { pass, kept } = second;
        let (pass, met) = running::meet::<T, Line<T>, Operation<T>, Stacked<D>>(
            &self.table.shared,
            &mut first.pass,
            pass,
        );
        (Pass { pass, kept }, met)
    }

    /// Makes a note of what the pass has seen, and of the acts that it keeps. The answer is always some note, since the table
    /// never lacks a seat.
    pub fn note(&self, by: &mut Pass<T>) -> Option<Note<T>>
        requires { IsPassWith D.rule self.now by.old }
        ensures pass { IsPassWith D.rule self.now by.new × (pass_in by.new ≡ pass_in by.old) }
        ensures gives { IfSome result (λ n. IsNoteWith D.rule self.now n
            × (told_in n ≡ (pass_in by.old).seen)) }
        ensures made { IsSome result }
        ensures acts { (acts_in by.new ≡ acts_in by.old)
            × IfSome result (λ n. acts_of_note n ≡ acts_in by.old) }
    {
        running::make_note::<T, Line<T>, Operation<T>, Stacked<D>>(&self.table.shared, &mut by.pass)
    }

    /// The pass has now seen at least what the note tells, and keeps its acts. So no later call of the pass gives an
    /// answer that was right only before the note was made. It counts one step.
    pub fn heed(&self, by: &mut Pass<T>, note: Note<T>)
        requires pass { IsPassWith D.rule self.now by.old }
        requires note { IsNoteWith D.rule self.now note }
        ensures of { IsPassWith D.rule self.now by.new }
        ensures gives { Heeds (pass_in by.old) (told_in note) (pass_in by.new) }
        ensures acts { Extends (acts_in by.old) (acts_in by.new)
            × Extends (acts_of_note note) (acts_in by.new) }
    {
        running::heed::<T, Line<T>, Operation<T>, Stacked<D>>(
            &self.table.shared,
            &mut by.pass,
            note,
        )
    }

    /// The root takes a pass back: it has now seen what the pass has, and keeps its acts. Its place is free for another
    /// pass.
    pub fn join(&self, parent: &mut Root<T>, by: Pass<T>)
        requires root { IsRootWith D.rule self.now parent.old }
        requires pass { IsPassWith D.rule self.now by }
        ensures root { IsRootWith D.rule self.now parent.new }
        ensures gives { Joins (root_in parent.old) (pass_in by) (root_in parent.new) }
        ensures acts { Extends (acts_of_root parent.old) (acts_of_root parent.new)
            × Extends (acts_in by) (acts_of_root parent.new) }
    {
        let Pass { pass, .. } = by;
        running::join::<T, Line<T>, Operation<T>, Stacked<D>>(
            &self.table.shared,
            &mut parent.root,
            pass,
        )
    }
}
