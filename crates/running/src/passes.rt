//! The passes and the root of a container, for all machines.
ghost use Rattle.std.specs.Prelude.{◌≡◌, ◌<◌, IfSome, IsSome, MatchOption, true};
ghost use Rattle.bounded_model.specs.Laws.{IsFullOfPasses, Splits, Joins, Heeds, MeetGives};
ghost use Rattle.machine.specs.Seats.{Extends};
ghost use Rattle.running.specs.Passes.{
  IsPassOn,
  IsRootOn,
  IsNoteOn,
  GivesLine,
  pass_in,
  root_in,
  told_in,
  pass_line,
  root_line,
  acts_in,
  acts_of_root,
  acts_of_note,
};

use crate::rule::{Lawful, Running};
use crate::seats::{join_seats, look_round, split_seat};
use atomic_table::{Seat, Shared};
use backoff::Density;
use machine::seats::View;
use tagged_index::Limits;

/// A pass: it makes steps on a container. At run time it is the four bytes that it knows of its
/// caller.
#[derive(Drop)]
pub struct Pass<T, L> {
    pub seat: Seat<Option<T>, View<T, L>>,
    pub(crate) density: Density,
}

/// A root: it gives passes and takes them back.
#[derive(Drop)]
pub struct Root<T, L> {
    pub seat: Seat<Option<T>, View<T, L>>,
    /// How many passes are out.
    pub out: u32,
}

/// A note: what a pass had seen when the note was made. It has no bytes.
#[derive(Drop)]
pub struct Note<T, L> {
    pub seat: Seat<Option<T>, View<T, L>>,
}

/// Gives a new pass, which has seen what the root has and keeps its acts. `None` exactly if `most` passes are out, the
/// most that the container allows at one time.
pub fn split<T, L, O, M: Lawful<T, L, O>>(
    table: &Shared<Option<T>, View<T, L>, Limits, Running<O, M>>,
    parent: &mut Root<T, L>,
    most: u32,
) -> Option<Pass<T, L>>
    requires most { most ≡ (M.machine table.now.key).core.shape.passes }
    requires some_word { 0 < table.now.table_id.words }
    requires root { IsRootOn (M.machine table.now.key) table.now.table_id parent.old }
    ensures root { IsRootOn (M.machine table.now.key) table.now.table_id parent.new }
    ensures gives { MatchOption result
        ((root_in parent.new ≡ root_in parent.old)
        × IsFullOfPasses (M.machine table.now.key).core.shape (root_in parent.old))
        (λ p. IsPassOn (M.machine table.now.key) table.now.table_id p
        × Splits (M.machine table.now.key).core.shape
        (root_in parent.old) (root_in parent.new) (pass_in p)) }
    ensures lines { MatchOption result
        (root_line M.names parent.new ≡ root_line M.names parent.old)
        (GivesLine M.names parent.old parent.new) }
    ensures acts { MatchOption result
        (acts_of_root parent.new ≡ acts_of_root parent.old)
        (λ p. (acts_of_root parent.new ≡ acts_of_root parent.old)
        × (acts_in p ≡ acts_of_root parent.old)) }
{
    if parent.out >= most {
        return None;
    }
    let seat = split_seat::<T, L, O, M>(table, &mut parent.seat);
    parent.out += 1;
    Some(Pass {
        seat,
        density: Density::new(),
    })
}

/// Lets the first pass see what the second has seen, and keep all acts that either has kept. The
/// second comes back as it was. The answer is
/// always true, because a table never lacks a seat.
pub fn meet<T, L, O, M: Lawful<T, L, O>>(
    table: &Shared<Option<T>, View<T, L>, Limits, Running<O, M>>,
    first: &mut Pass<T, L>,
    second: Pass<T, L>,
) -> (Pass<T, L>, bool)
    requires some_word { 0 < table.now.table_id.words }
    requires first { IsPassOn (M.machine table.now.key) table.now.table_id first.old }
    requires second { IsPassOn (M.machine table.now.key) table.now.table_id second }
    ensures first { IsPassOn (M.machine table.now.key) table.now.table_id first.new }
    ensures second { IsPassOn (M.machine table.now.key) table.now.table_id result.0
        × (pass_in result.0 ≡ pass_in second) }
    ensures gives { MeetGives (pass_in first.old) (pass_in second) (pass_in first.new) result.1 }
    ensures met { result.1 ≡ true }
    ensures lines { (pass_line M.names first.new ≡ pass_line M.names first.old)
        × (pass_line M.names result.0 ≡ pass_line M.names second) }
    ensures acts { Extends (acts_in first.old) (acts_in first.new)
        × Extends (acts_in second) (acts_in first.new) × (acts_in result.0 ≡ acts_in second) }
{
    let Pass { seat, density } = second;
    join_seats::<T, L, O, M>(table, &mut first.seat, seat);
    look_round::<T, L, O, M>(table, &mut first.seat);
    let seat = split_seat::<T, L, O, M>(table, &mut first.seat);
    (Pass { seat, density }, true)
}

/// Makes a note of what the pass has seen, and of the acts that it keeps. The answer is always some note, because a table never
/// lacks a seat.
pub fn make_note<T, L, O, M: Lawful<T, L, O>>(
    table: &Shared<Option<T>, View<T, L>, Limits, Running<O, M>>,
    by: &mut Pass<T, L>,
) -> Option<Note<T, L>>
    requires some_word { 0 < table.now.table_id.words }
    requires pass { IsPassOn (M.machine table.now.key) table.now.table_id by.old }
    ensures pass { IsPassOn (M.machine table.now.key) table.now.table_id by.new
        × (pass_in by.new ≡ pass_in by.old) }
    ensures gives { IfSome result (λ n. IsNoteOn (M.machine table.now.key) table.now.table_id n
        × (told_in n ≡ (pass_in by.old).seen)) }
    ensures made { IsSome result }
    ensures lines { pass_line M.names by.new ≡ pass_line M.names by.old }
    ensures acts { (acts_in by.new ≡ acts_in by.old)
        × IfSome result (λ n. acts_of_note n ≡ acts_in by.old) }
{
    let seat = split_seat::<T, L, O, M>(table, &mut by.seat);
    Some(Note { seat })
}

/// The pass has now seen at least what the note tells, and keeps the acts that the note has.
pub fn heed<T, L, O, M: Lawful<T, L, O>>(
    table: &Shared<Option<T>, View<T, L>, Limits, Running<O, M>>,
    by: &mut Pass<T, L>,
    note: Note<T, L>,
)
    requires some_word { 0 < table.now.table_id.words }
    requires pass { IsPassOn (M.machine table.now.key) table.now.table_id by.old }
    requires note { IsNoteOn (M.machine table.now.key) table.now.table_id note }
    ensures of { IsPassOn (M.machine table.now.key) table.now.table_id by.new }
    ensures gives { Heeds (pass_in by.old) (told_in note) (pass_in by.new) }
    ensures lines { pass_line M.names by.new ≡ pass_line M.names by.old }
    ensures acts { Extends (acts_in by.old) (acts_in by.new)
        × Extends (acts_of_note note) (acts_in by.new) }
{
    let Note { seat } = note;
    join_seats::<T, L, O, M>(table, &mut by.seat, seat);
    look_round::<T, L, O, M>(table, &mut by.seat);
    // The seat that is cut off is the note again.
    let _ = split_seat::<T, L, O, M>(table, &mut by.seat);
}

/// The root takes a pass back: it has now seen what the pass has, and keeps its acts.
pub fn join<T, L, O, M: Lawful<T, L, O>>(
    table: &Shared<Option<T>, View<T, L>, Limits, Running<O, M>>,
    parent: &mut Root<T, L>,
    by: Pass<T, L>,
)
    requires some_word { 0 < table.now.table_id.words }
    requires root { IsRootOn (M.machine table.now.key) table.now.table_id parent.old }
    requires pass { IsPassOn (M.machine table.now.key) table.now.table_id by }
    ensures root { IsRootOn (M.machine table.now.key) table.now.table_id parent.new }
    ensures gives { Joins (root_in parent.old) (pass_in by) (root_in parent.new) }
    ensures lines { root_line M.names parent.new
        ≡ M.names.shares.takes (root_line M.names parent.old) (pass_line M.names by) }
    ensures acts { Extends (acts_of_root parent.old) (acts_of_root parent.new)
        × Extends (acts_in by) (acts_of_root parent.new) }
{
    let Pass { seat, .. } = by;
    join_seats::<T, L, O, M>(table, &mut parent.seat, seat);
    look_round::<T, L, O, M>(table, &mut parent.seat);
    parent.out -= 1;
}
