//! The ring's machine.
use ring_table::{Operation, SeatLine};
use running::{Lawful, ListMachine, Machine, Tie};
use std::marker::PhantomData;

/// The ring as a machine on a table, whose history keeps the rule `D`. It has no lists.
pub struct Ringed<D> {
    marker: PhantomData<D>,
}

impl<T, D: Tie<T>> Machine<T, SeatLine<T>, Operation<T>> for Ringed<D> {
    ghost use Rattle.ring_table.specs.Seats.{names};
    ghost use Rattle.ring_queue.specs.code.Machine.{machine_for};

    ghost names = { names };

    ghost machine = { machine_for D.rule };
}

impl<T, D: Tie<T>> Lawful<T, SeatLine<T>, Operation<T>> for Ringed<D> {
    ghost use Rattle.tagged_index.specs.Limits.{capacity_of, passes_of};
    ghost use Rattle.ring_table.proofs.Laws.{lawful};
    ghost use Rattle.ring_queue.specs.code.Machine.{laps_at};

    ghost lawful = { λ limits. lawful (capacity_of limits) (laps_at limits) (passes_of limits)
        D.rule D.is_tie };
}

impl<T, D: Tie<T>> ListMachine<T, SeatLine<T>, Operation<T>, 0> for Ringed<D> {
    ghost use Rattle.tagged_index.specs.Limits.{capacity_of, passes_of};
    ghost use Rattle.ring_table.specs.Lists.{lists};
    ghost use Rattle.ring_table.proofs.Hosts.{list_laws};
    ghost use Rattle.ring_queue.specs.code.Machine.{laps_at};

    ghost lists = { lists };

    #[inline]
    fn top(_list: usize) -> usize {
        0
    }

    #[inline]
    fn link(_list: usize, _index: u32) -> usize {
        0
    }

    #[inline]
    fn keeps_tag(_list: usize) -> bool {
        false
    }

    ghost laws = { λ limits. list_laws T (capacity_of limits) (laps_at limits) (passes_of limits)
        D.rule D.is_tie };
}
