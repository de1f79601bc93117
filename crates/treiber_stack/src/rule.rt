//! The stack's machine.
use running::{Lawful, ListMachine, Machine, Tie};
use stack_machine::Line;
use stack_table::Operation;
use stack_table::layout::{self, FREE, FREE_LIST, TOP};
use std::marker::PhantomData;

/// Treiber's stack as a machine on a table, whose history keeps the rule `D`.
pub struct Stacked<D> {
    marker: PhantomData<D>,
}

impl<T, D: Tie<T>> Machine<T, Line<T>, Operation<T>> for Stacked<D> {
    ghost use Rattle.stack_table.specs.Lines.{names};
    ghost use Rattle.treiber_stack.specs.code.Machine.{machine_for};

    ghost names = { names };

    ghost machine = { machine_for D.rule };
}

impl<T, D: Tie<T>> Lawful<T, Line<T>, Operation<T>> for Stacked<D> {
    ghost use Rattle.tagged_index.specs.Limits.{capacity_of, tag_limit_of};
    ghost use Rattle.stack_table.proofs.Laws.{lawful};

    ghost lawful = { λ limits. lawful (capacity_of limits) (tag_limit_of limits) D.rule D.is_tie };
}

impl<T, D: Tie<T>> ListMachine<T, Line<T>, Operation<T>, 2> for Stacked<D> {
    ghost use Rattle.tagged_index.specs.Limits.{capacity_of, tag_limit_of};
    ghost use Rattle.stack_table.specs.Lists.{lists};
    ghost use Rattle.stack_table.proofs.Hosts.{list_laws};

    ghost lists = { lists };

    #[inline]
    fn top(list: usize) -> usize {
        if list == FREE_LIST { FREE } else { TOP }
    }

    #[inline]
    fn link(_list: usize, index: u32) -> usize {
        layout::link(index)
    }

    #[inline]
    fn keeps_tag(list: usize) -> bool {
        list == FREE_LIST
    }

    ghost laws = { λ limits. list_laws T (capacity_of limits) (tag_limit_of limits)
        D.rule D.is_tie };
}
