//! The queue's machine.
use queue_machine::Line;
use queue_table::Operation;
use queue_table::layout::{CELL_LIST, CELLS, NODES, cell_link, node_link};
use running::{Lawful, ListMachine, Machine, Tie};
use std::marker::PhantomData;

/// The queue of Michael and Scott as a machine on a table, whose history keeps the rule `D`.
pub struct Queued<D> {
    marker: PhantomData<D>,
}

impl<T, D: Tie<T>> Machine<T, Line<T>, Operation<T>> for Queued<D> {
    ghost use Rattle.queue_table.specs.Lines.{names};
    ghost use Rattle.ms_queue.specs.code.Machine.{machine_for};

    ghost names = { names };

    ghost machine = { machine_for D.rule };
}

impl<T, D: Tie<T>> Lawful<T, Line<T>, Operation<T>> for Queued<D> {
    ghost use Rattle.tagged_index.specs.Limits.{capacity_of, tag_limit_of};
    ghost use Rattle.queue_table.proofs.Laws.{lawful};

    ghost lawful = { λ limits. lawful (capacity_of limits) (tag_limit_of limits) D.rule D.is_tie };
}

impl<T, D: Tie<T>> ListMachine<T, Line<T>, Operation<T>, 2> for Queued<D> {
    ghost use Rattle.tagged_index.specs.Limits.{capacity_of, tag_limit_of};
    ghost use Rattle.queue_table.specs.Lists.{lists};
    ghost use Rattle.queue_table.proofs.Hosts.{list_laws};

    ghost lists = { lists };

    #[inline]
    fn top(list: usize) -> usize {
        if list == CELL_LIST { CELLS } else { NODES }
    }

    #[inline]
    fn link(list: usize, index: u32) -> usize {
        if list == CELL_LIST {
            cell_link(index)
        } else {
            node_link(index)
        }
    }

    #[inline]
    fn keeps_tag(_list: usize) -> bool {
        true
    }

    ghost laws = { λ limits. list_laws T (capacity_of limits) (tag_limit_of limits)
        D.rule D.is_tie };
}
