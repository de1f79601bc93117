//! The queue, its passes and its root.
ghost use Rattle.std.specs.Prelude.{◌≡◌, ◌<◌};
ghost use Rattle.tagged_index.specs.Limits.{capacity_of};
ghost use Rattle.queue_table.specs.Layout.{words_for};

use crate::rule::Queued;
use atomic_table::{Shared, Table};
use machine::View;
use queue_machine::Line;
use queue_table::Operation;
use queue_table::layout::CELLS;
use running::{Free, HasTable, Keeping, OnTable, Running, Tie};
use std::alloc::Global;
use tagged_index::Limits;

/// A bounded queue, first in, first out, that many threads share by `&`, each with a pass of its
/// own. Its table has two lists: the free cells and the free nodes. Its history keeps the rule `D`,
/// which a client may give it.
#[derive(Drop)]
pub struct Queue<T, D: Tie<T> = Free> {
    /// The words and values. Only calls change them.
    pub table: Table<Option<T>, View<T, Line<T>>, Limits, Running<Operation<T>, Queued<D>>, Global>,
    /// What it was made with: the key of its table.
    pub limits: Limits,
    pub ghost keyed: { table.shared.key ≡ limits },
    pub ghost some_word: { 0 < table.shared.table_id.words },
    pub ghost words: { table.shared.table_id.words ≡ words_for (capacity_of table.shared.key) },
    pub ghost slots: { table.shared.table_id.slots ≡ capacity_of table.shared.key },
}

/// A thread's right to call a queue, one call at a time. It has four bytes, by which its calls know
/// whether to wait.
pub type Pass<T> = running::PassWith<T, Line<T>, ()>;

/// Comes with a new queue, gives passes and takes them back. `finish` needs it.
pub type Root<T> = running::RootWith<T, Line<T>, ()>;

/// What a pass had seen when the note was made. It has no bytes.
pub type Note<T> = running::Note<T, Line<T>>;

/// What an operation has answered. A queue's pass keeps nothing between its calls.
pub type Answered<R> = running::Answered<(), R>;

impl<T, D: Tie<T>> OnTable for Queue<T, D> {
    ghost key = { λ c. c.table.shared.key };

    ghost id = { λ c. c.table.shared.table_id };

    // The top of the free cells, which each put and each take of a value changes.
    #[inline(always)]
    fn watched(&self) -> usize {
        CELLS
    }
}

impl<T, D: Tie<T>> HasTable<T, Line<T>, Operation<T>, Queued<D>> for Queue<T, D> {
    #[inline(always)]
    fn table(
        &self,
    ) -> &Shared<Option<T>, View<T, Line<T>>, Limits, Running<Operation<T>, Queued<D>>> {
        &self.table.shared
    }
}

impl<T, D: Tie<T>> Keeping<Line<T>, ()> for Queue<T, D> {
    ghost use Rattle.ms_queue.specs.Calls.{keeps};

    ghost keeps = { keeps };
}
