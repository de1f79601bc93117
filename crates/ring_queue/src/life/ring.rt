//! The ring, its passes and its root.
ghost use Rattle.std.specs.Prelude.{◌≡◌, ◌+◌, ◌<◌, ◌≤◌};
ghost use Rattle.bounded_model.specs.declared.container.TheConstants.{MIN_PASSES, MAX_PASSES};
ghost use Rattle.ring_table.specs.Layout.{spread, words_for};
ghost use Rattle.tagged_index.specs.Limits.{capacity_of, passes_of};
ghost use Rattle.tagged_index.specs.declared.word.TheConstants.{NULL};

use crate::life::spare::Spare;
use crate::rule::Ringed;
use atomic_table::{Shared, Table};
use machine::View;
use ring_table::layout::HEAD;
use ring_table::{Operation, SeatLine};
use running::{Free, HasTable, Keeping, OnTable, Running, Tie};
use std::alloc::Global;
use tagged_index::Limits;

/// A bounded queue, first in, first out, for a number of passes that is fixed when it is made. Its
/// history keeps the rule `D`, which a client may give it.
#[derive(Drop)]
pub struct RingQueue<T, D: Tie<T> = Free> {
    /// The words and values. Only calls change them.
    pub table: Table<
        Option<T>,
        View<T, SeatLine<T>>,
        Limits,
        Running<Operation<T>, Ringed<D>>,
        Global,
    >,
    /// What it was made with: the key of its table.
    pub limits: Limits,
    /// How far apart the words of two slots are. Kept, so that no walk computes it.
    pub(crate) apart: usize,
    /// The word after that of the last slot. Kept for the same reason.
    pub(crate) end: usize,
    pub ghost keyed: { table.shared.key ≡ limits },
    pub ghost spreads: { apart ≡ spread (capacity_of table.shared.key) },
    pub ghost ends: { end ≡ words_for (capacity_of table.shared.key) },
    pub ghost some_word: { 0 < table.shared.table_id.words },
    pub ghost words: { table.shared.table_id.words ≡ words_for (capacity_of table.shared.key) },
    pub ghost slots: { table.shared.table_id.slots
        ≡ capacity_of table.shared.key + passes_of table.shared.key },
    pub ghost small: { capacity_of table.shared.key + passes_of table.shared.key ≤ NULL },
    pub ghost some_passes: { MIN_PASSES ≤ passes_of table.shared.key },
    pub ghost few_passes: { passes_of table.shared.key ≤ MAX_PASSES },
}

/// A thread's right to call a ring, one call at a time. It has eight bytes: four by which its calls
/// know whether to wait, and the number of its spare cell.
pub type Pass<T> = running::PassWith<T, SeatLine<T>, Spare>;

/// Comes with a new ring, gives passes and takes them back. `finish` needs it. Its stock is the
/// spare cells of the passes that are not out. The root gives the last one next.
pub type Root<T> = running::RootWith<T, SeatLine<T>, Vec<Spare>>;

/// What a pass had seen when the note was made. It has no bytes.
pub type Note<T> = running::Note<T, SeatLine<T>>;

/// What an operation has answered, and which cell is the spare one of its pass now.
pub type Answered<R> = running::Answered<Spare, R>;

impl<T, D: Tie<T>> OnTable for RingQueue<T, D> {
    ghost key = { λ c. c.table.shared.key };

    ghost id = { λ c. c.table.shared.table_id };

    // A position near the front, which only some takes change. So a pass may miss that another
    // thread was busy. It then waits a little shorter than it could, and no promise depends on
    // that.
    #[inline(always)]
    fn watched(&self) -> usize {
        HEAD
    }
}

impl<T, D: Tie<T>> HasTable<T, SeatLine<T>, Operation<T>, Ringed<D>> for RingQueue<T, D> {
    #[inline(always)]
    fn table(
        &self,
    ) -> &Shared<Option<T>, View<T, SeatLine<T>>, Limits, Running<Operation<T>, Ringed<D>>> {
        &self.table.shared
    }
}

impl<T, D: Tie<T>> Keeping<SeatLine<T>, Spare> for RingQueue<T, D> {
    ghost use Rattle.ring_queue.specs.Calls.{keeps};

    ghost keeps = { keeps };
}
