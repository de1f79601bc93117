//! The stack, its passes and its root.
ghost use Rattle.std.specs.Prelude.{◌≡◌, ◌<◌};
ghost use Rattle.tagged_index.specs.Limits.{capacity_of};
ghost use Rattle.stack_table.specs.Layout.{words_for};

use crate::rule::Stacked;
use atomic_table::{Shared, Table};
use machine::View;
use running::{Free, HasTable, Keeping, OnTable, Running, Tie};
use stack_machine::Line;
use stack_table::Operation;
use stack_table::layout::FREE;
use std::alloc::Global;
use tagged_index::Limits;

/// A bounded stack, last in, first out, that many threads share by `&`, each with a pass of its
/// own. Its table has two lists: the stack and the free nodes. Its history keeps the rule `D`,
/// which a client may give it.
#[derive(Drop)]
pub struct Stack<T, D: Tie<T> = Free> {
    /// The words and values. Only calls change them.
    pub table: Table<
        Option<T>,
        View<T, Line<T>>,
        Limits,
        Running<Operation<T>, Stacked<D>>,
        Global,
    >,
    /// What it was made with: the key of its table.
    pub limits: Limits,
    pub ghost keyed: { table.shared.key ≡ limits },
    pub ghost some_word: { 0 < table.shared.table_id.words },
    pub ghost words: { table.shared.table_id.words ≡ words_for (capacity_of table.shared.key) },
    pub ghost slots: { table.shared.table_id.slots ≡ capacity_of table.shared.key },
}

/// A thread's right to call a stack, one call at a time. It has four bytes, by which its calls know
/// whether to wait.
pub type Pass<T> = running::PassWith<T, Line<T>, ()>;

/// Comes with a new stack, gives passes and takes them back. `finish` needs it.
pub type Root<T> = running::RootWith<T, Line<T>, ()>;

/// What a pass had seen when the note was made. It has no bytes.
pub type Note<T> = running::Note<T, Line<T>>;

/// What an operation has answered. A stack's pass keeps nothing between its calls.
pub type Answered<R> = running::Answered<(), R>;

impl<T, D: Tie<T>> OnTable for Stack<T, D> {
    ghost key = { λ c. c.table.shared.key };

    ghost id = { λ c. c.table.shared.table_id };

    // The top of the free nodes, which each put and each take of a value changes.
    #[inline(always)]
    fn watched(&self) -> usize {
        FREE
    }
}

impl<T, D: Tie<T>> HasTable<T, Line<T>, Operation<T>, Stacked<D>> for Stack<T, D> {
    #[inline(always)]
    fn table(
        &self,
    ) -> &Shared<Option<T>, View<T, Line<T>>, Limits, Running<Operation<T>, Stacked<D>>> {
        &self.table.shared
    }
}

impl<T, D: Tie<T>> Keeping<Line<T>, ()> for Stack<T, D> {
    ghost use Rattle.treiber_stack.specs.Calls.{keeps};

    ghost keeps = { keeps };
}
