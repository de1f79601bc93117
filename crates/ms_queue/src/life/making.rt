//! Making a queue.
ghost use Rattle.std.specs.Prelude.{◌≡◌, ℕ, ◌<◌, ◌≤◌, length, slice_index, IfOk};
ghost use Rattle.tagged_index.specs.Limits.{capacity_of, tag_limit_of};
ghost use Rattle.tagged_index.specs.declared.word.TheConstants.{NULL};
ghost use Rattle.bounded_model.specs.Laws.{fresh};
ghost use Rattle.queue_machine.specs.Answers.{shape};
ghost use Rattle.queue_table.specs.Layout.{words_for, start_at};
ghost use Rattle.ms_queue.specs.Calls.{IsRootOf, IsRootWith, root_in, shape_of};

use crate::life::queue::{Queue, Root};
use atomic_table::Table;
use bounded_model::MakeRefused;
use queue_table::layout;
use running::{Free, Tie};
use std::alloc::{AllocError, Global};
use tagged_index::Limits;

// The words of a new queue.
fn first_words(alloc: Global, capacity: u32) -> Result<Vec<u64>, AllocError>
    requires { capacity ≤ NULL }
    ensures { IfOk result (λ v. (length v.items ≡ words_for capacity)
        × ((k : ℕ) → k < words_for capacity → slice_index v.items k ≡ start_at capacity k)) }
{
    let count = layout::words(capacity);
    let mut words = Vec::with_capacity(alloc, count)?;
    for at in 0..count {
        words.push(layout::start(capacity, at))?;
    }
    Ok(words)
}

impl<T> Queue<T> {
    /// An empty queue, open and not shut, and its root, which has given no pass. It has the capacity
    /// and the tag limit of `limits`. The call takes all memory that the queue ever uses. `NoMemory`
    /// if the allocator has not enough.
    pub fn new(alloc: Global, limits: Limits) -> Result<(Queue<T>, Root<T>), MakeRefused>
        ensures { IfOk result (λ t. (t.0.table.shared.key ≡ limits)
            × IsRootOf t.0 t.1 × (root_in t.1 ≡ fresh)
            × (shape_of t.0 ≡ shape (capacity_of limits) (tag_limit_of limits))) }
    {
        Queue::<T, Free>::new_tied(alloc, limits)
    }
}

impl<T, D: Tie<T>> Queue<T, D> {
    /// Like `new`, for a queue whose history keeps the rule `D`.
    pub fn new_tied(alloc: Global, limits: Limits) -> Result<(Queue<T, D>, Root<T>), MakeRefused>
        ensures { IfOk result (λ t. (t.0.table.shared.key ≡ limits)
            × IsRootWith D.rule t.0 t.1 × (root_in t.1 ≡ fresh)
            × (shape_of t.0 ≡ shape (capacity_of limits) (tag_limit_of limits))) }
    {
        let words = first_words(alloc, limits.capacity())?;
        let count = limits.capacity() as usize;
        let (table, seat) = Table::vacant(alloc, words.as_slice(), count, &limits)?;
        let root = running::Root { seat, out: 0 };
        Ok((Queue { table, limits }, Root { root, stock: () }))
    }
}
