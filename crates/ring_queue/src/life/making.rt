//! Making a ring.
ghost use Rattle.std.specs.Prelude.{◌≡◌, ℕ, ◌+◌, ◌<◌, ◌≤◌, length, slice_index, vec_capacity, IfOk};
ghost use Rattle.tagged_index.specs.declared.word.TheConstants.{NULL};
ghost use Rattle.bounded_model.specs.Laws.{fresh};
ghost use Rattle.ring_table.specs.Layout.{words_for, start_at};
ghost use Rattle.ring_table.specs.Seats.{cells_from};
ghost use Rattle.ring_queue.specs.code.Machine.{shape_at};
ghost use Rattle.ring_queue.specs.Calls.{cells_of, shape_of, IsRootOf, IsRootWith, root_in};

use crate::life::limits::RingLimits;
use crate::life::ring::{RingQueue, Root};
use crate::life::spare::Spare;
use atomic_table::Table;
use bounded_model::MakeRefused;
use ring_table::layout;
use running::{Free, Tie};
use std::alloc::{AllocError, Global};

// The words of a new ring.
fn first_words(alloc: Global, capacity: u32) -> Result<Vec<u64>, AllocError>
    requires { capacity ≤ NULL }
    ensures { IfOk result (λ v. (length v.items ≡ words_for capacity)
        × ((k : ℕ) → k < words_for capacity → slice_index v.items k ≡ start_at capacity k)) }
{
    let count = layout::words(capacity);
    let mut words = Vec::with_capacity(alloc, count)?;
    for at in 0..count {
        words.push(layout::start(capacity, at))?;
    }
    Ok(words)
}

// The spare cells of all passes: those after the cells that the slots have.
fn first_spares(alloc: Global, capacity: u32, passes: u32) -> Result<Vec<Spare>, AllocError>
    requires { capacity + passes ≤ NULL }
    ensures cells { IfOk result (λ v. cells_of v.items ≡ cells_from capacity passes) }
    ensures room { IfOk result (λ v. passes ≤ vec_capacity v) }
{
    let mut spares = Vec::with_capacity(alloc, passes as usize)?;
    for count in 0..passes {
        spares.push_reserved(Spare {
            index: capacity + (passes - 1 - count),
        });
    }
    Ok(spares)
}

impl<T> RingQueue<T> {
    /// An empty ring, open and not shut, and its root, which has given no pass. It has the capacity,
    /// the laps and the passes of `limits`. The call takes all memory that the ring ever uses.
    /// `NoMemory` if the allocator has not enough.
    pub fn new(alloc: Global, limits: RingLimits) -> Result<(RingQueue<T>, Root<T>), MakeRefused>
        ensures { IfOk result (λ t. (t.0.table.shared.key ≡ limits.limits)
            × IsRootOf t.0 t.1 × (root_in t.1 ≡ fresh)
            × (shape_of t.0 ≡ shape_at T limits.limits)) }
    {
        RingQueue::<T, Free>::new_tied(alloc, limits)
    }
}

impl<T, D: Tie<T>> RingQueue<T, D> {
    /// Like `new`, for a ring whose history keeps the rule `D`.
    pub fn new_tied(
        alloc: Global,
        limits: RingLimits,
    ) -> Result<(RingQueue<T, D>, Root<T>), MakeRefused>
        ensures { IfOk result (λ t. (t.0.table.shared.key ≡ limits.limits)
            × IsRootWith D.rule t.0 t.1 × (root_in t.1 ≡ fresh)
            × (shape_of t.0 ≡ shape_at T limits.limits)) }
    {
        let capacity = limits.capacity();
        let passes = limits.passes();
        let limits = limits.limits;
        let words = first_words(alloc, capacity)?;
        let spares = first_spares(alloc, capacity, passes)?;
        let count = (capacity + passes) as usize;
        let (table, seat) = Table::vacant(alloc, words.as_slice(), count, &limits)?;
        let root = running::Root { seat, out: 0 };
        let stock = spares;
        let ring = RingQueue {
            table,
            limits,
            apart: layout::spread(capacity),
            end: layout::words(capacity),
        };
        Ok((ring, Root { root, stock }))
    }
}
