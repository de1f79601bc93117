//! Loads of a list's top and of a link, and stores into a link. A load can stand for such a store.
ghost use Rattle.std.specs.Prelude.{◌≡◌, ◌<◌, ◌≤◌, IsTrue, IsFalse};
ghost use Rattle.tagged_index.specs.declared.word.TheConstants.{NULL};
ghost use Rattle.index_list.specs.Kinds.{read_top, read_link, write_link};
ghost use Rattle.index_list.specs.Results.{Loaded, Stored};

use crate::host::ListHost;
use crate::told::{load_as, store_as};
use atomic_table::{Seat, Shared};
use std::marker::Brand;
use tagged_index::Tagged;

/// Loads the top of a list.
#[inline]
pub fn load_top<S, V, K, P: ListHost<S, V, K, L>, const L: usize>(
    table: &Shared<S, V, K, P>,
    seat: &mut Seat<S, V>,
    list: usize,
    line: &P::Line,
) -> Tagged
    requires table { seat.old.table_id ≡ table.now.table_id }
    requires list { (list < L) × (P.layout.top list < table.now.table_id.words) }
    requires may { (P.host table.now.key).may line.now list read_top seat.old.me.0 }
    ensures seat { (seat.new.table_id ≡ seat.old.table_id) × (seat.new.id ≡ seat.old.id) }
    ensures step { Loaded P.layout (P.host table.now.key) (P.holds table.now.key) line.now seat.old.id
        list read_top (P.layout.top list) result seat.old.me seat.new.me }
{
    let word = load_as::<S, V, K, P, usize, P::Line, Brand>(table, seat, P::top(list), list, line);
    Tagged::from_word(word)
}

/// Loads the link of an index, also of one that the seat doesn't hold.
#[inline]
pub fn load_link<S, V, K, P: ListHost<S, V, K, L>, const L: usize>(
    table: &Shared<S, V, K, P>,
    seat: &mut Seat<S, V>,
    list: usize,
    index: u32,
    line: &P::Line,
) -> u64
    requires table { seat.old.table_id ≡ table.now.table_id }
    requires list { (list < L) × (index ≤ NULL)
        × (P.layout.link list index < table.now.table_id.words) }
    requires may { (P.host table.now.key).may line.now list (read_link index) seat.old.me.0 }
    ensures seat { (seat.new.table_id ≡ seat.old.table_id) × (seat.new.id ≡ seat.old.id) }
    ensures step { Loaded P.layout (P.host table.now.key) (P.holds table.now.key) line.now seat.old.id
        list (read_link index) (P.layout.link list index) result seat.old.me seat.new.me }
{
    let at = P::link(list, index);
    load_as::<S, V, K, P, (usize, u32), P::Line, Brand>(table, seat, at, (list, index), line)
}

/// Stores `next` in the link of a held index.
#[inline]
pub fn store_link<S, V, K, P: ListHost<S, V, K, L>, const L: usize>(
    table: &Shared<S, V, K, P>,
    seat: &mut Seat<S, V>,
    list: usize,
    index: u32,
    next: u64,
    line: &P::Line,
)
    requires table { seat.old.table_id ≡ table.now.table_id }
    requires list { (list < L) × (index ≤ NULL)
        × (P.layout.link list index < table.now.table_id.words) }
    requires may { (P.host table.now.key).may line.now list (write_link index next) seat.old.me.0 }
    ensures seat { (seat.new.table_id ≡ seat.old.table_id) × (seat.new.id ≡ seat.old.id) }
    ensures step { Stored P.layout (P.host table.now.key) (P.holds table.now.key) line.now seat.old.id
        list (write_link index next) (P.layout.link list index) next seat.old.me seat.new.me }
{
    let word = P::link(list, index);
    let about = (list, index);
    store_as::<S, V, K, P, (usize, u32), P::Line, Brand>(table, seat, word, next, about, line);
}

/// Loads the link of a held index, and returns whether it is `next`. If it is, this load was the
/// store of `next`, which would leave the link as it is. If it is not, nothing was done, and the
/// caller must still make the store.
#[inline]
pub fn keep_link<S, V, K, P: ListHost<S, V, K, L>, const L: usize>(
    table: &Shared<S, V, K, P>,
    seat: &mut Seat<S, V>,
    list: usize,
    index: u32,
    next: u64,
    line: &P::Line,
) -> bool
    requires table { seat.old.table_id ≡ table.now.table_id }
    requires list { (list < L) × (index ≤ NULL)
        × (P.layout.link list index < table.now.table_id.words) }
    requires may { (P.host table.now.key).may line.now list (write_link index next) seat.old.me.0 }
    ensures seat { (seat.new.table_id ≡ seat.old.table_id) × (seat.new.id ≡ seat.old.id) }
    ensures step { IsTrue result → Stored P.layout (P.host table.now.key) (P.holds table.now.key)
        line.now seat.old.id list (write_link index next) (P.layout.link list index) next
        seat.old.me seat.new.me }
    ensures other { IsFalse result → seat.new.me ≡ seat.old.me }
{
    let at = P::link(list, index);
    let about = (list, index, next);
    let found = load_as::<S, V, K, P, (usize, u32, u64), P::Line, Brand>(
        table, seat, at, about, line,
    );
    found == next
}
