//! Steps of a table: the caller's proof picks what a step tells. They cost what the table's own
//! steps cost.
ghost use Rattle.std.specs.Prelude.{◌≡◌, ◌↔◌, ℕ, ◌<◌, IsTrue};
ghost use Rattle.atomic_table.specs.Table.{Step, Me};
ghost use Rattle.index_list.specs.Instructions.{MayMake, compare_and_swap, load, store};

use atomic_table::{Play, Seat, Shared, TableRule};
use std::marker::{Brand, PhantomData};
use tagged_index::Tagged;

/// What a step tells its caller: a fact of the step, the seat before, the word and the seat after.
/// The word is the one that the step found. For a store it is the one stored.
///
/// A caller passes `Brand` and picks the fact in its proof. A pick sees only the arguments of the
/// call. `about` and `line` are arguments for the pick: the call does nothing with them.
pub trait Telling<S, V> {
    ghost told: { Step S → Me S V → ℕ → Me S V → Type 0 };
}

impl<S, V> Telling<S, V> for Brand {
    ghost told = { λ _ _ _ _. Unit {0} };
}

struct Told<W> {
    marker: PhantomData<W>,
}

impl<S, V, W: Telling<S, V>> Play<S, V> for Told<W> {
    ghost then = { W.told };
}

/// Loads the word at `at`.
#[inline]
pub fn load_as<S, V, K, P: TableRule<S, V, K>, A: Copy, X, W: Telling<S, V>>(
    table: &Shared<S, V, K, P>,
    seat: &mut Seat<S, V>,
    at: usize,
    about: A,
    line: &X,
) -> u64
    requires table { seat.old.table_id ≡ table.now.table_id }
    requires word { at < table.now.table_id.words }
    requires allowed { MayMake (P.holds table.now.key) seat.old
        (load table.now.table_id.slots at) W.told }
    ensures seat { (seat.new.table_id ≡ seat.old.table_id) × (seat.new.id ≡ seat.old.id) }
    ensures told { W.told (load table.now.table_id.slots at).step
        seat.old.me result seat.new.me }
{
    let _ = about;
    let _ = line;
    table.load::<Told<W>>(seat, at)
}

/// Stores `new` in the word at `at`.
#[inline]
pub fn store_as<S, V, K, P: TableRule<S, V, K>, A: Copy, X, W: Telling<S, V>>(
    table: &Shared<S, V, K, P>,
    seat: &mut Seat<S, V>,
    at: usize,
    new: u64,
    about: A,
    line: &X,
)
    requires table { seat.old.table_id ≡ table.now.table_id }
    requires word { at < table.now.table_id.words }
    requires allowed { MayMake (P.holds table.now.key) seat.old
        (store table.now.table_id.slots at new) W.told }
    ensures seat { (seat.new.table_id ≡ seat.old.table_id) × (seat.new.id ≡ seat.old.id) }
    ensures told { W.told (store table.now.table_id.slots at new).step
        seat.old.me new seat.new.me }
{
    let _ = about;
    let _ = line;
    table.store::<Told<W>>(seat, at, new)
}

/// Compares the word at `at` with `seen`, and swaps `new` in if they are equal. Returns whether
/// they were equal.
#[inline]
pub fn try_as<S, V, K, P: TableRule<S, V, K>, A: Copy, X, W: Telling<S, V>>(
    table: &Shared<S, V, K, P>,
    seat: &mut Seat<S, V>,
    at: usize,
    seen: Tagged,
    new: Tagged,
    about: A,
    line: &X,
) -> bool
    requires table { seat.old.table_id ≡ table.now.table_id }
    requires word { at < table.now.table_id.words }
    requires allowed { MayMake (P.holds table.now.key) seat.old
        (compare_and_swap table.now.table_id.slots at seen new) W.told }
    ensures seat { (seat.new.table_id ≡ seat.old.table_id) × (seat.new.id ≡ seat.old.id) }
    ensures told { (found : ℕ) × (IsTrue result ↔ (found ≡ seen))
        × W.told (compare_and_swap table.now.table_id.slots at seen new).step
        seat.old.me found seat.new.me }
{
    let _ = about;
    let _ = line;
    let found = table.compare_exchange::<Told<W>>(seat, at, seen.word(), new.word());
    found == seen.word()
}
