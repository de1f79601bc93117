//! Exchanges of a list's top: takes, gives and marks. Each makes one step of the table, and returns
//! whether it succeeded. If the top was not the one seen, the exchange changes nothing. The number
//! of a list is below `L`.
ghost use Rattle.std.specs.Prelude.{◌≡◌, ◌<◌, ◌≤◌, true, false, IsTrue, IsFalse};
ghost use Rattle.tagged_index.specs.Fields.{index_of, tag_of, fields_of, raised};
ghost use Rattle.tagged_index.specs.declared.word.TheConstants.{MAX_TAG, NULL};
ghost use Rattle.index_list.specs.Kinds.{exchange, new_top, gives, IsSound};
ghost use Rattle.index_list.specs.Results.{Changed, Missed, Brings};
ghost use Rattle.index_list.specs.declared.change.Change.TheVariants.{Take, TakeAll, Give, GiveChain, Mark, Shut};

use crate::change::Change;
use crate::front::Front;
use crate::host::ListHost;
use crate::told::try_as;
use atomic_table::{Seat, Shared};
use std::marker::Brand;
use tagged_index::{NULL, TAG_UNIT, Tagged};

/// Compare-and-swaps the loaded top for its second index, `next`, under the next tag. If it
/// succeeds, the seat has the first index, with its slot. It is the pop of Treiber 1986, with the
/// tag of Boost.Lockfree. The seen tag is below the greatest, and `next` may be null.
#[inline]
pub fn try_take<S, V, K, P: ListHost<S, V, K, L>, const L: usize>(
    table: &Shared<S, V, K, P>,
    seat: &mut Seat<S, V>,
    list: usize,
    seen: Tagged,
    next: u32,
    line: &P::Line,
) -> bool
    requires table { seat.old.table_id ≡ table.now.table_id }
    requires list { (list < L) × (P.layout.top list < table.now.table_id.words) }
    requires may { (P.host table.now.key).may line.now list (exchange (fields_of seen) (Take next))
        seat.old.me.0 }
    requires word { (index_of seen < NULL) × (tag_of seen < MAX_TAG) × (next ≤ NULL) }
    ensures seat { (seat.new.table_id ≡ seat.old.table_id) × (seat.new.id ≡ seat.old.id) }
    ensures won { IsTrue result → Changed P.layout (P.host table.now.key) (P.holds table.now.key)
        line.now seat.old.id list seen (Take next) seat.old.me seat.new.me }
    ensures lost { IsFalse result → Missed P.layout (P.host table.now.key) (P.holds table.now.key)
        line.now seat.old.id list seen (Take next) seat.old.me seat.new.me }
{
    let new = raised(seen, next);
    let change = Change::Take(next);
    exchange_top::<S, V, K, P, L>(table, seat, list, seen, new, change, line)
}

/// Compare-and-swaps the loaded top for null under the next tag. If it succeeds, the seat has the
/// whole list, with its slots. The slot of the list's first or of its last index comes in front.
/// Boost.Lockfree's `consume_all` takes a list in this way. The seen tag is below the greatest.
#[inline]
pub fn try_take_all<S, V, K, P: ListHost<S, V, K, L>, const L: usize>(
    table: &Shared<S, V, K, P>,
    seat: &mut Seat<S, V>,
    list: usize,
    seen: Tagged,
    front: Front,
    line: &P::Line,
) -> bool
    requires table { seat.old.table_id ≡ table.now.table_id }
    requires list { (list < L) × (P.layout.top list < table.now.table_id.words) }
    requires may { (P.host table.now.key).may line.now list (exchange (fields_of seen) (TakeAll front))
        seat.old.me.0 }
    requires word { tag_of seen < MAX_TAG }
    ensures seat { (seat.new.table_id ≡ seat.old.table_id) × (seat.new.id ≡ seat.old.id) }
    ensures won { IsTrue result → Changed P.layout (P.host table.now.key) (P.holds table.now.key)
        line.now seat.old.id list seen (TakeAll front) seat.old.me seat.new.me }
    ensures lost { IsFalse result → Missed P.layout (P.host table.now.key) (P.holds table.now.key)
        line.now seat.old.id list seen (TakeAll front) seat.old.me seat.new.me }
{
    let new = raised(seen, NULL);
    let change = Change::TakeAll(front);
    exchange_top::<S, V, K, P, L>(table, seat, list, seen, new, change, line)
}

/// Compare-and-swaps the loaded top for a held index. If it succeeds, the index stands before the
/// old list, and its slot is home. It is the push of Treiber 1986: the index's link names the seen
/// top's index. The host says whether the tag stays, as in Boost.Lockfree, or rises (`keeps_tag`).
#[inline]
pub fn try_give<S, V, K, P: ListHost<S, V, K, L>, const L: usize>(
    table: &Shared<S, V, K, P>,
    seat: &mut Seat<S, V>,
    list: usize,
    seen: Tagged,
    index: u32,
    line: &P::Line,
) -> bool
    requires table { seat.old.table_id ≡ table.now.table_id }
    requires list { (list < L) × (P.layout.top list < table.now.table_id.words) }
    requires may { (P.host table.now.key).may line.now list (exchange (fields_of seen) (Give index))
        seat.old.me.0 }
    requires word { (index < NULL) × (P.layout.keeps list ≡ false → tag_of seen < MAX_TAG) }
    requires slots { Brings P.layout (P.host table.now.key) (P.holds table.now.key) line.now
        seat.old.id list true (Give index) seat.old.me }
    ensures seat { (seat.new.table_id ≡ seat.old.table_id) × (seat.new.id ≡ seat.old.id) }
    ensures won { IsTrue result → Changed P.layout (P.host table.now.key) (P.holds table.now.key)
        line.now seat.old.id list seen (Give index) seat.old.me seat.new.me }
    ensures lost { IsFalse result → Missed P.layout (P.host table.now.key) (P.holds table.now.key)
        line.now seat.old.id list seen (Give index) seat.old.me seat.new.me }
{
    let new = given::<S, V, K, P, L>(list, seen, index);
    let change = Change::Give(index);
    exchange_top::<S, V, K, P, L>(table, seat, list, seen, new, change, line)
}

/// Compare-and-swaps the loaded top for the first index of the chain that is the seat's whole hand.
/// If it succeeds, the chain stands before the old list, and its slots are home. The chain's last
/// link names the seen top's index. The tag stays or rises as in `try_give`.
#[inline]
pub fn try_give_chain<S, V, K, P: ListHost<S, V, K, L>, const L: usize>(
    table: &Shared<S, V, K, P>,
    seat: &mut Seat<S, V>,
    list: usize,
    seen: Tagged,
    first: u32,
    line: &P::Line,
) -> bool
    requires table { seat.old.table_id ≡ table.now.table_id }
    requires list { (list < L) × (P.layout.top list < table.now.table_id.words) }
    requires may { (P.host table.now.key).may line.now list (exchange (fields_of seen) (GiveChain first))
        seat.old.me.0 }
    requires word { (first ≤ NULL) × (P.layout.keeps list ≡ false → tag_of seen < MAX_TAG) }
    requires slots { Brings P.layout (P.host table.now.key) (P.holds table.now.key) line.now
        seat.old.id list true (GiveChain first) seat.old.me }
    ensures seat { (seat.new.table_id ≡ seat.old.table_id) × (seat.new.id ≡ seat.old.id) }
    ensures won { IsTrue result → Changed P.layout (P.host table.now.key) (P.holds table.now.key)
        line.now seat.old.id list seen (GiveChain first) seat.old.me seat.new.me }
    ensures lost { IsFalse result → Missed P.layout (P.host table.now.key) (P.holds table.now.key)
        line.now seat.old.id list seen (GiveChain first) seat.old.me seat.new.me }
{
    let new = given::<S, V, K, P, L>(list, seen, first);
    let change = Change::GiveChain(first);
    exchange_top::<S, V, K, P, L>(table, seat, list, seen, new, change, line)
}

/// Compare-and-swaps the seen top for the same with its mark set. Index, second mark and tag stay.
#[inline]
pub fn try_mark<S, V, K, P: ListHost<S, V, K, L>, const L: usize>(
    table: &Shared<S, V, K, P>,
    seat: &mut Seat<S, V>,
    list: usize,
    seen: Tagged,
    line: &P::Line,
) -> bool
    requires table { seat.old.table_id ≡ table.now.table_id }
    requires list { (list < L) × (P.layout.top list < table.now.table_id.words) }
    requires may { (P.host table.now.key).may line.now list (exchange (fields_of seen) Mark)
        seat.old.me.0 }
    ensures seat { (seat.new.table_id ≡ seat.old.table_id) × (seat.new.id ≡ seat.old.id) }
    ensures won { IsTrue result → Changed P.layout (P.host table.now.key) (P.holds table.now.key)
        line.now seat.old.id list seen Mark seat.old.me seat.new.me }
    ensures lost { IsFalse result → Missed P.layout (P.host table.now.key) (P.holds table.now.key)
        line.now seat.old.id list seen Mark seat.old.me seat.new.me }
{
    let new = seen.marked();
    exchange_top::<S, V, K, P, L>(table, seat, list, seen, new, Change::Mark, line)
}

/// Compare-and-swaps the seen top for the same with its second mark set. Index, mark and tag stay.
#[inline]
pub fn try_shut<S, V, K, P: ListHost<S, V, K, L>, const L: usize>(
    table: &Shared<S, V, K, P>,
    seat: &mut Seat<S, V>,
    list: usize,
    seen: Tagged,
    line: &P::Line,
) -> bool
    requires table { seat.old.table_id ≡ table.now.table_id }
    requires list { (list < L) × (P.layout.top list < table.now.table_id.words) }
    requires may { (P.host table.now.key).may line.now list (exchange (fields_of seen) Shut)
        seat.old.me.0 }
    ensures seat { (seat.new.table_id ≡ seat.old.table_id) × (seat.new.id ≡ seat.old.id) }
    ensures won { IsTrue result → Changed P.layout (P.host table.now.key) (P.holds table.now.key)
        line.now seat.old.id list seen Shut seat.old.me seat.new.me }
    ensures lost { IsFalse result → Missed P.layout (P.host table.now.key) (P.holds table.now.key)
        line.now seat.old.id list seen Shut seat.old.me seat.new.me }
{
    let new = seen.with_second();
    exchange_top::<S, V, K, P, L>(table, seat, list, seen, new, Change::Shut, line)
}

// Compare-and-swaps the seen top for a new one.
#[inline]
fn exchange_top<S, V, K, P: ListHost<S, V, K, L>, const L: usize>(
    table: &Shared<S, V, K, P>,
    seat: &mut Seat<S, V>,
    list: usize,
    seen: Tagged,
    new: Tagged,
    change: Change,
    line: &P::Line,
) -> bool
    requires table { seat.old.table_id ≡ table.now.table_id }
    requires list { (list < L) × (P.layout.top list < table.now.table_id.words) }
    requires may { (P.host table.now.key).may line.now list (exchange (fields_of seen) change)
        seat.old.me.0 }
    requires new { fields_of new ≡ new_top (P.layout.keeps list) (fields_of seen) change }
    requires sound { IsSound (fields_of seen) change }
    requires slots { Brings P.layout (P.host table.now.key) (P.holds table.now.key) line.now
        seat.old.id list (gives change) change seat.old.me }
    ensures seat { (seat.new.table_id ≡ seat.old.table_id) × (seat.new.id ≡ seat.old.id) }
    ensures won { IsTrue result → Changed P.layout (P.host table.now.key) (P.holds table.now.key)
        line.now seat.old.id list seen change seat.old.me seat.new.me }
    ensures lost { IsFalse result → Missed P.layout (P.host table.now.key) (P.holds table.now.key)
        line.now seat.old.id list seen change seat.old.me seat.new.me }
{
    let at = P::top(list);
    let about = (list, seen, new, change);
    try_as::<S, V, K, P, (usize, Tagged, Tagged, Change), P::Line, Brand>(
        table, seat, at, seen, new, about, line,
    )
}

// The top after a give.
#[inline]
fn given<S, V, K, P: ListHost<S, V, K, L>, const L: usize>(
    list: usize,
    seen: Tagged,
    index: u32,
) -> Tagged
    requires list { list < L }
    requires word { (index ≤ NULL) × (P.layout.keeps list ≡ false → tag_of seen < MAX_TAG) }
    ensures { fields_of result ≡ new_top (P.layout.keeps list) (fields_of seen) (Give index) }
{
    if P::keeps_tag(list) {
        seen.kept(index)
    } else {
        raised(seen, index)
    }
}

/// The word with a new index and the next tag. It does not test the tag, which is below the
/// greatest.
#[inline]
pub fn raised(seen: Tagged, index: u32) -> Tagged
    requires { (index ≤ NULL) × (tag_of seen < MAX_TAG) }
    ensures { fields_of result ≡ raised (fields_of seen) index }
{
    Tagged::from_word(seen.kept(index).word() + TAG_UNIT)
}
