//! A table of three cells, all on its list, and steps of its seats.
ghost use Rattle.std.specs.Prelude.{◌≡◌, ◌<◌, ◌≤◌, ◌+◌, [], IsTrue, IsFalse, IfSome};
ghost use Rattle.tagged_index.specs.Fields.{fields_of, index_of};
ghost use Rattle.tagged_index.specs.declared.word.TheConstants.{NULL};
ghost use Rattle.cell_list.specs.Cells.{layout, host, top_read};
ghost use Rattle.cell_list.specs.declared.knows.Knows.TheVariants.{Nothing, Top, Below, Has, Linked};

use atomic_table::{Seat, Shared, Split, Table, TableRule};
use cell_list::Knows;
use index_list::{ListHost, load_link, load_top, store_link, try_give, try_take};
use std::alloc::Global;
use std::process::Abort;
use tagged_index::{NULL, Tagged};

/// The tag at which no take is made.
pub(crate) const TAG_LIMIT: u64 = 15;

/// The list's rule and host. The table's key is its tag limit.
pub(crate) struct Cells;

impl TableRule<(), Knows, u64> for Cells {
    ghost use Rattle.cell_list.specs.Cells.{Rule};

    ghost holds = { λ limit. Rule limit };

    ghost first = { λ _. Nothing };
}

impl ListHost<(), Knows, u64, 1> for Cells {
    ghost use Rattle.cell_list.proofs.Laws.{cells_keep};

    type Line = ();

    ghost layout = { layout };

    ghost host = { λ limit. host _ _ limit };

    fn top(_list: usize) -> usize {
        0
    }

    fn link(_list: usize, index: u32) -> usize {
        index as usize + 1
    }

    fn keeps_tag(_list: usize) -> bool {
        true
    }

    ghost laws = { λ limit. cells_keep _ _ limit };
}

struct Newcomer;

impl Split<Knows> for Newcomer {
    ghost left = { λ v. v };

    ghost right = { λ _. Nothing };
}

pub(crate) type Cell = Seat<(), Knows>;

/// The table and its first seat.
pub(crate) fn made<R: Abort + AllocGlobal>(rt: &R) -> (Table<(), Knows, u64, Cells, Global>, Cell)
    ensures { (result.0.shared.table_id.words ≡ 4) × (result.0.shared.key ≡ TAG_LIMIT)
        × (result.1.table_id ≡ result.0.shared.table_id) × (result.1.me.0 ≡ Nothing) }
{
    let words = [0, 1, 2, NULL as u64];
    Table::of_words(rt.alloc(), &words, &TAG_LIMIT).expect(rt, "memory")
}

/// A new seat.
pub(crate) fn another(table: &Shared<(), Knows, u64, Cells>, seat: &mut Cell) -> Cell
    requires { (seat.old.table_id ≡ table.now.table_id) × (table.now.table_id.words ≡ 4) }
    ensures { (seat.new.table_id ≡ seat.old.table_id) × (seat.new.me.0 ≡ seat.old.me.0)
        × (result.table_id ≡ seat.old.table_id) × (result.me.0 ≡ Nothing) }
{
    table.split_seat::<Newcomer>(seat)
}

/// Loads the top.
pub(crate) fn look(table: &Shared<(), Knows, u64, Cells>, seat: &mut Cell) -> Tagged
    requires { (seat.old.table_id ≡ table.now.table_id) × (table.now.table_id.words ≡ 4) }
    ensures { (seat.new.table_id ≡ seat.old.table_id)
        × (seat.new.me.0 ≡ top_read seat.old.me.0 (fields_of result)) }
{
    load_top::<(), Knows, u64, Cells, 1>(table, seat, 0, &())
}

/// Loads the link of the index that the top has.
pub(crate) fn look_below<R: Abort>(
    rt: &R,
    table: &Shared<(), Knows, u64, Cells>,
    seat: &mut Cell,
    top: Tagged,
) -> u32
    requires table { (seat.old.table_id ≡ table.now.table_id) × (table.now.table_id.words ≡ 4) }
    requires read { seat.old.me.0 ≡ Top (fields_of top) }
    ensures seat { (seat.new.table_id ≡ seat.old.table_id)
        × (seat.new.me.0 ≡ Below (fields_of top) result) }
    ensures index { result ≤ NULL }
{
    let index = top.index();
    assert!(rt; index < 3);
    let link = load_link::<(), Knows, u64, Cells, 1>(table, seat, 0, index, &());
    assert!(rt; link <= NULL as u64);
    link as u32
}

/// Tries to take the first cell, whose link was read.
pub(crate) fn take<R: Abort>(
    rt: &R,
    table: &Shared<(), Knows, u64, Cells>,
    seat: &mut Cell,
    top: Tagged,
    next: u32,
) -> bool
    requires table { (seat.old.table_id ≡ table.now.table_id) × (table.now.table_id.words ≡ 4)
        × (table.now.key ≡ TAG_LIMIT) }
    requires read { (seat.old.me.0 ≡ Below (fields_of top) next) × (next ≤ NULL) }
    ensures seat { seat.new.table_id ≡ seat.old.table_id }
    ensures won { IsTrue result → seat.new.me.0 ≡ Has (index_of top) }
    ensures lost { IsFalse result → seat.new.me.0 ≡ Nothing }
{
    let index = top.index();
    let tag = top.tag();
    assert!(rt; index < 3 && tag < TAG_LIMIT);
    try_take::<(), Knows, u64, Cells, 1>(table, seat, 0, top, next, &())
}

/// Takes the first cell, if no other seat steps. Returns its index.
pub(crate) fn take_first<R: Abort>(
    rt: &R,
    table: &Shared<(), Knows, u64, Cells>,
    seat: &mut Cell,
) -> u32
    requires table { (seat.old.table_id ≡ table.now.table_id) × (table.now.table_id.words ≡ 4)
        × (table.now.key ≡ TAG_LIMIT) }
    requires nothing { seat.old.me.0 ≡ Nothing }
    ensures seat { seat.new.table_id ≡ seat.old.table_id }
    ensures has { seat.new.me.0 ≡ Has result }
{
    let top = look(table, seat);
    let next = look_below(rt, table, seat, top);
    let is_taken = take(rt, table, seat, top, next);
    assert!(rt; is_taken);
    top.index()
}

/// Gives a cell held back, if no other seat steps.
pub(crate) fn give<R: Abort>(
    rt: &R,
    table: &Shared<(), Knows, u64, Cells>,
    seat: &mut Cell,
    index: u32,
)
    requires table { (seat.old.table_id ≡ table.now.table_id) × (table.now.table_id.words ≡ 4) }
    requires has { seat.old.me.0 ≡ Has index }
    ensures seat { seat.new.table_id ≡ seat.old.table_id }
{
    assert!(rt; index < 3);
    let top = look(table, seat);
    let first = top.index() as u64;
    store_link::<(), Knows, u64, Cells, 1>(table, seat, 0, index, first, &());
    let given = try_give::<(), Knows, u64, Cells, 1>(table, seat, 0, top, index, &());
    assert!(rt; given);
}
