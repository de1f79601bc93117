//! The value in the slot of a held index. The slot is the seat's own: to move its value is no
//! atomic step.
ghost use Rattle.std.specs.Prelude.{◌≡◌, ◌∷◌, Some, None};
ghost use Rattle.atomic_table.specs.Table.{rest};

use atomic_table::{Seat, Shared, TableRule};

/// Moves a value into the empty slot that the seat took last, that of `index`.
#[inline]
pub fn put_in<T, V, K, P: TableRule<Option<T>, V, K>>(
    table: &Shared<Option<T>, V, K, P>,
    seat: &mut Seat<Option<T>, V>,
    index: u32,
    value: T,
)
    requires table { seat.old.table_id ≡ table.now.table_id }
    requires empty { seat.old.me.1 ≡ (index, None) ∷ rest seat.old.me.1 }
    ensures seat { (seat.new.table_id ≡ seat.old.table_id) × (seat.new.id ≡ seat.old.id) }
    ensures put { seat.new.me ≡ (seat.old.me.0, (index, Some value) ∷ rest seat.old.me.1) }
{
    match table.exchange(seat, index as usize, Some(value)) {
        None => {}
        Some(_) => unreachable!(),
    }
}

/// Moves the value out of the slot that the seat took last, that of `index`.
#[inline]
pub fn move_out<T, V, K, P: TableRule<Option<T>, V, K>>(
    table: &Shared<Option<T>, V, K, P>,
    seat: &mut Seat<Option<T>, V>,
    index: u32,
) -> T
    requires table { seat.old.table_id ≡ table.now.table_id }
    requires full { (x : T) × (seat.old.me.1 ≡ (index, Some x) ∷ rest seat.old.me.1) }
    ensures seat { (seat.new.table_id ≡ seat.old.table_id) × (seat.new.id ≡ seat.old.id) }
    ensures value { seat.old.me.1 ≡ (index, Some result) ∷ rest seat.old.me.1 }
    ensures out { seat.new.me ≡ (seat.old.me.0, (index, None) ∷ rest seat.old.me.1) }
{
    match table.exchange(seat, index as usize, None) {
        None => unreachable!(),
        Some(value) => value,
    }
}
