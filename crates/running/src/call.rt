//! Containers that lend their table.
ghost use Rattle.std.specs.Prelude.{◌≡◌, ◌<◌};

use crate::code::OnTable;
use crate::rule::{Machine, Running};
use atomic_table::Shared;
use machine::View;
use tagged_index::Limits;

/// A container that lends its table.
pub trait HasTable<T, L, O, M: Machine<T, L, O>>: OnTable {
    /// Its table.
    fn table(&self) -> &Shared<Option<T>, View<T, L>, Limits, Running<O, M>>
        ensures { (result.now.key ≡ Self.key self.now) × (result.now.table_id ≡ Self.id self.now)
            × (0 < result.now.table_id.words) };
}
