//! Which operation a pass begins.
ghost use Rattle.std.specs.Prelude.{◌≡◌};
ghost use Rattle.bounded_model.specs.Bulk.{somes};
ghost use Rattle.stack_table.specs.Lines.{listed};

use index_list::Front;
use std::snapshot::Snapshot;

/// The operation that a pass makes its steps of. For proofs alone, a put shows its values.
#[derive(Drop)]
pub enum Operation<T> {
    /// A put of a value, and of further ones above it.
    Put(Snapshot<T>, Listed<T>),
    Take,
    Close,
    Shut,
    Look,
    /// A fold of all values, from the first on top down or from the last up.
    Fold(Front),
    Gauge,
}

/// The values that are in some places. It holds none of them, and is for proofs alone: a put that
/// says what it puts would else have to own the values.
#[derive(Drop)]
pub enum Listed<T> {
    End,
    More(Snapshot<T>, Snapshot<Listed<T>>),
}

impl<T> Listed<T> {
    /// The values in these places.
    pub fn of(values: &[Option<T>]) -> Listed<T>
        ensures { listed result ≡ somes values.now }
    {
        let mut list = Listed::End;
        for back in 0..values.len() {
            let at = values.len() - 1 - back;
            if let Some(value) = &values[at] {
                let others = Snapshot::of(&list);
                list = Listed::More(Snapshot::of(value), others);
            }
        }
        list
    }
}
