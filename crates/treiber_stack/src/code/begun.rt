//! What an operation was at when some of its steps were begun, for proofs.
ghost use Rattle.std.specs.Prelude.{◌≡◌};

use running::Pass;
use stack_machine::Line;
use stack_table::Operation;
use std::snapshot::Snapshot;

/// An operation and its pass as some of its steps were begun. It has no bytes.
#[derive(Drop)]
pub(crate) struct Begun<T> {
    pub(crate) operation: Snapshot<Operation<T>>,
    pub(crate) pass: Snapshot<Pass<T, Line<T>>>,
}

impl<T> Begun<T> {
    #[inline(always)]
    pub(crate) fn of(operation: &Operation<T>, pass: &Pass<T, Line<T>>) -> Begun<T>
        ensures { (result.operation.value ≡ operation.now) × (result.pass.value ≡ pass.now) }
    {
        Begun {
            operation: Snapshot::of(operation),
            pass: Snapshot::of(pass),
        }
    }
}
