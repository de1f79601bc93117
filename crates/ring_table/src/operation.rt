//! Which operation a pass begins.
use std::snapshot::Snapshot;

/// The operation whose first step a pass makes. Later steps need no name: the pass's line says
/// where it is. A put's operation has the value, for proofs alone.
#[derive(Drop)]
pub enum Operation<T> {
    Put(Snapshot<T>),
    Take,
    Close,
    Shut,
    Look,
    Len,
    Gauge,
}
