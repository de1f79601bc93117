//! Which operation a pass begins.
use std::snapshot::Snapshot;

/// The operation that a pass makes its first step of. Later steps need no name: the pass's line
/// says where it is. For proofs alone, a put shows its value.
#[derive(Drop)]
pub enum Operation<T> {
    Put(Snapshot<T>),
    Take,
    Close,
    Shut,
    Look,
    Len,
    Gauge,
}
