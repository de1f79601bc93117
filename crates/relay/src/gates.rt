//! A gate before each try of a worker, by which a test holds threads where it wants them.

/// What each worker passes before each put or take that it tries.
pub trait Gate {
    /// Worker `who` is about to make its try number `call`. A worker's tries count from 0, and the
    /// count stays at `u64::MAX`. The producers come first, in the order of their inputs, and then
    /// the consumers.
    fn pass(&self, who: u64, call: u64);
}

/// The gate that holds nobody.
#[derive(Clone, Copy, Debug, Default)]
pub struct FreeGate;

impl Gate for FreeGate {
    fn pass(&self, _who: u64, _call: u64) {}
}
