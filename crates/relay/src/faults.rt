//! Why a relay has no outcome.

ghost use Rattle.std.specs.Prelude.{◌≡◌};
ghost use Rattle.relay.specs.declared.faults.RelayFault.TheVariants.{NoMemory};

use std::alloc::AllocError;
use thiserror::Error;

/// Why a relay has no outcome. Its container and its inputs are gone then.
#[derive(Clone, Copy, Debug, PartialEq, Eq, Error)]
pub enum RelayFault {
    /// There was no memory for the outcome.
    #[error("no memory")]
    NoMemory,
    /// The consumers were to take so little that some message could never be put.
    #[error("too small")]
    TooSmall,
    /// There was no pass for some worker: the most passes that may be out were out.
    #[error("no pass")]
    NoPass,
    /// A worker's thread could not be started. Those that were started have ended.
    #[error("no thread")]
    NoThread,
}

impl From<AllocError> for RelayFault {
    ghost from_gives = { λ _ e. e ≡ NoMemory };

    fn from(_refused: AllocError) -> RelayFault {
        RelayFault::NoMemory
    }
}
