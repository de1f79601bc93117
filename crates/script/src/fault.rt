//! What is wrong with a text that is no script.

ghost use Rattle.std.specs.Prelude.{◌≡◌};
ghost use Rattle.script.specs.declared.fault.ScriptFault.TheVariants.{NoMemory};

use std::alloc::{AllocError, AllocFailed};
use thiserror::Error;

/// Why a text was not read as a script.
#[derive(Clone, Copy, Debug, PartialEq, Eq, Error)]
pub enum ScriptFault {
    /// The allocator had no memory.
    #[error("no memory")]
    NoMemory,
    /// The text's last line has no newline.
    #[error("last line has no newline")]
    NoFinalNewline,
    /// This line, counted from 1, is the first that a script cannot have there.
    #[error("line {0} is not a command")]
    BadLine(u64),
}

impl From<AllocError> for ScriptFault {
    ghost from_gives = { λ _ fault. fault ≡ NoMemory };

    fn from(_: AllocError) -> ScriptFault {
        ScriptFault::NoMemory
    }
}

impl<T: Drop> From<AllocFailed<T>> for ScriptFault {
    ghost from_gives = { λ _ fault. fault ≡ NoMemory };

    fn from(_: AllocFailed<T>) -> ScriptFault {
        ScriptFault::NoMemory
    }
}
