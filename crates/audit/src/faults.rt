//! Why a message file was refused, and why a text was not written whole.

ghost use Rattle.std.specs.Prelude.{◌≡◌};

use std::alloc::{AllocError, AllocFailed};
use thiserror::Error;

/// Why a message file was refused: the first fault met as its bytes are read.
#[derive(Clone, Copy, Debug, PartialEq, Eq, Error)]
pub enum ReadFault {
    /// The allocator had no memory.
    #[error("no memory")]
    NoMemory,
    /// A read failed.
    #[error("read failed")]
    Device,
    /// This line, counted from 1, has more than [`MAX_LINE`](crate::MAX_LINE) bytes.
    #[error("line {0} is too long")]
    LineTooLong(u64),
    /// The end came within a line.
    #[error("last line has no newline")]
    NoFinalNewline,
    /// A line after the first [`MAX_LINES`](crate::MAX_LINES) began.
    #[error("too many lines")]
    TooMany,
    /// The end had not come after [`MAX_READS`](crate::MAX_READS) reads.
    #[error("too many reads")]
    TooLong,
}

impl From<AllocError> for ReadFault {
    ghost use Rattle.audit.specs.declared.faults.ReadFault.TheVariants.{NoMemory};

    ghost from_gives = { λ _ fault. fault ≡ NoMemory };

    fn from(_error: AllocError) -> ReadFault {
        ReadFault::NoMemory
    }
}

impl<T: Drop> From<AllocFailed<T>> for ReadFault {
    ghost use Rattle.audit.specs.declared.faults.ReadFault.TheVariants.{NoMemory};

    ghost from_gives = { λ _ fault. fault ≡ NoMemory };

    fn from(_error: AllocFailed<T>) -> ReadFault {
        ReadFault::NoMemory
    }
}

/// Why a text was not written whole.
#[derive(Clone, Copy, Debug, PartialEq, Eq, Error)]
pub enum AuditFault {
    /// The writer failed after this many bytes of the text.
    #[error("write failed")]
    Write(u64),
}
