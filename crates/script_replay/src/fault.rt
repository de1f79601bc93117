//! Why a script was not replayed.

ghost use Rattle.std.specs.Prelude.{◌≡◌};
ghost use Rattle.script_replay.specs.declared.fault.ReplayFault.TheVariants.{NoMemory};

use bounded_model::MakeRefused;
use script::ScriptFault;
use std::alloc::{AllocError, AllocFailed};
use thiserror::Error;

/// Why a script was not replayed. The message of a fault is the cause that the program prints.
#[derive(Clone, Copy, Debug, PartialEq, Eq, Error)]
pub enum ReplayFault {
    /// The allocator had no memory.
    #[error("no memory")]
    NoMemory,
    /// A read failed.
    #[error("read failed")]
    Device,
    /// The script's last line has no newline.
    #[error("last line has no newline")]
    NoFinalNewline,
    /// The script has more than `MAX_SCRIPT_LEN` bytes, or took more than `MAX_READS` reads.
    #[error("script is too long")]
    TooLong,
    /// This line, counted from 1, is the first that a script cannot have there.
    #[error("line {0} is not a command")]
    BadLine(u64),
    /// A write failed.
    #[error("write failed")]
    Output,
}

impl From<AllocError> for ReplayFault {
    ghost from_gives = { λ _ fault. fault ≡ NoMemory };

    fn from(_: AllocError) -> ReplayFault {
        ReplayFault::NoMemory
    }
}

impl<T: Drop> From<AllocFailed<T>> for ReplayFault {
    ghost from_gives = { λ _ fault. fault ≡ NoMemory };

    fn from(_: AllocFailed<T>) -> ReplayFault {
        ReplayFault::NoMemory
    }
}

impl From<MakeRefused> for ReplayFault {
    ghost from_gives = { λ _ fault. fault ≡ NoMemory };

    fn from(_: MakeRefused) -> ReplayFault {
        ReplayFault::NoMemory
    }
}

impl From<ScriptFault> for ReplayFault {
    ghost use Rattle.std.specs.Prelude.{◌≡◌};
    ghost use Rattle.script_replay.specs.Faults.{replay_fault_of};

    ghost from_gives = { λ found fault. fault ≡ replay_fault_of found };

    fn from(fault: ScriptFault) -> ReplayFault {
        match fault {
            ScriptFault::NoMemory => ReplayFault::NoMemory,
            ScriptFault::NoFinalNewline => ReplayFault::NoFinalNewline,
            ScriptFault::BadLine(number) => ReplayFault::BadLine(number),
        }
    }
}
