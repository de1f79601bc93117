//! Why files were not relayed.

ghost use Rattle.std.specs.Prelude.{◌≡◌};
ghost use Rattle.file_relay.specs.declared.tool_fault.ToolFault.TheVariants.{Output, Relay};
ghost use Rattle.relay.specs.declared.faults.RelayFault.TheVariants.{NoMemory};

use audit::{AuditFault, ReadFault};
use bounded_model::MakeRefused;
use relay::RelayFault;
use std::alloc::AllocError;
use thiserror::Error;

/// Why files were not relayed, or the outcome not written. The program prints the message after its
/// name.
#[derive(Clone, Copy, Debug, PartialEq, Eq, Error)]
pub enum ToolFault {
    /// The file of this number, from 1, was not read.
    #[error("file {0}: {1}")]
    File(u64, ReadFault),
    /// The files were read, and the relay failed.
    #[error("relay: {0}")]
    Relay(RelayFault),
    /// A write failed.
    #[error("output: write failed")]
    Output,
}

impl From<AuditFault> for ToolFault {
    ghost from_gives = { λ _ fault. fault ≡ Output };

    fn from(_: AuditFault) -> ToolFault {
        ToolFault::Output
    }
}

impl From<RelayFault> for ToolFault {
    ghost from_gives = { λ cause fault. fault ≡ Relay cause };

    fn from(cause: RelayFault) -> ToolFault {
        ToolFault::Relay(cause)
    }
}

impl From<AllocError> for ToolFault {
    ghost from_gives = { λ _ fault. fault ≡ Relay NoMemory };

    fn from(_: AllocError) -> ToolFault {
        ToolFault::Relay(RelayFault::NoMemory)
    }
}

impl From<MakeRefused> for ToolFault {
    ghost from_gives = { λ _ fault. fault ≡ Relay NoMemory };

    fn from(_: MakeRefused) -> ToolFault {
        ToolFault::Relay(RelayFault::NoMemory)
    }
}
