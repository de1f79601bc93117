//! Why the program failed, and how it says so.

ghost use Rattle.std.specs.Prelude.{◌≡◌, ◌↔◌, ℕ};
ghost use Rattle.audit.specs.declared.faults.ReadFault.{ReadFault};
ghost use Rattle.relay.specs.declared.faults.RelayFault.{RelayFault};
ghost use Rattle.lockfree_tool.specs.declared.failure.Failure.TheVariants.{CommandLine, File as FileFailed, FileUnopened, Output as OutputFailed, Relay as RelayFailed, Script, ScriptUnopened};
ghost use Rattle.script_replay.specs.declared.fault.ReplayFault.{ReplayFault};

use audit::ReadFault;
use file_relay::ToolFault;
use relay::RelayFault;
use script_replay::ReplayFault;
use thiserror::Error;

/// Why the program failed. The program prints the message after its name.
#[derive(Clone, Copy, Debug, PartialEq, Eq, Error)]
pub enum Failure {
    /// The arguments of the command line are refused.
    #[error("bad command line")]
    CommandLine,
    /// The script's file could not be opened.
    #[error("script: cannot be opened")]
    ScriptUnopened,
    /// The script was not replayed.
    #[error("script: {0}")]
    Script(ReplayFault),
    /// The file of this number, from 1, could not be opened.
    #[error("file {0}: cannot be opened")]
    FileUnopened(u64),
    /// The file of this number, from 1, was not read.
    #[error("file {0}: {1}")]
    File(u64, ReadFault),
    /// The files were read, and their relay failed.
    #[error("relay: {0}")]
    Relay(RelayFault),
    /// The replies or the outcome could not be written.
    #[error("output: write failed")]
    Output,
}

impl Failure {
    /// The status that the program ends with.
    pub fn status(self) -> u8
        ensures command_line { self ≡ CommandLine → result ≡ 2 }
        ensures script_unopened { self ≡ ScriptUnopened → result ≡ 3 }
        ensures script { (fault : ReplayFault) → self ≡ Script fault → result ≡ 3 }
        ensures file_unopened { (number : ℕ) → self ≡ FileUnopened number → result ≡ 3 }
        ensures file { (number : ℕ) (fault : ReadFault) → self ≡ FileFailed number fault
            → result ≡ 3 }
        ensures relay { (fault : RelayFault) → self ≡ RelayFailed fault → result ≡ 4 }
        ensures output { self ≡ OutputFailed → result ≡ 5 }
    {
        match self {
            Failure::CommandLine => 2,
            Failure::ScriptUnopened => 3,
            Failure::Script(_) => 3,
            Failure::FileUnopened(_) => 3,
            Failure::File(_, _) => 3,
            Failure::Relay(_) => 4,
            Failure::Output => 5,
        }
    }
}

impl From<ReplayFault> for Failure {
    ghost use Rattle.std.specs.Prelude.{◌≡◌};
    ghost use Rattle.lockfree_tool.specs.Failure.{failure_of};

    ghost from_gives = { λ fault failure. failure ≡ failure_of fault };

    fn from(fault: ReplayFault) -> Failure {
        match fault {
            ReplayFault::Output => Failure::Output,
            fault => Failure::Script(fault),
        }
    }
}

impl From<ToolFault> for Failure {
    ghost use Rattle.std.specs.Prelude.{◌≡◌};
    ghost use Rattle.lockfree_tool.specs.Failure.{relay_failure_of};

    ghost from_gives = { λ fault failure. failure ≡ relay_failure_of fault };

    fn from(fault: ToolFault) -> Failure {
        match fault {
            ToolFault::File(number, fault) => Failure::File(number, fault),
            ToolFault::Relay(fault) => Failure::Relay(fault),
            ToolFault::Output => Failure::Output,
        }
    }
}
