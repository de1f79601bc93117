//! Why an example ends early.

use bounded_model::MakeRefused;
use std::alloc::{AllocError, AllocFailed};
use std::io;
use thiserror::Error;
use waiting::SplitRefused;

#[derive(Debug, Drop, Error)]
pub enum Fault {
    #[error("no memory")]
    NoMemory,
    #[error("no pass")]
    NoPass,
    #[error("no thread")]
    NoThread,
    #[error("no job was put")]
    NoJob,
    #[error("a call was not done after 32 steps")]
    Steps,
    #[error("output failed")]
    Output(#[from] io::Error),
}

impl From<AllocError> for Fault {
    fn from(_: AllocError) -> Fault {
        Fault::NoMemory
    }
}

impl<T: Drop> From<AllocFailed<T>> for Fault {
    fn from(_: AllocFailed<T>) -> Fault {
        Fault::NoMemory
    }
}

impl From<MakeRefused> for Fault {
    fn from(_: MakeRefused) -> Fault {
        Fault::NoMemory
    }
}

impl From<SplitRefused> for Fault {
    fn from(refused: SplitRefused) -> Fault {
        match refused {
            SplitRefused::NoMemory => Fault::NoMemory,
            SplitRefused::NoPass => Fault::NoPass,
        }
    }
}
