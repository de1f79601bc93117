//! Why the program ends early.
use bounded_model::MakeRefused;
use std::io;
use thiserror::Error;

#[derive(Debug, Drop, Error)]
pub enum Fault {
    #[error("no memory for the queue")]
    Make(#[from] MakeRefused),
    #[error("no pass")]
    NoPass,
    #[error("no thread")]
    NoThread,
    #[error("output failed")]
    Output(#[from] io::Error),
}
