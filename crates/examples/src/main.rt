//! How the containers are called: eight examples, each a file that can be read alone. Each prints what
//! it found, in this order:
//!
//! - `calls`: one pass puts and takes, and what is left comes out at the end.
//! - `pair`: a producer and a consumer over one queue.
//! - `jobs`: one thread hands jobs to workers.
//! - `stack`: ranges, folds, notes and what else a stack has.
//! - `steps`: a call by single steps, on any container and for values of any type.
//! - `buffers`: threads borrow buffers from a pool.
//! - `notes`: a note that goes along with a message.
//! - `closing`: closing down cleanly.
#![tactic(auto)]

mod buffers;
mod calls;
mod closing;
mod fault;
mod jobs;
mod notes;
mod pair;
mod stack;
mod steps;

use crate::fault::Fault;
use std::process::ExitCode;
use std::sync::Wait;
use std::thread::Threads;

fn show_all<R: AllocGlobal + Print + Threads + Wait + Sync>(rt: &R) -> Result<(), Fault> {
    calls::show(rt)?;
    pair::show(rt)?;
    jobs::show(rt)?;
    stack::show(rt)?;
    steps::show(rt)?;
    buffers::show(rt)?;
    notes::show(rt)?;
    closing::show(rt)
}

fn main(rt: HostRuntime) -> ExitCode {
    match show_all(&rt) {
        Ok(()) => ExitCode::SUCCESS,
        Err(fault) => {
            // If standard error fails too, nothing is left to do.
            let _ = eprintln!(rt; "examples: {fault}");
            ExitCode::FAILURE
        }
    }
}
