//! Makes one call again and again through a new container, on one thread and with no clock, so that
//! the instructions of the call can be counted. `tests/instructions` counts them, and gives these
//! words:
//!
//! `--kind stack|queue|ring --capacity N --call pair|refused-put|refused-take|look --items TIMES`
//!
//! Without words it makes each call a hundred times through each container.
#![tactic(auto)]

ghost use Rattle.std.specs.Prelude.{◌≤◌, IfOk};

mod repeating;
mod words;

use crate::repeating::repeat;
use crate::words::{Asked, Call, Kind};
use bounded_model::{Container, MIN_PASSES, MakeRefused};
use ms_queue::Queue;
use ring_queue::{MAX_LAPS, RingLimits, RingQueue};
use std::alloc::{AllocError, AllocFailed, Global};
use std::process::ExitCode;
use std::rt::Env;
use std::sync::Wait;
use std::{env, io};
use tagged_index::{Limits, MAX_TAG};
use thiserror::Error;
use treiber_stack::Stack;

#[derive(Debug, Drop, Error)]
enum Fault {
    #[error("the words are --kind, --capacity, --call and --items, each with its value")]
    Words,
    #[error("the capacity is 1 to 1,048,573")]
    Capacity,
    #[error("no memory")]
    NoMemory,
    #[error("the words or the output failed")]
    System(#[from] io::Error),
}

impl From<MakeRefused> for Fault {
    fn from(_: MakeRefused) -> Fault {
        Fault::NoMemory
    }
}

impl From<AllocError> for Fault {
    fn from(_: AllocError) -> Fault {
        Fault::NoMemory
    }
}

impl<T: Drop> From<AllocFailed<T>> for Fault {
    fn from(_: AllocFailed<T>) -> Fault {
        Fault::NoMemory
    }
}

// Makes the calls through a new container; returns how many were answered as their name says.
fn count<R: Wait>(rt: &R, alloc: Global, asked: Asked) -> Result<u32, Fault>
    ensures { IfOk result (λ made. made ≤ asked.times) }
{
    let Asked {
        kind,
        capacity,
        call,
        times,
    } = asked;
    let limits = Limits::of(capacity, MAX_TAG).ok_or(Fault::Capacity)?;
    match kind {
        Kind::Stack => {
            let (stack, mut root) = Stack::new(alloc, limits)?;
            let Some(pass) = stack.split(&mut root) else {
                unreachable!()
            };
            Ok(repeat::<Stack<u64>, R>(rt, &stack, pass, call, times))
        }
        Kind::Queue => {
            let (queue, mut root) = Queue::new(alloc, limits)?;
            let Some(pass) = queue.split(&mut root) else {
                unreachable!()
            };
            Ok(repeat::<Queue<u64>, R>(rt, &queue, pass, call, times))
        }
        Kind::Ring => {
            let limits = RingLimits::of(capacity, MAX_LAPS, MIN_PASSES).ok_or(Fault::Capacity)?;
            let (ring, mut root) = RingQueue::new(alloc, limits)?;
            let Some(pass) = ring.split(&mut root) else {
                unreachable!()
            };
            Ok(repeat::<RingQueue<u64>, R>(rt, &ring, pass, call, times))
        }
    }
}

// Each call a hundred times through each container.
fn try_out<R: AllocGlobal + Print + Wait>(rt: &R) -> Result<(), Fault> {
    for kind in [Kind::Stack, Kind::Queue, Kind::Ring] {
        for call in [Call::Pair, Call::RefusedPut, Call::RefusedTake, Call::Look] {
            let asked = Asked {
                kind,
                capacity: 8,
                call,
                times: 100,
            };
            let made = count(rt, rt.alloc(), asked)?;
            println!(rt; "{kind:?} {call:?}: {made} of 100")?;
        }
    }
    Ok(())
}

fn run<R: AllocGlobal + Env + Print + Wait>(rt: &R) -> Result<(), Fault> {
    let words: Vec<String> = env::args(rt)?.collect(rt.alloc())?;
    if words.len() < 2 {
        return try_out(rt);
    }
    let mut texts = Vec::new(rt.alloc());
    for word in &words {
        texts.push(word.as_str())?;
    }
    let asked = Asked::of(texts.as_slice()).ok_or(Fault::Words)?;
    let made = count(rt, rt.alloc(), asked)?;
    println!(rt; "calls made: {made}")?;
    Ok(())
}

fn main(rt: HostRuntime) -> ExitCode {
    match run(&rt) {
        Ok(()) => ExitCode::SUCCESS,
        Err(fault) => {
            // If standard error fails too, nothing is left to do.
            let _ = eprintln!(rt; "call_counts: {fault}");
            ExitCode::FAILURE
        }
    }
}
