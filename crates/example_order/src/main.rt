//! What the laws of all calls say to a caller. Two passes of a ring put and take, one hears of the
//! other by a meeting, and both are joined. So their calls are in one order, and at the end in one
//! run. A put that is refused as full says how many values were stored.
#![tactic(auto)]

mod calls;

use crate::calls::{end, put, take_after};
use bounded_model::{Leaving, MakeRefused};
use ring_queue::{MAX_LAPS, RingLimits, RingQueue};
use std::io;
use std::process::ExitCode;
use std::sync::Wait;
use thiserror::Error;

#[derive(Debug, Drop, Error)]
enum Fault {
    #[error("no memory for the ring")]
    Make(#[from] MakeRefused),
    #[error("no pass")]
    NoPass,
    #[error("output failed")]
    Output(#[from] io::Error),
}

fn report<R: AllocGlobal + Print + Wait>(rt: &R) -> Result<(), Fault> {
    // One slot, so that a second put finds the ring full.
    let Some(limits) = RingLimits::of(1, MAX_LAPS, 2) else {
        unreachable!()
    };
    let (ring, mut root) = RingQueue::<u32>::new(rt.alloc(), limits)?;
    let Some(first) = ring.split(&mut root) else {
        unreachable!()
    };
    let Some(second) = ring.split(&mut root) else {
        return Err(Fault::NoPass);
    };
    let (put_first, taken) = take_after(rt, &ring, &mut root, first, second, 7);

    // Both passes are back, so the root has one to give.
    let Some(third) = ring.split(&mut root) else {
        return Err(Fault::NoPass);
    };
    let (third, stored) = put(rt, &ring, third, 8);
    let (third, refused) = put(rt, &ring, third, 9);
    ring.join(&mut root, third);
    let mut rest = end(ring, root);
    println!(rt;
        "put {put_first:?}, took {taken:?}, put {stored:?} and {refused:?}, left {:?}",
        rest.next()
    )?;
    Ok(())
}

fn main(rt: HostRuntime) -> ExitCode {
    match report(&rt) {
        Ok(()) => ExitCode::SUCCESS,
        Err(fault) => {
            // If standard error fails too, nothing is left to do.
            let _ = eprintln!(rt; "example_order: {fault}");
            ExitCode::FAILURE
        }
    }
}
