//! A client's own rule on the history of its queue, and what it is good for. A producer puts the
//! frames of a stream, and a consumer takes them in a thread beside it. The rule says that one pass
//! alone puts, and that its put number k is of frame k. Each call owes the rule at its point of
//! effect. So the consumer knows from each take alone that take number k gave frame k, with no check
//! of its sum, no meeting and no join.
#![tactic(auto)]

mod consumer;
mod fault;
mod feed;
mod frame;
mod laws;
mod producer;
mod stream;

ghost use Rattle.std.specs.Prelude.{IfSome};
ghost use Rattle.example_rule.specs.Ends.{IsPassOf, IsProducer, LastIsRight};

use crate::consumer::{Taken, take_all};
use crate::fault::Fault;
use crate::frame::Frame;
use crate::producer::{Producer, produce};
use crate::stream::{Stream, open};
use ms_queue::Pass;
use std::process::ExitCode;
use std::sync::Wait;
use std::thread;
use std::thread::{Promise, Threads};

/// How many frames go through the queue, from number 0 on.
const COUNT: u64 = 10_000;

/// What the consumer's thread concluded by itself, and brings along for the program to print.
#[derive(Drop)]
struct ByNumber {}

impl Promise<Taken> for ByNumber {
    ghost kept_by = { λ p taken. LastIsRight taken };
}

// Takes the frames in a thread of its own, and puts them here. `None` if there was no thread.
fn run_both<R: Threads + Wait + Sync>(
    rt: &R,
    stream: &Stream,
    producer: Producer,
    taker: Pass<Frame>,
) -> Option<Taken>
    requires producer { IsProducer stream.now producer }
    requires taker { IsPassOf stream.now taker }
    ensures { IfSome result LastIsRight }
{
    thread::scope(
        thread::scope_env(),
        rt,
        |scope| -> Option<Taken>
            requires producer { IsProducer stream.now producer }
            requires taker { IsPassOf stream.now taker }
            ensures { IfSome result LastIsRight }
        {
            let taking = scope
                .spawn_with(
                    ByNumber {},
                    move || -> Taken
                        requires { IsPassOf stream.now taker }
                        ensures { LastIsRight result }
                    { take_all(rt, stream, taker) },
                )
                .ok()?;
            produce(rt, stream, producer, COUNT);
            Some(taking.join(rt))
        },
    )
}

fn report<R: AllocGlobal + Print + Threads + Wait + Sync>(rt: &R) -> Result<(), Fault> {
    let (stream, producer, taker) = open(rt.alloc())?;
    let Taken { count, last } = run_both(rt, &stream, producer, taker).ok_or(Fault::NoThread)?;
    let Some((frame, number)) = last else {
        println!(rt; "took no frame")?;
        return Ok(());
    };
    println!(rt;
        "took {count} frames, each with the sum of its number; the last is {number}: {frame:?}"
    )?;
    Ok(())
}

fn main(rt: HostRuntime) -> ExitCode {
    match report(&rt) {
        Ok(()) => ExitCode::SUCCESS,
        Err(fault) => {
            // If standard error fails too, nothing is left to do.
            let _ = eprintln!(rt; "example_rule: {fault}");
            ExitCode::FAILURE
        }
    }
}
