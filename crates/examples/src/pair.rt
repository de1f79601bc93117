//! Two threads over one queue: a producer puts numbers and closes the queue, a consumer takes until
//! it is closed and empty.

ghost use Rattle.ms_queue.specs.Calls.{IsPassOf};

use crate::fault::Fault;
use bounded_model::Container;
use ms_queue::{Pass, Queue};
use std::sync::Wait;
use std::thread;
use std::thread::Threads;
use tagged_index::{Limits, MAX_TAG};
use waiting::{put_all, take_all_until_closed};

/// How many numbers go through the queue, from 0 on.
const COUNT: u64 = 100_000;

fn produce<R: Wait>(rt: &R, queue: &Queue<u64>, by: Pass<u64>)
    requires { IsPassOf queue.now by }
{
    let (pass, _) = put_all(queue, rt, by, 0..COUNT);
    queue.close(rt, pass);
}

fn consume<R: Wait>(rt: &R, queue: &Queue<u64>, by: Pass<u64>) -> u64
    requires { IsPassOf queue.now by }
{
    let add = |sum: u64, (value, _number): (u64, u64)| sum.wrapping_add(value);
    let (_, sum, _) = take_all_until_closed(queue, rt, by, 0, add);
    sum
}

// Starts the producer, and consumes here. `None` if there was no thread.
fn run_both<R: Threads + Wait + Sync>(
    rt: &R,
    queue: &Queue<u64>,
    first: Pass<u64>,
    second: Pass<u64>,
) -> Option<u64>
    requires first { IsPassOf queue.now first }
    requires second { IsPassOf queue.now second }
{
    thread::scope(
        thread::scope_env(),
        rt,
        |scope| -> Option<u64>
            requires first { IsPassOf queue.now first }
            requires second { IsPassOf queue.now second }
        {
            scope
                .spawn(
                    move ||
                        requires { IsPassOf queue.now first }
                    { produce(rt, queue, first) },
                )
                .ok()?;
            Some(consume(rt, queue, second))
        },
    )
}

pub fn show<R: AllocGlobal + Print + Threads + Wait + Sync>(rt: &R) -> Result<(), Fault> {
    let Some(limits) = Limits::of(64, MAX_TAG) else {
        unreachable!()
    };
    let (queue, mut root) = Queue::new(rt.alloc(), limits)?;
    let (Some(first), Some(second)) = (queue.split(&mut root), queue.split(&mut root)) else {
        unreachable!()
    };
    let sum = run_both(rt, &queue, first, second).ok_or(Fault::NoThread)?;
    println!(rt; "{COUNT} numbers, sum {sum}")?;
    Ok(())
}
