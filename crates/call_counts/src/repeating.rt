//! One call, made again and again.

ghost use Rattle.std.specs.Prelude.{◌≤◌};

use crate::words::Call;
use bounded_model::{Container, PutRefused, Stepwise, TakeRefused};
use std::sync::Wait;

// Puts as many values as there is room for.
fn fill<C: Container<u64>, R: Wait>(rt: &R, container: &C, by: C::Pass) -> C::Pass
    requires { C.is_pass container.now by }
    ensures { C.is_pass container.now result }
{
    let mut pass = by;
    for item in 0..container.capacity() {
        let (back, _) = container.put(rt, pass, u64::from(item));
        pass = back;
    }
    pass
}

// How many puts in a row go in and are taken again at once; at most `times` are made.
fn pairs<C: Container<u64>, R: Wait>(rt: &R, container: &C, by: C::Pass, times: u32) -> u32
    requires { C.is_pass container.now by }
    ensures { result ≤ times }
{
    let mut pass = by;
    for made in 0..times {
        let (back, put) = container.put(rt, pass, u64::from(made));
        let (back, taken) = container.take(rt, back);
        pass = back;
        if put.is_err() || taken.is_err() {
            return made;
        }
    }
    times
}

// How many puts in a row find the container full; at most `times` are made.
fn refused_puts<C: Container<u64>, R: Wait>(rt: &R, container: &C, by: C::Pass, times: u32) -> u32
    requires { C.is_pass container.now by }
    ensures { result ≤ times }
{
    let mut pass = by;
    for made in 0..times {
        let (back, answer) = container.put(rt, pass, u64::from(made));
        pass = back;
        let Err(PutRefused::Full(_)) = answer else {
            return made;
        };
    }
    times
}

// How many takes in a row find the container empty; at most `times` are made.
fn refused_takes<C: Container<u64>, R: Wait>(rt: &R, container: &C, by: C::Pass, times: u32) -> u32
    requires { C.is_pass container.now by }
    ensures { result ≤ times }
{
    let mut pass = by;
    for made in 0..times {
        let (back, answer) = container.take(rt, pass);
        pass = back;
        let Err(TakeRefused::Empty) = answer else {
            return made;
        };
    }
    times
}

// How many looks in a row find a value; at most `times` are made.
fn looks<C: Stepwise<u64>, R: Wait>(rt: &R, container: &C, by: C::Pass, times: u32) -> u32
    requires { C.is_pass container.now by }
    ensures { result ≤ times }
{
    let mut pass = by;
    for made in 0..times {
        let (back, is_empty) = container.look(rt, pass);
        pass = back;
        if is_empty {
            return made;
        }
    }
    times
}

/// Makes this call again and again; returns how many were answered as its name says, one after
/// another. A call that was answered otherwise is the last.
pub fn repeat<C: Stepwise<u64>, R: Wait>(
    rt: &R,
    container: &C,
    by: C::Pass,
    call: Call,
    times: u32,
) -> u32
    requires { C.is_pass container.now by }
    ensures { result ≤ times }
{
    match call {
        Call::Pair => pairs(rt, container, by, times),
        Call::RefusedPut => refused_puts(rt, container, fill(rt, container, by), times),
        Call::RefusedTake => refused_takes(rt, container, by, times),
        Call::Look => looks(rt, container, fill(rt, container, by), times),
    }
}
