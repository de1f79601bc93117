//! What a stop hands back, on one thread.

use bounded_model::{Container, Order};
use std::process::Abort;
use std::sync::Wait;
use waiting::{PutStopped, TakeStopped, put_all, put_waiting, take_all_until_closed, take_waiting};

// The number that a take has here, after `puts` puts and `takes` takes.
fn number_of_take<C: Container<u64>>(puts: u64, takes: u64) -> u64 {
    match C::ORDER {
        Order::Fifo => takes,
        Order::Lifo => puts.saturating_add(takes),
    }
}

/// Three values go into a container with room for more and come out; it is closed, and shut.
pub(crate) fn stops<C: Container<u64>, R: Abort + Wait>(rt: &R, container: &C, by: C::Pass)
    requires { C.is_pass container.now by }
{
    let (pass, put) = put_waiting(container, rt, by, 6);
    assert_eq!(rt; put, Ok(0));
    let (pass, put) = put_all(container, rt, pass, 7..9);
    assert!(rt; put.is_ok());
    let (pass, taken) = take_waiting(container, rt, pass);
    let first = match C::ORDER {
        Order::Fifo => 6,
        Order::Lifo => 8,
    };
    assert_eq!(rt; taken, Ok((first, number_of_take::<C>(3, 0))));
    let (pass, _) = container.close(rt, pass);
    let (pass, put) = put_waiting(container, rt, pass, 9);
    assert_eq!(rt; put, Err(PutStopped::Closed(9)));
    let (pass, put) = put_all(container, rt, pass, 10..13);
    let Err(unsent) = put else {
        panic!(rt; "a closed container takes no value")
    };
    assert_eq!(rt;
        (unsent.first, unsent.rest),
        (PutStopped::Closed(10), 11..13)
    );
    let digits = |state: u64, (value, _number): (u64, u64)| {
        state.wrapping_mul(10).wrapping_add(value)
    };
    let (pass, folded, why) = take_all_until_closed(container, rt, pass, 0, digits);
    let wanted = match C::ORDER {
        Order::Fifo => 78,
        Order::Lifo => 76,
    };
    assert_eq!(rt; (folded, why), (wanted, TakeStopped::Closed));
    let (pass, taken) = take_waiting(container, rt, pass);
    assert_eq!(rt; taken, Err(TakeStopped::Closed));
    let (pass, _) = container.shut(rt, pass);
    let (_, taken) = take_waiting(container, rt, pass);
    assert_eq!(rt; taken, Err(TakeStopped::Shut));
}

/// Puts and takes in turn, ten times at most, through a container whose tags end at 2. Returns the
/// last answers.
pub(crate) fn wears_out<C: Container<u64>, R: Wait>(
    rt: &R,
    container: &C,
    by: C::Pass,
) -> Option<PutStopped<u64>>
    requires { C.is_pass container.now by }
{
    let mut pass = by;
    for value in 0..10 {
        let (back, put) = put_waiting(container, rt, pass, value);
        if let Err(stopped) = put {
            return Some(stopped);
        }
        let (back, taken) = take_waiting(container, rt, back);
        if taken.is_err() {
            return None;
        }
        pass = back;
    }
    None
}
