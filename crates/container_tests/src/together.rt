//! One thread waits for what another does.

use crate::tries::Tries;
use std::process::Abort;
use std::sync::Wait;
use std::thread;
use std::thread::Threads;
use waiting::{
    PutStopped, Shared, TakeStopped, put_all, put_waiting, put_waiting_with, take_all_until_closed,
    take_waiting, take_waiting_with,
};

/// What a put and a take answered.
type Both = (
    Result<u64, PutStopped<u64>>,
    Result<(u64, u64), TakeStopped>,
);

/// A thread puts 2 into a container that 1 fills, and has been refused when this one takes.
pub(crate) fn put_beside_take<C: Shared<u64> + Sync, R: Abort + Threads + Wait + Sync>(
    rt: &R,
    shared: &C,
    first: C::Pass,
    second: C::Pass,
) -> Both
where
    C::Pass: Send,
    requires first { C.is_pass shared.now first }
    requires second { C.is_pass shared.now second }
{
    let (first, filled) = put_waiting(shared, rt, first, 1);
    assert!(rt; filled.is_ok());
    let counted = Tries::none();
    let tries = &counted;
    thread::scope(
        thread::scope_env(),
        rt,
        |scope| -> Both
            requires first { C.is_pass shared.now first }
            requires second { C.is_pass shared.now second }
        {
            let Ok(putting) = scope.spawn(
                move || -> Result<u64, PutStopped<u64>>
                    requires { C.is_pass shared.now second }
                { put_waiting_with(shared, rt, second, 2, || tries.count()).1 },
            ) else {
                panic!(rt; "no thread")
            };
            assert!(rt; tries.are_two());
            let (_, taken) = take_waiting(shared, rt, first);
            (putting.join(rt), taken)
        },
    )
}

/// A thread takes from an empty container, and has been refused when this one puts 5.
pub(crate) fn take_beside_put<C: Shared<u64> + Sync, R: Abort + Threads + Wait + Sync>(
    rt: &R,
    shared: &C,
    first: C::Pass,
    second: C::Pass,
) -> Both
where
    C::Pass: Send,
    requires first { C.is_pass shared.now first }
    requires second { C.is_pass shared.now second }
{
    let counted = Tries::none();
    let tries = &counted;
    thread::scope(
        thread::scope_env(),
        rt,
        |scope| -> Both
            requires first { C.is_pass shared.now first }
            requires second { C.is_pass shared.now second }
        {
            let Ok(taking) = scope.spawn(
                move || -> Result<(u64, u64), TakeStopped>
                    requires { C.is_pass shared.now second }
                { take_waiting_with(shared, rt, second, || tries.count()).1 },
            ) else {
                panic!(rt; "no thread")
            };
            assert!(rt; tries.are_two());
            let (_, put) = put_waiting(shared, rt, first, 5);
            (put, taking.join(rt))
        },
    )
}

// Puts `count` numbers, and closes.
fn put_and_close<C: Shared<u64>, R: Wait>(rt: &R, shared: &C, by: C::Pass, count: u64) -> bool
    requires { C.is_pass shared.now by }
{
    let (pass, answer) = put_all(shared, rt, by, 0..count);
    let _ = shared.close(rt, pass);
    answer.is_ok()
}

/// What came through.
#[derive(Clone, Copy, Debug, PartialEq, Eq)]
pub(crate) struct Through {
    pub(crate) count: u64,
    pub(crate) sum: u64,
    /// Whether the values came as 0, 1, 2, ..
    pub(crate) in_order: bool,
}

// What came through, with one value more.
fn with_value(through: Through, value: u64) -> Through {
    Through {
        count: through.count.saturating_add(1),
        sum: through.sum.saturating_add(value),
        in_order: through.in_order && value == through.count,
    }
}

/// A thread puts the numbers below `count` and closes; this one takes until then. Returns what came
/// through, and why it stopped.
pub(crate) fn all_through<C: Shared<u64> + Sync, R: Abort + Threads + Wait + Sync>(
    rt: &R,
    shared: &C,
    putter: C::Pass,
    taker: C::Pass,
    count: u64,
) -> (Through, TakeStopped)
where
    C::Pass: Send,
    requires putter { C.is_pass shared.now putter }
    requires taker { C.is_pass shared.now taker }
{
    let nothing = Through {
        count: 0,
        sum: 0,
        in_order: true,
    };
    thread::scope(
        thread::scope_env(),
        rt,
        |scope| -> (Through, TakeStopped)
            requires putter { C.is_pass shared.now putter }
            requires taker { C.is_pass shared.now taker }
        {
            let Ok(putting) = scope.spawn(
                move || -> bool
                    requires { C.is_pass shared.now putter }
                { put_and_close(rt, shared, putter, count) },
            ) else {
                panic!(rt; "no thread")
            };
            let add = |through: Through, (value, _number): (u64, u64)| with_value(through, value);
            let (_, through, why) = take_all_until_closed(shared, rt, taker, nothing, add);
            assert!(rt; putting.join(rt));
            (through, why)
        },
    )
}
