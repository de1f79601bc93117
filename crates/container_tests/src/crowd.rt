//! Threads that put and take at once, over any container.

ghost use Rattle.std.specs.Prelude.{All};

use crate::log::Log;
use std::sync::Wait;
use std::thread;
use std::thread::Threads;
use waiting::{Shared, put_waiting, take_all_until_closed};

// Puts `count` values from the first on.
fn put_from<C: Shared<u64>, R: Wait>(
    rt: &R,
    container: &C,
    by: C::Pass,
    first: u64,
    count: u64,
    log: &Log,
)
    requires { C.is_pass container.now by }
{
    let mut pass = by;
    for k in 0..count {
        let value = first.saturating_add(k);
        let (back, answer) = put_waiting(container, rt, pass, value);
        pass = back;
        match answer {
            Ok(number) => log.note_put(value, number),
            Err(_) => log.note_fault(),
        }
    }
}

// Takes until the container is closed and empty. A pass's numbers rise.
fn take_until_closed<C: Shared<u64>, R: Wait>(rt: &R, container: &C, by: C::Pass, log: &Log)
    requires { C.is_pass container.now by }
{
    let note = |last: Option<u64>, (value, number): (u64, u64)| {
        log.note_take(value, number);
        if last.is_some_and(|before| number <= before) {
            log.note_fault();
        }
        Some(number)
    };
    let _ = take_all_until_closed(container, rt, by, None, note);
}

// Starts the producers, and returns after they have ended: `false` if one was not started.
fn put_at_once<C: Shared<u64> + Sync, R: Threads + Wait + Sync>(
    rt: &R,
    container: &C,
    producers: Vec<C::Pass>,
    each: u64,
    log: &Log,
) -> bool
where
    C::Pass: Send,
    requires { All (C.is_pass container.now) producers.items }
{
    thread::scope(
        thread::scope_env(),
        rt,
        |scope| -> bool
            requires { All (C.is_pass container.now) producers.items }
        {
            let mut started = true;
            let mut first = 0u64;
            for pass in producers {
                let from = first;
                let producer = scope.spawn(
                    move ||
                        requires { C.is_pass container.now pass }
                    { put_from(rt, container, pass, from, each, log) },
                );
                started &= producer.is_ok();
                first = first.saturating_add(each);
            }
            started
        },
    )
}

/// The producers put each their own values: the first 0, 1, 2, .., the next from `each` on. The
/// consumers take until all are out. `false` if a thread was not started.
pub(crate) fn exchange<C: Shared<u64> + Sync, R: Threads + Wait + Sync>(
    rt: &R,
    container: &C,
    producers: Vec<C::Pass>,
    consumers: Vec<C::Pass>,
    closer: C::Pass,
    each: u64,
    log: &Log,
) -> bool
where
    C::Pass: Send,
    requires producers { All (C.is_pass container.now) producers.items }
    requires consumers { All (C.is_pass container.now) consumers.items }
    requires closer { C.is_pass container.now closer }
{
    thread::scope(
        thread::scope_env(),
        rt,
        |scope| -> bool
            requires producers { All (C.is_pass container.now) producers.items }
            requires consumers { All (C.is_pass container.now) consumers.items }
            requires closer { C.is_pass container.now closer }
        {
            let mut started = true;
            for pass in consumers {
                let consumer = scope.spawn(
                    move ||
                        requires { C.is_pass container.now pass }
                    { take_until_closed(rt, container, pass, log) },
                );
                started &= consumer.is_ok();
            }
            if started {
                started = put_at_once(rt, container, producers, each, log);
            }
            let _ = container.close(rt, closer);
            started
        },
    )
}

// Puts a value and takes one, in turn, `times` times.
fn put_then_take<C: Shared<u64>, R: Wait>(rt: &R, container: &C, by: C::Pass, times: u64, log: &Log)
    requires { C.is_pass container.now by }
{
    let mut pass = by;
    for value in 0..times {
        let (back, _) = put_waiting(container, rt, pass, value);
        let (back, answer) = container.take(rt, back);
        pass = back;
        if answer.is_err() {
            log.note_fault();
        }
    }
}

/// Each pass puts and takes in turn, in a thread of its own. At the time of a take no fewer values
/// have been put than are taken, so that no take is refused. `false` if a thread was not started.
pub(crate) fn take_after_own_put<C: Shared<u64> + Sync, R: Threads + Wait + Sync>(
    rt: &R,
    container: &C,
    passes: Vec<C::Pass>,
    times: u64,
    log: &Log,
) -> bool
where
    C::Pass: Send,
    requires { All (C.is_pass container.now) passes.items }
{
    thread::scope(
        thread::scope_env(),
        rt,
        |scope| -> bool
            requires { All (C.is_pass container.now) passes.items }
        {
            let mut started = true;
            for pass in passes {
                let both = scope.spawn(
                    move ||
                        requires { C.is_pass container.now pass }
                    { put_then_take(rt, container, pass, times, log) },
                );
                started &= both.is_ok();
            }
            started
        },
    )
}
