//! Closing down cleanly: one thread closes the container and takes the values that are left in it.
//! The other learns it from its next put. Then both passes are joined, and the container is
//! finished. What the two ends do is written over any container.

ghost use Rattle.std.specs.Prelude.{◌≡◌, ◌++◌, IfSome};
ghost use Rattle.std.specs.List.{range_with_len};
ghost use Rattle.bounded_model.specs.Gathers.{did, put_of};
ghost use Rattle.treiber_stack.specs.Calls.{IsPassOf};
ghost use Rattle.examples.specs.Puts.{PutsOne};

use crate::fault::Fault;
use bounded_model::{Container, Leaving, consume_all};
use std::alloc::Global;
use std::snapshot::Snapshot;
use std::sync::Wait;
use std::thread;
use std::thread::{Promise, Threads};
use tagged_index::{Limits, MAX_TAG};
use treiber_stack::{Pass, Stack};
use waiting::{put_waiting, take_waiting};

/// How many values are taken before the container is closed.
const WANTED: u64 = 10_000;

/// A pass that has done its part, and how many values it moved.
#[derive(Drop)]
struct Moved<P> {
    pass: P,
    count: u64,
}

// Puts a value, and waits while the container is full; returns whether it went in.
fn put_one<C: Container<u64>, R: Wait>(
    rt: &R,
    container: &C,
    by: C::Pass,
    value: u64,
) -> (C::Pass, bool)
    requires { C.is_pass container.now by }
    ensures of { C.is_pass container.now result.0 }
    ensures puts { PutsOne (C.shape container.now) (C.pass by) value (C.pass result.0) result.1 }
{
    match put_waiting(container, rt, by, value) {
        (pass, Ok(_)) => (pass, true),
        (pass, Err(_)) => (pass, false),
    }
}

// Puts 0, 1, 2, .. until a put is refused for good or the count is `u64::MAX`; returns the count. The
// value that comes back with the last refusal was not put.
fn put_until_closed<C: Container<u64>, R: Wait>(
    rt: &R,
    container: &C,
    by: C::Pass,
) -> Moved<C::Pass>
    requires { C.is_pass container.now by }
    ensures of { C.is_pass container.now result.pass }
    ensures puts { did put_of (C.pass result.pass)
        ≡ did put_of (C.pass by) ++ range_with_len 0 result.count }
{
    let mut pass = by;
    let mut count: u64 = 0;
    while count < u64::MAX {
        let (back, is_put) = put_one(rt, container, pass, count);
        pass = back;
        if !is_put {
            return Moved { pass, count };
        }
        count += 1;
    }
    Moved { pass, count }
}

// Takes `wanted` values, or fewer if a take is refused for good.
fn take_some<C: Container<u64>, R: Wait>(
    rt: &R,
    container: &C,
    by: C::Pass,
    wanted: u64,
) -> Moved<C::Pass>
    requires { C.is_pass container.now by }
    ensures { C.is_pass container.now result.pass }
{
    let mut pass = by;
    let mut count: u64 = 0;
    while count < wanted {
        let (back, answer) = take_waiting(container, rt, pass);
        pass = back;
        if answer.is_err() {
            return Moved { pass, count };
        }
        count += 1;
    }
    Moved { pass, count }
}

// Takes `wanted` values, or fewer if a take is refused for good. Then closes the container, and takes
// the values that are left in it.
fn take_and_close<C: Container<u64>, R: Wait>(
    rt: &R,
    container: &C,
    by: C::Pass,
    wanted: u64,
) -> Moved<C::Pass>
    requires { C.is_pass container.now by }
    ensures { C.is_pass container.now result.pass }
{
    let Moved { pass, count } = take_some(rt, container, by, wanted);
    let (pass, _) = container.close(rt, pass);
    let (pass, count, _) = consume_all(container, rt, pass, count, |taken: u64, _value: u64| {
        taken.saturating_add(1)
    });
    Moved { pass, count }
}

/// The putting thread gives back a pass of this stack.
#[derive(Drop)]
struct PassOf(Snapshot<Stack<u64>>);

impl Promise<Moved<Pass<u64>>> for PassOf {
    ghost kept_by = { λ p moved. IsPassOf p.0.value moved.pass };
}

// One thread puts while this one takes, closes and drains. `None` if there was no thread.
fn two_ends<R: Threads + Wait + Sync>(
    rt: &R,
    stack: &Stack<u64>,
    putter: Pass<u64>,
    taker: Pass<u64>,
    wanted: u64,
) -> Option<(Moved<Pass<u64>>, Moved<Pass<u64>>)>
    requires putter { IsPassOf stack.now putter }
    requires taker { IsPassOf stack.now taker }
    ensures { IfSome result (λ ends. IsPassOf stack.now ends.0.pass
        × IsPassOf stack.now ends.1.pass) }
{
    thread::scope(
        thread::scope_env(),
        rt,
        |scope| -> Option<(Moved<Pass<u64>>, Moved<Pass<u64>>)>
            requires putter { IsPassOf stack.now putter }
            requires taker { IsPassOf stack.now taker }
            ensures { IfSome result (λ ends. IsPassOf stack.entry.now ends.0.pass
                × IsPassOf stack.entry.now ends.1.pass) }
        {
            let promise = PassOf(Snapshot::of(stack));
            let putting = scope
                .spawn_with(
                    promise,
                    move || -> Moved<Pass<u64>>
                        requires { IsPassOf stack.now putter }
                        ensures { IsPassOf stack.entry.now result.pass }
                    { put_until_closed(rt, stack, putter) },
                )
                .ok()?;
            let taken = take_and_close(rt, stack, taker, wanted);
            Some((putting.join(rt), taken))
        },
    )
}

/// What became of the values.
#[derive(Drop)]
struct Tally {
    put: u64,
    taken: u64,
    left: u64,
}

// One thread puts until this one closes the stack after `wanted` takes. Counts the values.
fn close_down<R: Threads + Wait + Sync>(
    rt: &R,
    alloc: Global,
    wanted: u64,
) -> Result<Tally, Fault> {
    let Some(limits) = Limits::of(16, MAX_TAG) else {
        unreachable!()
    };
    let (stack, mut root) = Stack::new(alloc, limits)?;
    let Some(putter) = stack.split(&mut root) else {
        unreachable!()
    };
    let Some(taker) = stack.split(&mut root) else {
        unreachable!()
    };
    let (put, taken) = two_ends(rt, &stack, putter, taker, wanted).ok_or(Fault::NoThread)?;
    stack.join(&mut root, put.pass);
    stack.join(&mut root, taken.pass);
    let mut rest = stack.finish(root);
    let left = u64::from(rest.next().is_some());
    Ok(Tally {
        put: put.count,
        taken: taken.count,
        left,
    })
}

pub fn show<R: AllocGlobal + Print + Threads + Wait + Sync>(rt: &R) -> Result<(), Fault> {
    let tally = close_down(rt, rt.alloc(), WANTED)?;
    let lost = tally.put.abs_diff(tally.taken);
    println!(rt; "lost {lost}, left {}", tally.left)?;
    Ok(())
}
