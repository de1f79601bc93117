//! Ranges go in and folds take all beside takes of single values.

ghost use Rattle.treiber_stack.specs.Calls.{IsPassOf};

use bounded_model::{PutRefused, TakeRefused};
use std::alloc::{AllocFailed, Global};
use std::sync::Wait;
use std::sync::atomic::{AtomicU64, Ordering};
use std::thread;
use tagged_index::{Limits, MAX_TAG};
use treiber_stack::{Pass, Stack};
use waiting::wait_a_little;

/// How many ranges of three values each of the two putting threads puts.
const RANGES: u64 = 3_000;

/// How often each of the values 0, 1, 2, .. came out.
#[derive(Drop)]
struct Tally {
    found: Vec<AtomicU64>,
    /// How many values came out that nobody put.
    strange: AtomicU64,
}

impl Tally {
    /// A tally of `values` values.
    fn of(alloc: Global, values: u64) -> Result<Tally, AllocFailed<AtomicU64>> {
        let mut found = Vec::new(alloc);
        for _ in 0..values {
            found.push(AtomicU64::new(0))?;
        }
        Ok(Tally {
            found,
            strange: AtomicU64::new(0),
        })
    }

    /// Whether each value came out once, and no strange value did.
    fn is_each_once(&self) -> bool {
        self.strange.load(Ordering::SeqCst) == 0
            && self
                .found
                .iter()
                .all(|times| times.load(Ordering::SeqCst) == 1)
    }

    /// Counts a value that came out.
    fn count(&self, value: u64) {
        let times = match usize::try_from(value) {
            Ok(place) => self.found.get(place).unwrap_or(&self.strange),
            Err(_) => &self.strange,
        };
        times.fetch_add(1, Ordering::SeqCst);
    }
}

// Puts a value, and waits while the stack is full. The call is the stack's own, and not one of
// `waiting`, because passing a known container to generic code takes the prover half a minute.
fn put_one<R: Wait>(rt: &R, stack: &Stack<u64>, by: Pass<u64>, value: u64) -> Pass<u64>
    requires { IsPassOf stack.now by }
    ensures { IsPassOf stack.now result }
{
    let mut pass = by;
    for _ in rt.forever() {
        let (back, put) = stack.put(rt, pass, value);
        pass = back;
        match put {
            Err(PutRefused::Full(_)) => wait_a_little(),
            _ => return pass,
        }
    }
    unreachable!()
}

// Takes a value, and waits while the stack is empty. `None` if it is closed and empty.
fn take_one<R: Wait>(rt: &R, stack: &Stack<u64>, by: Pass<u64>) -> (Pass<u64>, Option<u64>)
    requires { IsPassOf stack.now by }
    ensures { IsPassOf stack.now result.0 }
{
    let mut pass = by;
    for _ in rt.forever() {
        let (back, taken) = stack.take(rt, pass);
        pass = back;
        match taken {
            Ok((value, _)) => return (pass, Some(value)),
            Err(TakeRefused::Empty) => wait_a_little(),
            Err(_) => return (pass, None),
        }
    }
    unreachable!()
}

// Puts three values by one compare-and-swap if there is room. Values that found none go in one by
// one, however often the stack is full.
fn put_three<R: Wait>(rt: &R, stack: &Stack<u64>, by: Pass<u64>, first: u64) -> Pass<u64>
    requires { IsPassOf stack.now by }
    ensures { IsPassOf stack.now result }
{
    let mut values = [
        Some(first),
        Some(first.saturating_add(1)),
        Some(first.saturating_add(2)),
    ];
    let (back, answer) = stack.put_range(rt, by, &mut values);
    let mut pass = back;
    if answer.is_err() {
        thread::yield_now();
    }
    for place in &mut values {
        if let Some(value) = place.take() {
            pass = put_one(rt, stack, pass, value);
        }
    }
    pass
}

fn put_ranges<R: Wait>(rt: &R, stack: &Stack<u64>, by: Pass<u64>, first: u64)
    requires { IsPassOf stack.now by }
{
    let mut pass = by;
    for k in 0..RANGES {
        pass = put_three(rt, stack, pass, first.saturating_add(3 * k));
    }
}

// Takes single values until the stack is closed and empty.
fn take_each<R: Wait>(rt: &R, stack: &Stack<u64>, by: Pass<u64>, tally: &Tally)
    requires { IsPassOf stack.now by }
{
    let mut pass = by;
    for _ in rt.forever() {
        let (back, taken) = take_one(rt, stack, pass);
        pass = back;
        match taken {
            Some(value) => tally.count(value),
            None => return,
        }
    }
}

// Takes one value and then all the rest by one fold, until the stack is closed and empty. Each turn
// takes a value, so there are no more turns than values.
fn fold_each<R: Wait>(rt: &R, stack: &Stack<u64>, by: Pass<u64>, tally: &Tally)
    requires { IsPassOf stack.now by }
{
    let mut pass = by;
    for _ in 0..=6 * RANGES {
        let (back, taken) = take_one(rt, stack, pass);
        let Some(value) = taken else {
            return;
        };
        tally.count(value);
        let count = |seen: u64, value: u64| {
            tally.count(value);
            seen.wrapping_add(1)
        };
        let (back, _, _) = stack.fold_all_atomic(rt, back, 0u64, count);
        pass = back;
    }
}

#[test]
fn ranges_and_folds_beside_takes_keep_each_value(rt: HostRuntime) {
    let limits = Limits::of(8, MAX_TAG).expect(&rt, "limits");
    let (stack, mut root) = Stack::<u64>::new(rt.alloc(), limits).expect(&rt, "memory");
    let whole = Tally::of(rt.alloc(), 6 * RANGES).expect(&rt, "memory");
    let (shared, tally) = (&stack, &whole);
    let low = stack.split(&mut root).expect(&rt, "a pass");
    let high = stack.split(&mut root).expect(&rt, "a pass");
    let taker = stack.split(&mut root).expect(&rt, "a pass");
    let folder = stack.split(&mut root).expect(&rt, "a pass");
    let closer = stack.split(&mut root).expect(&rt, "a pass");
    let threads = &rt;
    thread::scope(
        thread::scope_env(),
        &rt,
        |scope|
            requires low { IsPassOf shared.now low }
            requires high { IsPassOf shared.now high }
            requires taker { IsPassOf shared.now taker }
            requires folder { IsPassOf shared.now folder }
            requires closer { IsPassOf shared.now closer }
        {
            let Ok(first) = scope.spawn(
                move ||
                    requires { IsPassOf shared.now low }
                { put_ranges(threads, shared, low, 0) },
            ) else {
                panic!(threads; "no thread")
            };
            let Ok(second) = scope.spawn(
                move ||
                    requires { IsPassOf shared.now high }
                { put_ranges(threads, shared, high, 3 * RANGES) },
            ) else {
                panic!(threads; "no thread")
            };
            let Ok(_) = scope.spawn(
                move ||
                    requires { IsPassOf shared.now taker }
                { take_each(threads, shared, taker, tally) },
            ) else {
                panic!(threads; "no thread")
            };
            let Ok(_) = scope.spawn(
                move ||
                    requires { IsPassOf shared.now folder }
                { fold_each(threads, shared, folder, tally) },
            ) else {
                panic!(threads; "no thread")
            };
            first.join(threads);
            second.join(threads);
            let _ = shared.close(threads, closer);
        },
    );
    assert!(rt; whole.is_each_once());
}
