//! What a stack has beside puts and takes: a range, folds, single steps, two passes that meet, a note
//! that one makes for the other, and a gauge.

ghost use Rattle.std.specs.Prelude.{IfOk, IfSome};
ghost use Rattle.treiber_stack.specs.Calls.{IsPassOf};

use crate::fault::Fault;
use bounded_model::{Bulk, Container, PutRefused, Stepped, consume_one};
use std::sync::Wait;
use tagged_index::{Limits, MAX_TAG};
use treiber_stack::{Pass, Stack};

/// No put makes this many steps if its pass is the only one.
const ENOUGH: u64 = 32;

// Puts three values by one compare-and-swap and folds them from the bottom up.
fn ranges<R: Print + Wait>(rt: &R, stack: &Stack<u64>, by: Pass<u64>) -> Result<Pass<u64>, Fault>
    requires { IsPassOf stack.now by }
    ensures { IfOk result (λ pass. IsPassOf stack.now pass) }
{
    let mut places = [Some(1), Some(2), Some(3)];
    let (pass, ranged) = stack.put_range(rt, by, &mut places);
    println!(rt; "{ranged:?}, places {places:?}")?;
    let digits = |state: u64, value: u64| state.saturating_mul(10).saturating_add(value);
    let (pass, number, folded) = stack.fold_all_atomic_reversed(rt, pass, 0, digits);
    println!(rt; "{folded:?}, from the bottom up {number}")?;
    Ok(pass)
}

// One pass puts a value, and then another by single steps.
fn steps<R: Print + Wait>(
    rt: &R,
    stack: &Stack<u64>,
    by: Pass<u64>,
    other: Pass<u64>,
) -> Result<(Pass<u64>, Pass<u64>), Fault>
    requires by { IsPassOf stack.now by }
    requires other { IsPassOf stack.now other }
    ensures { IfOk result (λ ps. IsPassOf stack.now ps.0 × IsPassOf stack.now ps.1) }
{
    let (other, between) = stack.put(rt, other, 5);
    let (pass, answer, count) = put_by_steps(stack, by, 4).ok_or(Fault::Steps)?;
    println!(rt; "put {between:?}, and {answer:?} by {count} steps")?;
    Ok((pass, other))
}

// Puts a value by single steps; `None` if it is not done after `ENOUGH` steps. Then the operation
// is dropped, with its pass and its value.
fn put_by_steps(
    stack: &Stack<u64>,
    by: Pass<u64>,
    value: u64,
) -> Option<(Pass<u64>, Result<u64, PutRefused<u64>>, u64)>
    requires { IsPassOf stack.now by }
    ensures { IfSome result (λ done. IsPassOf stack.now done.0) }
{
    let mut op = stack.begin_put(by, value);
    for count in 1..=ENOUGH {
        match op.step(stack) {
            Stepped::Again(next) => op = next,
            Stepped::Done(pass, answer) => return Some((pass, answer, count)),
        }
    }
    None
}

// The first pass tells the second what it has seen.
fn tell(stack: &Stack<u64>, first: &mut Pass<u64>, second: &mut Pass<u64>)
    requires first { IsPassOf stack.now first.old }
    requires second { IsPassOf stack.now second.old }
    ensures first { IsPassOf stack.now first.new }
    ensures second { IsPassOf stack.now second.new }
{
    if let Some(note) = stack.note(first) {
        stack.heed(second, note);
    }
}

pub fn show<R: AllocGlobal + Print + Wait>(rt: &R) -> Result<(), Fault> {
    let Some(limits) = Limits::of(8, MAX_TAG) else {
        unreachable!()
    };
    let (stack, mut root) = Stack::new(rt.alloc(), limits)?;
    let Some(first) = stack.split(&mut root) else {
        unreachable!()
    };
    let Some(second) = stack.split(&mut root) else {
        unreachable!()
    };
    let first = ranges(rt, &stack, first)?;
    let (mut first, second) = steps(rt, &stack, first, second)?;
    let (mut second, _) = stack.meet(&mut first, second);
    tell(&stack, &mut first, &mut second);
    let (second, taken) = consume_one(&stack, rt, second, |value: u64| value.saturating_add(100));
    let (first, shut) = stack.shut(rt, first);
    let (first, again) = stack.shut(rt, first);
    let (second, refused) = stack.take(rt, second);
    let (first, empty) = stack.is_empty(first);
    let (first, gauge) = stack.gauge(first);
    println!(rt; "consumed {taken:?}, shut {shut} {again}, take {refused:?}, empty {empty}")?;
    println!(rt; "{gauge:?}")?;
    stack.join(&mut root, first);
    stack.join(&mut root, second);
    Ok(())
}
