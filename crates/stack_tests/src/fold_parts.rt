//! Folds that are run in parts of one step.

ghost use Rattle.std.specs.Prelude.{ℕ, List};
ghost use Rattle.treiber_stack.specs.Bulk.{IsFolding};
ghost use Rattle.treiber_stack.specs.Calls.{IsPassOf};

use bounded_model::{Container, Folded, TakeRefused};
use std::process::Abort;
use std::sync::Wait;
use tagged_index::{Limits, MAX_TAG};
use treiber_stack::{FoldMade, FoldOp, Pass, Stack};

/// More parts than a fold here has.
const MOST_PARTS: u64 = 20;

/// Puts `'a'`, `'b'` and `'c'`.
fn put_three<R: Wait>(rt: &R, stack: &Stack<char>, by: Pass<char>) -> Pass<char>
    requires { IsPassOf stack.now by }
    ensures { IsPassOf stack.now result }
{
    let (pass, _) = stack.put(rt, by, 'a');
    let (pass, _) = stack.put(rt, pass, 'b');
    let (pass, _) = stack.put(rt, pass, 'c');
    pass
}

/// Ends a fold in parts of one step. Returns also the values that it handed out, in order, and how
/// many parts used up their step.
fn fold_in_parts<R: Abort + AllocGlobal>(
    rt: &R,
    stack: &Stack<char>,
    begun: FoldOp<char>,
) -> (Pass<char>, Result<Folded, TakeRefused>, Vec<char>, u64)
    requires { (front : _) × (values : List ℕ) × IsFolding stack.now front values begun }
    ensures { IsPassOf stack.now result.0 }
{
    let mut fold = begun;
    let mut values = Vec::new(rt.alloc());
    let mut used_up: u64 = 0;
    for _ in 0..MOST_PARTS {
        match stack.run_fold_for(fold, 1) {
            FoldMade::Again(next) => {
                used_up = used_up.saturating_add(1);
                fold = next;
            }
            FoldMade::Value(value, next) => {
                values.push(value).expect(rt, "memory");
                fold = next;
            }
            FoldMade::Done(pass, answer) => return (pass, answer, values, used_up),
        }
    }
    panic!(rt; "it has not ended")
}

// Two parts that take all use up their steps, and two of the three that give the nodes back. From
// the bottom up, two more for each value do: they turn the chain round.
#[test]
fn a_fold_in_parts_hands_out_all_or_is_refused(rt: HostRuntime) {
    let limits = Limits::of(3, MAX_TAG).expect(&rt, "limits");
    let (stack, mut root) = Stack::<char>::new(rt.alloc(), limits).expect(&rt, "memory");
    let pass = stack.split(&mut root).expect(&rt, "a pass");
    let pass = put_three(&rt, &stack, pass);
    let (pass, answer, values, used_up) = fold_in_parts(&rt, &stack, stack.begin_fold(pass));
    let down = Folded {
        number: 3,
        count: 3,
    };
    assert_eq!(rt; (answer, used_up), (Ok(down), 4));
    assert_eq!(rt; values.as_slice(), ['c', 'b', 'a'].as_slice());
    let pass = put_three(&rt, &stack, pass);
    let begun = stack.begin_fold_reversed(pass);
    let (pass, answer, values, used_up) = fold_in_parts(&rt, &stack, begun);
    let up = Folded {
        number: 7,
        count: 3,
    };
    assert_eq!(rt; (answer, used_up), (Ok(up), 10));
    assert_eq!(rt; values.as_slice(), ['a', 'b', 'c'].as_slice());
    let (_, answer, values, used_up) = fold_in_parts(&rt, &stack, stack.begin_fold(pass));
    assert_eq!(rt; (answer, used_up), (Err(TakeRefused::Empty), 0));
    assert!(rt; values.is_empty());
}

// Two steps take all.
#[test]
fn a_fold_leaves_what_is_put_after_it_took_all(rt: HostRuntime) {
    let limits = Limits::of(4, MAX_TAG).expect(&rt, "limits");
    let (stack, mut root) = Stack::<char>::new(rt.alloc(), limits).expect(&rt, "memory");
    let pass = stack.split(&mut root).expect(&rt, "a pass");
    let other = stack.split(&mut root).expect(&rt, "a pass");
    let pass = put_three(&rt, &stack, pass);
    let FoldMade::Again(fold) = stack.run_fold_for(stack.begin_fold(pass), 2) else {
        panic!(rt; "it has come to a value")
    };
    let (other, put) = stack.put(&rt, other, 'd');
    assert_eq!(rt; put, Ok(4));
    let (_, answer, values, used_up) = fold_in_parts(&rt, &stack, fold);
    let three = Folded {
        number: 3,
        count: 3,
    };
    assert_eq!(rt; (answer, used_up), (Ok(three), 2));
    assert_eq!(rt; values.as_slice(), ['c', 'b', 'a'].as_slice());
    let (_, taken) = stack.take(&rt, other);
    assert_eq!(rt; taken, Ok(('d', 5)));
}
