//! Ranges that are put in parts of one step.

ghost use Rattle.std.specs.Prelude.{IsSome};
ghost use Rattle.std.specs.List.{AllByRecursion as Every};
ghost use Rattle.treiber_stack.specs.Calls.{IsPassOf};

use bounded_model::{Container, RangeRefused, Ranged, Stepped};
use std::process::Abort;
use tagged_index::{Limits, MAX_TAG};
use treiber_stack::{Pass, Stack};

/// More parts than a range here has.
const MOST_PARTS: u64 = 20;

/// Puts a range in parts of one step, and counts them.
fn put_in_parts<R: Abort>(
    rt: &R,
    stack: &Stack<char>,
    by: Pass<char>,
    values: &mut [Option<char>],
) -> (Pass<char>, Result<Ranged, RangeRefused>, u64)
    requires pass { IsPassOf stack.now by }
    requires values { Every (λ place. IsSome place) values.old }
    ensures { IsPassOf stack.now result.0 }
{
    let mut range = match stack.begin_range(by, values) {
        Stepped::Again(begun) => begun,
        Stepped::Done(pass, answer) => return (pass, answer, 0),
    };
    for before in 0..MOST_PARTS {
        match stack.run_range_for(range, values, 1) {
            Stepped::Again(next) => range = next,
            Stepped::Done(pass, answer) => return (pass, answer, before + 1),
        }
    }
    panic!(rt; "it has not ended")
}

// A part in which the range stops also makes the first step after the stop. Three values take a
// node each in seven parts, and go onto the top in three more.
#[test]
fn a_range_in_parts_is_put_or_refused(rt: HostRuntime) {
    let limits = Limits::of(3, MAX_TAG).expect(&rt, "limits");
    let (stack, mut root) = Stack::<char>::new(rt.alloc(), limits).expect(&rt, "memory");
    let pass = stack.split(&mut root).expect(&rt, "a pass");
    let mut values = [Some('a'), Some('b'), Some('c'), Some('d'), Some('e')];
    let (pass, answer, parts) = put_in_parts(&rt, &stack, pass, &mut values);
    let three = Ranged {
        number: 0,
        count: 3,
    };
    assert_eq!(rt; (answer, parts), (Ok(three), 10));
    assert_eq!(rt; values, [None, None, None, Some('d'), Some('e')]);
    let mut more = [Some('d'), Some('e')];
    let (pass, answer, parts) = put_in_parts(&rt, &stack, pass, &mut more);
    assert_eq!(rt; (answer, parts), (Err(RangeRefused::Full), 2));
    assert_eq!(rt; more, [Some('d'), Some('e')]);
    let (pass, taken) = stack.take(&rt, pass);
    assert_eq!(rt; taken, Ok(('c', 1)));
    let (pass, taken) = stack.take(&rt, pass);
    assert_eq!(rt; taken, Ok(('b', 2)));
    let (pass, _) = stack.close(&rt, pass);
    let mut late = [Some('f'), Some('g')];
    let (pass, answer, parts) = put_in_parts(&rt, &stack, pass, &mut late);
    assert_eq!(rt; (answer, parts), (Err(RangeRefused::Closed), 7));
    assert_eq!(rt; late, [Some('f'), Some('g')]);
    let (_, answer, parts) = put_in_parts(&rt, &stack, pass, &mut []);
    assert_eq!(rt; (answer, parts), (Err(RangeRefused::Nothing), 0));
}
