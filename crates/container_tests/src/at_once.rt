//! Ranges and folds of any container that has them.

use crate::made::{Made, with_room};
use bounded_model::{Bulk, Container, Folded, RangeRefused, Ranged, TakeRefused};
use std::alloc::Global;
use std::process::Abort;
use std::sync::Wait;

type Three = (u64, u64, u64);

/// The last three values, the newest last.
fn last_three(seen: Three, value: u64) -> Three {
    (seen.1, seen.2, value)
}

const NONE: Three = (0, 0, 0);

/// Three values go in by one compare-and-swap and come out by one, folded from either end. A range
/// without room is refused, and so is a fold of nothing. The container is a stack.
pub(crate) fn ranges_and_folds<C: Made<u64> + Bulk<u64>, R: Abort + Wait>(rt: &R, alloc: Global) {
    let (container, mut root) = with_room::<u64, C, R>(rt, alloc, 3);
    let pass = container.split(&mut root).expect(rt, "a pass");
    let three = |number| Ranged { number, count: 3 };
    let all = |number| Folded { number, count: 3 };
    let mut values = [Some(1), Some(2), Some(3)];
    let (pass, put) = container.put_range(rt, pass, &mut values);
    assert_eq!(rt; put, Ok(three(0)));
    let mut values = [Some(1), Some(2), Some(3)];
    let (pass, put) = container.put_range(rt, pass, &mut values);
    assert_eq!(rt; put, Err(RangeRefused::Full));
    let (pass, seen, fold) = container.fold_all_atomic(rt, pass, NONE, last_three);
    assert_eq!(rt; seen, (3, 2, 1));
    assert_eq!(rt; fold, Ok(all(1)));
    let mut values = [Some(1), Some(2), Some(3)];
    let (pass, put) = container.put_range(rt, pass, &mut values);
    assert_eq!(rt; put, Ok(three(2)));
    let (pass, seen, fold) = container.fold_all_atomic_reversed(rt, pass, NONE, last_three);
    assert_eq!(rt; seen, (1, 2, 3));
    assert_eq!(rt; fold, Ok(all(3)));
    let (_, seen, fold) = container.fold_all_atomic(rt, pass, NONE, last_three);
    assert_eq!(rt; seen, NONE);
    assert_eq!(rt; fold, Err(TakeRefused::Empty));
}
