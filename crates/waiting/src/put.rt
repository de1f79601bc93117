//! Puts that wait while the container is full.

ghost use Rattle.bounded_model.specs.Laws.{PutGives};
ghost use Rattle.waiting.specs.Answering.{PutAnswers};
ghost use Rattle.waiting.specs.Waits.{put_answered, PutsAll};

use crate::pause::wait_a_little;
use crate::shared::Shared;
use crate::stopped::{PutStopped, Unsent};
use bounded_model::PutRefused;
use std::sync::Wait;

/// Puts one value, and tries again while the container is full; returns the put's number. What is
/// done and seen is what one put does, but it never answers `Full`. A stop hands the value back:
/// `Closed` if the container is closed, `Spent` if a tag is at its limit.
///
/// It is promised neither that the call returns, nor how soon. If the container stays full and
/// nobody closes it, the call may wait forever. Called in `container_tests`.
pub fn put_waiting<T, C: Shared<T>, W: Wait>(
    c: &C,
    rt: &W,
    by: C::Pass,
    value: T,
) -> (C::Pass, Result<u64, PutStopped<T>>)
    requires { C.is_pass c.now by }
    ensures of { C.is_pass c.now result.0 }
    ensures gives { PutGives (C.shape c.now) (C.pass by) value
        (C.pass result.0) (put_answered result.1) }
    ensures answered { PutAnswers value (put_answered result.1) (C.pass by) (C.pass result.0) }
{
    put_waiting_with(c, rt, by, value, || {})
}

/// Puts one value as [`put_waiting`] does, and calls `before` before each try: to count the tries,
/// or to hold them. Called in `container_tests`.
pub fn put_waiting_with<T, C: Shared<T>, W: Wait, F: FnMut() + Drop>(
    c: &C,
    rt: &W,
    by: C::Pass,
    value: T,
    before: F,
) -> (C::Pass, Result<u64, PutStopped<T>>)
    requires pass { C.is_pass c.now by }
    requires call { F.IsAlwaysCallable before }
    ensures of { C.is_pass c.now result.0 }
    ensures gives { PutGives (C.shape c.now) (C.pass by) value
        (C.pass result.0) (put_answered result.1) }
    ensures answered { PutAnswers value (put_answered result.1) (C.pass by) (C.pass result.0) }
{
    let mut before = before;
    let mut pass = by;
    let mut value = value;
    for _ in rt.forever() {
        before();
        let (back, answer) = c.put(rt, pass, value);
        pass = back;
        match answer {
            Ok(number) => return (pass, Ok(number)),
            Err(PutRefused::Full(refused)) => value = refused,
            Err(PutRefused::Closed(refused)) => return (pass, Err(PutStopped::Closed(refused))),
            Err(PutRefused::Spent(refused, word, tag)) => {
                return (pass, Err(PutStopped::Spent(refused, word, tag)));
            }
        }
        wait_a_little();
    }
    unreachable!()
}

/// Puts the values that an iterator gives, each once and in their order, and waits for each while
/// the container is full. `Unsent` has the first value that is refused for good, and the iterator
/// of the values after it. An iterator without an end is put until a put is refused for good.
///
/// It is promised neither that the call returns, nor how soon, as at [`put_waiting`]. Called in
/// `examples::pair`.
pub fn put_all<T, C: Shared<T>, W: Wait, I: Iterator<Item = T>>(
    c: &C,
    rt: &W,
    by: C::Pass,
    values: I,
) -> (C::Pass, Result<(), Unsent<T, I>>)
    requires pass { C.is_pass c.now by }
    requires values { I.can_next values }
    ensures of { C.is_pass c.now result.0 }
    ensures gives { PutsAll
        (record { shape = C.shape c.now; from = C.pass by; to = C.pass result.0 })
        I.next_gives values result.1 }
{
    let mut pass = by;
    let mut values = values;
    for _ in rt.forever() {
        let Some(value) = values.next() else {
            return (pass, Ok(()));
        };
        let (back, answer) = put_waiting(c, rt, pass, value);
        pass = back;
        if let Err(first) = answer {
            let rest = values;
            return (pass, Err(Unsent { first, rest }));
        }
    }
    unreachable!()
}
