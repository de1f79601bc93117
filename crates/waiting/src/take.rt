//! Takes that wait while the container is empty.

ghost use Rattle.std.specs.Prelude.{◌≡◌, MatchOption};
ghost use Rattle.bounded_model.specs.declared.answers.TakeRefused.TheVariants.{Empty};
ghost use Rattle.bounded_model.specs.Laws.{TakeGives};
ghost use Rattle.bounded_model.specs.Consumes.{Folds};
ghost use Rattle.waiting.specs.Answering.{TakeAnswers};
ghost use Rattle.waiting.specs.Waits.{take_answered, refused_take, TakesAll};

use crate::pause::wait_a_little;
use crate::shared::Shared;
use crate::stopped::TakeStopped;
use bounded_model::TakeRefused;
use std::sync::Wait;

// Why a take stops at this refusal; `None` if it tries again.
fn stop_of(refused: TakeRefused) -> Option<TakeStopped>
    ensures { MatchOption result (refused ≡ Empty) (λ why. refused_take why ≡ refused) }
{
    match refused {
        TakeRefused::Empty => None,
        TakeRefused::Closed => Some(TakeStopped::Closed),
        TakeRefused::Shut => Some(TakeStopped::Shut),
        TakeRefused::Spent(word, tag) => Some(TakeStopped::Spent(word, tag)),
    }
}

/// Takes one value, and tries again while the container is empty; returns the value with the take's
/// number. What is done and seen is what one take does, but it never answers `Empty`. `Closed` if
/// the container is empty and closed, `Shut` if it is shut, `Spent` if a tag is at its limit.
///
/// It is promised neither that the call returns, nor how soon. If the container stays empty and
/// nobody closes or shuts it, the call may wait forever. Called in `container_tests`.
pub fn take_waiting<T, C: Shared<T>, W: Wait>(
    c: &C,
    rt: &W,
    by: C::Pass,
) -> (C::Pass, Result<(T, u64), TakeStopped>)
    requires { C.is_pass c.now by }
    ensures of { C.is_pass c.now result.0 }
    ensures gives { TakeGives (C.shape c.now) (C.pass by) (C.pass result.0)
        (take_answered result.1) }
    ensures answered { TakeAnswers (take_answered result.1) (C.pass by) (C.pass result.0) }
{
    take_waiting_with(c, rt, by, || {})
}

/// Takes one value as [`take_waiting`] does, and calls `before` before each try: to count the tries,
/// or to hold them. Called in `container_tests`.
pub fn take_waiting_with<T, C: Shared<T>, W: Wait, F: FnMut() + Drop>(
    c: &C,
    rt: &W,
    by: C::Pass,
    before: F,
) -> (C::Pass, Result<(T, u64), TakeStopped>)
    requires pass { C.is_pass c.now by }
    requires call { F.IsAlwaysCallable before }
    ensures of { C.is_pass c.now result.0 }
    ensures gives { TakeGives (C.shape c.now) (C.pass by) (C.pass result.0)
        (take_answered result.1) }
    ensures answered { TakeAnswers (take_answered result.1) (C.pass by) (C.pass result.0) }
{
    let mut before = before;
    let mut pass = by;
    for _ in rt.forever() {
        before();
        let (back, answer) = c.take(rt, pass);
        pass = back;
        match answer {
            Ok(taken) => return (pass, Ok(taken)),
            Err(refused) => {
                if let Some(stopped) = stop_of(refused) {
                    return (pass, Err(stopped));
                }
            }
        }
        wait_a_little();
    }
    unreachable!()
}

/// Takes one value after another until a take is refused for good, and waits while the container is
/// empty. Folds the values, each with its take's number, in the order of taking. Returns the last
/// state, and why it stopped.
///
/// It is promised neither that the call returns, nor how soon, as at [`take_waiting`]. Called in
/// `examples::pair`.
pub fn take_all_until_closed<T, C: Shared<T>, W: Wait, S, F: Fn(S, (T, u64)) -> S + Drop>(
    c: &C,
    rt: &W,
    by: C::Pass,
    state: S,
    f: F,
) -> (C::Pass, S, TakeStopped)
    requires pass { C.is_pass c.now by }
    requires call { F.IsAlwaysCallable f }
    ensures of { C.is_pass c.now result.0 }
    ensures gives { TakesAll
        (record { shape = C.shape c.now; from = C.pass by; to = C.pass result.0 })
        (λ taken. Folds (λ s x t. F.post f s x t) state taken result.1)
        (refused_take result.2) }
{
    let mut pass = by;
    let mut folded = state;
    for _ in rt.forever() {
        let (back, answer) = take_waiting(c, rt, pass);
        pass = back;
        match answer {
            Ok(taken) => folded = f(folded, taken),
            Err(stopped) => return (pass, folded, stopped),
        }
    }
    unreachable!()
}
