//! Takes over any container that hand the values to a function.

ghost use Rattle.std.specs.Prelude.{MatchResult};
ghost use Rattle.bounded_model.specs.Laws.{TakeGives};
ghost use Rattle.bounded_model.specs.Consumes.{Folds, ConsumesAll};

use crate::{Container, TakeRefused};
use std::sync::Wait;

/// Makes one take, and calls `f` once with the value if the take gave one. Returns the result of
/// `f` with the take's number, or the take's refusal. Called in `examples::stack`.
pub fn consume_one<T, C: Container<T>, W: Wait, R, F: FnOnce(T) -> R + Drop>(
    c: &C,
    rt: &W,
    by: C::Pass,
    f: F,
) -> (C::Pass, Result<(R, u64), TakeRefused>)
    requires pass { C.is_pass c.now by }
    requires call { F.IsAlwaysCallable f }
    ensures of { C.is_pass c.now result.0 }
    ensures gives { let took = TakeGives (C.shape c.now) (C.pass by) (C.pass result.0) in
        MatchResult result.1
        (λ r. (x : T) × took (Ok (x, r.1)) × F.post f x r.0)
        (λ why. took (Err why)) }
{
    let (by, taken) = c.take(rt, by);
    match taken {
        Ok((value, number)) => (by, Ok((f(value), number))),
        Err(refused) => (by, Err(refused)),
    }
}

/// Takes one value after another until a take is refused, and folds them in the order of taking.
/// Returns the last state and the refusal. Called in `examples::closing`.
pub fn consume_all<T, C: Container<T>, W: Wait, S, F: Fn(S, T) -> S + Drop>(
    c: &C,
    rt: &W,
    by: C::Pass,
    state: S,
    f: F,
) -> (C::Pass, S, TakeRefused)
    requires pass { C.is_pass c.now by }
    requires call { F.IsAlwaysCallable f }
    ensures of { C.is_pass c.now result.0 }
    ensures gives { ConsumesAll
        (record { shape = C.shape c.now; from = C.pass by; to = C.pass result.0 })
        (λ values. Folds (λ s x t. F.post f s x t) state values result.1)
        result.2 }
{
    let mut pass = by;
    let mut folded = state;
    for _ in rt.forever() {
        let (back, taken) = c.take(rt, pass);
        pass = back;
        match taken {
            Ok((value, _)) => folded = f(folded, value),
            Err(refused) => return (pass, folded, refused),
        }
    }
    unreachable!()
}
