//! The end of a call: what comes back to its caller.
ghost use Rattle.std.specs.Prelude.{◌≡◌};
ghost use Rattle.bounded_model.specs.Stepping.{MatchStepped};
ghost use Rattle.running.specs.Kept.{IsPassAt, Returned, Took, pass_in};
ghost use Rattle.running.specs.Passes.{begun_of, pass_in as pass_now};
ghost use Rattle.running.specs.Since.{HasNew};
ghost use Rattle.running.specs.Steps.{Ran};
ghost use Rattle.running.specs.declared.kept.PassWith as kept;
ghost use Rattle.running.specs.declared.passes.Pass as runs;

use crate::call::HasTable;
use crate::calls::{at_once, to_the_end};
use crate::code::Next;
use crate::kept::{Answered, PassWith};
use crate::lists::ListMachine;
use crate::op::Op;
use crate::passes::Pass;
use crate::replies::{Keeping, Replies};
use bounded_model::Stepped;
use std::sync::Wait;

/// Continues from the first steps of an operation until it has answered.
#[inline(always)]
pub fn whole<
    R: Wait,
    C: HasTable<T, L, O, M> + Keeping<L, K>,
    T,
    L,
    O: Drop,
    M: ListMachine<T, L, O, N>,
    K,
    A,
    S: Replies<C, T, L, O, M, K, A, N>,
    const N: usize,
>(
    rt: &R,
    on: &C,
    first: (Pass<T, L>, Next<S, Answered<K, A>>),
    operation: O,
) -> (PassWith<T, L, K>, A)
    requires { (by : runs.Pass T L) × Ran (M.machine (C.key on.now)) (S.account (C.key on.now))
        (C.id on.now) operation by first.0 first.1 }
    ensures rested { (by : kept.PassWith T L K)
        → IsPassAt (M.machine (C.key on.now)) C.keeps (C.id on.now) by
        → Ran (M.machine (C.key on.now)) (S.account (C.key on.now)) (C.id on.now) operation
        by.pass first.0 first.1
        → Returned (M.machine (C.key on.now)) (S.account (C.key on.now)) C.keeps (C.id on.now)
        (S.gives (C.key on.now)) operation (pass_in by) result.0 result.1 }
    ensures began { (by : runs.Pass T L)
        → Ran (M.machine (C.key on.now)) (S.account (C.key on.now)) (C.id on.now) operation
        by first.0 first.1
        → Returned (M.machine (C.key on.now)) (S.account (C.key on.now)) C.keeps (C.id on.now)
        (S.gives (C.key on.now)) operation (begun_of (M.machine (C.key on.now)) by) result.0
        result.1 }
    ensures new { (by : runs.Pass T L)
        → Ran (M.machine (C.key on.now)) (S.account (C.key on.now)) (C.id on.now) operation
        by first.0 first.1
        → HasNew M.names by.seat.me.0 result.0.pass.seat.me.0 }
{
    let (pass, answer) = to_the_end::<R, C, T, L, O, M, Answered<K, A>, S, N>(
        rt,
        on.table(),
        on,
        first,
        &operation,
    );
    let Answered { kept, reply } = answer;
    (PassWith { pass, kept }, reply)
}

/// Leaves an operation under way after its first steps, with a wait if another pass was faster. If
/// the first steps have ended it, the answer comes back.
#[inline(always)]
pub fn leave<
    C: HasTable<T, L, O, M> + Keeping<L, K>,
    T,
    L,
    O: Drop,
    M: ListMachine<T, L, O, N>,
    K,
    A,
    S: Replies<C, T, L, O, M, K, A, N>,
    const N: usize,
>(
    on: &C,
    first: (Pass<T, L>, Next<S, Answered<K, A>>),
    operation: O,
) -> Stepped<Op<T, L, O, S>, PassWith<T, L, K>, A>
    requires { (by : runs.Pass T L) × Ran (M.machine (C.key on.now)) (S.account (C.key on.now))
        (C.id on.now) operation by first.0 first.1 }
    ensures rested { (by : kept.PassWith T L K)
        → IsPassAt (M.machine (C.key on.now)) C.keeps (C.id on.now) by
        → Ran (M.machine (C.key on.now)) (S.account (C.key on.now)) (C.id on.now) operation
        by.pass first.0 first.1
        → Took (M.machine (C.key on.now)) (S.account (C.key on.now)) C.keeps (C.id on.now)
        (S.gives (C.key on.now)) operation (pass_in by) result }
    ensures began { (by : runs.Pass T L)
        → Ran (M.machine (C.key on.now)) (S.account (C.key on.now)) (C.id on.now) operation
        by first.0 first.1
        → Took (M.machine (C.key on.now)) (S.account (C.key on.now)) C.keeps (C.id on.now)
        (S.gives (C.key on.now)) operation (begun_of (M.machine (C.key on.now)) by) result }
    ensures same { MatchStepped result (λ op. pass_now op.pass ≡ pass_now first.0)
        (λ back reply. pass_in back ≡ pass_now first.0) }
{
    match at_once::<C, T, L, O, M, Answered<K, A>, S, N>(on, first, &operation) {
        Stepped::Again((pass, at)) => Stepped::Again(Op {
            pass,
            operation,
            at,
        }),
        Stepped::Done(pass, answer) => {
            let Answered { kept, reply } = answer;
            Stepped::Done(PassWith { pass, kept }, reply)
        }
    }
}
