//! An operation that its caller makes step by step, and whose steps are counted.
ghost use Rattle.std.specs.Prelude.{◌≡◌, ◌+◌, ℕ};
ghost use Rattle.running.specs.Ops.{IsUnderWay};
ghost use Rattle.runs.specs.Made.{IsAfter, MadeFor};

use bounded_model::Stepped;
use running::{HasTable, Keeping, ListMachine, Op, PassWith, Replies};

/// Makes at most `steps` steps of an operation, and waits for nobody. Each step is one act of its
/// pass. If the operation has not ended by then, it comes back after exactly `steps` more.
pub fn step_for<
    C: HasTable<T, L, O, M> + Keeping<L, K>,
    T,
    L,
    O: Drop,
    M: ListMachine<T, L, O, N>,
    K,
    R,
    S: Replies<C, T, L, O, M, K, R, N>,
    const N: usize,
>(on: &C, op: Op<T, L, O, S>, steps: u64) -> Stepped<Op<T, L, O, S>, PassWith<T, L, K>, R>
    requires { IsUnderWay (M.machine (C.key on.now)) (S.account (C.key on.now)) (C.id on.now) op }
    ensures { (k : ℕ)
        → IsAfter (M.machine (C.key on.now)) (S.account (C.key on.now)) (C.id on.now) k op
        → MadeFor (M.machine (C.key on.now)) (S.account (C.key on.now)) C.keeps (C.id on.now)
        (S.gives (C.key on.now)) (k + steps) op result }
{
    let mut op = op;
    for _done in 0..steps {
        match op.step::<C, M, K, R, N>(on) {
            Stepped::Again(next) => op = next,
            Stepped::Done(back, reply) => return Stepped::Done(back, reply),
        }
    }
    Stepped::Again(op)
}
