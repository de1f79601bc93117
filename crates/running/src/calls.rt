//! Whole calls: an operation's steps, until it stops.
ghost use Rattle.std.specs.Prelude.{◌≡◌};
ghost use Rattle.bounded_model.specs.Stepping.{MatchStepped};
ghost use Rattle.running.specs.Code.{Tells};
ghost use Rattle.running.specs.Passes.{begun_of, pass_in};
ghost use Rattle.running.specs.declared.passes.Pass.{Pass};
ghost use Rattle.running.specs.Since.{HasNew};
ghost use Rattle.running.specs.Steps.{Stands, Stops, Ran, RanFor, TellsFor, TookFor};

use crate::code::{Code, Next, OnTable};
use crate::lists::ListMachine;
use crate::passes::Pass;
use crate::pause::{at_end, left_under_way};
use crate::rule::Running;
use crate::stepping::{any, counted_step};
use atomic_table::Shared;
use backoff::Pause;
use bounded_model::Stepped;
use machine::View;
use std::sync::Wait;
use tagged_index::Limits;

/// Continues from the first steps of an operation until it stops, with a wait whenever another pass
/// was faster.
#[inline(always)]
pub fn to_the_end<
    R: Wait,
    C: OnTable,
    T,
    L,
    O,
    M: ListMachine<T, L, O, N>,
    A,
    S: Code<C, T, L, O, M, A, N>,
    const N: usize,
>(
    rt: &R,
    table: &Shared<Option<T>, View<T, L>, Limits, Running<O, M>>,
    on: &C,
    first: (Pass<T, L>, Next<S, A>),
    operation: &O,
) -> (Pass<T, L>, A)
    requires table { (table.now.key ≡ C.key on.now) × (table.now.table_id ≡ C.id on.now) }
    requires ran { (by : Pass T L) × Ran (M.machine (C.key on.now)) (S.account (C.key on.now)) (C.id on.now) operation.now by first.0 first.1 }
    ensures stops { (by : Pass T L) → Ran (M.machine (C.key on.now)) (S.account (C.key on.now)) (C.id on.now) operation.now by first.0 first.1
        → Stops (M.machine (C.key on.now)) (S.account (C.key on.now)) (C.id on.now) operation.now (begun_of (M.machine (C.key on.now)) by) result.0
        result.1 }
    ensures new { (by : Pass T L) → Ran (M.machine (C.key on.now)) (S.account (C.key on.now)) (C.id on.now) operation.now by first.0 first.1
        → HasNew M.names by.seat.me.0 result.0.seat.me.0 }
    ensures told { (from : S) → Tells (S.account (C.key on.now)).told from first.1
        → (S.account (C.key on.now)).told from result.1 }
{
    match first {
        (pass, Next::Done(answer)) => (pass, answer),
        other => go_on::<R, C, T, L, O, M, A, S, N>(rt, table, on, other, operation),
    }
}

// Like `to_the_end`, for an operation that has not stopped in its first steps. It is a function of
// its own, so that a caller's code has only the fast path.
#[inline(never)]
fn go_on<
    R: Wait,
    C: OnTable,
    T,
    L,
    O,
    M: ListMachine<T, L, O, N>,
    A,
    S: Code<C, T, L, O, M, A, N>,
    const N: usize,
>(
    rt: &R,
    table: &Shared<Option<T>, View<T, L>, Limits, Running<O, M>>,
    on: &C,
    first: (Pass<T, L>, Next<S, A>),
    operation: &O,
) -> (Pass<T, L>, A)
    requires table { (table.now.key ≡ C.key on.now) × (table.now.table_id ≡ C.id on.now) }
    requires ran { (by : Pass T L) × Ran (M.machine (C.key on.now)) (S.account (C.key on.now)) (C.id on.now) operation.now by first.0 first.1 }
    ensures stops { (by : Pass T L) → Ran (M.machine (C.key on.now)) (S.account (C.key on.now)) (C.id on.now) operation.now by first.0 first.1
        → Stops (M.machine (C.key on.now)) (S.account (C.key on.now)) (C.id on.now) operation.now (begun_of (M.machine (C.key on.now)) by) result.0
        result.1 }
    ensures new { (by : Pass T L) → Ran (M.machine (C.key on.now)) (S.account (C.key on.now)) (C.id on.now) operation.now by first.0 first.1
        → HasNew M.names by.seat.me.0 result.0.seat.me.0 }
    ensures told { (from : S) → Tells (S.account (C.key on.now)).told from first.1
        → (S.account (C.key on.now)).told from result.1 }
{
    match first {
        (pass, Next::Done(answer)) => (pass, answer),
        (pass, Next::On(at)) => {
            let pause = Pause::of(pass.density);
            run_on::<R, C, T, L, O, M, A, S, N>(rt, table, on, pass, at, operation, pause)
        }
        (pass, Next::Lost(at)) => {
            let pause = Pause::of(pass.density).wait();
            run_on::<R, C, T, L, O, M, A, S, N>(rt, table, on, pass, at, operation, pause)
        }
    }
}

// Runs an operation that is under way until it stops.
#[inline]
fn run_on<
    R: Wait,
    C: OnTable,
    T,
    L,
    O,
    M: ListMachine<T, L, O, N>,
    A,
    S: Code<C, T, L, O, M, A, N>,
    const N: usize,
>(
    rt: &R,
    table: &Shared<Option<T>, View<T, L>, Limits, Running<O, M>>,
    on: &C,
    by: Pass<T, L>,
    under_way: S,
    operation: &O,
    pause: Pause,
) -> (Pass<T, L>, A)
    requires table { (table.now.key ≡ C.key on.now) × (table.now.table_id ≡ C.id on.now) }
    requires named { operation.now ≡ (S.account (C.key on.now)).operation under_way }
    requires stands { Stands (M.machine (C.key on.now)) (S.account (C.key on.now)) (C.id on.now) by under_way }
    ensures stops { Stops (M.machine (C.key on.now)) (S.account (C.key on.now)) (C.id on.now) operation.now (begun_of (M.machine (C.key on.now)) by)
        result.0 result.1 }
    ensures new { HasNew M.names by.seat.me.0 result.0.seat.me.0 }
    ensures told { (S.account (C.key on.now)).told under_way result.1 }
{
    let mut pass = by;
    let mut at = under_way;
    let mut pause = pause;
    for _ in rt.forever() {
        match any::<C, T, L, O, M, A, S, N>(table, on, pass, at, operation) {
            (back, Next::Done(answer)) => {
                let Pass { seat, density } = back;
                let refused = S::is_refusal(&answer);
                let watched = on.watched();
                let density = at_end::<T, L, O, M>(density, table, watched, pause, refused);
                return (Pass { seat, density }, answer);
            }
            (next, Next::On(to)) => {
                pass = next;
                at = to;
            }
            (next, Next::Lost(to)) => {
                pass = next;
                at = to;
                pause = pause.wait();
            }
        }
    }
    unreachable!()
}

/// Leaves an operation under way after its first steps, with a wait if another pass was faster. If
/// the first steps have ended it, the answer comes back.
#[inline(always)]
pub fn at_once<
    C: OnTable,
    T,
    L,
    O,
    M: ListMachine<T, L, O, N>,
    A,
    S: Code<C, T, L, O, M, A, N>,
    const N: usize,
>(on: &C, first: (Pass<T, L>, Next<S, A>), operation: &O) -> Stepped<(Pass<T, L>, S), Pass<T, L>, A>
    requires ran { (by : Pass T L) × Ran (M.machine (C.key on.now)) (S.account (C.key on.now)) (C.id on.now) operation.now by first.0 first.1 }
    ensures ran { (by : Pass T L) → Ran (M.machine (C.key on.now)) (S.account (C.key on.now)) (C.id on.now) operation.now by first.0 first.1
        → RanFor (M.machine (C.key on.now)) (S.account (C.key on.now)) (C.id on.now) operation.now by result }
    ensures same { MatchStepped result (λ next. pass_in next.0 ≡ pass_in first.0) (λ back answer. pass_in back ≡ pass_in first.0) }
{
    let _ = on;
    let _ = operation;
    match first {
        (pass, Next::Done(answer)) => Stepped::Done(pass, answer),
        (pass, Next::On(at)) => Stepped::Again((pass, at)),
        (pass, Next::Lost(at)) => {
            let pause = Pause::of(pass.density).wait();
            let Pass { seat, density } = pass;
            let density = left_under_way(density, pause);
            Stepped::Again((Pass { seat, density }, at))
        }
    }
}

/// Continues from the first steps of an operation, for at most `steps` more, with a wait whenever
/// another pass was faster. If it has not stopped after `steps` more, it comes back as it is.
#[inline(always)]
pub fn try_for<
    C: OnTable,
    T,
    L,
    O,
    M: ListMachine<T, L, O, N>,
    A,
    S: Code<C, T, L, O, M, A, N>,
    const N: usize,
>(
    table: &Shared<Option<T>, View<T, L>, Limits, Running<O, M>>,
    on: &C,
    first: (Pass<T, L>, Next<S, A>),
    operation: &O,
    steps: u64,
) -> Stepped<(Pass<T, L>, S), Pass<T, L>, A>
    requires table { (table.now.key ≡ C.key on.now) × (table.now.table_id ≡ C.id on.now) }
    requires ran { (by : Pass T L) × Ran (M.machine (C.key on.now)) (S.account (C.key on.now)) (C.id on.now) operation.now by first.0 first.1 }
    ensures ran { (by : Pass T L) → Ran (M.machine (C.key on.now)) (S.account (C.key on.now)) (C.id on.now) operation.now by first.0 first.1
        → RanFor (M.machine (C.key on.now)) (S.account (C.key on.now)) (C.id on.now) operation.now by result }
    ensures took { TookFor steps first.0 result }
    ensures told { (from : S) → Tells (S.account (C.key on.now)).told from first.1
        → TellsFor (S.account (C.key on.now)).told from result }
{
    match first {
        (pass, Next::Done(answer)) => Stepped::Done(pass, answer),
        (pass, Next::On(at)) => {
            let pause = Pause::of(pass.density);
            run_for::<C, T, L, O, M, A, S, N>(table, on, pass, at, operation, pause, steps)
        }
        (pass, Next::Lost(at)) => {
            let pause = Pause::of(pass.density).wait();
            run_for::<C, T, L, O, M, A, S, N>(table, on, pass, at, operation, pause, steps)
        }
    }
}

// Makes at most `steps` steps of an operation that is under way.
#[inline(never)]
fn run_for<
    C: OnTable,
    T,
    L,
    O,
    M: ListMachine<T, L, O, N>,
    A,
    S: Code<C, T, L, O, M, A, N>,
    const N: usize,
>(
    table: &Shared<Option<T>, View<T, L>, Limits, Running<O, M>>,
    on: &C,
    by: Pass<T, L>,
    under_way: S,
    operation: &O,
    pause: Pause,
    steps: u64,
) -> Stepped<(Pass<T, L>, S), Pass<T, L>, A>
    requires table { (table.now.key ≡ C.key on.now) × (table.now.table_id ≡ C.id on.now) }
    requires named { operation.now ≡ (S.account (C.key on.now)).operation under_way }
    requires stands { Stands (M.machine (C.key on.now)) (S.account (C.key on.now)) (C.id on.now) by under_way }
    ensures ran { RanFor (M.machine (C.key on.now)) (S.account (C.key on.now)) (C.id on.now) operation.now by result }
    ensures took { TookFor steps by result }
    ensures told { TellsFor (S.account (C.key on.now)).told under_way result }
{
    let mut pass = by;
    let mut at = under_way;
    let mut pause = pause;
    for _done in 0..steps {
        match counted_step::<C, T, L, O, M, A, S, N>(table, on, pass, at, operation) {
            (back, Next::Done(answer)) => {
                let Pass { seat, density } = back;
                let refused = S::is_refusal(&answer);
                let watched = on.watched();
                let density = at_end::<T, L, O, M>(density, table, watched, pause, refused);
                return Stepped::Done(Pass { seat, density }, answer);
            }
            (next, Next::On(to)) => {
                pass = next;
                at = to;
            }
            (next, Next::Lost(to)) => {
                pass = next;
                at = to;
                pause = pause.wait();
            }
        }
    }
    let Pass { seat, density } = pass;
    let density = left_under_way(density, pause);
    Stepped::Again((Pass { seat, density }, at))
}
