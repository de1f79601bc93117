//! One atomic step of an operation, for all operations on all machines.
ghost use Rattle.std.specs.Prelude.{◌≡◌, ◌≤◌, ◌+◌};
ghost use Rattle.running.specs.Going.{At};
ghost use Rattle.bounded_model.specs.Stepping.{OneStep};
ghost use Rattle.running.specs.Passes.{pass_in};
ghost use Rattle.running.specs.Code.{IsAccess, Tells};
ghost use Rattle.running.specs.Steps.{Made, Stands, Gives, GivesSingle, Ran};

use crate::access::{Access, Outcome, Single};
use crate::code::{Code, Next, OnTable};
use crate::lists::{
    ListMachine, give_bare_step, give_chain_step, give_one_step, keep_link_step, load_link_step,
    load_top_step, mark_step, shut_step, store_link_step, take_all_step, take_bare_step,
    take_first_step,
};
use crate::passes::Pass;
use crate::pause::at_begin;
use crate::rule::Running;
use crate::steps::{
    fetch_step, give_step, keep_step, load_step, store_step, stow_step, swap_step, take_step,
};
use atomic_table::{Seat, Shared};
use bounded_model::Stepped;
use machine::View;
use tagged_index::Limits;

// Makes the access of the line that an operation is at.
#[inline(always)]
fn make<
    C: OnTable,
    T,
    L,
    O,
    M: ListMachine<T, L, O, N>,
    A,
    S: Code<C, T, L, O, M, A, N>,
    const N: usize,
>(
    table: &Shared<Option<T>, View<T, L>, Limits, Running<O, M>>,
    seat: &mut Seat<Option<T>, View<T, L>>,
    access: Access,
    operation: &O,
    at: &S,
) -> Outcome
    requires table { seat.old.table_id ≡ table.now.table_id }
    requires access { IsAccess (M.machine table.now.key).core M.lists N table.now.table_id.words
        ((S.account table.now.key).line at.now) ((S.account table.now.key).slots at.now) access }
    requires at { At (M.machine table.now.key) operation.now seat.old.me ((S.account table.now.key).line at.now)
        ((S.account table.now.key).slots at.now) }
    ensures table { seat.new.table_id ≡ seat.old.table_id }
    ensures made { Made (M.machine table.now.key) operation.now ((S.account table.now.key).line at.now) seat.old.me
        seat.new.me result }
{
    let _ = at;
    match access {
        Access::Load(place) => {
            let word = load_step::<T, L, O, M>(table, seat, place, operation);
            Outcome { word, won: true }
        }
        Access::Fetch(place) => {
            let word = fetch_step::<T, L, O, M>(table, seat, place, operation);
            Outcome { word, won: true }
        }
        Access::Stow(place) => {
            let word = stow_step::<T, L, O, M>(table, seat, place, operation);
            Outcome { word, won: true }
        }
        Access::Store(place, word) => {
            store_step::<T, L, O, M>(table, seat, place, word, operation);
            Outcome { word, won: true }
        }
        Access::Keep(place, word) => {
            keep_step::<T, L, O, M>(table, seat, place, word, operation);
            Outcome { word, won: true }
        }
        Access::Swap(place, seen, new) => {
            let won = swap_step::<T, L, O, M>(table, seat, place, seen, new, operation);
            Outcome {
                word: seen.word(),
                won,
            }
        }
        Access::Bring(place, seen, new) => {
            let won = take_step::<T, L, O, M>(table, seat, place, seen, new, operation);
            Outcome {
                word: seen.word(),
                won,
            }
        }
        Access::Return(place, seen, new) => {
            let won = give_step::<T, L, O, M>(table, seat, place, seen, new, operation);
            Outcome {
                word: seen.word(),
                won,
            }
        }
        Access::LoadTop(list) => {
            let top = load_top_step::<T, L, O, M, N>(table, seat, list, operation);
            Outcome {
                word: top.word(),
                won: true,
            }
        }
        Access::LoadLink(list, index) => {
            let word = load_link_step::<T, L, O, M, N>(table, seat, list, index, operation);
            Outcome { word, won: true }
        }
        Access::StoreLink(list, index, word) => {
            store_link_step::<T, L, O, M, N>(table, seat, list, index, word, operation);
            Outcome { word, won: true }
        }
        Access::KeepLink(list, index, word) => {
            keep_link_step::<T, L, O, M, N>(table, seat, list, index, word, operation);
            Outcome { word, won: true }
        }
        Access::Take(list, seen, next) => {
            let won = take_first_step::<T, L, O, M, N>(table, seat, list, seen, next, operation);
            Outcome {
                word: seen.word(),
                won,
            }
        }
        Access::TakeBare(list, seen, next) => {
            let won = take_bare_step::<T, L, O, M, N>(table, seat, list, seen, next, operation);
            Outcome {
                word: seen.word(),
                won,
            }
        }
        Access::TakeAll(list, seen, front) => {
            let won = take_all_step::<T, L, O, M, N>(table, seat, list, seen, front, operation);
            Outcome {
                word: seen.word(),
                won,
            }
        }
        Access::Give(list, seen, index) => {
            let won = give_one_step::<T, L, O, M, N>(table, seat, list, seen, index, operation);
            Outcome {
                word: seen.word(),
                won,
            }
        }
        Access::GiveBare(list, seen, index) => {
            let won = give_bare_step::<T, L, O, M, N>(table, seat, list, seen, index, operation);
            Outcome {
                word: seen.word(),
                won,
            }
        }
        Access::GiveChain(list, seen, first) => {
            let won = give_chain_step::<T, L, O, M, N>(table, seat, list, seen, first, operation);
            Outcome {
                word: seen.word(),
                won,
            }
        }
        Access::Mark(list, seen) => {
            let won = mark_step::<T, L, O, M, N>(table, seat, list, seen, operation);
            Outcome {
                word: seen.word(),
                won,
            }
        }
        Access::Shut(list, seen) => {
            let won = shut_step::<T, L, O, M, N>(table, seat, list, seen, operation);
            Outcome {
                word: seen.word(),
                won,
            }
        }
    }
}

// Makes this access for an operation in the state `at`, and continues from its outcome.
#[inline(always)]
fn advance<
    C: OnTable,
    T,
    L,
    O,
    M: ListMachine<T, L, O, N>,
    A,
    S: Code<C, T, L, O, M, A, N>,
    const N: usize,
>(
    table: &Shared<Option<T>, View<T, L>, Limits, Running<O, M>>,
    on: &C,
    by: Pass<T, L>,
    at: S,
    operation: &O,
    access: Access,
) -> (Pass<T, L>, Next<S, A>)
    requires table { (table.now.key ≡ C.key on.now) × (table.now.table_id ≡ C.id on.now) }
    requires named { operation.now ≡ (S.account (C.key on.now)).operation at }
    requires stands { Stands (M.machine (C.key on.now)) (S.account (C.key on.now)) (C.id on.now) by at }
    requires access { IsAccess (M.machine (C.key on.now)).core M.lists N (C.id on.now).words
        ((S.account (C.key on.now)).line at) ((S.account (C.key on.now)).slots at) access }
    ensures gives { Gives (M.machine (C.key on.now)) (S.account (C.key on.now)) (C.id on.now) by at result.0 result.1 }
    ensures told { Tells (S.account (C.key on.now)).told at result.1 }
{
    let mut pass = by;
    let outcome = make::<C, T, L, O, M, A, S, N>(table, &mut pass.seat, access, operation, &at);
    let next = at.next(on, &mut pass.seat, outcome);
    (pass, next)
}

// Like `advance`, for one access alone.
#[inline(always)]
fn advance_single<
    C: OnTable,
    T,
    L,
    O,
    M: ListMachine<T, L, O, N>,
    A,
    S: Code<C, T, L, O, M, A, N>,
    const N: usize,
>(
    table: &Shared<Option<T>, View<T, L>, Limits, Running<O, M>>,
    on: &C,
    by: Pass<T, L>,
    at: S,
    operation: &O,
    single: Single,
) -> (Pass<T, L>, Next<S, A>)
    requires table { (table.now.key ≡ C.key on.now) × (table.now.table_id ≡ C.id on.now) }
    requires named { operation.now ≡ (S.account (C.key on.now)).operation at }
    requires stands { Stands (M.machine (C.key on.now)) (S.account (C.key on.now)) (C.id on.now) by at }
    requires access { IsAccess (M.machine (C.key on.now)).core M.lists N (C.id on.now).words
        ((S.account (C.key on.now)).line at) ((S.account (C.key on.now)).slots at) single.access }
    ensures gives { Gives (M.machine (C.key on.now)) (S.account (C.key on.now)) (C.id on.now) by at result.0 result.1 }
    ensures told { Tells (S.account (C.key on.now)).told at result.1 }
{
    advance::<C, T, L, O, M, A, S, N>(table, on, by, at, operation, single.access)
}

/// Makes the next atomic step of an operation in the state `at`.
#[inline(always)]
pub fn step<
    C: OnTable,
    T,
    L,
    O,
    M: ListMachine<T, L, O, N>,
    A,
    S: Code<C, T, L, O, M, A, N>,
    const N: usize,
>(
    table: &Shared<Option<T>, View<T, L>, Limits, Running<O, M>>,
    on: &C,
    by: Pass<T, L>,
    at: S,
    operation: &O,
) -> (Pass<T, L>, Next<S, A>)
    requires table { (table.now.key ≡ C.key on.now) × (table.now.table_id ≡ C.id on.now) }
    requires named { operation.now ≡ (S.account (C.key on.now)).operation at }
    requires stands { Stands (M.machine (C.key on.now)) (S.account (C.key on.now)) (C.id on.now) by at }
    ensures gives { Gives (M.machine (C.key on.now)) (S.account (C.key on.now)) (C.id on.now) by at result.0 result.1 }
    ensures told { Tells (S.account (C.key on.now)).told at result.1 }
{
    let access = at.access(on);
    advance::<C, T, L, O, M, A, S, N>(table, on, by, at, operation, access)
}

/// Like `step`, but by one access alone, and for a caller that treats `On` and `Lost` alike.
///
/// By the contract the step is one act of its pass. Each access that changes a word, or what the
/// pass has seen, is an act. A further load that changes neither is counted by no clause. Only the
/// code shows that there is none.
#[inline(always)]
pub fn single_step<
    C: OnTable,
    T,
    L,
    O,
    M: ListMachine<T, L, O, N>,
    A,
    S: Code<C, T, L, O, M, A, N>,
    const N: usize,
>(
    table: &Shared<Option<T>, View<T, L>, Limits, Running<O, M>>,
    on: &C,
    by: Pass<T, L>,
    at: S,
    operation: &O,
) -> Stepped<(Pass<T, L>, S), Pass<T, L>, A>
    requires table { (table.now.key ≡ C.key on.now) × (table.now.table_id ≡ C.id on.now) }
    requires named { operation.now ≡ (S.account (C.key on.now)).operation at }
    requires stands { Stands (M.machine (C.key on.now)) (S.account (C.key on.now)) (C.id on.now) by at }
    ensures { GivesSingle (M.machine (C.key on.now)) (S.account (C.key on.now)) (C.id on.now) by at result }
{
    let single = at.access(on).plain();
    match advance_single::<C, T, L, O, M, A, S, N>(table, on, by, at, operation, single) {
        (pass, Next::On(at)) => Stepped::Again((pass, at)),
        (pass, Next::Lost(at)) => Stepped::Again((pass, at)),
        (pass, Next::Done(answer)) => Stepped::Done(pass, answer),
    }
}

/// Like `step`, but promises only what a whole call needs of a step, and that it is at most one.
#[inline(always)]
pub fn any<
    C: OnTable,
    T,
    L,
    O,
    M: ListMachine<T, L, O, N>,
    A,
    S: Code<C, T, L, O, M, A, N>,
    const N: usize,
>(
    table: &Shared<Option<T>, View<T, L>, Limits, Running<O, M>>,
    on: &C,
    by: Pass<T, L>,
    at: S,
    operation: &O,
) -> (Pass<T, L>, Next<S, A>)
    requires table { (table.now.key ≡ C.key on.now) × (table.now.table_id ≡ C.id on.now) }
    requires named { operation.now ≡ (S.account (C.key on.now)).operation at }
    requires stands { Stands (M.machine (C.key on.now)) (S.account (C.key on.now)) (C.id on.now) by at }
    ensures ran { Ran (M.machine (C.key on.now)) (S.account (C.key on.now)) (C.id on.now) operation.now by result.0 result.1 }
    ensures took { (pass_in result.0).steps ≤ (pass_in by).steps + 1 }
    ensures told { Tells (S.account (C.key on.now)).told at result.1 }
{
    step::<C, T, L, O, M, A, S, N>(table, on, by, at, operation)
}

/// Like `any`, for a caller that counts its steps.
#[inline(always)]
pub(crate) fn counted_step<
    C: OnTable,
    T,
    L,
    O,
    M: ListMachine<T, L, O, N>,
    A,
    S: Code<C, T, L, O, M, A, N>,
    const N: usize,
>(
    table: &Shared<Option<T>, View<T, L>, Limits, Running<O, M>>,
    on: &C,
    by: Pass<T, L>,
    at: S,
    operation: &O,
) -> (Pass<T, L>, Next<S, A>)
    requires table { (table.now.key ≡ C.key on.now) × (table.now.table_id ≡ C.id on.now) }
    requires named { operation.now ≡ (S.account (C.key on.now)).operation at }
    requires stands { Stands (M.machine (C.key on.now)) (S.account (C.key on.now)) (C.id on.now) by at }
    ensures ran { Ran (M.machine (C.key on.now)) (S.account (C.key on.now)) (C.id on.now) operation.now by result.0 result.1 }
    ensures one { OneStep (pass_in by) (pass_in result.0) }
    ensures told { Tells (S.account (C.key on.now)).told at result.1 }
{
    step::<C, T, L, O, M, A, S, N>(table, on, by, at, operation)
}

/// Like `any`, for the first step of a whole call. Before this step the pass may look whether other
/// threads got something done while its caller was away. This load tells nothing of the operation.
#[inline(always)]
pub fn first_step<
    C: OnTable,
    T,
    L,
    O,
    M: ListMachine<T, L, O, N>,
    A,
    S: Code<C, T, L, O, M, A, N>,
    const N: usize,
>(
    table: &Shared<Option<T>, View<T, L>, Limits, Running<O, M>>,
    on: &C,
    by: Pass<T, L>,
    at: S,
    operation: &O,
) -> (Pass<T, L>, Next<S, A>)
    requires table { (table.now.key ≡ C.key on.now) × (table.now.table_id ≡ C.id on.now) }
    requires named { operation.now ≡ (S.account (C.key on.now)).operation at }
    requires stands { Stands (M.machine (C.key on.now)) (S.account (C.key on.now)) (C.id on.now) by at }
    ensures ran { Ran (M.machine (C.key on.now)) (S.account (C.key on.now)) (C.id on.now) operation.now by result.0 result.1 }
    ensures took { (pass_in result.0).steps ≤ (pass_in by).steps + 1 }
    ensures told { Tells (S.account (C.key on.now)).told at result.1 }
{
    let Pass { seat, density } = by;
    let density = at_begin::<T, L, O, M>(density, table, on.watched());
    let by = Pass { seat, density };
    any::<C, T, L, O, M, A, S, N>(table, on, by, at, operation)
}
