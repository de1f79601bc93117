//! A relay from its beginning to its end.

ghost use Rattle.std.specs.Prelude.{◌≡◌, ◌↔◌, ◌<◌, ◌≤◌, ◌+◌, ◌^◌, All, [], length, vec_len, vec_capacity, IfOk, Err, IfSome, IfNone, map};
ghost use Rattle.bounded_model.specs.Gathers.{EachFrom};
ghost use Rattle.bounded_model.specs.Laws.{fresh};
ghost use Rattle.relay.specs.Messages.{AreInputsFrom};
ghost use Rattle.relay.specs.Rooms.{IsWorkRoom, most_taken, IsRoomFor};
ghost use Rattle.relay.specs.Passes.{gave, IsNewJob, JoinsAll};
ghost use Rattle.relay.specs.Parts.{MayUse};
ghost use Rattle.relay.specs.Pools.{pool_of};
ghost use Rattle.relay.specs.Worked.{TookAs, ClosedAs, EachSent};
ghost use Rattle.relay.specs.Promises.{total, IsTooSmall, Relays, LosesNothing, KeepsOrder, SendsAll, SendsFirst, LeavesNothing, NumbersRise, NumbersCount, NamesConsumers, TakesNoMore, FirstTakesNoMore, TakesShares, FirstTakesShare};
ghost use Rattle.relay.specs.declared.faults.RelayFault.TheVariants.{TooSmall, NoPass, NoThread};
ghost use Rattle.std.specs.List.{AllZip};

use crate::memory::{WorkRoom, make_room};
use crate::merge::{drain, merge};
use crate::plan::{Orders, count, is_too_small};
use crate::threads::{Ended, Team, run_workers};
use crate::workers::{Done, Job, Site};
use crate::{FreeGate, Gate, Message, Plan, RelayFault, Relayed};
use bounded_model::Container;
use std::alloc::Global;
use std::sync::Wait;
use std::thread::Threads;

// Gives each worker a pass, and has them work.
fn work<C: Container<Message> + Sync, G: Gate + Sync, R: Threads + Wait + Sync>(
    rt: &R,
    site: &Site<C>,
    root: &mut C::Root,
    gate: &G,
    inputs: Vec<Vec<Message>>,
    room: WorkRoom<C>,
) -> Result<Ended<C::Pass>, RelayFault>
    requires root { C.is_root site.now.container root.old }
    requires fresh { C.root root.old ≡ fresh }
    requires numbered { AreInputsFrom 0 inputs.items }
    requires producers { site.now.orders.producers ≡ vec_len inputs }
    requires room { let most = most_taken site.now.orders.take site.now.orders.messages in
        IsWorkRoom (vec_len inputs) (vec_len room.taken) most room }
    ensures root { C.is_root site.now.container root.new }
    ensures given { IfOk result (λ e.
        C.root root.new ≡ gave (vec_len inputs + vec_len room.taken + 1)) }
    ensures senders { IfOk result (λ e.
        let pool = pool_of C.is_pass C.pass C.shape site.now.container in
        EachSent pool site.now.orders inputs.items e.sent.items) }
    ensures takers { IfOk result (λ e.
        let pool = pool_of C.is_pass C.pass C.shape site.now.container in
        EachFrom (TookAs pool site.now.orders) 0 e.took.items) }
    ensures consumers { IfOk result (λ e. vec_len e.took ≡ vec_len room.taken) }
    ensures closer { IfOk result (λ e.
        let pool = pool_of C.is_pass C.pass C.shape site.now.container in
        ClosedAs pool (vec_len inputs + vec_len room.taken) e.closer e.used) }
    ensures used { IfOk result (λ e. All (MayUse e.used) e.sent.items) }
    ensures never { (result ≡ Err TooSmall) → ⊥ }
    ensures no_pass { result ≡ Err NoPass →
        (C.shape site.now.container).passes ≤ vec_len inputs + vec_len room.taken }
    ensures no_thread { result ≡ Err NoThread →
        vec_len inputs + vec_len room.taken < (C.shape site.now.container).passes }
    ensures passes { IfOk result (λ e.
        vec_len inputs + vec_len room.taken < (C.shape site.now.container).passes) }
{
    let WorkRoom {
        senders,
        takers,
        taken,
        threads,
    } = room;
    let Some(senders) = split_jobs(&site.container, root, inputs, senders) else {
        return Err(RelayFault::NoPass);
    };
    let Some(takers) = split_jobs(&site.container, root, taken, takers) else {
        return Err(RelayFault::NoPass);
    };
    let Some(closer) = site.container.split(root) else {
        return Err(RelayFault::NoPass);
    };
    let team = Team {
        senders,
        takers,
        closer,
    };
    match run_workers(rt, site, gate, team, threads) {
        Some(ended) => Ok(ended),
        None => Err(RelayFault::NoThread),
    }
}

/// Relays all messages: one thread for each input puts its messages in their order, and each
/// consumer takes messages in a thread of its own. Returns where each message ended up.
///
/// The promises hold if it returns. If the tag limit is at most twice the number of messages, the
/// container can refuse a put or a take for good. Only then may messages stay unsent or left that
/// the plan did not ask to stay.
///
/// The faults, in the order in which the call looks for them:
/// - `TooSmall`: comes exactly if some message could never be put.
/// - `NoMemory`: there is no room for the outcome.
/// - `NoPass`: the workers and the closing pass need more passes than may be out at one time, which
///   is [`MAX_PASSES`](bounded_model::MAX_PASSES) for a queue or a stack. Without an earlier fault,
///   it comes exactly then.
/// - `NoThread`: a worker's thread could not be started.
///
/// A fault consumes the container and the inputs, and no worker runs on. Called in `file_relay`,
/// with a gate that counts the tries.
pub fn run<C: Container<Message> + Sync, G: Gate + Sync, R: Threads + Wait + Sync>(
    rt: &R,
    alloc: Global,
    container: C,
    root: C::Root,
    inputs: Vec<Vec<Message>>,
    plan: Plan,
    gate: &G,
) -> Result<Relayed, RelayFault>
    requires root { C.is_root container root }
    requires fresh { C.root root ≡ fresh }
    requires consumers { 1 ≤ plan.consumers }
    requires numbered { AreInputsFrom 0 inputs.items }
    ensures lists { IfOk result (λ r. length r.unsent.items ≡ length inputs.items) }
    ensures all_there { IfOk result (LosesNothing inputs.items) }
    ensures in_order { IfOk result (KeepsOrder (C.shape container) inputs.items) }
    ensures all_sent { IfOk result (SendsAll (C.shape container) plan inputs.items) }
    ensures first_sent { IfOk result (SendsFirst (C.shape container) plan inputs.items) }
    ensures none_left { IfOk result (LeavesNothing (C.shape container) plan inputs.items) }
    ensures rising { IfOk result NumbersRise }
    ensures counting { IfOk result (NumbersCount (C.shape container)) }
    ensures consumers { IfOk result (NamesConsumers plan) }
    ensures no_more { IfOk result (TakesNoMore plan) }
    ensures first_no_more { IfOk result (FirstTakesNoMore plan) }
    ensures shares { IfOk result (TakesShares (C.shape container) plan inputs.items) }
    ensures first_share { IfOk result (FirstTakesShare (C.shape container) plan inputs.items) }
    ensures all { IfOk result (Relays (C.shape container) plan inputs.items) }
    ensures too_small { (result ≡ Err TooSmall)
        ↔ IsTooSmall plan (C.shape container).capacity (total inputs.items) }
    ensures no_pass { result ≡ Err NoPass →
        (C.shape container).passes ≤ length inputs.items + plan.consumers }
    ensures no_thread { result ≡ Err NoThread →
        length inputs.items + plan.consumers < (C.shape container).passes }
    ensures passes { IfOk result (λ r.
        length inputs.items + plan.consumers < (C.shape container).passes) }
{
    let messages = count(&inputs);
    if is_too_small(&plan, container.capacity(), messages) {
        return Err(RelayFault::TooSmall);
    }
    let Ok(room) = make_room(alloc, inputs.len(), &plan, messages) else {
        return Err(RelayFault::NoMemory);
    };
    let (work_room, outcome) = room;
    let orders = Orders {
        producers: inputs.len() as u64,
        messages: messages as u64,
        take: plan.take,
        close_after: plan.close_after,
        shut_after: plan.shut_after,
    };
    let site = Site { container, orders };
    let mut root = root;
    let Ended {
        sent,
        took,
        closer,
        used: _,
    } = work(rt, &site, &mut root, gate, inputs, work_room)?;
    let unsent = join_done(&site.container, &mut root, sent, outcome.unsent);
    let lists = join_done(&site.container, &mut root, took, outcome.taken);
    site.container.join(&mut root, closer);
    let delivered = merge(lists, outcome.delivered);
    let left = drain(site.container.finish(root), outcome.left);
    Ok(Relayed {
        delivered,
        left,
        unsent,
    })
}

/// Relays all messages as [`run`] does, and holds no worker. Called in `relay_tests`.
pub fn run_freely<C: Container<Message> + Sync, R: Threads + Wait + Sync>(
    rt: &R,
    alloc: Global,
    container: C,
    root: C::Root,
    inputs: Vec<Vec<Message>>,
    plan: Plan,
) -> Result<Relayed, RelayFault>
    requires root { C.is_root container root }
    requires fresh { C.root root ≡ fresh }
    requires consumers { 1 ≤ plan.consumers }
    requires numbered { AreInputsFrom 0 inputs.items }
    ensures all { IfOk result (Relays (C.shape container) plan inputs.items) }
    ensures too_small { (result ≡ Err TooSmall)
        ↔ IsTooSmall plan (C.shape container).capacity (total inputs.items) }
    ensures no_pass { result ≡ Err NoPass →
        (C.shape container).passes ≤ length inputs.items + plan.consumers }
    ensures no_thread { result ≡ Err NoThread →
        length inputs.items + plan.consumers < (C.shape container).passes }
    ensures passes { IfOk result (λ r.
        length inputs.items + plan.consumers < (C.shape container).passes) }
{
    run(rt, alloc, container, root, inputs, plan, &FreeGate)
}

/// A job for each list, in order, with the passes after those given. `None` if there are too few
/// passes.
pub(crate) fn split_jobs<C: Container<Message>, T: Drop>(
    container: &C,
    root: &mut C::Root,
    lists: Vec<Vec<T>>,
    room: Vec<Job<C::Pass, T>>,
) -> Option<Vec<Job<C::Pass, T>>>
    requires root { C.is_root container.now root.old }
    requires fresh { C.root root.old ≡ gave (C.root root.old).given }
    requires room { IsRoomFor (vec_len lists) room }
    ensures root { C.is_root container.now root.new }
    ensures given { IfSome result (λ v.
        C.root root.new ≡ gave ((C.root root.old).given + vec_len lists)) }
    ensures new { IfSome result (λ v. let first = (C.root root.old).given in
        EachFrom (IsNewJob (C.is_pass container.now) C.pass first) 0 v.items) }
    ensures lists { IfSome result (λ v. AllZip (λ l j. j.list ≡ l) lists.items v.items) }
    ensures none { IfNone result
        ((C.shape container.now).passes ≤ (C.root root.old).given + vec_len lists) }
{
    let mut jobs = room;
    for list in lists {
        let Some(pass) = container.split(root) else {
            return None;
        };
        let place = jobs.len() as u32;
        jobs.push_reserved(Job { pass, place, list });
    }
    Some(jobs)
}

/// Joins the passes of workers that have ended; returns their lists.
pub(crate) fn join_done<C: Container<Message>, T: Drop, E: Drop>(
    container: &C,
    root: &mut C::Root,
    done: Vec<Done<C::Pass, T, E>>,
    room: Vec<Vec<T>>,
) -> Vec<Vec<T>>
    requires root { C.is_root container.now root.old }
    requires passes { All (λ d. C.is_pass container.now d.pass) done.items }
    requires room { IsRoomFor (vec_len done) room }
    ensures root { C.is_root container.now root.new }
    ensures joined { let passes = map (λ d. C.pass d.pass) done.items in
        JoinsAll (C.root root.old) passes (C.root root.new) }
    ensures lists { AllZip (λ d l. l ≡ d.list) done.items result.items }
{
    let mut lists = room;
    for one in done {
        let Done { pass, list, end: _ } = one;
        container.join(root, pass);
        lists.push_reserved(list);
    }
    lists
}
