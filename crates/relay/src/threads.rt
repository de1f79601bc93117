//! The threads of a relay.

ghost use Rattle.std.specs.Prelude.{◌≡◌, All, [], IfSome, IfOk, true, false, vec_len};
ghost use Rattle.std.specs.List.{AllZip};
ghost use Rattle.bounded_model.specs.Histories.{own};
ghost use Rattle.relay.specs.Parts.{IsSender, IsTaker, IsTeam, DidSend, DidTake, DidClose, HaveEnded, MayUse};
ghost use Rattle.relay.specs.Pools.{PoolView, pool_of};
ghost use Rattle.relay.specs.Rooms.{IsRoomFor, IsThreadRoom};
ghost use Rattle.relay.specs.declared.plan.Orders.{Orders};

use crate::workers::{Sender, Sent, Site, Taker, Took, has_met_closed, receive, send};
use crate::{Gate, Message};
use std::alloc::{AllocError, Global};
use std::snapshot::Snapshot;
use std::sync::Wait;
use std::thread;
use std::thread::{Promise, PromisedHandle, Scope, Threads};
use waiting::Shared;

/// What a worker of either kind does in a thread of its own. Its result is a parameter, since what
/// a thread is started with may name at most one associated type, and `Shared` has one.
pub(crate) trait Works<C: Shared<Message>, Did> {
    /// When it can begin: by what it sees of the container, and its orders.
    ghost is_ready: { PoolView C.Pass → Orders → Self → Type 0 };

    /// What it has done, by its result.
    ghost did: { PoolView C.Pass → Orders → Self → Did → Type 0 };

    fn work<G: Gate, W: Wait>(self, rt: &W, site: &Site<C>, gate: &G) -> Did
        requires { let pool = pool_of C.is_pass C.pass C.shape site.now.container in
            is_ready pool site.now.orders self }
        ensures { let pool = pool_of C.is_pass C.pass C.shape site.now.container in
            did pool site.now.orders self result };
}

impl<C: Shared<Message>> Works<C, Sent<C::Pass>> for Sender<C::Pass> {
    ghost is_ready = { λ pool _. IsSender pool };

    ghost did = { DidSend };

    fn work<G: Gate, W: Wait>(self, rt: &W, site: &Site<C>, gate: &G) -> Sent<C::Pass> {
        send(rt, site, gate, self)
    }
}

impl<C: Shared<Message>> Works<C, Took<C::Pass>> for Taker<C::Pass> {
    ghost is_ready = { IsTaker };

    ghost did = { DidTake };

    fn work<G: Gate, W: Wait>(self, rt: &W, site: &Site<C>, gate: &G) -> Took<C::Pass> {
        receive(rt, site, gate, self)
    }
}

/// What a worker's thread was started with.
#[derive(Drop)]
pub(crate) struct Part<C: Shared<Message>, J> {
    site: Snapshot<Site<C>>,
    job: Snapshot<J>,
}

impl<C: Shared<Message>, Did, J: Works<C, Did>> Promise<Did> for Part<C, J> {
    ghost kept_by = { λ p r. let pool = pool_of C.is_pass C.pass C.shape p.site.value.container in
        J.did pool p.site.value.orders p.job.value r };
}

/// All workers of a relay, and the pass that closes.
#[derive(Drop)]
pub(crate) struct Team<P> {
    pub(crate) senders: Vec<Sender<P>>,
    pub(crate) takers: Vec<Taker<P>>,
    pub(crate) closer: P,
}

/// A relay's workers when they have ended, and the closing pass.
#[derive(Drop)]
pub(crate) struct Ended<P> {
    pub(crate) sent: Vec<Sent<P>>,
    pub(crate) took: Vec<Took<P>>,
    pub(crate) closer: P,
    /// Whether the closing pass was used.
    pub(crate) used: bool,
}

/// Room for the threads and for what they give back.
#[derive(Drop)]
pub(crate) struct Room<C: Shared<Message>> {
    pub(crate) senders: Vec<PromisedHandle<Sent<C::Pass>, Part<C, Sender<C::Pass>>>>,
    pub(crate) takers: Vec<PromisedHandle<Took<C::Pass>, Part<C, Taker<C::Pass>>>>,
    pub(crate) sent: Vec<Sent<C::Pass>>,
    pub(crate) took: Vec<Took<C::Pass>>,
}

impl<C: Shared<Message>> Room<C> {
    /// Room for this many workers of each kind.
    pub(crate) fn new(
        alloc: Global,
        producers: usize,
        consumers: usize,
    ) -> Result<Room<C>, AllocError>
        ensures { IfOk result (λ r. IsThreadRoom producers consumers r) }
    {
        Ok(Room {
            senders: Vec::with_capacity(alloc, producers)?,
            takers: Vec::with_capacity(alloc, consumers)?,
            sent: Vec::with_capacity(alloc, producers)?,
            took: Vec::with_capacity(alloc, consumers)?,
        })
    }
}

/// Joins each thread.
fn join_each<T: Drop, P: Promise<T> + Drop, R: Threads>(
    rt: &R,
    children: Vec<PromisedHandle<T, P>>,
    room: Vec<T>,
) -> Vec<T>
    requires { IsRoomFor (vec_len children) room }
    ensures { AllZip (λ h r. P.kept_by h.promise r) children.items result.items }
{
    let mut all = room;
    for child in children {
        all.push_reserved(child.join(rt));
    }
    all
}

// Whether one of the producers found the container closed.
fn some_met_closed<P>(sent: &[Sent<P>]) -> bool
    ensures { result ≡ false → All (MayUse true) sent.now }
{
    for one in sent {
        if has_met_closed(one) {
            return true;
        }
    }
    false
}

/// Joins the producers, closes the container if none of them found it closed, and joins the
/// consumers.
fn join_workers<C: Shared<Message>, R: Threads + Wait>(
    rt: &R,
    site: &Site<C>,
    senders: Vec<PromisedHandle<Sent<C::Pass>, Part<C, Sender<C::Pass>>>>,
    takers: Vec<PromisedHandle<Took<C::Pass>, Part<C, Taker<C::Pass>>>>,
    closer: C::Pass,
    room: (Vec<Sent<C::Pass>>, Vec<Took<C::Pass>>),
) -> Ended<C::Pass>
    requires closer { C.is_pass site.now.container closer }
    requires new { own (C.pass closer).number (C.pass closer).seen ≡ [] }
    requires sent { IsRoomFor (vec_len senders) room.0 }
    requires took { IsRoomFor (vec_len takers) room.1 }
    ensures sent { AllZip (λ h r. let at = h.promise.site.value in
        DidSend (pool_of C.is_pass C.pass C.shape at.container) at.orders h.promise.job.value r)
        senders.items result.sent.items }
    ensures took { AllZip (λ h r. let at = h.promise.site.value in
        DidTake (pool_of C.is_pass C.pass C.shape at.container) at.orders h.promise.job.value r)
        takers.items result.took.items }
    ensures closed { DidClose (pool_of C.is_pass C.pass C.shape site.now.container)
        closer result.closer result.used }
    ensures used { All (MayUse result.used) result.sent.items }
{
    let (sent_room, took_room) = room;
    let sent = join_each(rt, senders, sent_room);
    let used = !some_met_closed(&sent);
    let closer = if used {
        site.container.close(rt, closer).0
    } else {
        closer
    };
    let took = join_each(rt, takers, took_room);
    Ended {
        sent,
        took,
        closer,
        used,
    }
}

// Starts a thread for each worker; `None` if one could not be started.
fn start_each<'s, E, C: Shared<Message> + Sync, G: Gate + Sync, R: Wait + Sync, Did, J>(
    scope: &Scope<'s, E>,
    rt: &'s R,
    site: &'s Site<C>,
    gate: &'s G,
    jobs: Vec<J>,
    room: Vec<PromisedHandle<Did, Part<C, J>>>,
) -> Option<Vec<PromisedHandle<Did, Part<C, J>>>>
where
    C::Pass: Send,
    Did: Send + Drop + 's,
    J: Works<C, Did> + Send + Drop + 's,
    requires ready { let pool = pool_of C.is_pass C.pass C.shape site.now.container in
        All (J.is_ready pool site.now.orders) jobs.items }
    requires room { IsRoomFor (vec_len jobs) room }
    ensures { IfSome result (λ v. AllZip (λ j h. (h.promise.job.value ≡ j)
        × (h.promise.site.value ≡ site.now)) jobs.items v.items) }
{
    let mut started = room;
    for job in jobs {
        let part = Part {
            site: Snapshot::of(site),
            job: Snapshot::of(&job),
        };
        match scope.spawn_with(
            part,
            move || -> Did
                requires { let pool = pool_of C.is_pass C.pass C.shape site.now.container in
                    J.is_ready pool site.now.orders job }
                ensures { let pool = pool_of C.is_pass C.pass C.shape site.entry.now.container in
                    J.did pool site.entry.now.orders job result }
            { job.work(rt, site, gate) },
        ) {
            Ok(child) => started.push_reserved(child),
            Err(_) => return None,
        }
    }
    Some(started)
}

// Starts the threads of a team, and joins them.
fn work_as_team<'s, E, C: Shared<Message> + Sync, G: Gate + Sync, R: Threads + Wait + Sync>(
    scope: &Scope<'s, E>,
    rt: &'s R,
    site: &'s Site<C>,
    gate: &'s G,
    team: Team<C::Pass>,
    room: Room<C>,
) -> Option<Ended<C::Pass>>
where
    C::Pass: Send,
    requires ready { let pool = pool_of C.is_pass C.pass C.shape site.now.container in
        IsTeam pool site.now.orders team }
    requires room { IsThreadRoom (vec_len team.senders) (vec_len team.takers) room }
    ensures { let pool = pool_of C.is_pass C.pass C.shape site.now.container in
        IfSome result (λ e. HaveEnded pool site.now.orders team e) }
{
    let Team {
        senders,
        takers,
        closer,
    } = team;
    let Room {
        senders: sender_room,
        takers: taker_room,
        sent,
        took,
    } = room;
    let Some(producing) = start_each(scope, rt, site, gate, senders, sender_room) else {
        let _ = site.container.close(rt, closer);
        return None;
    };
    let Some(consuming) = start_each(scope, rt, site, gate, takers, taker_room) else {
        let _ = site.container.close(rt, closer);
        return None;
    };
    Some(join_workers(rt, site, producing, consuming, closer, (sent, took)))
}

/// Does each worker's part in a thread of its own, and closes the container when the producers have
/// ended. `None` if a thread could not be started. Then the container is closed at once, so the
/// threads that were started have ended.
pub(crate) fn run_workers<C: Shared<Message> + Sync, G: Gate + Sync, R: Threads + Wait + Sync>(
    rt: &R,
    site: &Site<C>,
    gate: &G,
    team: Team<C::Pass>,
    room: Room<C>,
) -> Option<Ended<C::Pass>>
where
    C::Pass: Send,
    requires ready { let pool = pool_of C.is_pass C.pass C.shape site.now.container in
        IsTeam pool site.now.orders team }
    requires room { IsThreadRoom (vec_len team.senders) (vec_len team.takers) room }
    ensures { let pool = pool_of C.is_pass C.pass C.shape site.now.container in
        IfSome result (λ e. HaveEnded pool site.now.orders team e) }
{
    thread::scope(
        thread::scope_env(),
        rt,
        |scope| -> Option<Ended<C::Pass>>
            requires ready { let pool = pool_of C.is_pass C.pass C.shape site.now.container in
                IsTeam pool site.now.orders team }
            requires room { IsThreadRoom (vec_len team.senders) (vec_len team.takers) room }
            ensures { let pool = pool_of C.is_pass C.pass C.shape site.entry.now.container in
                IfSome result (λ e. HaveEnded pool site.entry.now.orders team e) }
        { work_as_team(scope, rt, site, gate, team, room) },
    )
}
