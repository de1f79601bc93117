//! What the workers of a relay do, and how they end.

ghost use Rattle.std.specs.Prelude.{◌≡◌, true, false, ◌+◌};
ghost use Rattle.relay.specs.Parts.{IsSender, IsTaker, DidSend, DidTake, HasSent, HasTaken, MayUse};
ghost use Rattle.relay.specs.Pools.{pool_of};

use crate::plan::{Orders, is_reached, told_first};
use crate::{Gate, Message, Taken};
use std::collections::VecDeque;
use std::sync::Wait;
use waiting::{PutStopped, Shared, TakeStopped, put_waiting_with, take_waiting_with};

/// How a producer ended.
#[derive(Clone, Copy, Debug, PartialEq, Eq)]
pub(crate) enum ProducerEnd {
    /// All its messages were put.
    SentAll,
    /// It closed the container, as planned.
    ClosedIt,
    /// It found the container closed.
    MetClosed,
    /// A word's tag was at its limit.
    MetSpent,
}

/// How a consumer ended.
#[derive(Clone, Copy, Debug, PartialEq, Eq)]
pub(crate) enum ConsumerEnd {
    /// It took the planned number of messages.
    TookEnough,
    /// It shut the container, as planned.
    ShutIt,
    /// It found the container empty and closed.
    FoundClosed,
    /// It found the container shut.
    FoundShut,
    /// A word's tag was at its limit.
    FoundSpent,
    /// It took more messages than there are. A relay never sees it, but no consumer knows that.
    NoRoom,
}

/// A container, and what its workers are to do.
#[derive(Drop)]
pub(crate) struct Site<C: Drop> {
    pub(crate) container: C,
    pub(crate) orders: Orders,
}

/// What a worker is to do: its pass, its place among those of its kind, and its list. A producer's
/// list is the messages that it is to put. A consumer's list is the room for those that it takes.
#[derive(Drop)]
pub(crate) struct Job<P, T> {
    pub(crate) pass: P,
    pub(crate) place: u32,
    pub(crate) list: Vec<T>,
}

/// What a worker did: the messages that a producer did not put, or those that a consumer took, and
/// how it ended.
#[derive(Drop)]
pub(crate) struct Done<P, T, E> {
    pub(crate) pass: P,
    pub(crate) list: Vec<T>,
    pub(crate) end: E,
}

/// A producer, before and after its work.
pub(crate) type Sender<P> = Job<P, Message>;

pub(crate) type Sent<P> = Done<P, Message, ProducerEnd>;

/// A consumer, before and after its work.
pub(crate) type Taker<P> = Job<P, Taken>;

pub(crate) type Took<P> = Done<P, Taken, ConsumerEnd>;

/// Whether a producer found the container closed.
pub(crate) fn has_met_closed<P>(sent: &Sent<P>) -> bool
    ensures { result ≡ false → MayUse true sent.now }
{
    match sent.end {
        ProducerEnd::MetClosed => true,
        ProducerEnd::SentAll => false,
        ProducerEnd::ClosedIt => false,
        ProducerEnd::MetSpent => false,
    }
}

/// Does a producer's part: puts its messages in their order, and gives their memory back.
pub(crate) fn send<C: Shared<Message>, G: Gate, W: Wait>(
    rt: &W,
    site: &Site<C>,
    gate: &G,
    job: Sender<C::Pass>,
) -> Sent<C::Pass>
    requires ready { IsSender (pool_of C.is_pass C.pass C.shape site.now.container) job }
    ensures of { C.is_pass site.now.container result.pass }
    ensures number { (C.pass result.pass).number ≡ job.place }
    ensures did { HasSent (pool_of C.is_pass C.pass C.shape site.now.container)
        site.now.orders job result }
{
    let Job { pass, place, list } = job;
    let last = told_first(site.orders.close_after, place);
    let mut pass = pass;
    let mut rest = VecDeque::from(list);
    let mut put: u64 = 0;
    let mut call: u64 = 0;
    while !is_reached(last, put) {
        let Some(message) = rest.pop_front() else {
            return stopped(pass, rest, ProducerEnd::SentAll);
        };
        let (back, answer) = put_waiting_with(&site.container, rt, pass, message, || {
            gate.pass(u64::from(place), call);
            call = call.saturating_add(1);
        });
        pass = back;
        match answer {
            Ok(_) => {
                put += 1;
                rest = shrunk(rest);
            }
            Err(PutStopped::Closed(message)) => {
                rest.push_front_reserved(message);
                return stopped(pass, rest, ProducerEnd::MetClosed);
            }
            Err(PutStopped::Spent(message, _, _)) => {
                rest.push_front_reserved(message);
                return stopped(pass, rest, ProducerEnd::MetSpent);
            }
        }
    }
    let (pass, _) = site.container.close(rt, pass);
    stopped(pass, rest, ProducerEnd::ClosedIt)
}

// The messages. If they fill less than half of their memory, the rest is given back.
fn shrunk(messages: VecDeque<Message>) -> VecDeque<Message>
    ensures { result.items ≡ messages.items }
{
    let mut messages = messages;
    if messages.len() < messages.capacity() / 2 {
        messages.shrink_to_fit();
    }
    messages
}

// A producer that has ended. The memory of a list without messages is given back.
fn stopped<P>(pass: P, rest: VecDeque<Message>, end: ProducerEnd) -> Sent<P>
    ensures pass { result.pass ≡ pass }
    ensures rest { result.list.items ≡ rest.items }
    ensures end { result.end ≡ end }
{
    let mut list = Vec::from(rest);
    if list.is_empty() {
        list.shrink_to_fit();
    }
    Done { pass, list, end }
}

/// Does a consumer's part: takes messages, up to the planned number.
pub(crate) fn receive<C: Shared<Message>, G: Gate, W: Wait>(
    rt: &W,
    site: &Site<C>,
    gate: &G,
    job: Taker<C::Pass>,
) -> Took<C::Pass>
    requires ready { IsTaker (pool_of C.is_pass C.pass C.shape site.now.container)
        site.now.orders job }
    ensures of { C.is_pass site.now.container result.pass }
    ensures number { (C.pass result.pass).number ≡ site.now.orders.producers + job.place }
    ensures did { HasTaken (pool_of C.is_pass C.pass C.shape site.now.container)
        site.now.orders result }
{
    let Job { pass, place, list } = job;
    let who = site.orders.producers + u64::from(place);
    let last = told_first(site.orders.shut_after, place);
    let mut pass = pass;
    let mut taken = list;
    let mut call: u64 = 0;
    while taken.len() as u64 <= site.orders.messages {
        let count = taken.len() as u64;
        if is_reached(last, count) {
            let (pass, _) = site.container.shut(rt, pass);
            return ended(pass, taken, ConsumerEnd::ShutIt);
        }
        if is_reached(site.orders.take, count) {
            return ended(pass, taken, ConsumerEnd::TookEnough);
        }
        let (back, answer) = take_waiting_with(&site.container, rt, pass, || {
            gate.pass(who, call);
            call = call.saturating_add(1);
        });
        pass = back;
        match answer {
            Ok((message, number)) => taken.push_reserved(Taken {
                message,
                number,
                consumer: place,
            }),
            Err(TakeStopped::Closed) => return ended(pass, taken, ConsumerEnd::FoundClosed),
            Err(TakeStopped::Shut) => return ended(pass, taken, ConsumerEnd::FoundShut),
            Err(TakeStopped::Spent(_, _)) => return ended(pass, taken, ConsumerEnd::FoundSpent),
        }
    }
    ended(pass, taken, ConsumerEnd::NoRoom)
}

// A consumer that has ended.
fn ended<P>(pass: P, list: Vec<Taken>, end: ConsumerEnd) -> Took<P>
    ensures pass { result.pass ≡ pass }
    ensures list { result.list ≡ list }
    ensures end { result.end ≡ end }
{
    Done { pass, list, end }
}
