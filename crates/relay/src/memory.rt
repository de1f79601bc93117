//! The memory of a relay, taken before any thread is started.

ghost use Rattle.std.specs.Prelude.{◌≡◌, ◌+◌, ◌<◌, ◌≤◌, ◌^◌, All, IfOk, IfSome, IfNone, vec_len};
ghost use Rattle.relay.specs.Rooms.{IsRoomFor, IsWorkRoom, IsOutcomeRoom, most_taken};

use crate::threads::Room;
use crate::workers::{Sender, Taker};
use crate::{Message, Plan, Taken};
use bounded_model::Container;
use std::alloc::{AllocError, Global};

/// Room for the workers of a relay.
#[derive(Drop)]
pub(crate) struct WorkRoom<C: Container<Message>> {
    pub(crate) senders: Vec<Sender<C::Pass>>,
    pub(crate) takers: Vec<Taker<C::Pass>>,
    /// For each consumer, room for what it takes.
    pub(crate) taken: Vec<Vec<Taken>>,
    pub(crate) threads: Room<C>,
}

/// Room for the outcome of a relay.
#[derive(Drop)]
pub(crate) struct OutcomeRoom {
    pub(crate) delivered: Vec<Taken>,
    pub(crate) left: Vec<Message>,
    pub(crate) unsent: Vec<Vec<Message>>,
    /// For each consumer, its list before the lists are put together.
    pub(crate) taken: Vec<Vec<Taken>>,
}

// Room for `most` messages for each consumer.
fn room_each(alloc: Global, consumers: u32, most: usize) -> Result<Vec<Vec<Taken>>, AllocError>
    ensures len { IfOk result (λ v. vec_len v ≡ consumers) }
    ensures each { IfOk result (λ v. All (IsRoomFor most) v.items) }
{
    let mut rooms = Vec::with_capacity(alloc, consumers as usize)?;
    for _ in 0..consumers {
        rooms.push(Vec::with_capacity(alloc, most)?)?;
    }
    Ok(rooms)
}

impl<C: Container<Message>> WorkRoom<C> {
    /// Room for the workers, and for each consumer room for `most` messages.
    pub(crate) fn new(
        alloc: Global,
        producers: usize,
        consumers: u32,
        most: usize,
    ) -> Result<WorkRoom<C>, AllocError>
        ensures { IfOk result (λ r. IsWorkRoom producers consumers most r) }
    {
        Ok(WorkRoom {
            senders: Vec::with_capacity(alloc, producers)?,
            takers: Vec::with_capacity(alloc, consumers as usize)?,
            taken: room_each(alloc, consumers, most)?,
            threads: Room::new(alloc, producers, consumers as usize)?,
        })
    }
}

impl OutcomeRoom {
    /// Room for the outcome of these numbers of producers, consumers and messages.
    pub(crate) fn new(
        alloc: Global,
        producers: usize,
        consumers: u32,
        messages: usize,
    ) -> Result<OutcomeRoom, AllocError>
        ensures { IfOk result (λ r. IsOutcomeRoom producers consumers messages r) }
    {
        Ok(OutcomeRoom {
            delivered: Vec::with_capacity(alloc, messages)?,
            left: Vec::with_capacity(alloc, messages)?,
            unsent: Vec::with_capacity(alloc, producers)?,
            taken: Vec::with_capacity(alloc, consumers as usize)?,
        })
    }
}

// How many messages a consumer needs room for. It needs room for one message more than there are,
// since it cannot know that it takes no more, but not for more than its share.
fn most_each(take: Option<u32>, messages: usize) -> Option<usize>
    ensures most { IfSome result (λ most. most ≡ most_taken take messages) }
    ensures none { IfNone result (2 ^ 64 ≤ messages + 1) }
{
    let all = messages.checked_add(1)?;
    match take {
        Some(share) => Some(all.min(share as usize)),
        None => Some(all),
    }
}

/// All the room that a relay of these workers and messages needs.
pub(crate) fn make_room<C: Container<Message>>(
    alloc: Global,
    producers: usize,
    plan: &Plan,
    messages: u128,
) -> Result<(WorkRoom<C>, OutcomeRoom), AllocError>
    ensures fits { IfOk result (λ r. messages < 2 ^ 64) }
    ensures work { IfOk result (λ r. let most = most_taken plan.now.take messages in
        IsWorkRoom producers plan.now.consumers most r.0) }
    ensures outcome { IfOk result (λ r. IsOutcomeRoom producers plan.now.consumers messages r.1) }
{
    let Ok(messages) = usize::try_from(messages) else {
        return Err(AllocError);
    };
    let Some(most) = most_each(plan.take, messages) else {
        return Err(AllocError);
    };
    let outcome = OutcomeRoom::new(alloc, producers, plan.consumers, messages)?;
    let work = WorkRoom::new(alloc, producers, plan.consumers, most)?;
    Ok((work, outcome))
}
