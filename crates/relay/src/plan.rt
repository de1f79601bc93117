//! What the workers of a relay are to do, and whether it is too small for its messages.

ghost use Rattle.std.specs.Prelude.{◌≡◌, ℕ, Decides, ◌+◌, ◌*◌, ◌<◌, Some, None};
ghost use Rattle.relay.specs.Promises.{total, HasNoPlace, IsTooSmall};

use crate::{Message, Plan};

/// A plan, with the counts of producers and of messages.
#[derive(Clone, Copy)]
pub(crate) struct Orders {
    /// The passes below this number are the producers', the next ones the consumers'.
    pub(crate) producers: u64,
    /// How many messages the inputs hold together.
    pub(crate) messages: u64,
    pub(crate) take: Option<u32>,
    pub(crate) close_after: Option<u32>,
    pub(crate) shut_after: Option<u32>,
}

/// Whether a limit was set and is met.
pub(crate) fn is_reached(limit: Option<u32>, count: u64) -> bool
    ensures { Decides result (limit ≡ Some count) }
{
    match limit {
        Some(most) => u64::from(most) == count,
        None => false,
    }
}

/// A limit that is only for the first worker of its kind.
pub(crate) fn told_first(limit: Option<u32>, place: u32) -> Option<u32>
    ensures first { place ≡ 0 → result ≡ limit }
    ensures others { (most : ℕ) → result ≡ Some most → place ≡ 0 }
{
    if place == 0 { limit } else { None }
}

/// How many messages the inputs hold together.
pub(crate) fn count(inputs: &[Vec<Message>]) -> u128
    ensures { result ≡ total inputs.now }
{
    let mut messages = 0;
    for input in inputs {
        messages += input.len() as u128;
    }
    messages
}

/// Whether a limit is set and the takers and a full container together hold fewer messages than
/// there are.
fn has_no_place(limit: Option<u32>, takers: u32, capacity: u32, messages: u128) -> bool
    ensures { Decides result (HasNoPlace limit takers capacity messages) }
{
    match limit {
        Some(most) => u128::from(capacity) + u128::from(takers) * u128::from(most) < messages,
        None => false,
    }
}

/// Whether the consumers are to take so little that some message could never be put.
pub(crate) fn is_too_small(plan: &Plan, capacity: u32, messages: u128) -> bool
    ensures { Decides result (IsTooSmall plan.now capacity messages) }
{
    has_no_place(plan.take, plan.consumers, capacity, messages)
        || has_no_place(plan.shut_after, 1, capacity, messages)
}
