//! How a relay of files is run.

ghost use Rattle.std.specs.Prelude.{◌≡◌, ◌↔◌, ◌≤◌, IsTrue, IfSome};
ghost use Rattle.relay_args.specs.Ranges.{IsInRange, most_of};

use crate::ranges::{MAX_CONSUMERS, MAX_COUNT, MAX_RING_CAPACITY};
use tagged_index::MAX_CAPACITY;

/// Which container a relay runs over.
#[derive(Clone, Copy, Debug, PartialEq, Eq)]
pub enum Kind {
    /// The first message in is the first out.
    Queue,
    /// The last message in is the first out.
    Stack,
    /// The order of a queue, from a circle of slots.
    Ring,
}

/// How a relay is run.
#[derive(Clone, Copy, Debug, PartialEq, Eq)]
pub struct RelayArgs {
    pub kind: Kind,
    /// The most messages that the container holds: 1 to 1,048,573, for a ring to 1,048,542.
    pub capacity: u32,
    /// How many threads take messages out: 1 to 16.
    pub consumers: u32,
    /// Each consumer ends after this many messages: 0 to 65,535.
    pub take: Option<u32>,
    /// The first producer closes the container after this many messages: 0 to 65,535.
    pub close_after: Option<u32>,
    /// The first consumer shuts the container after this many messages: 0 to 65,535.
    pub shut_after: Option<u32>,
    /// Whether the messages are listed.
    pub list: bool,
}

impl Kind {
    // The greatest capacity.
    fn most(self) -> u32
        ensures { result ≡ most_of self }
    {
        match self {
            Kind::Queue | Kind::Stack => MAX_CAPACITY,
            Kind::Ring => MAX_RING_CAPACITY,
        }
    }
}

impl RelayArgs {
    /// Whether each value lies in its range.
    pub fn is_in_range(&self) -> bool
        ensures { IsTrue result ↔ IsInRange self.now }
    {
        (1..=self.kind.most()).contains(&self.capacity)
            && (1..=MAX_CONSUMERS).contains(&self.consumers)
            && is_count(self.take)
            && is_count(self.close_after)
            && is_count(self.shut_after)
    }
}

// Whether a count that may be left out lies in its range.
fn is_count(count: Option<u32>) -> bool
    ensures { IsTrue result ↔ IfSome count (λ n. n ≤ MAX_COUNT) }
{
    match count {
        Some(count) => count <= MAX_COUNT,
        None => true,
    }
}
