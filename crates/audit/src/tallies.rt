//! The messages of many senders, counted in one pass over an outcome.

ghost use Rattle.std.specs.Prelude.{◌≡◌, ℕ, ◌+◌, ◌<◌, ◌^◌, slice_index_or};
ghost use Rattle.audit.specs.declared.tallies.TheConstants.{SENDERS};
ghost use Rattle.audit.specs.Counting.{Adds, CountsEach, IsSmall, IsTallyOf, counts_of};

use crate::counts::Counts;
use relay::{Message, Relayed, Taken};
use relay_args::MAX_FILES;

/// How many senders one pass counts: as many as a relay of files has, 16.
pub(crate) const SENDERS: usize = MAX_FILES;

/// How many messages were delivered and left of each of [`SENDERS`] senders, from the first of them
/// on.
#[derive(Drop)]
pub(crate) struct Tallies {
    pub(crate) first: usize,
    pub(crate) delivered: [u64; SENDERS],
    pub(crate) left: [u64; SENDERS],
}

impl Tallies {
    pub(crate) fn new(relayed: &Relayed, first: usize) -> Tallies
        ensures of { IsTallyOf relayed.now result }
        ensures first { result.first ≡ first }
    {
        Tallies {
            first,
            delivered: count_delivered(&relayed.delivered, first),
            left: count_left(&relayed.left, first),
        }
    }

    /// The counts of one sender, whose unsent messages these are. A sender that was not counted
    /// begins the next pass.
    pub(crate) fn of_sender(
        &mut self,
        relayed: &Relayed,
        sender: usize,
        unsent: &Vec<Message>,
    ) -> Counts
        requires { IsTallyOf relayed.now self.old }
        ensures of { IsTallyOf relayed.now self.new }
        ensures value { result ≡ counts_of relayed.now sender unsent.now }
        ensures small { IsSmall result }
    {
        if sender < self.first || sender - self.first >= SENDERS {
            *self = Tallies::new(relayed, sender);
        }
        let place = sender - self.first;
        Counts {
            delivered: u128::from(self.delivered[place]),
            left: u128::from(self.left[place]),
            unsent: unsent.len() as u128,
        }
    }
}

fn count_delivered(delivered: &[Taken], first: usize) -> [u64; SENDERS]
    ensures { CountsEach (λ t. t.message.sender) delivered.now first result }
{
    let mut counts = [0; SENDERS];
    for taken in delivered {
        add(&mut counts, first, taken.message.sender);
    }
    counts
}

fn count_left(left: &[Message], first: usize) -> [u64; SENDERS]
    ensures { CountsEach (λ m. m.sender) left.now first result }
{
    let mut counts = [0; SENDERS];
    for message in left {
        add(&mut counts, first, message.sender);
    }
    counts
}

// Counts a message of this sender.
fn add(counts: &mut [u64; SENDERS], first: usize, sender: u32)
    requires { (k : ℕ) → k < SENDERS → slice_index_or counts.old k 0 + 1 < 2 ^ 64 }
    ensures { Adds first sender counts.old counts.new }
{
    let sender = sender as usize;
    if first <= sender && sender - first < SENDERS {
        counts[sender - first] += 1;
    }
}
