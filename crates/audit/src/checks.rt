//! Whether an outcome is one that a queue, or a stack, allows.

ghost use Rattle.std.specs.Prelude.{◌↔◌, ◌≡◌, ◌≤◌, ◌^◌, ◌∷◌, ◌++◌, List, IsTrue, IsSomeAnd, IfSome, map};
ghost use Rattle.std.specs.List.Sorted.{IsStrictlyIncreasing};
ghost use Rattle.relay.specs.declared.messages.Message.{Message};
ghost use Rattle.relay.specs.Messages.{CountsFrom, GoOnFrom};
ghost use Rattle.audit.specs.Senders.{sent_by, messages_of};
ghost use Rattle.audit.specs.Checks.{AllSent, HasKnownSenders, IsQueueOutcome};

use relay::{Message, Relayed, Taken};

/// Whether a queue allows this outcome:
/// - The numbers of the delivered messages are 0, 1, 2, ..
/// - Each message's sender is a place of `unsent`. An unsent message's sender is its list's place.
/// - Each sender's seqs are 0, 1, 2, .. in the delivered messages, then in those left, then in its
///   unsent ones.
pub fn check_queue(relayed: &Relayed) -> bool
    ensures { IsTrue result ↔ IsQueueOutcome relayed.now }
{
    is_numbered(&relayed.delivered) && has_known_senders(relayed) && has_all_seqs(relayed)
}

/// Whether a stack allows these numbers of takes, in the order of the takes: each is greater than
/// the one before.
pub fn check_stack(numbers: &[u64]) -> bool
    ensures { IsTrue result ↔ IsStrictlyIncreasing numbers.now }
{
    for place in 1..numbers.len() {
        if numbers[place] <= numbers[place - 1] {
            return false;
        }
    }
    true
}

// Whether the takes' numbers are 0, 1, 2, ..
fn is_numbered(delivered: &[Taken]) -> bool
    ensures { IsTrue result ↔ CountsFrom 0 (map (λ t. t.number) delivered.now) }
{
    for (place, taken) in delivered.iter().enumerate() {
        if taken.number != place as u64 {
            return false;
        }
    }
    true
}

// Whether each message that was put has a sender that is a place of `unsent`.
fn has_known_senders(relayed: &Relayed) -> bool
    ensures { IsTrue result ↔ HasKnownSenders relayed.now }
{
    let senders = relayed.unsent.len();
    relayed
        .delivered
        .iter()
        .all(|taken| (taken.message.sender as usize) < senders)
        && relayed
            .left
            .iter()
            .all(|message| (message.sender as usize) < senders)
}

// Whether each sender's messages have the seqs 0, 1, 2, ..
fn has_all_seqs(relayed: &Relayed) -> bool
    ensures { IsTrue result ↔ AllSent
        (messages_of relayed.now.delivered.items ++ relayed.now.left.items) 0
        relayed.now.unsent.items }
{
    for (sender, unsent) in relayed.unsent.iter().enumerate() {
        if !is_all_sent(&relayed.delivered, &relayed.left, unsent, sender) {
            return false;
        }
    }
    true
}

// Whether this sender's messages have the seqs 0, 1, 2, ..
fn is_all_sent(delivered: &[Taken], left: &[Message], unsent: &[Message], sender: usize) -> bool
    ensures { IsTrue result ↔ GoOnFrom sender 0
        (sent_by sender (messages_of delivered.now ++ left.now) ++ unsent.now) }
{
    let Some(next) = seq_after_delivered(delivered, sender) else {
        return false;
    };
    let Some(next) = seq_after_left(left, sender, next) else {
        return false;
    };
    goes_on(unsent, sender, next)
}

// The seq that follows those of the sender's delivered messages, which are 0, 1, 2, ..
fn seq_after_delivered(delivered: &[Taken], sender: usize) -> Option<u64>
    ensures small { IfSome result (λ next. next ≤ 2 ^ 32) }
    ensures next { (more : List Message)
        → GoOnFrom sender 0 (sent_by sender (messages_of delivered.now) ++ more)
        ↔ IsSomeAnd result (λ next. GoOnFrom sender next more) }
{
    let mut next = 0;
    for taken in delivered {
        next = seq_after(&taken.message, sender, next)?;
    }
    Some(next)
}

// The seq that follows those of the sender's messages left, which continue from `first`.
fn seq_after_left(left: &[Message], sender: usize, first: u64) -> Option<u64>
    requires { first ≤ 2 ^ 32 }
    ensures small { IfSome result (λ next. next ≤ 2 ^ 32) }
    ensures next { (more : List Message) → GoOnFrom sender first (sent_by sender left.now ++ more)
        ↔ IsSomeAnd result (λ next. GoOnFrom sender next more) }
{
    let mut next = first;
    for message in left {
        next = seq_after(message, sender, next)?;
    }
    Some(next)
}

// The seq that is wanted after this message, if `next` was wanted of the sender's next one. A seq
// is below 2^32, so the seq wanted after it fits.
fn seq_after(message: &Message, sender: usize, next: u64) -> Option<u64>
    requires { next ≤ 2 ^ 32 }
    ensures small { IfSome result (λ after. after ≤ 2 ^ 32) }
    ensures next { (others more : List Message)
        → GoOnFrom sender next (sent_by sender (message.now ∷ others) ++ more)
        ↔ IsSomeAnd result (λ after. GoOnFrom sender after (sent_by sender others ++ more)) }
{
    if message.sender as usize != sender {
        return Some(next);
    }
    (message.seq as u64 == next).then(|| next + 1)
}

// Whether these are all of the sender, with the seqs from `first` on.
fn goes_on(messages: &[Message], sender: usize, first: u64) -> bool
    requires { first ≤ 2 ^ 32 }
    ensures { IsTrue result ↔ GoOnFrom sender first messages.now }
{
    let mut next = first;
    for message in messages {
        if message.sender as usize != sender || message.seq as u64 != next {
            return false;
        }
        next += 1;
    }
    true
}
