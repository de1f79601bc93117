//! What a relay is to do, and what it gives.

use crate::Message;

/// How many consumers there are, and when producers and consumers stop early.
#[derive(Clone, Copy, Debug, PartialEq, Eq)]
pub struct Plan {
    /// At least 1.
    pub consumers: u32,
    /// Each consumer ends after this many messages.
    pub take: Option<u32>,
    /// Producer 0 closes the container after this many puts.
    pub close_after: Option<u32>,
    /// Consumer 0 shuts the container after this many messages.
    pub shut_after: Option<u32>,
}

/// A message that came through.
#[derive(Debug, Drop, PartialEq, Eq)]
pub struct Taken {
    pub message: Message,
    /// The number of its take.
    pub number: u64,
    /// Who took it, from 0.
    pub consumer: u32,
}

/// Where each message of the inputs ended up.
#[derive(Debug, Drop, PartialEq, Eq)]
pub struct Relayed {
    /// The messages that were taken, in rising order of their numbers.
    pub delivered: Vec<Taken>,
    /// The messages that stayed in the container, a queue's from the front, a stack's from the top.
    pub left: Vec<Message>,
    /// The messages that were never put, a list for each sender.
    pub unsent: Vec<Vec<Message>>,
}
