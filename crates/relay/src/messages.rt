//! A message, and the numbering of the messages of several senders.

ghost use Rattle.std.specs.Prelude.{◌↔◌, IsTrue};
ghost use Rattle.relay.specs.Messages.{AreInputsFrom, IsInput};

/// A line that one sender sent.
#[derive(Debug, Drop, PartialEq, Eq)]
pub struct Message {
    /// Which input it is from, counted from 0.
    pub sender: u32,
    /// Its place in that input, counted from 0.
    pub seq: u32,
    /// The line's bytes, without the line feed.
    pub text: Vec<u8>,
}

/// Whether the message at place `j` of list `s` has sender `s` and seq `j`, for each `s` and `j`.
/// Called in `relay_tests`.
pub fn numbered(inputs: &[Vec<Message>]) -> bool
    ensures { IsTrue result ↔ AreInputsFrom 0 inputs.now }
{
    for (sender, messages) in inputs.iter().enumerate() {
        if !is_input(messages, sender) {
            return false;
        }
    }
    true
}

// Whether the messages are this sender's, numbered from 0.
fn is_input(messages: &[Message], sender: usize) -> bool
    ensures { IsTrue result ↔ IsInput sender messages.now }
{
    for (seq, message) in messages.iter().enumerate() {
        if message.sender as usize != sender || message.seq as usize != seq {
            return false;
        }
    }
    true
}
