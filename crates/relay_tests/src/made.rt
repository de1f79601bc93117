//! Messages and outcomes that are made by hand.

use relay::{Message, Relayed, Taken};
use std::alloc::Global;
use std::process::Abort;

/// A message of this text.
pub(crate) fn message<R: Abort>(
    rt: &R,
    alloc: Global,
    (sender, seq): (u32, u32),
    text: &[u8],
) -> Message {
    let text = Vec::from_slice(alloc, text).expect(rt, "memory");
    Message { sender, seq, text }
}

/// A message of this text that was taken.
pub(crate) fn taken<R: Abort>(
    rt: &R,
    alloc: Global,
    (sender, seq, number): (u32, u32, u64),
    text: &[u8],
) -> Taken {
    Taken {
        message: message(rt, alloc, (sender, seq), text),
        number,
        consumer: 0,
    }
}

/// The outcome of `senders` senders that sent nothing.
pub(crate) fn nothing_of<R: Abort>(rt: &R, alloc: Global, senders: u32) -> Relayed {
    let mut unsent = Vec::new(alloc);
    for _ in 0..senders {
        unsent.push(Vec::new(alloc)).expect(rt, "memory");
    }
    Relayed {
        delivered: Vec::new(alloc),
        left: Vec::new(alloc),
        unsent,
    }
}
