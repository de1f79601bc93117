//! The queue of a stream, and its two ends.
ghost use Rattle.std.specs.Prelude.{IfOk};
ghost use Rattle.example_rule.specs.Ends.{IsPassOf, IsProducer};

use crate::fault::Fault;
use crate::feed::Feed;
use crate::frame::Frame;
use crate::producer::Producer;
use ms_queue::{Pass, Queue};
use std::alloc::Global;
use tagged_index::{Limits, MAX_TAG};

/// A queue of frames whose history keeps the rule `Feed`.
pub type Stream = Queue<Frame, Feed>;

/// Makes a stream with room for 16 frames, its producer and the pass of its consumer.
pub fn open(alloc: Global) -> Result<(Stream, Producer, Pass<Frame>), Fault>
    ensures { IfOk result (λ made. IsProducer made.0 made.1 × IsPassOf made.0 made.2) }
{
    let Some(limits) = Limits::of(16, MAX_TAG) else {
        unreachable!()
    };
    let (stream, mut root) = Stream::new_tied(alloc, limits)?;
    // The first pass has number 0, which is the one that the rule lets put.
    let Some(pass) = stream.split(&mut root) else {
        return Err(Fault::NoPass);
    };
    let Some(taker) = stream.split(&mut root) else {
        return Err(Fault::NoPass);
    };
    Ok((stream, Producer { pass, next: 0 }, taker))
}
