//! The producer's end of a stream.
ghost use Rattle.std.specs.Prelude.{◌≡◌, ◌+◌, ◌<◌, MatchResult};
ghost use Rattle.example_rule.specs.Ends.{IsProducer};

use crate::frame::Frame;
use crate::stream::Stream;
use bounded_model::PutRefused;
use ms_queue::Pass;
use std::sync::Wait;
use waiting::wait_a_little;

/// The pass that alone puts, and how many frames it has put: the number of the next one.
#[derive(Drop)]
pub struct Producer {
    pub pass: Pass<Frame>,
    pub next: u64,
}

/// Tries once to put the next frame, which gets its own number. After a refusal that frame is still
/// the next one.
pub fn put_next<R: Wait>(
    rt: &R,
    stream: &Stream,
    by: Producer,
) -> (Producer, Result<u64, PutRefused<Frame>>)
    requires producer { IsProducer stream.now by }
    requires more { by.next < u64.MAX }
    ensures producer { IsProducer stream.now result.0 }
    ensures next { MatchResult result.1 (λ number. (number ≡ by.next) × (result.0.next ≡ by.next + 1))
        (λ why. result.0.next ≡ by.next) }
{
    let Producer { pass, next } = by;
    let (pass, answer) = stream.put_as(rt, pass, Frame::of(next));
    match answer {
        Ok(number) => {
            let next = next + 1;
            (Producer { pass, next }, Ok(number))
        }
        Err(refused) => (Producer { pass, next }, Err(refused)),
    }
}

/// Puts the frames with numbers below `count`, and waits while the queue is full. Fewer if a put is
/// refused for good.
pub fn put_frames<R: Wait>(rt: &R, stream: &Stream, by: Producer, count: u64) -> Producer
    requires { IsProducer stream.now by }
    ensures { IsProducer stream.now result }
{
    let mut producer = by;
    for _ in rt.forever() {
        if producer.next >= count {
            return producer;
        }
        let (back, answer) = put_next(rt, stream, producer);
        producer = back;
        match answer {
            Ok(_) => {}
            Err(PutRefused::Full(_)) => wait_a_little(),
            Err(_) => return producer,
        }
    }
    unreachable!()
}

/// Puts the frames with numbers below `count`, and closes the stream.
pub fn produce<R: Wait>(rt: &R, stream: &Stream, by: Producer, count: u64)
    requires { IsProducer stream.now by }
{
    let Producer { pass, .. } = put_frames(rt, stream, by, count);
    let _ = stream.close_as(rt, pass);
}
