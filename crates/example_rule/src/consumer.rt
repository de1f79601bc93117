//! The consumer's end of a stream.
ghost use Rattle.std.specs.Prelude.{◌≡◌, IfOk};
ghost use Rattle.bounded_model.specs.Laws.{TakeGives};
ghost use Rattle.ms_queue.specs.Calls.{pass_in, shape_of};
ghost use Rattle.example_rule.specs.Ends.{IsPassOf, LastIsRight};
ghost use Rattle.example_rule.specs.Frames.{frame_of};

use crate::frame::{Frame, check_sum};
use crate::stream::Stream;
use bounded_model::TakeRefused;
use ms_queue::Pass;
use std::sync::Wait;
use waiting::wait_a_little;

/// Takes a frame. Take number k gives frame k, and the caller knows it from this call alone, whatever
/// the producer does meanwhile.
pub fn take_frame<R: Wait>(
    rt: &R,
    stream: &Stream,
    by: Pass<Frame>,
) -> (Pass<Frame>, Result<(Frame, u64), TakeRefused>)
    requires { IsPassOf stream.now by }
    ensures of { IsPassOf stream.now result.0 }
    ensures gives { TakeGives (shape_of stream.now) (pass_in by) (pass_in result.0) result.1 }
    ensures value { IfOk result.1 (λ taken. taken.0 ≡ frame_of taken.1) }
{
    stream.take_as(rt, by)
}

/// How many frames a consumer took, and the last of them with its number.
#[derive(Drop)]
pub struct Taken {
    pub count: u64,
    pub last: Option<(Frame, u64)>,
}

/// Takes frames until the stream is closed and empty. That each sum is right is proved here, and
/// costs nothing when it runs.
pub fn take_all<R: Wait>(rt: &R, stream: &Stream, by: Pass<Frame>) -> Taken
    requires { IsPassOf stream.now by }
    ensures { LastIsRight result }
{
    let mut pass = by;
    let mut count: u64 = 0;
    let mut last = None;
    for _ in rt.forever() {
        let (back, answer) = take_frame(rt, stream, pass);
        pass = back;
        match answer {
            Ok((frame, number)) => {
                prove!(frame.sum == check_sum(number));
                count = count.saturating_add(1);
                last = Some((frame, number));
            }
            Err(TakeRefused::Empty) => wait_a_little(),
            Err(_) => return Taken { count, last },
        }
    }
    unreachable!()
}
