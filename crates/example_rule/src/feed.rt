//! The rule that the client gives its queue.
use crate::frame::Frame;
use running::Tie;

/// The first pass of the stream alone puts, and its put number k is of frame k.
pub struct Feed {}

impl Tie<Frame> for Feed {
    ghost use Rattle.example_rule.specs.Frames.{feed};
    ghost use Rattle.example_rule.specs.FedIsTie.{feed_is_tie};

    ghost rule = { feed };

    ghost is_tie = { feed_is_tie };
}
