//! Counts of messages, by where they ended up.

ghost use Rattle.std.specs.Prelude.{◌≡◌};
ghost use Rattle.audit.specs.Counting.{HasRoom, IsSmall, sum_of};

/// How many messages were delivered, left, and unsent: of one sender, or of all of them. 128 bits
/// hold the sums over as many lists as memory can hold.
#[derive(Clone, Copy)]
pub(crate) struct Counts {
    pub(crate) delivered: u128,
    pub(crate) left: u128,
    pub(crate) unsent: u128,
}

impl Counts {
    // The sums of both.
    pub(crate) fn plus(self, more: Counts) -> Counts
        requires many { HasRoom self }
        requires small { IsSmall more }
        ensures { result ≡ sum_of self more }
    {
        Counts {
            delivered: self.delivered + more.delivered,
            left: self.left + more.left,
            unsent: self.unsent + more.unsent,
        }
    }
}
