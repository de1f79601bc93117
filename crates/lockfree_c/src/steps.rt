//! The steps of a number of tries.
ghost use Rattle.std.specs.Prelude.{◌≡◌};
ghost use Rattle.lockfree_c.specs.Calls.{steps_of};

/// The two numbers of an operation.
pub(crate) struct Steps {
    /// As many steps as it makes from its begin to its end, if no other pass disturbs it.
    pub(crate) undisturbed: u64,
    /// How many steps lead to its next chance to end, once another pass has taken one.
    pub(crate) again: u64,
}

/// A queue's put, take, close, shut or look makes at most 18 steps if no other pass disturbs it. Six
/// steps lead to its next compare-and-swap once one has failed.
pub(crate) const QUEUE_CALL: Steps = Steps {
    undisturbed: 18,
    again: 6,
};

/// A stack's call makes at most ten steps if no other pass disturbs it. Three steps lead to its next
/// compare-and-swap once one has failed.
pub(crate) const STACK_CALL: Steps = Steps {
    undisturbed: 10,
    again: 3,
};

/// A ring's take makes at most 17 steps, if the hint lags as far as it can and has moved meanwhile.
/// Six steps lead to its next compare-and-swap: the hint, four positions, and the exchange there.
pub(crate) const RING_CALL: Steps = Steps {
    undisturbed: 17,
    again: 6,
};

/// A queue's count has four loads. It makes them again after a look that found a value taken.
pub(crate) const QUEUE_COUNT: Steps = Steps {
    undisturbed: 4,
    again: 4,
};

/// A queue's gauge has four loads, if the tail is that of the last node. Else it moves the tail first.
pub(crate) const QUEUE_GAUGE: Steps = Steps {
    undisturbed: 8,
    again: 4,
};

/// A stack's fold makes at most ten steps to its next value or its end, if no values are turned
/// round. A put of a range takes its next cell, puts it, or gives its cells back in as many. Three
/// steps lead to the next compare-and-swap once one has failed.
pub(crate) const STACK_BULK: Steps = Steps {
    undisturbed: 10,
    again: 3,
};

/// A ring's count makes at most 17 steps from its begin, and again after a look that found a value
/// taken, if no other pass succeeds meanwhile.
pub(crate) const RING_COUNT: Steps = Steps {
    undisturbed: 17,
    again: 17,
};

/// The same of a ring's gauge.
pub(crate) const RING_GAUGE: Steps = Steps {
    undisturbed: 8,
    again: 8,
};

/// How many steps this number of tries allows.
#[inline]
pub(crate) fn steps_for(of: Steps, tries: u64) -> u64
    ensures { result ≡ steps_of of.undisturbed of.again tries }
{
    let Steps { undisturbed, again } = of;
    tries.saturating_mul(again).saturating_add(undisturbed)
}
