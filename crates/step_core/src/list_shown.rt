//! A run of the machine that is one list, and a near miss that its law refuses.
ghost use Rattle.step_core.specs.list.Samples.{StaleLost, TopHeld, UntaggedUnlawful};

/// A take recognizes by its tag a top that changed and came back. Without tags, a pass takes an
/// index that another pass holds.
pub fn list_exhibits()
    ensures stale_lost { StaleLost }
    ensures top_held { TopHeld }
    ensures untagged_unlawful { UntaggedUnlawful }
{}
