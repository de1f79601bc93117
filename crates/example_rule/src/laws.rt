//! What is proved of the rule.
ghost use Rattle.std.specs.Prelude.{ℕ};
ghost use Rattle.example_rule.specs.Fed.{Feeds};
ghost use Rattle.example_rule.specs.Frames.{boss, frame_of, sum_of};
ghost use Rattle.example_rule.specs.NearMisses.{FirstDeals};

/// A rule that one producer keeps, and what a consumer knows by it, for any values and any queue.
pub fn feeds<T>()
    ensures { (boss : ℕ) (f : ℕ → T) (n limit : ℕ) → Feeds boss f n limit }
{}

/// First puts that break the rule, and one beside them that keeps it: the producer puts another
/// frame or a wrong sum, and another pass puts the right frame.
pub fn feeds_near_misses()
    ensures right { FirstDeals boss (frame_of 0) }
    ensures other_value { ¬ FirstDeals boss (frame_of 1) }
    ensures wrong_sum { ¬ FirstDeals boss (record { number = 0; sum = sum_of 1 }) }
    ensures other_pass { ¬ FirstDeals 1 (frame_of 0) }
{}
