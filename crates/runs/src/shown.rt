//! Near misses of what holds of any table.
ghost use Rattle.std.specs.Prelude.{ℕ, List, [], ◌∷◌};
ghost use Rattle.bounded_model.specs.declared.history.Event.{Event};
ghost use Rattle.bounded_model.specs.declared.history.Event.TheVariants.{Hold};
ghost use Rattle.runs.specs.Table.{OneHistory};
ghost use Rattle.runs.specs.WrongTables.{two_histories, one_pass_twice, own_unseen};

/// What a rule is for that speaks of all seats together: without it, two passes could have seen two
/// histories, two seats could be of one pass, and a pass could miss an event of its own.
pub fn seats_near_misses()
    ensures two_histories_refused { (h : List (Event ℕ)) → ¬ OneHistory h two_histories }
    ensures one_pass_twice_refused { (h : List (Event ℕ)) → ¬ OneHistory h one_pass_twice }
    ensures own_unseen_refused { ¬ OneHistory (Hold 0 ∷ []) own_unseen }
{}
