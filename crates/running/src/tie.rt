//! A client's own rule on the history of its container.
ghost use Rattle.std.specs.Prelude.{List};
ghost use Rattle.bounded_model.specs.declared.history.Event.{Event};
ghost use Rattle.running.specs.Ties.{IsTie};

/// A rule on the history of a container of values `T`. It holds between any two steps, because each
/// call that may change the container owes it.
pub trait Tie<T> {
    /// What holds of the history, the newest event first.
    ghost rule: { List (Event T) → Type 0 };

    /// A new container keeps it, and moves of hands do. The proof stands in the client's `specs/`,
    /// because code cites no file of `proofs/`.
    ghost is_tie: { IsTie rule };
}

/// No rule: every history keeps it.
pub struct Free {}

impl<T> Tie<T> for Free {
    ghost use Rattle.running.specs.Ties.{no_rule};

    ghost rule = { no_rule };

    ghost is_tie = { record { first = tt; hands = λ h e moves kept. tt } };
}
