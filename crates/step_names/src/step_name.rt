//! The name of an atomic step, and what it did.

ghost use Rattle.step_names.specs.Names.{IsOutcome};

use crate::location::Location;
use std::fmt;

/// The name of an atomic step.
#[derive(Clone, Copy, Debug, PartialEq, Eq)]
pub enum StepName {
    /// A load of this word.
    Load(Location),
    /// A load of this word, by which a ring's operation gives back the cell that it has: a take the
    /// cell of its value, a refused put the cell that it did not need.
    Stow(Location),
    /// A store into this word.
    Store(Location),
    /// A compare-and-swap of the first word. Its operation continues with a load of the second
    /// exactly if it failed.
    CompareAndSwap(Location, Location),
    /// A compare-and-swap of this word, after which its operation continues alike, whether it
    /// succeeded or failed.
    Attempt(Location),
}

/// What a step did.
#[derive(Clone, Copy, Debug, PartialEq, Eq)]
pub enum Outcome {
    /// It loaded or stored.
    Done,
    /// The compare-and-swap succeeded.
    Succeeded,
    /// The compare-and-swap failed.
    Failed,
    /// The compare-and-swap was tried: its operation does not keep whether it succeeded.
    Tried,
}

impl StepName {
    /// What a step of this name did. `next` is the name of the step that its operation is to make
    /// after it, or `None` if the operation has ended. It is what the step did, if both are names
    /// of a machine's steps (`names_tell`).
    pub fn outcome(self, next: Option<StepName>) -> Outcome
        ensures { IsOutcome self next result }
    {
        match self {
            StepName::Load(_) => Outcome::Done,
            StepName::Stow(_) => Outcome::Done,
            StepName::Store(_) => Outcome::Done,
            StepName::CompareAndSwap(_, retried) => {
                if next == Some(StepName::Load(retried)) {
                    Outcome::Failed
                } else {
                    Outcome::Succeeded
                }
            }
            StepName::Attempt(_) => Outcome::Tried,
        }
    }
}

impl fmt::Display for StepName {
    ghost use Rattle.std.specs.Prelude.{Some};
    ghost use Rattle.step_names.specs.Texts.{name_text};

    ghost output = { λ name. Some (name_text name) };

    fn fmt<W: fmt::Write>(&self, f: &mut fmt::Formatter<W>) -> fmt::Result {
        match self {
            StepName::Load(word) => write!(f, "load {word}"),
            StepName::Stow(word) => write!(f, "load {word}"),
            StepName::Store(word) => write!(f, "store {word}"),
            StepName::CompareAndSwap(word, _) => write!(f, "compare-and-swap {word}"),
            StepName::Attempt(word) => write!(f, "compare-and-swap {word}"),
        }
    }
}

impl fmt::Display for Outcome {
    ghost use Rattle.std.specs.Prelude.{Some};
    ghost use Rattle.step_names.specs.Texts.{outcome_text};

    ghost output = { λ outcome. Some (outcome_text outcome) };

    fn fmt<W: fmt::Write>(&self, f: &mut fmt::Formatter<W>) -> fmt::Result {
        match self {
            Outcome::Done => write!(f, ""),
            Outcome::Succeeded => write!(f, " succeeded"),
            Outcome::Failed => write!(f, " failed"),
            Outcome::Tried => write!(f, " tried"),
        }
    }
}
