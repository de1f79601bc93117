//! Containers that name the next steps of their operations.

ghost use Rattle.step_names.specs.declared.step_name.StepName.{StepName};

use crate::step_name::StepName;
use bounded_model::Stepwise;

/// A container that names the next step of each operation under way. Called in `script_replay`.
pub trait Named<T>: Stepwise<T> {
    /// Whether this is the name of the operation's next step.
    ghost is_step: { Self.Op → StepName → Type 0 };

    /// The name of the operation's next step.
    fn step_name(op: &Self::Op) -> StepName
        ensures { is_step op.now result };
}
