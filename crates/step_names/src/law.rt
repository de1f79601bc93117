//! The law of the names.
ghost use Rattle.std.specs.Prelude.{◌≡◌};
ghost use Rattle.machine.specs.Program.{Memories, rests};
ghost use Rattle.step_names.specs.Names.{Naming, NamesTell};

/// The outcome that `StepName::outcome` tells from two names is what the step did: `Succeeded` if
/// its compare-and-swap found the value that it compared with, and `Failed` if not. This holds for
/// the names of any machine's steps, by its table (`IsNamed`).
pub fn names_tell<T, M, P, Q, L, E>()
    ensures { (memories : Memories T M P Q) (naming : Naming T M P Q L E) (idle : L) →
        naming.table idle ≡ rests → NamesTell memories naming idle }
{}
