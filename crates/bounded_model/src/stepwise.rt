//! Containers whose calls can be made step by step.

ghost use Rattle.std.specs.Prelude.{◌≡◌, ◌+◌, ◌≤◌};
ghost use Rattle.bounded_model.specs.Calls.{CallGives};
ghost use Rattle.bounded_model.specs.Laws.{Answers, LookGives};
ghost use Rattle.bounded_model.specs.Stepping.{Underway, no_step, OneStep, GoesOn, MatchStepped};
ghost use Rattle.bounded_model.specs.declared.commands.Command.{Command};
ghost use Rattle.bounded_model.specs.declared.commands.Command.TheVariants.{Put, Take, Close, Shut, Look};
ghost use Rattle.bounded_model.specs.declared.views.Answered.TheVariants.{Look as LookAnswered};

use crate::{Command, Container, Reply, Stepped};
use std::sync::Wait;

/// A container whose calls are begun and then made step by step. Each step adds one to the steps
/// that the call's pass has made.
///
/// A begin makes no step. A step either continues the operation, exactly one step further, or ends
/// it. If it ends it, the pass comes back, exactly one step further, with the reply that the whole
/// call promises from the begin on. An operation that is dropped takes its pass with it.
///
/// ```text
/// let mut op = begin(&container, pass, Command::Put(value));
/// loop {
///     match container.step(op) {
///         Stepped::Again(next) => op = next,
///         Stepped::Done(pass, reply) => return (pass, reply),
///     }
/// }
/// ```
///
/// `container_tests` makes every call so, and `script_replay` begins and steps every operation.
pub trait Stepwise<T>: Container<T> {
    /// A call that was begun.
    type Op: Drop + Send;

    /// Whether this operation makes that call on this container.
    ghost is_making: { Self → Command T → Self.Op → Type 0 };

    /// The view of an operation's pass as the operation was begun, and its view now.
    ghost making: { Self.Op → Underway T };

    /// Begins a put of this value.
    fn begin_put(&self, by: Self::Pass, value: T) -> Self::Op
        requires { Self.is_pass self.now by }
        ensures call { is_making self.now (Put value) result }
        ensures begun { making result ≡ no_step (Self.pass by) };

    /// Begins a take.
    fn begin_take(&self, by: Self::Pass) -> Self::Op
        requires { Self.is_pass self.now by }
        ensures call { is_making self.now Take result }
        ensures begun { making result ≡ no_step (Self.pass by) };

    /// Begins a close.
    fn begin_close(&self, by: Self::Pass) -> Self::Op
        requires { Self.is_pass self.now by }
        ensures call { is_making self.now Close result }
        ensures begun { making result ≡ no_step (Self.pass by) };

    /// Begins a shut.
    fn begin_shut(&self, by: Self::Pass) -> Self::Op
        requires { Self.is_pass self.now by }
        ensures call { is_making self.now Shut result }
        ensures begun { making result ≡ no_step (Self.pass by) };

    /// Begins a look.
    fn begin_look(&self, by: Self::Pass) -> Self::Op
        requires { Self.is_pass self.now by }
        ensures call { is_making self.now Look result }
        ensures begun { making result ≡ no_step (Self.pass by) };

    /// One step of an operation. The reply is that of its call.
    fn step(&self, op: Self::Op) -> Stepped<Self::Op, Self::Pass, Reply<T>>
        requires { (call : Command T) × is_making self.now call op }
        ensures { (call : Command T) → is_making self.now call op → MatchStepped result
            (λ next. is_making self.now call next × GoesOn (making op) (making next))
            (λ back reply. Self.is_pass self.now back × OneStep (making op).now (Self.pass back)
            × CallGives (Self.shape self.now) (making op).begun call (Self.pass back) reply) };

    /// Makes at most `steps` steps of an operation. If they do not end it, it has made exactly
    /// `steps`, and comes back begun as before. After a compare-and-swap that failed the call waits
    /// as a whole call does, for a bounded time.
    fn run_for(&self, op: Self::Op, steps: u64) -> Stepped<Self::Op, Self::Pass, Reply<T>>
        requires { (call : Command T) × is_making self.now call op }
        ensures ran { (call : Command T) → is_making self.now call op → MatchStepped result
            (λ next. is_making self.now call next × ((making next).begun ≡ (making op).begun))
            (λ back reply. Self.is_pass self.now back
            × CallGives (Self.shape self.now) (making op).begun call (Self.pass back) reply) }
        ensures took { MatchStepped result
            (λ next. (making next).now.steps ≡ (making op).now.steps + steps)
            (λ back reply. (Self.pass back).steps ≤ (making op).now.steps + steps) };

    /// Whether the container was empty at some time since its pass's last step before the call.
    /// Called in `script_replay`.
    fn look<R: Wait>(&self, rt: &R, by: Self::Pass) -> (Self::Pass, bool)
        requires { Self.is_pass self.now by }
        ensures of { Self.is_pass self.now result.0 }
        ensures gives { LookGives (Self.shape self.now) (Self.pass by)
            (Self.pass result.0) result.1 }
        ensures answered { Answers (Self.pass by) (Self.pass result.0) (LookAnswered result.1) };
}

/// An operation that makes this call, and has made no step yet. Called in `examples::steps` and in
/// the tests of `container_tests`.
#[inline(always)]
pub fn begin<T, C: Stepwise<T>>(container: &C, by: C::Pass, command: Command<T>) -> C::Op
    requires { C.is_pass container.now by }
    ensures call { C.is_making container.now command result }
    ensures begun { C.making result ≡ no_step (C.pass by) }
{
    match command {
        Command::Put(value) => container.begin_put(by, value),
        Command::Take => container.begin_take(by),
        Command::Close => container.begin_close(by),
        Command::Shut => container.begin_shut(by),
        Command::Look => container.begin_look(by),
    }
}
