//! A container as the threads that share it see it.

ghost use Rattle.bounded_model.specs.declared.views.PassView.{PassView};
ghost use Rattle.bounded_model.specs.Machine.{Shape};
ghost use Rattle.bounded_model.specs.declared.views.Answered.TheVariants.{
  Take as TakeAnswered,
  Close as CloseAnswered,
  Shut as ShutAnswered,
};
ghost use Rattle.bounded_model.specs.Laws.{Answers, PutGives, TakeGives, CloseGives, ShutGives, put_answered};

use bounded_model::{Container, PutRefused, TakeRefused};
use std::sync::Wait;

/// The calls of a container that take a pass, with the laws of `Container`.
///
/// It has one associated type, and `Container` has four. What a thread is started with may name no
/// more than one, so functions that run as threads over any container are generic over `Shared`. If
/// such a function starts threads, ask for `C::Pass: Send` there.
pub trait Shared<T>: Drop {
    type Pass: Drop;

    /// Its order, its capacity, and the limit of its tags.
    ghost shape: { Self → Shape };

    /// Whether this is a pass of this container, between its calls.
    ghost is_pass: { Self → Self.Pass → Type 0 };

    /// A pass's number, what it has seen, and how many steps it has made.
    ghost pass: { Self.Pass → PassView T };

    /// The container's `put`.
    fn put<W: Wait>(
        &self,
        rt: &W,
        by: Self::Pass,
        value: T,
    ) -> (Self::Pass, Result<u64, PutRefused<T>>)
        requires { is_pass self.now by }
        ensures of { is_pass self.now result.0 }
        ensures gives { PutGives (shape self.now) (pass by) value (pass result.0) result.1 }
        ensures answered { Answers (pass by) (pass result.0) (put_answered result.1) };

    /// The container's `take`.
    fn take<W: Wait>(&self, rt: &W, by: Self::Pass) -> (Self::Pass, Result<(T, u64), TakeRefused>)
        requires { is_pass self.now by }
        ensures of { is_pass self.now result.0 }
        ensures gives { TakeGives (shape self.now) (pass by) (pass result.0) result.1 }
        ensures answered { Answers (pass by) (pass result.0) (TakeAnswered result.1) };

    /// The container's `close`.
    fn close<W: Wait>(&self, rt: &W, by: Self::Pass) -> (Self::Pass, bool)
        requires { is_pass self.now by }
        ensures of { is_pass self.now result.0 }
        ensures gives { CloseGives (shape self.now) (pass by) (pass result.0) result.1 }
        ensures answered { Answers (pass by) (pass result.0) (CloseAnswered result.1) };

    /// The container's `shut`.
    fn shut<W: Wait>(&self, rt: &W, by: Self::Pass) -> (Self::Pass, bool)
        requires { is_pass self.now by }
        ensures of { is_pass self.now result.0 }
        ensures gives { ShutGives (shape self.now) (pass by) (pass result.0) result.1 }
        ensures answered { Answers (pass by) (pass result.0) (ShutAnswered result.1) };
}

impl<T, C: Container<T>> Shared<T> for C {
    type Pass = C::Pass;

    ghost shape = { C.shape };

    ghost is_pass = { C.is_pass };

    ghost pass = { C.pass };

    #[inline]
    fn put<W: Wait>(&self, rt: &W, by: C::Pass, value: T) -> (C::Pass, Result<u64, PutRefused<T>>) {
        Container::put(self, rt, by, value)
    }

    #[inline]
    fn take<W: Wait>(&self, rt: &W, by: C::Pass) -> (C::Pass, Result<(T, u64), TakeRefused>) {
        Container::take(self, rt, by)
    }

    #[inline]
    fn close<W: Wait>(&self, rt: &W, by: C::Pass) -> (C::Pass, bool) {
        Container::close(self, rt, by)
    }

    #[inline]
    fn shut<W: Wait>(&self, rt: &W, by: C::Pass) -> (C::Pass, bool) {
        Container::shut(self, rt, by)
    }
}
