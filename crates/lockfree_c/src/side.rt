//! What C holds of a container: its root, a pass, or what is left of it.
ghost use Rattle.std.specs.Prelude.{◌≡◌, IfOk, MatchResult};
ghost use Rattle.lockfree_c.specs.Sides.{
  IsSide,
  SideFinished,
  SideJoined,
  SideSplit,
  SideUnjoined,
  SidesMatch,
};

use crate::answers::{Answer, OTHER_HANDLE, SHARED};
use crate::calls::{Ends, TakesBack};
use crate::pass::PassOf;
use crate::root::{RootOf, hand_out};

/// A side of a container of type `C`, whose roots are `R`, passes `P`, calls `O`, works `W` and rests
/// `L`.
#[derive(Drop)]
pub enum Side<C, R, P, O, W, L> {
    Root(RootOf<C, R>),
    Pass(PassOf<C, P, O, W>),
    /// The values of a container that was ended that were not handed out yet.
    Rest(L),
}

impl<C: TakesBack, L: Drop> Side<C, C::Root, C::Pass, C::Operation, C::Work, L> {
    /// A root takes a pass of its container back. Any other two sides give `OTHER_HANDLE`.
    pub fn join(
        &mut self,
        other: &mut Side<C, C::Root, C::Pass, C::Operation, C::Work, L>,
    ) -> Result<(), u32>
        requires root { IsSide C.reading self.old }
        requires pass { IsSide C.reading other.old }
        requires same { SidesMatch self.old other.old }
        ensures root { IsSide C.reading self.new }
        ensures gives { MatchResult result
            (λ joined. SideJoined C.reading self.old other.old self.new)
            (λ code. (self.new ≡ self.old) × (other.new ≡ other.old)
            × SideUnjoined self.old other.old code) }
    {
        match (self, other) {
            (Side::Root(root), Side::Pass(pass)) => root.join(pass),
            _ => Err(OTHER_HANDLE),
        }
    }
}

impl<C: Ends> Side<C, C::Root, C::Pass, C::Operation, C::Work, C::Rest> {
    /// A root gives a pass. Any other side gives `OTHER_HANDLE`.
    pub fn split(
        &mut self,
    ) -> Result<Side<C, C::Root, C::Pass, C::Operation, C::Work, C::Rest>, u32>
        requires { IsSide C.reading self.old }
        ensures root { IsSide C.reading self.new }
        ensures pass { IfOk result (λ s. IsSide C.reading s) }
        ensures gives { SideSplit C.reading self.old self.new result }
    {
        match self {
            Side::Root(root) => match root.split() {
                Ok(pass) => Ok(Side::Pass(pass)),
                Err(code) => Err(code),
            },
            _ => Err(OTHER_HANDLE),
        }
    }

    /// A root ends its container. What is left of an ended one hands out its next value. A pass
    /// gives `OTHER_HANDLE`.
    pub fn finish(
        self,
    ) -> (
        Side<C, C::Root, C::Pass, C::Operation, C::Work, C::Rest>,
        Answer,
    )
        requires { IsSide C.reading self }
        ensures of { IsSide C.reading result.0 }
        ensures gives { SideFinished C.reading C.Rest.left self result.0 result.1 }
    {
        match self {
            Side::Root(root) => match root.finish() {
                Ok((rest, answer)) => (Side::Rest(rest), answer),
                Err(root) => (Side::Root(root), Answer::of(SHARED)),
            },
            Side::Pass(pass) => (Side::Pass(pass), Answer::of(OTHER_HANDLE)),
            Side::Rest(rest) => {
                let mut rest = rest;
                let answer = hand_out(&mut rest);
                (Side::Rest(rest), answer)
            }
        }
    }
}
