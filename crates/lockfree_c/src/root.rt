//! A root of any container, with a share of it. It gives passes, takes them back, and ends the
//! container. The end hands out the values that are left, one an answer.
ghost use Rattle.std.specs.Prelude.{◌≡◌, MatchResult};
ghost use Rattle.lockfree_c.specs.Passes.{IsPass};
ghost use Rattle.lockfree_c.specs.Roots.{
  HandsOut,
  IsEnded,
  IsRoot,
  IsSplit,
  JoinRefused,
  JoinedTo,
};

use crate::answers::{Answer, EMPTY, NO_MEMORY, NO_PASS, OTHER_HANDLE, UNDER_WAY, VALUE};
use crate::calls::{Ends, TakesBack};
use crate::pass::PassOf;
use crate::stage::Stage;
use bounded_model::{Leaving, MAX_PASSES};
use std::alloc::Global;
use std::sync::Arc;

/// A container's root, with a share of the container.
#[derive(Drop)]
pub struct RootOf<C, R> {
    pub container: Arc<C, Global>,
    pub root: R,
}

/// Hands out the next value that is left (`VALUE`), or says that there is none (`EMPTY`).
pub fn hand_out<R: Leaving<u64>>(rest: &mut R) -> Answer
    ensures { HandsOut (R.left rest.old) (R.left rest.new) result }
{
    match rest.next() {
        Some(value) => Answer::with(VALUE, value),
        None => Answer::of(EMPTY),
    }
}

// Whether two shares are of one container. Addresses in two blocks cannot be compared, so this
// counts: it takes one more share by the second, and looks whether the first has more owners then.
// The root that calls this is the only one to give shares of its container. So meanwhile others can
// only give theirs up, which hides the new one at most as often as there are passes.
fn is_one<C: Drop>(root: &Arc<C, Global>, pass: &Arc<C, Global>) -> bool {
    for _ in 0..=MAX_PASSES {
        let before = Arc::strong_count(root);
        let Ok(more) = Arc::try_clone(pass) else {
            return false;
        };
        let with_it = Arc::strong_count(root);
        drop(more);
        if with_it > before {
            return true;
        }
        if Arc::strong_count(root) == with_it {
            return false;
        }
    }
    false
}

impl<C: TakesBack> RootOf<C, C::Root> {
    /// Takes a pass of this container back, and leaves nothing but its share behind. If the pass is
    /// in a call, nothing changes, and the code is `UNDER_WAY`. If it turns out to be of another
    /// container, nothing changes, and the code is `OTHER_HANDLE`.
    pub fn join(&mut self, pass: &mut PassOf<C, C::Pass, C::Operation, C::Work>) -> Result<(), u32>
        requires root { IsRoot C.reading self.old }
        requires pass { IsPass C.reading pass.old }
        requires same { pass.old.container.value ≡ self.old.container.value }
        ensures root { IsRoot C.reading self.new }
        ensures gives { MatchResult result
            (λ joined. JoinedTo C.reading self.old pass.old self.new)
            (λ code. (self.new ≡ self.old) × (pass.new ≡ pass.old) × JoinRefused pass.old code) }
    {
        if pass.stage.resting.is_some() && !is_one(&self.container, &pass.container) {
            return Err(OTHER_HANDLE);
        }
        let Some(by) = pass.stage.resting.take() else {
            return Err(UNDER_WAY);
        };
        self.container.take_back(&mut self.root, by);
        Ok(())
    }
}

impl<C: Ends> RootOf<C, C::Root> {
    /// A pass with a share of the container. The code is `NO_MEMORY` if there is no memory for the
    /// share, and `NO_PASS` if the largest number of passes is out.
    pub fn split(&mut self) -> Result<PassOf<C, C::Pass, C::Operation, C::Work>, u32>
        requires { IsRoot C.reading self.old }
        ensures root { IsRoot C.reading self.new }
        ensures gives { IsSplit C.reading self.old self.new result }
    {
        let Ok(container) = Arc::try_clone(&self.container) else {
            return Err(NO_MEMORY);
        };
        match self.container.split_off(&mut self.root) {
            Some(by) => Ok(PassOf {
                container,
                stage: Stage::of(by, 0),
            }),
            None => Err(NO_PASS),
        }
    }

    /// Ends the container, and hands out the first value that is left. If another handle of it is
    /// out, the call gives the root back.
    pub fn finish(self) -> Result<(C::Rest, Answer), RootOf<C, C::Root>>
        requires { IsRoot C.reading self }
        ensures { MatchResult result
            (λ t. IsEnded C.reading self (C.Rest.left t.0) t.1)
            (λ r. r ≡ self) }
    {
        let RootOf { container, root } = self;
        match Arc::try_unwrap(container) {
            Ok(container) => {
                let mut rest = container.end_with(root);
                let answer = hand_out(&mut rest);
                Ok((rest, answer))
            }
            Err(container) => Err(RootOf { container, root }),
        }
    }
}
