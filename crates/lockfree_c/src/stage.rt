//! Where a pass is: between its calls, or in one.
ghost use Rattle.std.specs.Prelude.{◌≡◌, None, Some};

use crate::answers::{Answer, BUSY, NO_CALL, OK, OTHER_HANDLE, UNDER_WAY, VALUE, number_of};
use crate::work::{UnderWay, Worked};
use bounded_model::{Reply, Stepped};

/// A pass between its calls, or what it has under way. They are separate fields, so that a call
/// that ends at once moves no operation.
#[derive(Drop)]
pub struct Stage<P, O, W> {
    pub resting: Option<P>,
    pub under_way: UnderWay<O, W>,
    /// The number of the call that ended last, or 0.
    pub number: u64,
}

impl<P: Drop, O: Drop, W: Drop> Stage<P, O, W> {
    ghost use Rattle.bounded_model.specs.declared.answers.Stepped.TheVariants.{Done};
    ghost use Rattle.lockfree_c.specs.declared.work.UnderWay.TheVariants.{Nothing};
    ghost use Rattle.lockfree_c.specs.Stages.{LeftBy, Rests, SaysNumber, SettledBy, refusal_at};

    /// A pass between its calls, after one with this number.
    #[inline]
    pub fn of(by: P, number: u64) -> Stage<P, O, W>
        ensures { Rests result by number }
    {
        Stage {
            resting: Some(by),
            under_way: UnderWay::Nothing,
            number,
        }
    }

    /// The number of the call that ended last. While a call is under way, the code is `UNDER_WAY`.
    #[inline]
    pub fn number(&self) -> Answer
        ensures { SaysNumber self.now result }
    {
        match self.resting {
            Some(_) => Answer::with(OK, self.number),
            None => Answer::of(UNDER_WAY),
        }
    }

    /// Why its pass does not make a call that its container does not have.
    #[cold]
    pub fn refusal(&self) -> u32
        ensures { result ≡ refusal_at self.now.under_way }
    {
        match self.under_way {
            UnderWay::Work(_) => UNDER_WAY,
            _ => OTHER_HANDLE,
        }
    }

    /// Keeps the pass of a call that has ended, and answers what the call gave.
    #[inline(always)]
    pub fn rest(&mut self, by: P, said: Reply<u64>) -> Answer
        requires { self.old.under_way ≡ Nothing }
        ensures { LeftBy (Done by said) self.new result }
    {
        self.resting = Some(by);
        self.number = number_of(&said);
        Answer::of_reply(said)
    }

    /// Keeps what a tried call gave back, and answers. If the call is still under way, the code is
    /// `BUSY`.
    pub fn leave(&mut self, made: Stepped<O, P, Reply<u64>>) -> Answer
        requires { (self.old.resting ≡ None) × (self.old.under_way ≡ Nothing) }
        ensures { LeftBy made self.new result }
    {
        match made {
            Stepped::Again(operation) => {
                self.under_way = UnderWay::Call(operation);
                Answer::of(BUSY)
            }
            Stepped::Done(by, said) => self.rest(by, said),
        }
    }

    /// Keeps what a work gave back, and answers.
    pub fn settle(&mut self, made: Worked<W, P>) -> Answer
        requires { (self.old.resting ≡ None) × (self.old.under_way ≡ Nothing) }
        ensures { SettledBy made self.new result }
    {
        let (work, answer) = match made {
            Worked::Again(work) => (work, Answer::of(BUSY)),
            Worked::Value(value, work) => (work, Answer::with(VALUE, value)),
            Worked::Waits(work) => (work, Answer::of(NO_CALL)),
            Worked::Done(by, said) => {
                *self = Stage::of(by, said.number());
                return said.answer();
            }
        };
        self.under_way = UnderWay::Work(work);
        answer
    }
}
