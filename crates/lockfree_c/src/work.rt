//! Counts, gauges, folds and puts of a range: the calls of a pass that have states of their own.
ghost use Rattle.std.specs.Prelude.{◌≡◌};
ghost use Rattle.lockfree_c.specs.Codes.{SaysWork, work_number};

use crate::answers::{Answer, OK};
use bounded_model::{Folded, RangeRefused, Ranged, TakeRefused};

/// What a pass has under way: nothing, one of the calls that each container has, or a work.
#[derive(Drop)]
pub enum UnderWay<O, W> {
    Nothing,
    Call(O),
    Work(W),
}

/// What some steps of a work came to.
#[derive(Drop)]
pub enum Worked<W, P> {
    /// The tries are used up, and it is under way.
    Again(W),
    /// A fold's next value, and it is under way.
    Value(u64, W),
    /// It makes no step before another call of C's, and is as it was.
    Waits(W),
    /// It has ended. Its pass comes back with what the whole work answered.
    Done(P, Said),
}

/// What a whole work answered.
#[derive(Drop)]
pub enum Said {
    /// How many values there were.
    Count(u64),
    /// Whether the container was closed, and how many of its tags were used.
    Gauge(bool, u64),
    Fold(Result<Folded, TakeRefused>),
    Range(Result<Ranged, RangeRefused>),
}

impl Said {
    /// What C gets.
    pub fn answer(self) -> Answer
        ensures { SaysWork self result }
    {
        match self {
            Said::Count(count) => Answer::with(OK, count),
            Said::Gauge(closed, used) => Answer::of_gauge(closed, used),
            Said::Fold(said) => Answer::of_fold(said),
            Said::Range(said) => Answer::of_range(said),
        }
    }

    /// The number of the work, or 0 if it has none.
    pub fn number(&self) -> u64
        ensures { result ≡ work_number self.now }
    {
        match self {
            Said::Fold(Ok(folded)) => folded.number,
            Said::Range(Ok(ranged)) => ranged.number,
            _ => 0,
        }
    }
}
