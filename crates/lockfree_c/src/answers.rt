//! What a call returns to C: a code, and with some codes a value. The pass keeps the call's number.
ghost use Rattle.std.specs.Prelude.{◌≡◌};
ghost use Rattle.lockfree_c.specs.Codes.{number_in};

use bounded_model::{Folded, PutRefused, RangeRefused, Ranged, Reply, TakeRefused};

/// Done.
pub const OK: u32 = 0;

/// A put of a value or of a range: each cell holds a value or is held by a pass.
pub const FULL: u32 = 1;

/// A take or a fold: there is no value, and more may come. A look: it was empty. A put of a range:
/// the array has no value. A finish: no value is left.
pub const EMPTY: u32 = 2;

/// A put of a value or of a range: the container is closed. A take or a fold: it is closed, and
/// there is no value. A close: it was closed before. A gauge: it was closed.
pub const CLOSED: u32 = 3;

/// A take or a fold: the container is shut. A shut: it was shut before.
pub const SHUT: u32 = 4;

/// A tag is at its limit. The value is the tag.
pub const SPENT: u32 = 5;

/// The tries are used up, and the call is still under way.
pub const BUSY: u32 = 6;

/// The pass has a call under way already.
pub const UNDER_WAY: u32 = 7;

/// The pass has no call under way.
pub const NO_CALL: u32 = 8;

/// There is no memory.
pub const NO_MEMORY: u32 = 9;

/// A split: the container cannot give a pass, since the largest number of passes is out.
pub const NO_PASS: u32 = 10;

/// The capacity is out of range, or the tag limit, or a ring's laps or passes.
pub const BAD_CAPACITY: u32 = 11;

/// The handle is of the wrong kind: a root instead of a pass, a pass instead of a root, or a pass
/// of a container that has no such call.
pub const OTHER_HANDLE: u32 = 12;

/// The handle is empty.
pub const NO_HANDLE: u32 = 13;

/// The slot for the new handle is not empty.
pub const IN_USE: u32 = 14;

/// A fold: the answer has the next value, and the fold is still under way. A finish: the answer has
/// the next value that is left.
pub const VALUE: u32 = 15;

/// A finish: another handle of the container is out.
pub const SHARED: u32 = 16;

/// A code, and the value that goes with it:
/// - a put that is done: its number,
/// - a take that is done: the value,
/// - `VALUE`, from a fold or a finish: the next value,
/// - a fold that is done, a count that is done: how many values,
/// - a put of a range that is done: how many values it put,
/// - a gauge that is done: how many tags were used, or in a ring how many values were put,
/// - `SPENT`: the tag.
///
/// In any other answer the value is 0.
#[repr(C)]
#[derive(Clone, Copy)]
pub struct Answer {
    pub value: u64,
    pub code: u32,
}

impl Answer {
    ghost use Rattle.lockfree_c.specs.Codes.{SaysFold, SaysGauge, SaysPut, SaysRange, SaysTake, Says, bare, saying};

    /// A code alone.
    #[inline(always)]
    pub fn of(code: u32) -> Answer
        ensures { result ≡ bare code }
    {
        Answer { value: 0, code }
    }

    /// A code with its value.
    #[inline(always)]
    pub fn with(code: u32, value: u64) -> Answer
        ensures { result ≡ saying code value }
    {
        Answer { value, code }
    }

    #[inline(always)]
    fn of_put(said: Result<u64, PutRefused<u64>>) -> Answer
        ensures { SaysPut said result }
    {
        match said {
            Ok(number) => Answer::with(OK, number),
            Err(PutRefused::Full(_)) => Answer::of(FULL),
            Err(PutRefused::Closed(_)) => Answer::of(CLOSED),
            Err(PutRefused::Spent(_, _, tag)) => Answer::with(SPENT, tag),
        }
    }

    #[inline(always)]
    fn of_take(said: Result<(u64, u64), TakeRefused>) -> Answer
        ensures { SaysTake said result }
    {
        match said {
            Ok((value, _)) => Answer::with(OK, value),
            Err(TakeRefused::Empty) => Answer::of(EMPTY),
            Err(TakeRefused::Closed) => Answer::of(CLOSED),
            Err(TakeRefused::Shut) => Answer::of(SHUT),
            Err(TakeRefused::Spent(_, tag)) => Answer::with(SPENT, tag),
        }
    }

    /// What a whole fold returned.
    #[inline(always)]
    pub fn of_fold(said: Result<Folded, TakeRefused>) -> Answer
        ensures { SaysFold said result }
    {
        match said {
            Ok(folded) => Answer::with(OK, u64::from(folded.count)),
            Err(why) => Answer::of_take(Err(why)),
        }
    }

    /// What a whole put of a range returned.
    #[inline(always)]
    pub fn of_range(said: Result<Ranged, RangeRefused>) -> Answer
        ensures { SaysRange said result }
    {
        match said {
            Ok(ranged) => Answer::with(OK, u64::from(ranged.count)),
            Err(RangeRefused::Nothing) => Answer::of(EMPTY),
            Err(RangeRefused::Full) => Answer::of(FULL),
            Err(RangeRefused::Closed) => Answer::of(CLOSED),
            Err(RangeRefused::Spent(_, tag)) => Answer::with(SPENT, tag),
        }
    }

    /// What a gauge showed.
    #[inline]
    pub fn of_gauge(closed: bool, used: u64) -> Answer
        ensures { SaysGauge closed used result }
    {
        Answer::with(if closed { CLOSED } else { OK }, used)
    }

    /// What a whole call returned.
    #[inline(always)]
    pub fn of_reply(said: Reply<u64>) -> Answer
        ensures { Says said result }
    {
        match said {
            Reply::Put(said) => Answer::of_put(said),
            Reply::Take(said) => Answer::of_take(said),
            Reply::Close(closed) => Answer::of(if closed { OK } else { CLOSED }),
            Reply::Shut(shut) => Answer::of(if shut { OK } else { SHUT }),
            Reply::Look(is_empty) => Answer::of(if is_empty { EMPTY } else { OK }),
        }
    }
}

/// The number of a whole call that returned this: that of a put or a take that is done, or 0.
#[inline(always)]
pub fn number_of(said: &Reply<u64>) -> u64
    ensures { result ≡ number_in said.now }
{
    match said {
        Reply::Put(Ok(number)) => *number,
        Reply::Take(Ok((_, number))) => *number,
        _ => 0,
    }
}
