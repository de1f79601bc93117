//! The lines of a script after the first.

use crate::value::{Value, Values};
use bounded_model::{Command, Order};

/// A pass, by the letter from `a` to `z` that names it.
#[derive(Clone, Copy, Debug, PartialEq, Eq)]
pub struct PassName(pub u8);

impl PassName {
    ghost use Rattle.std.specs.Prelude.{◌≡◌};
    ghost use Rattle.script.specs.Reading.{pass_of};

    /// The pass that a word names, or `None` if it names none.
    pub fn of(word: &str) -> Option<PassName>
        ensures { result ≡ pass_of word.now }
    {
        match word.as_bytes() {
            [letter] if letter.is_ascii_lowercase() => Some(PassName(*letter)),
            _ => None,
        }
    }
}

/// What a line has a pass do.
#[derive(Drop)]
pub enum Act<'a> {
    /// A whole call.
    Call(Command<Value<'a>>),
    /// A call is begun. It makes no step yet.
    Begin(Command<Value<'a>>),
    /// The call that was begun makes this many steps, or fewer if it ends.
    Step(u16),
    /// The pass puts all the values for which there is room, at once.
    Range(Values<'a>),
    /// The pass takes all values at once, and lists them from the top down.
    Fold,
    /// The pass takes all values at once, and lists them from the bottom up.
    ReversedFold,
    /// The pass sees what the other has seen.
    Meet(PassName),
    /// The pass is dropped, in the middle of its call.
    Drop,
}

/// A line of a script after the first.
#[derive(Drop)]
pub enum Line<'a> {
    /// A pass does something.
    By(PassName, Act<'a>),
    /// The end of the container, whose values are then written.
    Finish,
}

impl<'a> Line<'a> {
    ghost use Rattle.std.specs.Prelude.{◌≡◌};
    ghost use Rattle.script.specs.Script.{is_allowed};

    /// Whether the script of a container of this order may have the line. Only a stack has ranges
    /// and folds, a stack's look has no steps, and no pass meets itself.
    pub fn is_allowed(&self, order: Order) -> bool
        ensures { result ≡ is_allowed order self.now }
    {
        match (order, self) {
            (_, Line::By(pass, Act::Meet(other))) => pass.0 != other.0,
            (Order::Fifo, Line::By(_, Act::Range(_) | Act::Fold | Act::ReversedFold)) => false,
            (Order::Lifo, Line::By(_, Act::Begin(Command::Look))) => false,
            (_, Line::Finish | Line::By(..)) => true,
        }
    }
}
