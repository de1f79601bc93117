//! What lies behind a handle, and the calls on it.
ghost use Rattle.std.specs.Prelude.{◌≡◌, Ok, Err, IfOk, MatchResult};
ghost use Rattle.bounded_model.specs.declared.commands.Command.TheVariants.{Look, Put, Take};
ghost use Rattle.lockfree_c.specs.Bulk.{front_from};
ghost use Rattle.lockfree_c.specs.Held.{
  HeldContinues,
  HeldCalled,
  HeldCopied,
  HeldCounted,
  HeldFinished,
  HeldFolded,
  HeldGauged,
  HeldJoined,
  HeldMatch,
  HeldNumber,
  HeldSplit,
  HeldUnjoined,
  HeldWentOn,
  IsHeld,
  refusal_of,
};

use crate::answers::{Answer, NO_MEMORY, OTHER_HANDLE};
use crate::calls::{QueueWork, RingWork, StackWork};
use crate::making::boxed;
use crate::pass::PassOf;
use crate::side::Side;
use bounded_model::Command;
use ms_queue::Queue;
use ring_queue::RingQueue;
use rtrb::{Consumer, Producer};
use running::aside;
use std::alloc::Global;
use std::mem;
use treiber_stack::Stack;

/// What C holds of a queue.
pub type QueueSide = Side<
    Queue<u64>,
    ms_queue::Root<u64>,
    ms_queue::Pass<u64>,
    ms_queue::AnyOp<u64>,
    QueueWork,
    ms_queue::Rest<u64>,
>;

/// What C holds of a stack.
pub type StackSide = Side<
    Stack<u64>,
    treiber_stack::Root<u64>,
    treiber_stack::Pass<u64>,
    treiber_stack::AnyOp<u64>,
    StackWork,
    treiber_stack::Rest<u64>,
>;

/// A stack's pass, with a share of the stack.
pub type StackPass = PassOf<
    Stack<u64>,
    treiber_stack::Pass<u64>,
    treiber_stack::AnyOp<u64>,
    StackWork,
>;

/// What C holds of a ring.
pub type RingSide = Side<
    RingQueue<u64>,
    ring_queue::Root<u64>,
    ring_queue::Pass<u64>,
    ring_queue::AnyOp<u64>,
    RingWork,
    ring_queue::Rest<u64>,
>;

/// Nothing, a side of one of three containers, or an end of a ring for one producer and one consumer.
#[derive(Drop)]
pub enum Held {
    Nothing,
    Queue(QueueSide),
    Stack(StackSide),
    Ring(RingSide),
    Producer(Producer<u64>),
    Consumer(Consumer<u64>),
}

// Lets the pass make its call, whichever its container is. Any other handle gives `OTHER_HANDLE`.
macro_rules! of_pass {
    ($held:expr, $pass:ident => $call:expr) => {
        match $held {
            Held::Queue(Side::Pass($pass)) => $call,
            Held::Stack(Side::Pass($pass)) => $call,
            Held::Ring(Side::Pass($pass)) => $call,
            _ => {
                aside();
                Answer::of(OTHER_HANDLE)
            }
        }
    };
}

// Puts this into the box.
fn fill(room: Box<Held, Global>, held: Held) -> Box<Held, Global>
    ensures { result.value ≡ held }
{
    let mut room = room;
    Box::replace(&mut room, held);
    room
}

impl Held {
    /// Why it does not make a call that only some containers have.
    #[cold]
    pub fn refusal(&self) -> u32
        ensures { result ≡ refusal_of self.now }
    {
        match self {
            Held::Queue(Side::Pass(pass)) => pass.stage.refusal(),
            Held::Stack(Side::Pass(pass)) => pass.stage.refusal(),
            Held::Ring(Side::Pass(pass)) => pass.stage.refusal(),
            _ => OTHER_HANDLE,
        }
    }

    /// A pass puts a value.
    #[inline(always)]
    pub fn put(&mut self, value: u64, tries: u64) -> Answer
        requires { IsHeld self.old }
        ensures of { IsHeld self.new }
        ensures gives { HeldCalled tries self.old (Put value) self.new result }
    {
        of_pass!(self, pass => pass.put(value, tries))
    }

    /// A pass takes a value.
    #[inline(always)]
    pub fn take(&mut self, tries: u64) -> Answer
        requires { IsHeld self.old }
        ensures of { IsHeld self.new }
        ensures gives { HeldCalled tries self.old Take self.new result }
    {
        of_pass!(self, pass => pass.take(tries))
    }

    /// A pass looks.
    #[inline(always)]
    pub fn look(&mut self, tries: u64) -> Answer
        requires { IsHeld self.old }
        ensures of { IsHeld self.new }
        ensures gives { HeldCalled tries self.old Look self.new result }
    {
        of_pass!(self, pass => pass.look(tries))
    }

    /// A pass makes any call.
    pub fn call(&mut self, command: Command<u64>, tries: u64) -> Answer
        requires { IsHeld self.old }
        ensures of { IsHeld self.new }
        ensures gives { HeldCalled tries self.old command self.new result }
    {
        of_pass!(self, pass => pass.call(command, tries))
    }

    /// A pass gauges its container.
    pub fn gauge(&mut self, tries: u64) -> Answer
        requires { IsHeld self.old }
        ensures of { IsHeld self.new }
        ensures gives { HeldGauged tries self.old self.new result }
    {
        of_pass!(self, pass => pass.gauge(tries))
    }

    /// A pass continues its call.
    pub fn go_on(&mut self, tries: u64) -> Answer
        requires { IsHeld self.old }
        ensures of { IsHeld self.new }
        ensures gives { HeldWentOn tries self.old self.new result }
    {
        of_pass!(self, pass => pass.go_on(tries))
    }

    /// The number of the call of this pass that ended last.
    pub fn number(&self) -> Answer
        ensures { HeldNumber self.now result }
    {
        of_pass!(self, pass => pass.stage.number())
    }

    /// A queue's or a ring's pass counts the values. Any other handle gives `refusal`.
    pub fn count(&mut self, tries: u64) -> Answer
        requires { IsHeld self.old }
        ensures of { IsHeld self.new }
        ensures gives { HeldCounted tries self.old self.new result }
    {
        match self {
            Held::Queue(Side::Pass(pass)) => pass.count(tries),
            Held::Ring(Side::Pass(pass)) => pass.count(tries),
            other => Answer::of(other.refusal()),
        }
    }

    /// A stack's pass folds all values. Any other handle gives `refusal`.
    pub fn fold(&mut self, reversed: bool, tries: u64) -> Answer
        requires { IsHeld self.old }
        ensures of { IsHeld self.new }
        ensures gives { HeldFolded tries self.old (front_from reversed) self.new result }
    {
        match self {
            Held::Stack(Side::Pass(pass)) => pass.fold(reversed, tries),
            other => Answer::of(other.refusal()),
        }
    }

    /// A stack's pass puts these values as a range, or continues their put. Any other handle gives
    /// `refusal`.
    pub fn put_copies(&mut self, values: &[u64], tries: u64) -> Answer
        requires held { IsHeld self.old }
        requires same { HeldContinues self.old values.now }
        ensures of { IsHeld self.new }
        ensures gives { HeldCopied tries self.old values.now self.new result }
    {
        match self {
            Held::Stack(Side::Pass(pass)) => pass.put_copies(values, tries),
            other => Answer::of(other.refusal()),
        }
    }

    // A root gives a pass. Any other handle gives `OTHER_HANDLE`.
    fn split(&mut self) -> Result<Held, u32>
        requires { IsHeld self.old }
        ensures root { IsHeld self.new }
        ensures pass { IfOk result (λ p. IsHeld p) }
        ensures gives { HeldSplit self.old self.new result }
    {
        match self {
            Held::Nothing | Held::Producer(_) | Held::Consumer(_) => Err(OTHER_HANDLE),
            Held::Queue(side) => Ok(Held::Queue(side.split()?)),
            Held::Stack(side) => Ok(Held::Stack(side.split()?)),
            Held::Ring(side) => Ok(Held::Ring(side.split()?)),
        }
    }

    /// A root gives a pass, in a box of its own. Any other handle gives `OTHER_HANDLE`.
    pub fn split_boxed(&mut self, alloc: Global) -> Result<Box<Held, Global>, u32>
        requires { IsHeld self.old }
        ensures root { IsHeld self.new }
        ensures gives { MatchResult result
            (λ b. HeldSplit self.old self.new (Ok b.value) × IsHeld b.value)
            (λ code. HeldSplit self.old self.new (Err code)) }
    {
        // The room first, because a pass that was split off could not be given back.
        let Ok(room) = boxed(alloc, Held::Nothing) else {
            return Err(NO_MEMORY);
        };
        match self.split() {
            Ok(held) => Ok(fill(room, held)),
            Err(code) => Err(code),
        }
    }

    /// A root takes a pass of its container back. Any other two handles give `OTHER_HANDLE`.
    pub fn join(&mut self, other: &mut Held) -> Result<(), u32>
        requires root { IsHeld self.old }
        requires pass { IsHeld other.old }
        requires same { HeldMatch self.old other.old }
        ensures root { IsHeld self.new }
        ensures gives { MatchResult result
            (λ joined. HeldJoined self.old other.old self.new)
            (λ code. (self.new ≡ self.old) × (other.new ≡ other.old)
            × HeldUnjoined self.old other.old code) }
    {
        match (self, other) {
            (Held::Queue(root), Held::Queue(pass)) => root.join(pass),
            (Held::Stack(root), Held::Stack(pass)) => root.join(pass),
            (Held::Ring(root), Held::Ring(pass)) => root.join(pass),
            _ => Err(OTHER_HANDLE),
        }
    }

    // The same as `finish`, of a handle that is given up.
    fn finish_with(self) -> (Held, Answer)
        requires { IsHeld self }
        ensures of { IsHeld result.0 }
        ensures gives { HeldFinished self result.0 result.1 }
    {
        match self {
            Held::Queue(side) => {
                let (side, answer) = side.finish();
                (Held::Queue(side), answer)
            }
            Held::Stack(side) => {
                let (side, answer) = side.finish();
                (Held::Stack(side), answer)
            }
            Held::Ring(side) => {
                let (side, answer) = side.finish();
                (Held::Ring(side), answer)
            }
            other => (other, Answer::of(OTHER_HANDLE)),
        }
    }

    /// A root ends its container, or what is left of an ended one hands out its next value. Any
    /// other handle gives `OTHER_HANDLE`.
    pub fn finish(&mut self) -> Answer
        requires { IsHeld self.old }
        ensures of { IsHeld self.new }
        ensures gives { HeldFinished self.old self.new result }
    {
        let (next, answer) = mem::replace(self, Held::Nothing).finish_with();
        *self = next;
        answer
    }
}
