//! The sequential container.

ghost use Rattle.std.specs.Prelude.{◌≡◌, ◌<◌, ◌≤◌, ◌↔◌, [], ◌∷◌, true, false, IsTrue, IfOk, OnOk, OnErr};
ghost use Rattle.bounded_model.specs.Plain.{
  empty_list,
  plain_put,
  plain_take,
  plain_reply,
  with_value,
  without_value,
  list_after,
  plain_replies,
  list_after_all,
};
ghost use Rattle.bounded_model.specs.declared.commands.Command.TheVariants.{
  Put as PutCommand,
  Take as TakeCommand,
  Close as CloseCommand,
  Shut as ShutCommand,
};
ghost use Rattle.bounded_model.specs.declared.commands.Reply.TheVariants.{
  Put as PutReply,
  Take as TakeReply,
  Close as CloseReply,
  Shut as ShutReply,
};
ghost use Rattle.bounded_model.specs.Shows.{Shows, Runs};

use crate::{Command, MakeRefused, Order, PutRefused, Reply, TakeRefused, Word};
use std::alloc::Global;
use std::collections::VecDeque;
use std::marker::Model;
use std::mem;

/// The largest capacity of a list.
pub const MAX_LIST_CAPACITY: u32 = 1 << 20;

/// Each number that a list answers is below this one.
pub const COUNT_LIMIT: u64 = (1 << 42) - 1;

const _: () = prove!(MAX_LIST_CAPACITY == 1_048_576 && COUNT_LIMIT == 4_398_046_511_103);

/// A bounded list of values in an order, which one caller uses at a time. It runs the machine that
/// the concurrent containers are compared with.
///
/// A queue counts its puts and its takes each from 0. A stack counts both together. A refusal
/// leaves the list unchanged and uses no number.
#[derive(Drop)]
pub struct PlainList<T> {
    // A queue's from the front, a stack's from the top. In both, the value that the next take gives
    // stands first.
    values: VecDeque<T>,
    capacity: u32,
    order: Order,
    closed: bool,
    shut: bool,
    puts: u64,
    takes: u64,
}

impl<T> Model for PlainList<T> {
    ghost use Rattle.std.specs.Prelude.{◌≤◌};
    ghost use Rattle.std.specs.VecDeque.{deque_capacity};
    ghost use Rattle.bounded_model.specs.declared.plain_list.TheConstants.{COUNT_LIMIT};
    ghost use Rattle.bounded_model.specs.Plain.{Plain};

    ghost Value = { Plain T };

    ghost view = { λ l. record {
      order = l.order;
      capacity = l.capacity;
      values = l.values.items;
      closed = l.closed;
      shut = l.shut;
      puts = l.puts;
      takes = l.takes;
    } };

    ghost invariant = { λ l. record {
      room : l.capacity ≤ deque_capacity l.values;
      puts : l.puts ≤
          COUNT_LIMIT;
      takes : l.takes ≤ COUNT_LIMIT;
    } };
}

impl<T> PlainList<T> {
    /// An empty list with room for `capacity` values, from 1 to [`MAX_LIST_CAPACITY`]. It allocates
    /// all its memory here, so no later put allocates. `NoMemory` if the allocator has none.
    pub fn new(alloc: Global, capacity: u32, order: Order) -> Result<PlainList<T>, MakeRefused>
        requires some { 0 < capacity }
        requires within { capacity ≤ MAX_LIST_CAPACITY }
        ensures list { IfOk result (λ l. l ≡ empty_list order capacity) }
        ensures history { IfOk result (λ l. Shows l []) }
    {
        let values = VecDeque::with_capacity(alloc, capacity as usize)?;
        Ok(PlainList {
            values,
            capacity,
            order,
            closed: false,
            shut: false,
            puts: 0,
            takes: 0,
        })
    }

    /// Puts a value and returns the put's number. A refusal hands the value back. The first of
    /// these that applies:
    ///
    /// - `Closed`: the list is closed.
    /// - `Full`: the list holds `capacity` values.
    /// - `Spent`: the put's number would reach [`COUNT_LIMIT`].
    #[tactic(auto, using(crate::proofs::Showing::put_runs))]
    pub fn put(&mut self, value: T) -> Result<u64, PutRefused<T>>
        ensures answer { result ≡ plain_put self.old value }
        ensures accepted { OnOk result (self.new ≡ with_value self.old value) }
        ensures refused { OnErr result (self.new ≡ self.old) }
        ensures machine { Runs self.old self.new (PutCommand value ∷ []) (PutReply result ∷ []) }
    {
        if self.closed {
            return Err(PutRefused::Closed(value));
        }
        if self.values.len() >= self.capacity as usize {
            return Err(PutRefused::Full(value));
        }
        let number = match self.order {
            Order::Fifo => self.puts,
            Order::Lifo => self.puts + self.takes,
        };
        if number >= COUNT_LIMIT {
            return Err(PutRefused::Spent(value, Word::Count, COUNT_LIMIT));
        }
        match self.order {
            Order::Fifo => self.values.push_back_reserved(value),
            Order::Lifo => self.values.push_front_reserved(value),
        }
        self.puts += 1;
        Ok(number)
    }

    /// Takes the oldest value of a queue or the newest of a stack. Returns it with the take's
    /// number. The first refusal of these that applies:
    ///
    /// - `Shut`: the list is shut.
    /// - `Closed`: the list is empty and closed.
    /// - `Empty`: the list is empty and open.
    /// - `Spent`: the take's number would reach [`COUNT_LIMIT`].
    #[tactic(auto, using(crate::proofs::Showing::take_runs))]
    pub fn take(&mut self) -> Result<(T, u64), TakeRefused>
        ensures answer { result ≡ plain_take self.old }
        ensures accepted { OnOk result (self.new ≡ without_value self.old) }
        ensures refused { OnErr result (self.new ≡ self.old) }
        ensures machine { Runs self.old self.new (TakeCommand ∷ []) (TakeReply result ∷ []) }
    {
        if self.shut {
            return Err(TakeRefused::Shut);
        }
        if self.is_empty() {
            return Err(if self.closed {
                TakeRefused::Closed
            } else {
                TakeRefused::Empty
            });
        }
        let number = match self.order {
            Order::Fifo => self.takes,
            Order::Lifo => self.puts + self.takes,
        };
        if number >= COUNT_LIMIT {
            return Err(TakeRefused::Spent(Word::Count, COUNT_LIMIT));
        }
        self.takes += 1;
        let value = self.values.pop_front().unwrap();
        Ok((value, number))
    }

    /// Closes the list: it refuses every later put. True if this call closed it.
    #[tactic(auto, using(crate::proofs::Showing::close_runs))]
    pub fn close(&mut self) -> bool
        ensures answer { IsTrue result ↔ (self.old.closed ≡ false) }
        ensures list { self.new ≡ record self.old { closed = true } }
        ensures machine { Runs self.old self.new (CloseCommand ∷ []) (CloseReply result ∷ []) }
    {
        !mem::replace(&mut self.closed, true)
    }

    /// Shuts the list: it refuses every later take. True if this call shut it.
    #[tactic(auto, using(crate::proofs::Showing::shut_runs))]
    pub fn shut(&mut self) -> bool
        ensures answer { IsTrue result ↔ (self.old.shut ≡ false) }
        ensures list { self.new ≡ record self.old { shut = true } }
        ensures machine { Runs self.old self.new (ShutCommand ∷ []) (ShutReply result ∷ []) }
    {
        !mem::replace(&mut self.shut, true)
    }

    /// Whether the list holds no value, closed or shut or not.
    pub fn is_empty(&self) -> bool
        ensures { IsTrue result ↔ (self.now.values ≡ []) }
    {
        self.values.is_empty()
    }

    /// The values that the list still holds, in the order in which takes would give them. A shut
    /// list gives them too.
    pub fn into_values(self) -> VecDeque<T>
        ensures { result.items ≡ self.values }
    {
        let PlainList { values, .. } = self;
        values
    }

    fn play(&mut self, command: Command<T>) -> Reply<T>
        ensures answer { result ≡ plain_reply self.old command }
        ensures list { self.new ≡ list_after self.old command }
    {
        match command {
            Command::Put(value) => Reply::Put(self.put(value)),
            Command::Take => Reply::Take(self.take()),
            Command::Close => Reply::Close(self.close()),
            Command::Shut => Reply::Shut(self.shut()),
            Command::Look => Reply::Look(self.is_empty()),
        }
    }
}

impl<T: Drop> PlainList<T> {
    /// Runs the commands in order and returns the reply to each. It allocates the room for all
    /// replies first. If there is no memory for it, the answer is `NoMemory`, the list is
    /// unchanged, and the commands are dropped.
    pub fn run(
        &mut self,
        alloc: Global,
        commands: Vec<Command<T>>,
    ) -> Result<Vec<Reply<T>>, MakeRefused>
        ensures replies { IfOk result (λ r. r.items ≡ plain_replies self.old commands.items) }
        ensures list { OnOk result (self.new ≡ list_after_all self.old commands.items) }
        ensures machine { IfOk result (λ r. Runs self.old self.new commands.items r.items) }
        ensures no_memory { OnErr result (self.new ≡ self.old) }
    {
        let mut replies = Vec::with_capacity(alloc, commands.len())?;
        for command in commands {
            let reply = self.play(command);
            replies.push_reserved(reply);
        }
        Ok(replies)
    }
}
