//! A ring as a plain list: what a call answers if no other call overlaps it.

use bounded_model::{PutRefused, Reply as Said, TakeRefused, Word};

/// The largest capacity of a plain list.
pub(crate) const ROOM: usize = 3;

/// What is asked of a ring.
#[derive(Clone, Copy, Debug, PartialEq, Eq)]
pub(crate) enum Asked {
    Put(u64),
    Take,
    Close,
    Shut,
    Look,
    Count,
    Gauge,
}

/// What it answers.
#[derive(Clone, Copy, Debug, PartialEq, Eq)]
pub(crate) enum Reply {
    /// The number of the put.
    Put(u64),
    /// The value comes back: the ring is full, ..
    Full(u64),
    /// .. or closed, ..
    PutClosed(u64),
    /// .. or has gone through its laps: the word, and its tag.
    Spent(u64, Word, u64),
    /// A value, and the number of the take.
    Taken(u64, u64),
    Empty,
    TakeClosed,
    /// The ring is shut, and nothing is taken.
    TakeShut,
    /// No take answers so.
    TakeSpent,
    /// Whether this call closed the ring.
    Closed(bool),
    /// Whether this call shut it.
    Shut(bool),
    /// Whether the ring was empty.
    Looked(bool),
    /// How many values it had.
    Counted(u64),
    /// Whether it was closed, and how many values were put.
    Gauged(bool, u64),
}

impl Reply {
    /// What a call answered.
    pub(crate) fn of(said: Said<u64>) -> Reply {
        match said {
            Said::Put(answer) => Reply::of_put(answer),
            Said::Take(answer) => Reply::of_take(answer),
            Said::Close(closed) => Reply::Closed(closed),
            Said::Shut(shut) => Reply::Shut(shut),
            Said::Look(is_empty) => Reply::Looked(is_empty),
        }
    }

    /// What a put answered.
    pub(crate) fn of_put(answer: Result<u64, PutRefused<u64>>) -> Reply {
        match answer {
            Ok(number) => Reply::Put(number),
            Err(PutRefused::Full(value)) => Reply::Full(value),
            Err(PutRefused::Closed(value)) => Reply::PutClosed(value),
            Err(PutRefused::Spent(value, word, tag)) => Reply::Spent(value, word, tag),
        }
    }

    /// What a take answered.
    pub(crate) fn of_take(answer: Result<(u64, u64), TakeRefused>) -> Reply {
        match answer {
            Ok((value, number)) => Reply::Taken(value, number),
            Err(TakeRefused::Empty) => Reply::Empty,
            Err(TakeRefused::Closed) => Reply::TakeClosed,
            Err(TakeRefused::Shut) => Reply::TakeShut,
            Err(TakeRefused::Spent(_, _)) => Reply::TakeSpent,
        }
    }
}

/// The values of a ring in the order of their puts, and what was done to it.
#[derive(Clone, Copy, PartialEq, Eq)]
pub(crate) struct Plain {
    values: [Option<u64>; ROOM],
    capacity: u64,
    laps: u64,
    puts: u64,
    takes: u64,
    closed: bool,
    shut: bool,
}

impl Plain {
    /// An empty ring of at most `ROOM` slots, each of which can be filled `laps` times.
    pub(crate) fn new(capacity: u64, laps: u64) -> Plain {
        Plain {
            values: [None; ROOM],
            capacity,
            laps,
            puts: 0,
            takes: 0,
            closed: false,
            shut: false,
        }
    }

    /// The values, the first put first.
    pub(crate) fn values(&self) -> [Option<u64>; ROOM] {
        self.values
    }

    fn count(&self) -> u64 {
        self.puts.saturating_sub(self.takes)
    }

    /// What a call answers now, and the ring after it.
    pub(crate) fn after(self, asked: Asked) -> (Plain, Reply) {
        match asked {
            Asked::Put(value) => self.put(value),
            Asked::Take => self.take(),
            Asked::Close => (
                Plain {
                    closed: true,
                    ..self
                },
                Reply::Closed(!self.closed),
            ),
            Asked::Shut => (Plain { shut: true, ..self }, Reply::Shut(!self.shut)),
            Asked::Look => (self, Reply::Looked(self.count() == 0)),
            Asked::Count => (self, Reply::Counted(self.count())),
            Asked::Gauge => (self, Reply::Gauged(self.closed, self.puts)),
        }
    }

    fn put(self, value: u64) -> (Plain, Reply) {
        if self.closed {
            return (self, Reply::PutClosed(value));
        }
        if self.count() == self.capacity {
            return (self, Reply::Full(value));
        }
        if self.puts == self.capacity.saturating_mul(self.laps) {
            let tag = self.laps.saturating_mul(2);
            return (self, Reply::Spent(value, Word::Next(0), tag));
        }
        let mut values = self.values;
        for place in &mut values {
            if place.is_none() {
                *place = Some(value);
                break;
            }
        }
        let puts = self.puts.saturating_add(1);
        (
            Plain {
                values,
                puts,
                ..self
            },
            Reply::Put(self.puts),
        )
    }

    fn take(self) -> (Plain, Reply) {
        if self.shut {
            return (self, Reply::TakeShut);
        }
        let [first, second, third] = self.values;
        match first {
            Some(value) => {
                let values = [second, third, None];
                let takes = self.takes.saturating_add(1);
                (
                    Plain {
                        values,
                        takes,
                        ..self
                    },
                    Reply::Taken(value, self.takes),
                )
            }
            None if self.closed => (self, Reply::TakeClosed),
            None => (self, Reply::Empty),
        }
    }
}
