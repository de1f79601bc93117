//! Where the values of a range come from: the caller's places, or a slice of which each is copied.
ghost use Rattle.std.specs.Prelude.{◌≡◌, ℕ, ◌+◌, ◌<◌, ◌≤◌, List, [], length, map, Some, IsSome, MatchOption};
ghost use Rattle.std.specs.List.{AllByRecursion as Every};
ghost use Rattle.stack_table.specs.Lines.{listed};
ghost use Rattle.treiber_stack.specs.Calls.{IsRange};
ghost use Rattle.treiber_stack.specs.code.Ranging.{IsNext};

use stack_table::{Listed, Operation};
use std::snapshot::Snapshot;

/// A source of the values of a range. They leave it from the front on, and come back if the range
/// is refused, the last first.
pub(crate) trait Source<T> {
    // So many of these values, the first ones, have left it.
    ghost left: { Self → List T → ℕ → Type 0 };

    // What stays the same of it: the borrow by which it has the values.
    ghost Borrow: { Type 0 };

    ghost borrow: { Self → Borrow };

    /// How many values there are, with those that have left.
    fn len(&self) -> usize
        ensures { (vs : List T) (k : ℕ) → left self.now vs k → k ≤ length vs
            → result ≡ length vs };

    /// The next value, which leaves. As many have left before as `at` says.
    fn take(&mut self, at: u32) -> T
        requires { (vs : List T) × (at < length vs) × left self.old vs at }
        ensures taken { (vs : List T) → at < length vs → left self.old vs at
            → IsNext vs at result × left self.new vs (at + 1) }
        ensures same { borrow self.new ≡ borrow self.old };

    /// The value that left last comes back. As many stay away as `at` says.
    fn put_back(&mut self, at: u32, value: T)
        requires { (vs : List T) × IsNext vs at value × left self.old vs (at + 1) }
        ensures back { (vs : List T) → IsNext vs at value → left self.old vs (at + 1)
            → left self.new vs at }
        ensures same { borrow self.new ≡ borrow self.old };
}

/// Places that the values leave.
#[derive(Drop)]
pub(crate) struct Places<'a, T> {
    pub(crate) places: &'a mut [Option<T>],
}

impl<'a, T> Source<T> for Places<'a, T> {
    ghost use Rattle.std.specs.Prelude.{◌≡◌, ℕ};
    ghost use Rattle.treiber_stack.specs.code.Ranging.{places_from};

    ghost left = { λ s vs k. s.places.now ≡ places_from k vs };

    ghost Borrow = { ℕ };

    ghost borrow = { λ s. s.places.ghost_name };

    fn len(&self) -> usize {
        self.places.len()
    }

    fn take(&mut self, at: u32) -> T {
        match self.places[at as usize].take() {
            None => unreachable!(),
            Some(value) => value,
        }
    }

    fn put_back(&mut self, at: u32, value: T) {
        match self.places[at as usize].replace(value) {
            None => {}
            Some(_) => unreachable!(),
        }
    }
}

/// Values that are copied, so that none has to leave.
#[derive(Clone, Copy)]
pub(crate) struct Copies<'a, T> {
    pub(crate) values: &'a [T],
}

impl<'a, T: Copy> Source<T> for Copies<'a, T> {
    ghost use Rattle.std.specs.Prelude.{◌≡◌, List};

    ghost left = { λ s vs k. s.values.now ≡ vs };

    ghost Borrow = { List T };

    ghost borrow = { λ s. s.values.now };

    fn len(&self) -> usize {
        self.values.len()
    }

    fn take(&mut self, at: u32) -> T {
        self.values[at as usize]
    }

    fn put_back(&mut self, _at: u32, _value: T) {}
}

/// The put of the values in these places, if there is one.
pub(crate) fn put_of_places<T>(values: &[Option<T>]) -> Option<Operation<T>>
    requires { Every (λ place. IsSome place) values.now }
    ensures { (vs : List T) × (values.now ≡ map Some vs)
        × MatchOption result (vs ≡ []) (λ o. IsRange o vs) }
{
    let (first, others) = values.split_first()?;
    match first {
        None => unreachable!(),
        Some(value) => Some(Operation::Put(Snapshot::of(value), Listed::of(others))),
    }
}

/// The put of copies of these values, if there is one.
pub(crate) fn put_of_copies<T>(values: &[T]) -> Option<Operation<T>>
    ensures { MatchOption result (values.now ≡ []) (λ o. IsRange o values.now) }
{
    let (first, others) = values.split_first()?;
    Some(Operation::Put(Snapshot::of(first), listing(others)))
}

// Which values these are, for proofs alone.
fn listing<T>(values: &[T]) -> Listed<T>
    ensures { listed result ≡ values.now }
{
    let mut list = Listed::End;
    for back in 0..values.len() {
        let at = values.len() - 1 - back;
        let others = Snapshot::of(&list);
        list = Listed::More(Snapshot::of(&values[at]), others);
    }
    list
}
