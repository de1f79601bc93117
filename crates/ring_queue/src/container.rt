//! A ring as a container.
use crate::life::rest::Rest;
use crate::life::ring::{Note, Pass, RingQueue, Root};
use bounded_model::{Container, Order, PutRefused, TakeRefused};
use std::sync::Wait;

impl<T: Drop + Send> Container<T> for RingQueue<T> {
    ghost use Rattle.std.specs.Prelude.{refl};
    ghost use Rattle.ring_queue.specs.code.KeepsPasses.{passes_in_range};
    ghost use Rattle.tagged_index.specs.Limits.{passes_of};
    ghost use Rattle.bounded_model.specs.declared.history.Order.TheVariants.{Fifo};
    ghost use Rattle.running.specs.Passes.{told_in};
    ghost use Rattle.ring_queue.specs.Calls.{IsNoteOf, IsPassOf, pass_in, shape_of, IsRootOf, root_in};

    type Root = Root<T>;

    type Pass = Pass<T>;

    type Note = Note<T>;

    type Rest = Rest<T>;

    const ORDER: Order = Order::Fifo;

    ghost ORDER = { Fifo };

    ghost shape = { shape_of };

    ghost is_pass = { IsPassOf };

    ghost is_root = { IsRootOf };

    ghost is_note = { IsNoteOf };

    ghost pass = { pass_in };

    ghost root = { root_in };

    ghost told = { told_in };

    ghost order_law = { λ c. refl };

    ghost passes_law = { λ c. passes_in_range (shape_of c) (passes_of c.table.shared.key) refl
        c.some_passes c.few_passes };

    ghost pass_law = { λ c p is. is.on.rests.rests };

    ghost note_law = { λ c n is. is.legal };

    ghost root_law = { λ c r is. is.on.sound };

    #[inline]
    fn capacity(&self) -> u32 {
        self.limits.capacity()
    }

    fn split(&self, parent: &mut Root<T>) -> Option<Pass<T>> {
        self.split(parent)
    }

    #[inline(always)]
    fn put<R: Wait>(&self, rt: &R, by: Pass<T>, value: T) -> (Pass<T>, Result<u64, PutRefused<T>>) {
        self.put(rt, by, value)
    }

    #[inline(always)]
    fn take<R: Wait>(&self, rt: &R, by: Pass<T>) -> (Pass<T>, Result<(T, u64), TakeRefused>) {
        self.take(rt, by)
    }

    fn close<R: Wait>(&self, rt: &R, by: Pass<T>) -> (Pass<T>, bool) {
        self.close(rt, by)
    }

    fn shut<R: Wait>(&self, rt: &R, by: Pass<T>) -> (Pass<T>, bool) {
        self.shut(rt, by)
    }

    fn meet(&self, first: &mut Pass<T>, second: Pass<T>) -> (Pass<T>, bool) {
        self.meet(first, second)
    }

    fn note(&self, by: &mut Pass<T>) -> Option<Note<T>> {
        self.note(by)
    }

    fn heed(&self, by: &mut Pass<T>, note: Note<T>) {
        self.heed(by, note)
    }

    fn join(&self, parent: &mut Root<T>, by: Pass<T>) {
        self.join(parent, by)
    }

    fn finish(self, parent: Root<T>) -> Rest<T> {
        self.finish(parent)
    }
}
