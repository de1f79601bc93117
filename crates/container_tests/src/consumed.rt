//! How many takes a consuming call tries: no contract can say that none follows a refusal.

use crate::made::{Made, with_room};
use bounded_model::{Container, Order, PutRefused, TakeRefused, consume_all, consume_one};
use std::alloc::Global;
use std::process::Abort;
use std::sync::Wait;

/// A container whose passes count the takes that they try.
#[derive(Drop)]
struct Counting<C> {
    inner: C,
}

/// A pass, and how many takes it has tried.
#[derive(Drop)]
struct Counted<P> {
    pass: P,
    takes: u64,
}

impl<T, C: Container<T>> Container<T> for Counting<C> {
    type Root = C::Root;

    type Pass = Counted<C::Pass>;

    type Note = C::Note;

    type Rest = C::Rest;

    const ORDER: Order = C::ORDER;

    ghost ORDER = { C.ORDER };

    ghost shape = { λ c. C.shape c.inner };

    ghost is_pass = { λ c p. C.is_pass c.inner p.pass };

    ghost is_root = { λ c r. C.is_root c.inner r };

    ghost is_note = { λ c n. C.is_note c.inner n };

    ghost pass = { λ p. C.pass p.pass };

    ghost root = { C.root };

    ghost told = { C.told };

    ghost order_law = { λ c. C.order_law c.inner };

    ghost passes_law = { λ c. C.passes_law c.inner };

    ghost pass_law = { λ c p is. C.pass_law c.inner p.pass is };

    ghost note_law = { λ c n is. C.note_law c.inner n is };

    ghost root_law = { λ c r is. C.root_law c.inner r is };

    fn capacity(&self) -> u32 {
        self.inner.capacity()
    }

    fn split(&self, parent: &mut C::Root) -> Option<Counted<C::Pass>> {
        let pass = self.inner.split(parent)?;
        Some(Counted { pass, takes: 0 })
    }

    fn put<R: Wait>(
        &self,
        rt: &R,
        by: Counted<C::Pass>,
        value: T,
    ) -> (Counted<C::Pass>, Result<u64, PutRefused<T>>) {
        let Counted { pass, takes } = by;
        let (pass, answer) = self.inner.put(rt, pass, value);
        (Counted { pass, takes }, answer)
    }

    fn take<R: Wait>(
        &self,
        rt: &R,
        by: Counted<C::Pass>,
    ) -> (Counted<C::Pass>, Result<(T, u64), TakeRefused>) {
        let Counted { pass, takes } = by;
        let (pass, answer) = self.inner.take(rt, pass);
        let takes = takes.saturating_add(1);
        (Counted { pass, takes }, answer)
    }

    fn close<R: Wait>(&self, rt: &R, by: Counted<C::Pass>) -> (Counted<C::Pass>, bool) {
        let Counted { pass, takes } = by;
        let (pass, closed) = self.inner.close(rt, pass);
        (Counted { pass, takes }, closed)
    }

    fn shut<R: Wait>(&self, rt: &R, by: Counted<C::Pass>) -> (Counted<C::Pass>, bool) {
        let Counted { pass, takes } = by;
        let (pass, shut) = self.inner.shut(rt, pass);
        (Counted { pass, takes }, shut)
    }

    fn meet(
        &self,
        first: &mut Counted<C::Pass>,
        second: Counted<C::Pass>,
    ) -> (Counted<C::Pass>, bool) {
        let Counted { pass, takes } = second;
        let (pass, met) = self.inner.meet(&mut first.pass, pass);
        (Counted { pass, takes }, met)
    }

    fn note(&self, by: &mut Counted<C::Pass>) -> Option<C::Note> {
        self.inner.note(&mut by.pass)
    }

    fn heed(&self, by: &mut Counted<C::Pass>, note: C::Note) {
        self.inner.heed(&mut by.pass, note)
    }

    fn join(&self, parent: &mut C::Root, by: Counted<C::Pass>) {
        self.inner.join(parent, by.pass)
    }

    fn finish(self, parent: C::Root) -> C::Rest {
        self.inner.finish(parent)
    }
}

/// Each value costs one take, and each refusal one more: by an empty container, by a closed one,
/// and by one that is shut.
pub(crate) fn no_take_follows_a_refusal<C: Made<u64>, R: Abort + Wait>(rt: &R, alloc: Global) {
    let (inner, mut root) = with_room::<u64, C, R>(rt, alloc, 3);
    let container = Counting { inner };
    let pass = container.split(&mut root).expect(rt, "a pass");
    let (pass, _) = container.put(rt, pass, 1);
    let (pass, _) = container.put(rt, pass, 1);
    let (pass, _) = container.put(rt, pass, 1);
    let double = |value: u64| value.wrapping_mul(2);
    let sum = |state: u64, value: u64| state.wrapping_add(value);
    let (pass, doubled) = consume_one(&container, rt, pass, double);
    assert!(rt; doubled.is_ok());
    assert_eq!(rt; pass.takes, 1);
    let (pass, folded, why) = consume_all(&container, rt, pass, 0, sum);
    assert_eq!(rt; (folded, why, pass.takes), (2, TakeRefused::Empty, 4));
    let (pass, nothing) = consume_one(&container, rt, pass, double);
    assert_eq!(rt; (nothing, pass.takes), (Err(TakeRefused::Empty), 5));
    let (pass, _) = container.close(rt, pass);
    let (pass, folded, why) = consume_all(&container, rt, pass, 0, sum);
    assert_eq!(rt; (folded, why, pass.takes), (0, TakeRefused::Closed, 6));
    let (pass, _) = container.shut(rt, pass);
    let (pass, folded, why) = consume_all(&container, rt, pass, 0, sum);
    assert_eq!(rt; (folded, why, pass.takes), (0, TakeRefused::Shut, 7));
    let (pass, nothing) = consume_one(&container, rt, pass, double);
    assert_eq!(rt; (nothing, pass.takes), (Err(TakeRefused::Shut), 8));
}
