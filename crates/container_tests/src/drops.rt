//! Each value is dropped once, whether it was taken or left.

use crate::made::{Made, with_room};
use bounded_model::{Container, Leaving};
use std::alloc::Global;
use std::process::Abort;
use std::sync::{Arc, Wait};

// Numbers that look random and are the same in every run (Knuth's MMIX generator).
#[derive(Drop)]
struct Dice {
    state: u64,
}

impl Dice {
    fn new() -> Dice {
        Dice { state: 42 }
    }

    // The next number, below a bound that is not 0.
    fn below(&mut self, bound: u64) -> u64 {
        self.state = self
            .state
            .wrapping_mul(6_364_136_223_846_793_005)
            .wrapping_add(1_442_695_040_888_963_407);
        (self.state >> 33) % bound.max(1)
    }
}

// Puts `count` clones of a value.
fn fill<C: Container<Arc<u8>>, R: Abort + Wait>(
    rt: &R,
    container: &C,
    by: C::Pass,
    value: &Arc<u8>,
    count: u64,
) -> C::Pass
    requires { C.is_pass container.now by }
    ensures { C.is_pass container.now result }
{
    let mut pass = by;
    for _ in 0..count {
        let (back, put) = container.put(rt, pass, Arc::try_clone(value).expect(rt, "a clone"));
        assert!(rt; put.is_ok());
        pass = back;
    }
    pass
}

// Values go in and out, a few stay, and the container is dropped with them: each is dropped once.
fn in_and_out<C: Made<Arc<u8>>, R: Abort + Wait>(rt: &R, alloc: Global, dice: &mut Dice) {
    let value = Arc::new(alloc, 7u8).expect(rt, "memory");
    let value = &value;
    let (container, mut root) = with_room::<Arc<u8>, C, R>(rt, alloc, 50);
    let mut pass = container.split(&mut root).expect(rt, "a pass");
    let room = u64::from(container.capacity());
    let through = dice.below(room);
    pass = fill(rt, &container, pass, value, through);
    assert_eq!(rt; Arc::strong_count(value) as u64, through.saturating_add(1));
    for _ in 0..through {
        let (back, taken) = container.take(rt, pass);
        assert!(rt; taken.is_ok());
        drop(taken);
        pass = back;
    }
    assert_eq!(rt; Arc::strong_count(value), 1);
    let left = dice.below(room);
    pass = fill(rt, &container, pass, value, left);
    assert_eq!(rt; Arc::strong_count(value) as u64, left.saturating_add(1));
    drop(pass);
    drop(root);
    drop(container);
    assert_eq!(rt; Arc::strong_count(value), 1);
}

// Does this a hundred times, for numbers that the dice give: of values, and of those that stay.
fn each_value_once<C: Made<Arc<u8>>, R: Abort + Wait>(rt: &R, alloc: Global) {
    let mut dice = Dice::new();
    for _ in 0..100 {
        in_and_out::<C, R>(rt, alloc, &mut dice);
    }
}

// A refused put hands its value back, and a take hands one out. Each is dropped where it is. The
// container has room for two.
fn in_use<C: Made<Arc<u8>>, R: Abort + Wait>(rt: &R, alloc: Global) {
    let value = Arc::new(alloc, 7u8).expect(rt, "memory");
    let value = &value;
    let (container, mut root) = with_room::<Arc<u8>, C, R>(rt, alloc, 2);
    let pass = container.split(&mut root).expect(rt, "a pass");
    let pass = fill(rt, &container, pass, value, 2);
    let (pass, full) = container.put(rt, pass, Arc::try_clone(value).expect(rt, "a clone"));
    assert_eq!(rt; Arc::strong_count(value), 4);
    drop(full);
    assert_eq!(rt; Arc::strong_count(value), 3);
    let (_, taken) = container.take(rt, pass);
    assert_eq!(rt; Arc::strong_count(value), 3);
    drop(taken);
    assert_eq!(rt; Arc::strong_count(value), 2);
    drop(root);
    drop(container);
    assert_eq!(rt; Arc::strong_count(value), 1);
}

// Reads one of three values that are left. The other two are dropped with the rest.
fn half_read<C: Made<Arc<u8>>, R: Abort + Wait>(rt: &R, alloc: Global) {
    let value = Arc::new(alloc, 7u8).expect(rt, "memory");
    let value = &value;
    let (container, mut root) = with_room::<Arc<u8>, C, R>(rt, alloc, 3);
    let pass = container.split(&mut root).expect(rt, "a pass");
    let pass = fill(rt, &container, pass, value, 3);
    container.join(&mut root, pass);
    let mut rest = container.finish(root);
    let first = rest.next();
    assert!(rt; first.is_some());
    assert_eq!(rt; Arc::strong_count(value), 4);
    drop(first);
    assert_eq!(rt; Arc::strong_count(value), 3);
    drop(rest);
    assert_eq!(rt; Arc::strong_count(value), 1);
}

/// Values that were taken, that are in use, and that are left.
pub(crate) fn values_are_dropped_once<C: Made<Arc<u8>>, R: Abort + Wait>(rt: &R, alloc: Global) {
    each_value_once::<C, R>(rt, alloc);
    in_use::<C, R>(rt, alloc);
    half_read::<C, R>(rt, alloc);
}
