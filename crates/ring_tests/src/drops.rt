//! Each value is dropped once: that of a call that is dropped at any of its lines while other
//! passes go round, that of a put that is refused, and those of a rest that is read in part.

ghost use Rattle.ring_queue.specs.Calls.{IsPassOf, IsRootOf};

use crate::calls::call_for;
use crate::stopped::{LAGS, steps_before, three_laps};
use bounded_model::{Command, Container, Leaving, PutRefused};
use ring_queue::{Pass, RingLimits, RingQueue, Root};
use std::alloc::Global;
use std::process::Abort;
use std::sync::{Arc, Wait};

/// A value that knows how many owners it has.
type Owned = Arc<u8>;

// One more owner.
fn clone_of<R: Abort>(rt: &R, value: &Owned) -> Owned {
    Arc::try_clone(value).expect(rt, "a clone")
}

// A ring for four passes.
fn ring_of<R: Abort>(
    rt: &R,
    alloc: Global,
    capacity: u32,
    laps: u64,
) -> (RingQueue<Owned>, Root<Owned>)
    ensures { IsRootOf result.0 result.1 }
{
    let limits = RingLimits::of(capacity, laps, 4).expect(rt, "limits");
    RingQueue::new(alloc, limits).expect(rt, "memory")
}

// Puts this number of clones.
fn fill<R: Abort + Wait>(
    rt: &R,
    ring: &RingQueue<Owned>,
    by: Pass<Owned>,
    value: &Owned,
    count: u64,
) -> Pass<Owned>
    requires { IsPassOf ring.now by }
    ensures { IsPassOf ring.now result }
{
    let mut pass = by;
    for _ in 0..count {
        let (back, put) = ring.put(rt, pass, clone_of(rt, value));
        assert!(rt; put.is_ok());
        pass = back;
    }
    pass
}

// Puts and takes this number of clones, one after another.
fn go_through<R: Abort + Wait>(
    rt: &R,
    ring: &RingQueue<Owned>,
    by: Pass<Owned>,
    value: &Owned,
    count: u64,
) -> Pass<Owned>
    requires { IsPassOf ring.now by }
    ensures { IsPassOf ring.now result }
{
    let mut pass = by;
    for _ in 0..count {
        let put = fill(rt, ring, pass, value, 1);
        let (back, taken) = ring.take(rt, put);
        assert!(rt; taken.is_ok());
        drop(taken);
        pass = back;
    }
    pass
}

// Takes what is there, goes three laps round, and ends the ring: the value then has one owner.
fn end<R: Abort + Wait>(
    rt: &R,
    ring: RingQueue<Owned>,
    root: Root<Owned>,
    by: Pass<Owned>,
    value: &Owned,
)
    requires pass { IsPassOf ring by }
    requires root { IsRootOf ring root }
{
    let (pass, taken) = ring.take(rt, by);
    drop(taken);
    let laps = three_laps(ring.capacity());
    let mut root = root;
    ring.join(&mut root, go_through(rt, &ring, pass, value, laps));
    drop(ring.finish(root));
    assert_eq!(rt; Arc::strong_count(value), 1);
}

// A put is dropped after this number of steps. Until its first step it has its value; then a cell
// has it.
fn dropped_put<R: Abort + Wait>(rt: &R, alloc: Global, capacity: u32, lag: u64, made: u64) {
    let value = Arc::new(alloc, 7u8).expect(rt, "memory");
    let (ring, mut root) = ring_of(rt, alloc, capacity, 100);
    let pass = ring.split(&mut root).expect(rt, "a pass");
    let other = ring.split(&mut root).expect(rt, "a pass");
    let other = go_through(rt, &ring, other, &value, lag);
    let put = Command::Put(clone_of(rt, &value));
    drop(call_for(rt, &ring, pass, put, made));
    let owners = if made == 0 { 1 } else { 2 };
    assert_eq!(rt; Arc::strong_count(&value), owners);
    end(rt, ring, root, other, &value);
}

// A take is dropped after this number of steps. From its exchange on it has its value.
fn dropped_take<R: Abort + Wait>(rt: &R, alloc: Global, capacity: u32, lag: u64, made: u64) {
    let value = Arc::new(alloc, 7u8).expect(rt, "memory");
    let (ring, mut root) = ring_of(rt, alloc, capacity, 100);
    let pass = ring.split(&mut root).expect(rt, "a pass");
    let other = ring.split(&mut root).expect(rt, "a pass");
    let other = go_through(rt, &ring, other, &value, lag);
    let other = fill(rt, &ring, other, &value, 1);
    drop(call_for(rt, &ring, pass, Command::Take, made));
    let owners = if made > steps_before(lag) { 1 } else { 2 };
    assert_eq!(rt; Arc::strong_count(&value), owners);
    end(rt, ring, root, other, &value);
}

#[test]
fn a_call_that_is_dropped_at_any_line_drops_its_value_once(rt: HostRuntime) {
    for capacity in 1..=3 {
        for lag in 0..LAGS {
            for made in 0..=steps_before(lag) {
                dropped_put(&rt, rt.alloc(), capacity, lag, made);
                dropped_take(&rt, rt.alloc(), capacity, lag, made);
            }
            let behind = steps_before(lag).saturating_add(1);
            dropped_take(&rt, rt.alloc(), capacity, lag, behind);
        }
        dropped_put(&rt, rt.alloc(), capacity, LAGS - 1, LAGS + 2);
        dropped_take(&rt, rt.alloc(), capacity, LAGS - 1, LAGS + 3);
    }
}

// A put into a full ring is dropped after this number of steps. Once it is refused it has its value
// again.
fn dropped_refused_put<R: Abort + Wait>(rt: &R, alloc: Global, capacity: u32, made: u64) {
    let value = Arc::new(alloc, 7u8).expect(rt, "memory");
    let (ring, mut root) = ring_of(rt, alloc, capacity, 100);
    let pass = ring.split(&mut root).expect(rt, "a pass");
    let other = ring.split(&mut root).expect(rt, "a pass");
    let there = u64::from(capacity);
    let other = fill(rt, &ring, other, &value, there);
    let put = Command::Put(clone_of(rt, &value));
    drop(call_for(rt, &ring, pass, put, made));
    let in_a_cell = made > 0 && made < there.saturating_add(2);
    let owners = there.saturating_add(if in_a_cell { 2 } else { 1 });
    assert_eq!(rt; Arc::strong_count(&value) as u64, owners);
    end(rt, ring, root, other, &value);
}

// A put that is refused because the ring is full, closed, or spent hands its value back.
fn refused_puts<R: Abort + Wait>(rt: &R, alloc: Global) {
    let value = Arc::new(alloc, 7u8).expect(rt, "memory");
    let (ring, mut root) = ring_of(rt, alloc, 1, 2);
    let pass = ring.split(&mut root).expect(rt, "a pass");
    let pass = go_through(rt, &ring, pass, &value, 1);
    let pass = fill(rt, &ring, pass, &value, 1);
    let (pass, full) = ring.put(rt, pass, clone_of(rt, &value));
    assert!(rt; matches!(full, Err(PutRefused::Full(_))));
    assert_eq!(rt; Arc::strong_count(&value), 3);
    drop(full);
    let (pass, taken) = ring.take(rt, pass);
    drop(taken);
    let (pass, spent) = ring.put(rt, pass, clone_of(rt, &value));
    assert!(rt; matches!(spent, Err(PutRefused::Spent(_, _, _))));
    assert_eq!(rt; Arc::strong_count(&value), 2);
    drop(spent);
    let (pass, closed) = ring.close(rt, pass);
    assert!(rt; closed);
    let (_, refused) = ring.put(rt, pass, clone_of(rt, &value));
    assert!(rt; matches!(refused, Err(PutRefused::Closed(_))));
    assert_eq!(rt; Arc::strong_count(&value), 2);
    drop(refused);
    drop(ring.finish(root));
    assert_eq!(rt; Arc::strong_count(&value), 1);
}

#[test]
fn a_put_that_is_refused_has_its_value_once(rt: HostRuntime) {
    for capacity in 1..=3 {
        for made in 0..=u64::from(capacity).saturating_add(2) {
            dropped_refused_put(&rt, rt.alloc(), capacity, made);
        }
    }
    refused_puts(&rt, rt.alloc());
}

// Some of the values that are left are read, and the remaining ones are dropped with the rest.
fn read_in_part<R: Abort + Wait>(rt: &R, alloc: Global, capacity: u32, through: u64, read: u32) {
    let value = Arc::new(alloc, 7u8).expect(rt, "memory");
    let (ring, mut root) = ring_of(rt, alloc, capacity, 100);
    let pass = ring.split(&mut root).expect(rt, "a pass");
    let pass = go_through(rt, &ring, pass, &value, through);
    ring.join(
        &mut root,
        fill(rt, &ring, pass, &value, u64::from(capacity)),
    );
    let mut rest = ring.finish(root);
    for _ in 0..read {
        assert!(rt; rest.next().is_some());
    }
    let left = capacity.saturating_sub(read).saturating_add(1);
    assert_eq!(rt; Arc::strong_count(&value) as u64, u64::from(left));
    drop(rest);
    assert_eq!(rt; Arc::strong_count(&value), 1);
}

#[test]
fn a_rest_that_is_read_in_part_drops_the_others(rt: HostRuntime) {
    for capacity in 1..=3 {
        for through in 0..10 {
            for read in 0..=capacity {
                read_in_part(&rt, rt.alloc(), capacity, through, read);
            }
        }
    }
}
