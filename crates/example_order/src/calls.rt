//! Calls on a ring, each with what a law of all calls says of it.
ghost use Rattle.bounded_model.specs.Laws.{Leaves, PutGives};
ghost use Rattle.running.specs.Ends.{IsRunAfter};
ghost use Rattle.running.specs.Kept.{acts_of_root};
ghost use Rattle.ring_queue.specs.code.Leaving.{left_in};
ghost use Rattle.ring_queue.specs.Calls.{IsPassOf, laps_of, machine_of, pass_in, room_of, shape_of, IsRootOf, root_in};
ghost use Rattle.runs.specs.ring.Bounded.{call_in};
ghost use Rattle.runs.specs.ring.Linearizable.{answer_at};
ghost use Rattle.runs.specs.OneRun.{OneRun};
ghost use Rattle.step_core.specs.ring.Object.{object};
ghost use Rattle.example_order.specs.Order.{FullSays, TookAfter};

use bounded_model::{PutRefused, TakeRefused};
use ring_queue::{Pass, Rest, RingQueue, Root};
use runs::{calls_in_one_order, each_call_did_once, ring_full_put, ring_one_run};
use std::sync::Wait;

/// Puts a value. If the ring was full, its n slots held at least n - k values at one moment between the
/// call's invocation and its response, for k other calls that were under way then.
pub fn put<R: Wait>(
    rt: &R,
    ring: &RingQueue<u32>,
    by: Pass<u32>,
    value: u32,
) -> (Pass<u32>, Result<u64, PutRefused<u32>>)
    requires { IsPassOf ring.now by }
    ensures of { IsPassOf ring.now result.0 }
    ensures gives { PutGives (shape_of ring.now) (pass_in by) value (pass_in result.0) result.1 }
    ensures full { FullSays ring.now value result.0 result.1 }
{
    ring_full_put::<u32>();
    ring.put(rt, by, value)
}

/// The first pass puts a value, and the second meets it and takes one. Once the root has joined both,
/// their calls are in one order of the history that it has seen, and there the take stands after the
/// put.
pub fn take_after<R: Wait>(
    rt: &R,
    ring: &RingQueue<u32>,
    root: &mut Root<u32>,
    first: Pass<u32>,
    second: Pass<u32>,
    value: u32,
) -> (
    Result<u64, PutRefused<u32>>,
    Result<(u32, u64), TakeRefused>,
)
    requires root { IsRootOf ring.now root.old }
    requires passes { IsPassOf ring.now first × IsPassOf ring.now second }
    ensures root { IsRootOf ring.now root.new }
    ensures order { TookAfter (shape_of ring.now) (pass_in first) value result.0 (pass_in second) result.1
        (root_in root.new).seen }
{
    each_call_did_once::<u32>();
    calls_in_one_order::<u32>();
    let (first, put) = ring.put(rt, first, value);
    let mut second = second;
    let (first, _) = ring.meet(&mut second, first);
    let (second, took) = ring.take(rt, second);
    ring.join(root, first);
    ring.join(root, second);
    (put, took)
}

/// Ends the ring. All calls whose passes were joined are in the one run that it tells, each with the
/// answer that its caller got, and that run is linearizable.
pub fn end(ring: RingQueue<u32>, root: Root<u32>) -> Rest<u32>
    requires { IsRootOf ring root }
    ensures leaves { Leaves (shape_of ring) (root_in root) (left_in result) }
    ensures run { (all : IsRunAfter (machine_of ring) (acts_of_root root) (root_in root) (left_in result))
        × OneRun (machine_of ring) call_in answer_at (object (room_of ring) (laps_of ring)) (acts_of_root root) (root_in root) (left_in result) all }
{
    ring_one_run::<u32>();
    ring.finish(root)
}
