//! The end of a ring.
ghost use Rattle.bounded_model.specs.Laws.{Leaves};
ghost use Rattle.running.specs.Ends.{IsRun, IsRunAfter};
ghost use Rattle.running.specs.Kept.{acts_of_root};
ghost use Rattle.ring_queue.specs.code.Leaving.{left_in};
ghost use Rattle.ring_queue.specs.Calls.{shape_of, machine_with, IsRootWith, root_in};

use crate::life::rest::Rest;
use crate::life::ring::{RingQueue, Root};
use running::Tie;

impl<T, D: Tie<T>> RingQueue<T, D> {
    /// Ends the ring, and gives what is left, from the front. A value that a pass held when it
    /// stopped in mid-operation is not among it. It is dropped with the rest. The ring has run as
    /// its machine runs.
    pub fn finish(self, parent: Root<T>) -> Rest<T>
        requires { IsRootWith D.rule self parent }
        ensures leaves { Leaves (shape_of self) (root_in parent) (left_in result) }
        ensures run { IsRun (machine_with D.rule self) (root_in parent) (left_in result) }
        ensures all { IsRunAfter (machine_with D.rule self) (acts_of_root parent) (root_in parent)
            (left_in result) }
    {
        let capacity = self.limits.capacity();
        let RingQueue { table, .. } = self;
        let Root { root, .. } = parent;
        Rest::of(table.close_with(root.seat), capacity)
    }
}
