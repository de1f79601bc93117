//! The end of a queue.
ghost use Rattle.bounded_model.specs.Laws.{Leaves};
ghost use Rattle.running.specs.Ends.{IsRun, IsRunAfter};
ghost use Rattle.running.specs.Kept.{acts_of_root};
ghost use Rattle.ms_queue.specs.code.Left.{left_in};
ghost use Rattle.ms_queue.specs.Calls.{IsRootWith, machine_with, root_in, shape_of};

use crate::life::queue::{Queue, Root};
use crate::life::rest::Rest;
use running::Tie;

impl<T, D: Tie<T>> Queue<T, D> {
    /// Ends the queue, and gives what is left, from the front. If a pass stopped in mid-operation
    /// with a value in hand, this value is not among it, and is dropped with the rest. The queue
    /// has run as its machine runs.
    pub fn finish(self, parent: Root<T>) -> Rest<T>
        requires { IsRootWith D.rule self parent }
        ensures leaves { Leaves (shape_of self) (root_in parent) (left_in result) }
        ensures run { IsRun (machine_with D.rule self) (root_in parent) (left_in result) }
        ensures all { IsRunAfter (machine_with D.rule self) (acts_of_root parent) (root_in parent)
            (left_in result) }
    {
        let Queue { table, .. } = self;
        let Root { root, .. } = parent;
        Rest::of(table.close_with(root.seat))
    }
}
