//! A queue's calls, counts and gauges: each makes its fast path and then a bounded number of steps.
ghost use Rattle.running.specs.Passes.{begun_of, pass_in};
ghost use Rattle.ms_queue.specs.Calls.{IsCounting, IsGauging, machine_of};
ghost use Rattle.lockfree_c.specs.Queues.{CountTried, GaugeTried, WorkedAtMost, count_steps, gauge_steps};

use crate::calls::{AtOnce, BeginsAny, Counts, Ends, Gauges, Handled, TakesBack, Tries};
use crate::steps::{QUEUE_CALL, QUEUE_COUNT, QUEUE_GAUGE, steps_for};
use crate::work::{Said, Worked};
use bounded_model::{Command, Reply, Stepped};
use ms_queue::{AnyOp, GaugeOp, LenOp, Pass, Queue, QueueAt, Rest, Root};

/// A queue's work: a count or a gauge.
#[derive(Drop)]
pub enum QueueWork {
    Count(LenOp<u64>),
    Gauge(GaugeOp<u64>),
}

// Continues a count of this queue.
fn count_on(queue: &Queue<u64>, op: LenOp<u64>, tries: u64) -> Worked<QueueWork, Pass<u64>>
    requires { IsCounting queue.now op }
    ensures tried { CountTried queue.now (begun_of (machine_of queue.now) op.pass) result }
    ensures took { WorkedAtMost (count_steps tries) (pass_in op.pass) result }
{
    match op.run_for(queue, steps_for(QUEUE_COUNT, tries)) {
        Stepped::Again(op) => Worked::Again(QueueWork::Count(op)),
        Stepped::Done(by, count) => Worked::Done(by, Said::Count(count)),
    }
}

// Continues a gauge of this queue.
fn gauge_on(queue: &Queue<u64>, op: GaugeOp<u64>, tries: u64) -> Worked<QueueWork, Pass<u64>>
    requires { IsGauging queue.now op }
    ensures tried { GaugeTried queue.now (begun_of (machine_of queue.now) op.pass) result }
    ensures took { WorkedAtMost (gauge_steps tries) (pass_in op.pass) result }
{
    match op.run_for(queue, steps_for(QUEUE_GAUGE, tries)) {
        Stepped::Again(op) => Worked::Again(QueueWork::Gauge(op)),
        Stepped::Done(by, shown) => Worked::Done(by, Said::Gauge(shown.closed, shown.used)),
    }
}

impl Handled for Queue<u64> {
    ghost use Rattle.lockfree_c.specs.Queues.{queue_reading};

    type Root = Root<u64>;

    type Pass = Pass<u64>;

    type Operation = AnyOp<u64>;

    type Work = QueueWork;

    ghost reading = { queue_reading };
}

impl Ends for Queue<u64> {
    type Rest = Rest<u64>;

    #[inline]
    fn split_off(&self, parent: &mut Root<u64>) -> Option<Pass<u64>> {
        self.split(parent)
    }

    #[inline]
    fn end_with(self, parent: Root<u64>) -> Rest<u64> {
        self.finish(parent)
    }
}

impl TakesBack for Queue<u64> {
    #[inline]
    fn take_back(&self, parent: &mut Root<u64>, by: Pass<u64>) {
        self.join(parent, by)
    }
}

impl Tries for Queue<u64> {
    ghost use Rattle.lockfree_c.specs.Queues.{queue_steps};

    ghost steps = { queue_steps };

    #[inline(never)]
    fn try_on(
        &self,
        operation: AnyOp<u64>,
        tries: u64,
    ) -> Stepped<AnyOp<u64>, Pass<u64>, Reply<u64>> {
        operation.run_for(self, steps_for(QUEUE_CALL, tries))
    }

    fn work_on(&self, work: QueueWork, tries: u64) -> Worked<QueueWork, Pass<u64>> {
        match work {
            QueueWork::Count(op) => count_on(self, op, tries),
            QueueWork::Gauge(op) => gauge_on(self, op, tries),
        }
    }
}

impl BeginsAny for Queue<u64> {
    ghost use Rattle.lockfree_c.specs.Calls.{Begins};
    ghost use Rattle.lockfree_c.specs.Queues.{queue_reading};
    ghost use Rattle.ms_queue.specs.Calls.{IsPassOf};

    #[inline(always)]
    fn begin(&self, by: Pass<u64>, command: Command<u64>) -> AnyOp<u64>
        requires { IsPassOf self.now by }
        ensures { Begins (queue_reading self.now) by command result }
    {
        self.begin(by, command)
    }
}

impl AtOnce for Queue<u64> {
    #[inline(always)]
    fn put_at_once(&self, by: Pass<u64>, value: u64) -> Stepped<AnyOp<u64>, Pass<u64>, Reply<u64>> {
        match self.put_at_once(by, value) {
            Stepped::Again(op) => Stepped::Again(QueueAt::of_put(op)),
            Stepped::Done(back, said) => Stepped::Done(back, Reply::Put(said)),
        }
    }

    #[inline(always)]
    fn take_at_once(&self, by: Pass<u64>) -> Stepped<AnyOp<u64>, Pass<u64>, Reply<u64>> {
        match self.take_at_once(by) {
            Stepped::Again(op) => Stepped::Again(QueueAt::of_take(op)),
            Stepped::Done(back, said) => Stepped::Done(back, Reply::Take(said)),
        }
    }

    #[inline(always)]
    fn look_at_once(&self, by: Pass<u64>) -> Stepped<AnyOp<u64>, Pass<u64>, Reply<u64>> {
        match self.look_at_once(by) {
            Stepped::Again(op) => Stepped::Again(QueueAt::of_look(op)),
            Stepped::Done(back, said) => Stepped::Done(back, Reply::Look(said)),
        }
    }
}

impl Gauges for Queue<u64> {
    ghost use Rattle.lockfree_c.specs.Queues.{Gauged};

    ghost gauges = { Gauged };

    fn gauge_for(&self, by: Pass<u64>, tries: u64) -> Worked<QueueWork, Pass<u64>> {
        gauge_on(self, self.begin_gauge(by), tries)
    }
}

impl Counts for Queue<u64> {
    ghost use Rattle.lockfree_c.specs.Queues.{Counted};

    ghost counts = { Counted };

    fn count_for(&self, by: Pass<u64>, tries: u64) -> Worked<QueueWork, Pass<u64>> {
        match self.len_at_once(by) {
            Stepped::Again(op) => count_on(self, op, tries),
            Stepped::Done(by, len) => Worked::Done(by, Said::Count(len)),
        }
    }
}
