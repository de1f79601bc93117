//! A ring's calls, counts and gauges: each makes its fast path and then a bounded number of steps.
ghost use Rattle.running.specs.Passes.{begun_of, pass_in};
ghost use Rattle.ring_queue.specs.Calls.{IsCounting, IsGauging, machine_of};
ghost use Rattle.lockfree_c.specs.Rings.{CountTried, GaugeTried, WorkedAtMost, count_steps, gauge_steps};

use crate::calls::{AtOnce, BeginsAny, Counts, Ends, Gauges, Handled, TakesBack, Tries};
use crate::steps::{RING_CALL, RING_COUNT, RING_GAUGE, steps_for};
use crate::work::{Said, Worked};
use bounded_model::{Command, Reply, Stepped};
use ring_queue::{AnyOp, GaugeOp, LenOp, Pass, Rest, RingAt, RingQueue, Root};

/// A ring's work: a count or a gauge.
#[derive(Drop)]
pub enum RingWork {
    Count(LenOp<u64>),
    Gauge(GaugeOp<u64>),
}

// Continues a count of this ring.
fn count_on(ring: &RingQueue<u64>, op: LenOp<u64>, tries: u64) -> Worked<RingWork, Pass<u64>>
    requires { IsCounting ring.now op }
    ensures tried { CountTried ring.now (begun_of (machine_of ring.now) op.pass) result }
    ensures took { WorkedAtMost (count_steps tries) (pass_in op.pass) result }
{
    match op.run_for(ring, steps_for(RING_COUNT, tries)) {
        Stepped::Again(op) => Worked::Again(RingWork::Count(op)),
        Stepped::Done(by, count) => Worked::Done(by, Said::Count(count)),
    }
}

// Continues a gauge of this ring.
fn gauge_on(ring: &RingQueue<u64>, op: GaugeOp<u64>, tries: u64) -> Worked<RingWork, Pass<u64>>
    requires { IsGauging ring.now op }
    ensures tried { GaugeTried ring.now (begun_of (machine_of ring.now) op.pass) result }
    ensures took { WorkedAtMost (gauge_steps tries) (pass_in op.pass) result }
{
    match op.run_for(ring, steps_for(RING_GAUGE, tries)) {
        Stepped::Again(op) => Worked::Again(RingWork::Gauge(op)),
        Stepped::Done(by, shown) => Worked::Done(by, Said::Gauge(shown.closed, shown.used)),
    }
}

impl Handled for RingQueue<u64> {
    ghost use Rattle.lockfree_c.specs.Rings.{ring_reading};

    type Root = Root<u64>;

    type Pass = Pass<u64>;

    type Operation = AnyOp<u64>;

    type Work = RingWork;

    ghost reading = { ring_reading };
}

impl Ends for RingQueue<u64> {
    type Rest = Rest<u64>;

    #[inline]
    fn split_off(&self, parent: &mut Root<u64>) -> Option<Pass<u64>> {
        self.split(parent)
    }

    #[inline]
    fn end_with(self, parent: Root<u64>) -> Rest<u64> {
        self.finish(parent)
    }
}

impl TakesBack for RingQueue<u64> {
    #[inline]
    fn take_back(&self, parent: &mut Root<u64>, by: Pass<u64>) {
        self.join(parent, by)
    }
}

impl Tries for RingQueue<u64> {
    ghost use Rattle.lockfree_c.specs.Rings.{ring_steps};

    ghost steps = { ring_steps };

    #[inline(never)]
    fn try_on(
        &self,
        operation: AnyOp<u64>,
        tries: u64,
    ) -> Stepped<AnyOp<u64>, Pass<u64>, Reply<u64>> {
        operation.run_for(self, steps_for(RING_CALL, tries))
    }

    fn work_on(&self, work: RingWork, tries: u64) -> Worked<RingWork, Pass<u64>> {
        match work {
            RingWork::Count(op) => count_on(self, op, tries),
            RingWork::Gauge(op) => gauge_on(self, op, tries),
        }
    }
}

impl BeginsAny for RingQueue<u64> {
    ghost use Rattle.lockfree_c.specs.Calls.{Begins};
    ghost use Rattle.lockfree_c.specs.Rings.{ring_reading};
    ghost use Rattle.ring_queue.specs.Calls.{IsPassOf};

    #[inline(always)]
    fn begin(&self, by: Pass<u64>, command: Command<u64>) -> AnyOp<u64>
        requires { IsPassOf self.now by }
        ensures { Begins (ring_reading self.now) by command result }
    {
        self.begin(by, command)
    }
}

impl AtOnce for RingQueue<u64> {
    #[inline(always)]
    fn put_at_once(&self, by: Pass<u64>, value: u64) -> Stepped<AnyOp<u64>, Pass<u64>, Reply<u64>> {
        match self.put_at_once(by, value) {
            Stepped::Again(op) => Stepped::Again(RingAt::of_put(op)),
            Stepped::Done(back, said) => Stepped::Done(back, Reply::Put(said)),
        }
    }

    #[inline(always)]
    fn take_at_once(&self, by: Pass<u64>) -> Stepped<AnyOp<u64>, Pass<u64>, Reply<u64>> {
        match self.take_at_once(by) {
            Stepped::Again(op) => Stepped::Again(RingAt::of_take(op)),
            Stepped::Done(back, said) => Stepped::Done(back, Reply::Take(said)),
        }
    }

    #[inline(always)]
    fn look_at_once(&self, by: Pass<u64>) -> Stepped<AnyOp<u64>, Pass<u64>, Reply<u64>> {
        match self.look_at_once(by) {
            Stepped::Again(op) => Stepped::Again(RingAt::of_look(op)),
            Stepped::Done(back, said) => Stepped::Done(back, Reply::Look(said)),
        }
    }
}

impl Gauges for RingQueue<u64> {
    ghost use Rattle.lockfree_c.specs.Rings.{Gauged};

    ghost gauges = { Gauged };

    fn gauge_for(&self, by: Pass<u64>, tries: u64) -> Worked<RingWork, Pass<u64>> {
        gauge_on(self, self.begin_gauge(by), tries)
    }
}

impl Counts for RingQueue<u64> {
    ghost use Rattle.lockfree_c.specs.Rings.{Counted};

    ghost counts = { Counted };

    fn count_for(&self, by: Pass<u64>, tries: u64) -> Worked<RingWork, Pass<u64>> {
        count_on(self, self.begin_len(by), tries)
    }
}
