//! A gate that counts what the workers try, and holds some of their tries until others have entered
//! theirs.

use crate::kinds::{KINDS, Kind, MOST, plan, relay_over};
use audit::check_queue;
use relay::{Gate, Relayed};
use std::process::Abort;
use std::sync::Wait;
use std::sync::atomic::{AtomicU64, Ordering};
use std::thread;
use std::thread::Threads;

/// How often a gate looks before it gives up and lets a worker continue.
const TURNS: u64 = 1_000_000_000;

/// A try, by the number of its worker and its own.
pub(crate) type Try = (u64, u64);

/// How many tries each of the first eight workers has entered. The gate holds pairs of tries: the
/// first of a pair waits until the second was entered.
#[derive(Drop)]
pub(crate) struct Counting {
    counts: [AtomicU64; 8],
    holds: &'static [(Try, Try)],
    /// Whether a worker entered a try out of turn.
    wrong: AtomicU64,
    /// Whether the gate gave up and let a worker continue.
    late: AtomicU64,
}

impl Counting {
    pub(crate) fn new(holds: &'static [(Try, Try)]) -> Counting {
        Counting {
            counts: [
                AtomicU64::new(0),
                AtomicU64::new(0),
                AtomicU64::new(0),
                AtomicU64::new(0),
                AtomicU64::new(0),
                AtomicU64::new(0),
                AtomicU64::new(0),
                AtomicU64::new(0),
            ],
            holds,
            wrong: AtomicU64::new(0),
            late: AtomicU64::new(0),
        }
    }

    /// How many tries this worker has entered.
    fn of(&self, who: usize) -> u64 {
        match self.counts.get(who) {
            Some(count) => count.load(Ordering::SeqCst),
            None => 0,
        }
    }

    // Waits until this try was entered.
    fn wait_for(&self, (who, call): Try) {
        for _ in 0..TURNS {
            if self.of(who as usize) > call {
                return;
            }
            thread::yield_now();
        }
        self.late.store(1, Ordering::SeqCst);
    }

    /// Whether each worker entered its tries in turn, and the gate never gave up.
    pub(crate) fn was_in_turn(&self) -> bool {
        self.wrong.load(Ordering::SeqCst) == 0 && self.late.load(Ordering::SeqCst) == 0
    }
}

impl Gate for Counting {
    fn pass(&self, who: u64, call: u64) {
        match self.counts.get(who as usize) {
            Some(count) if count.load(Ordering::SeqCst) == call => {
                count.store(call.saturating_add(1), Ordering::SeqCst);
            }
            _ => self.wrong.store(1, Ordering::SeqCst),
        }
        for (held, entered) in self.holds {
            if *held == (who, call) {
                self.wait_for(*entered);
            }
        }
    }
}

// How many messages a consumer took.
fn taken_by(relayed: &Relayed, consumer: u32) -> usize {
    relayed
        .delivered
        .iter()
        .filter(|taken| taken.consumer == consumer)
        .count()
}

// There is room for all messages, so each put of a producer is its last try of that message; a
// consumer's last try is the one that finds the container closed.
fn counts_each_try<R: Abort + AllocGlobal + Threads + Wait + Sync>(rt: &R, kind: Kind) {
    let gate = Counting::new(&[]);
    let relayed = relay_over(rt, kind, (8, MOST), &[3, 0, 2], plan(3), &gate).expect(rt, "a relay");
    assert!(rt; gate.was_in_turn());
    for (who, wanted) in [(0usize, 3u64), (1, 0), (2, 2), (6, 0), (7, 0)] {
        assert_eq!(rt; gate.of(who), wanted, "of worker {who}");
    }
    for (who, consumer) in [(3usize, 0u32), (4, 1), (5, 2)] {
        assert!(rt;
            gate.of(who) > taken_by(&relayed, consumer) as u64,
            "of worker {who}"
        );
    }
}

#[test]
fn each_worker_enters_each_try_under_its_own_number(rt: HostRuntime) {
    for kind in KINDS {
        counts_each_try(&rt, kind);
    }
}

// Two messages of one producer, or one message of each of two, through a gate that holds two
// workers until the other one has entered a try. If the workers took turns on one thread, the relay
// would not end.
fn runs_at_once<R: Abort + AllocGlobal + Threads + Wait + Sync>(
    rt: &R,
    kind: Kind,
    lengths: &[u32],
    holds: &'static [(Try, Try)],
) -> Relayed {
    let gate = Counting::new(holds);
    let relayed = relay_over(rt, kind, (2, MOST), lengths, plan(1), &gate).expect(rt, "a relay");
    assert!(rt; gate.was_in_turn());
    assert_eq!(rt; relayed.delivered.len(), 2);
    relayed
}

// The first put waits for the second take, so that the first finds the queue empty, and the second
// take waits for the second put.
#[test]
fn a_producer_and_a_consumer_of_a_queue_run_at_once(rt: HostRuntime) {
    let relayed = runs_at_once(
        &rt,
        Kind::Queue,
        &[2],
        &[((0, 0), (1, 1)), ((1, 1), (0, 1))],
    );
    for (taken, wanted) in relayed.delivered.iter().zip([0, 1]) {
        assert_eq!(rt; taken.number, wanted);
    }
    assert!(rt; check_queue(&relayed));
}

#[test]
fn workers_that_wait_for_each_other_run_at_once(rt: HostRuntime) {
    for kind in KINDS {
        for lengths in [[2].as_slice(), [1, 1].as_slice()] {
            runs_at_once(&rt, kind, lengths, &[((0, 0), (1, 0)), ((1, 0), (0, 0))]);
        }
    }
}
