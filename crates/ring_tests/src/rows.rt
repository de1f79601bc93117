//! The calls of a ring as data: what each answers, and how many steps it makes if no other call
//! interferes. Both were worked out by hand from the lines of the machine:
//! - A call loads its hint and then each slot from there to its end of the ring, a step each. A count
//!   does so for both ends.
//! - A put, a close and a shut end with an exchange. A refused put lays its cell back by one step.
//! - A take ends with an exchange, and lays the cell back. A refused take has nothing to lay back.
//! - A count looks at the front once more at its end.

use crate::plain::{Asked, Reply};
use crate::rounds::ring_of;
use crate::ways::{Way, call};
use bounded_model::Word;
use std::alloc::Global;
use std::process::Abort;
use std::sync::Wait;

// What is asked, how many steps the call makes, and what it answers.
type Row = (Asked, u64, Reply);

// One slot: empty, full, and empty again at the second lap.
const SMALLEST: [Row; 14] = [
    (Asked::Look, 2, Reply::Looked(true)),
    (Asked::Count, 5, Reply::Counted(0)),
    (Asked::Gauge, 2, Reply::Gauged(false, 0)),
    (Asked::Take, 2, Reply::Empty),
    (Asked::Put(10), 3, Reply::Put(0)),
    (Asked::Put(11), 4, Reply::Full(11)),
    (Asked::Look, 2, Reply::Looked(false)),
    (Asked::Count, 6, Reply::Counted(1)),
    (Asked::Gauge, 3, Reply::Gauged(false, 1)),
    (Asked::Take, 4, Reply::Taken(10, 0)),
    (Asked::Take, 3, Reply::Empty),
    (Asked::Look, 3, Reply::Looked(true)),
    (Asked::Count, 7, Reply::Counted(0)),
    (Asked::Gauge, 3, Reply::Gauged(false, 1)),
];

// Closed with a value in it, emptied, and then shut.
const CLOSED: [Row; 15] = [
    (Asked::Put(10), 3, Reply::Put(0)),
    (Asked::Close, 4, Reply::Closed(true)),
    (Asked::Close, 3, Reply::Closed(false)),
    (Asked::Put(11), 4, Reply::PutClosed(11)),
    (Asked::Look, 2, Reply::Looked(false)),
    (Asked::Count, 6, Reply::Counted(1)),
    (Asked::Gauge, 3, Reply::Gauged(true, 1)),
    (Asked::Take, 4, Reply::Taken(10, 0)),
    (Asked::Take, 3, Reply::TakeClosed),
    (Asked::Look, 3, Reply::Looked(true)),
    (Asked::Shut, 4, Reply::Shut(true)),
    (Asked::Take, 3, Reply::TakeShut),
    (Asked::Shut, 3, Reply::Shut(false)),
    (Asked::Close, 3, Reply::Closed(false)),
    (Asked::Count, 7, Reply::Counted(0)),
];

// Shut with a value in it, filled, and then closed.
const SHUT: [Row; 13] = [
    (Asked::Put(10), 3, Reply::Put(0)),
    (Asked::Shut, 3, Reply::Shut(true)),
    (Asked::Shut, 2, Reply::Shut(false)),
    (Asked::Take, 2, Reply::TakeShut),
    (Asked::Look, 2, Reply::Looked(false)),
    (Asked::Put(11), 4, Reply::Put(1)),
    (Asked::Put(12), 5, Reply::Full(12)),
    (Asked::Count, 7, Reply::Counted(2)),
    (Asked::Gauge, 4, Reply::Gauged(false, 2)),
    (Asked::Close, 5, Reply::Closed(true)),
    (Asked::Put(13), 5, Reply::PutClosed(13)),
    (Asked::Gauge, 4, Reply::Gauged(true, 2)),
    (Asked::Take, 2, Reply::TakeShut),
];

// Three slots, three laps: each call walks past what was put or taken since its hint was moved. Each
// fourth put and each fourth take make one step more, by which they move it.
const HINTS: [Row; 24] = [
    (Asked::Put(10), 3, Reply::Put(0)),
    (Asked::Take, 4, Reply::Taken(10, 0)),
    (Asked::Put(11), 4, Reply::Put(1)),
    (Asked::Take, 5, Reply::Taken(11, 1)),
    (Asked::Put(12), 5, Reply::Put(2)),
    (Asked::Take, 6, Reply::Taken(12, 2)),
    (Asked::Put(13), 7, Reply::Put(3)),
    (Asked::Take, 8, Reply::Taken(13, 3)),
    (Asked::Put(14), 3, Reply::Put(4)),
    (Asked::Take, 4, Reply::Taken(14, 4)),
    (Asked::Put(15), 4, Reply::Put(5)),
    (Asked::Take, 5, Reply::Taken(15, 5)),
    (Asked::Put(16), 5, Reply::Put(6)),
    (Asked::Take, 6, Reply::Taken(16, 6)),
    (Asked::Put(17), 7, Reply::Put(7)),
    (Asked::Take, 8, Reply::Taken(17, 7)),
    (Asked::Put(18), 3, Reply::Put(8)),
    (Asked::Take, 4, Reply::Taken(18, 8)),
    (Asked::Take, 3, Reply::Empty),
    (Asked::Look, 3, Reply::Looked(true)),
    (Asked::Count, 7, Reply::Counted(0)),
    (Asked::Gauge, 3, Reply::Gauged(false, 9)),
    (Asked::Close, 4, Reply::Closed(true)),
    (Asked::Shut, 4, Reply::Shut(true)),
];

// Two slots, one lap: full comes before spent, and closed before both.
const SPENT: [Row; 13] = [
    (Asked::Put(10), 3, Reply::Put(0)),
    (Asked::Put(11), 4, Reply::Put(1)),
    (Asked::Put(12), 5, Reply::Full(12)),
    (Asked::Take, 4, Reply::Taken(10, 0)),
    (Asked::Put(12), 5, Reply::Spent(12, Word::Next(0), 2)),
    (Asked::Take, 5, Reply::Taken(11, 1)),
    (Asked::Take, 4, Reply::Empty),
    (Asked::Put(13), 5, Reply::Spent(13, Word::Next(0), 2)),
    (Asked::Gauge, 4, Reply::Gauged(false, 2)),
    (Asked::Close, 5, Reply::Closed(true)),
    (Asked::Put(14), 5, Reply::PutClosed(14)),
    (Asked::Take, 4, Reply::TakeClosed),
    (Asked::Gauge, 4, Reply::Gauged(true, 2)),
];

// Makes the calls of a table in each way, one after another on a new ring.
fn answered<R: Abort + Wait>(rt: &R, alloc: Global, capacity: u32, laps: u64, rows: &[Row]) {
    for way in [Way::Whole, Way::BySingleSteps, Way::OfItsKind] {
        let (ring, mut pass) = ring_of(rt, alloc, capacity, laps);
        for (asked, steps, wanted) in rows {
            let (back, reply) = call(rt, &ring, pass, way, *asked, *steps);
            assert_eq!(rt; reply, *wanted, "{asked:?}, {way:?}");
            pass = back;
        }
    }
}

#[test]
fn calls_answer_after_their_steps_what_the_tables_say(rt: HostRuntime) {
    answered(&rt, rt.alloc(), 1, 9, &SMALLEST);
    answered(&rt, rt.alloc(), 2, 9, &CLOSED);
    answered(&rt, rt.alloc(), 2, 9, &SHUT);
    answered(&rt, rt.alloc(), 3, 9, &HINTS);
    answered(&rt, rt.alloc(), 2, 1, &SPENT);
}
