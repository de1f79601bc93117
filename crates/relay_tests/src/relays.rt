//! Relays that the program never asks for: over containers whose tags end early, of more workers
//! than there are passes, and without a gate. And relays of which the whole outcome is checked: a
//! large one, and one that is closed early.

use crate::gates::Counting;
use crate::kinds::{KINDS, Kind, MOST, plan, relay_freely, relay_over};
use audit::{check_queue, check_stack};
use relay::{FreeGate, Message, Plan, RelayFault, Relayed};
use std::process::Abort;
use std::sync::Wait;
use std::thread::Threads;

// The seqs of these messages, in their order, are those.
fn have_seqs<R: Abort + AllocGlobal>(rt: &R, messages: &[Message], wanted: &[u32]) {
    let mut seqs = Vec::new(rt.alloc());
    for message in messages {
        seqs.push(message.seq).expect(rt, "memory");
    }
    assert_eq!(rt; seqs.as_slice(), wanted);
}

// The only sender's third message is unsent, and these are left.
fn keeps<R: Abort + AllocGlobal>(rt: &R, relayed: &Relayed, left: &[u32]) {
    have_seqs(rt, &relayed.left, left);
    let Some(unsent) = relayed.unsent.first() else {
        panic!(rt; "no list for the sender")
    };
    have_seqs(rt, unsent, &[2]);
}

// The tags allow two puts. The messages left and unsent show that messages go through the
// container.
fn keeps_what_it_has<R: Abort + AllocGlobal + Threads + Wait + Sync>(
    rt: &R,
    kind: Kind,
    left: &[u32],
) {
    let takes_none = Plan {
        take: Some(0),
        ..plan(1)
    };
    let relayed = relay_over(rt, kind, (4, 2), &[3], takes_none, &FreeGate).expect(rt, "a relay");
    assert_eq!(rt; relayed.delivered.len(), 0);
    keeps(rt, &relayed, left);
}

#[test]
fn a_spent_container_keeps_what_it_has(rt: HostRuntime) {
    keeps_what_it_has(&rt, Kind::Queue, &[0, 1]);
    keeps_what_it_has(&rt, Kind::Stack, &[1, 0]);
}

// Each slot can be filled once. The third put finds the first slot full, and once its message is
// taken, finds it worn.
#[test]
fn a_spent_ring_keeps_what_it_has(rt: HostRuntime) {
    let takes_one = Plan {
        take: Some(1),
        ..plan(1)
    };
    let relayed = relay_over(&rt, Kind::Ring, (2, 2), &[3], takes_one, &FreeGate);
    let relayed = relayed.expect(&rt, "a relay");
    assert_eq!(rt; relayed.delivered.len(), 1);
    for taken in &relayed.delivered {
        assert_eq!(rt; taken.message.seq, 0);
    }
    keeps(&rt, &relayed, &[1]);
}

// The tags allow two puts and a take. Two messages fill the stack, and the producer has met that
// twice, before each consumer's first try. One message is taken. Then the remaining consumer and
// the producer find the tags spent.
#[test]
fn consumers_meet_a_spent_stack(rt: HostRuntime) {
    let gate = Counting::new(&[((1, 0), (0, 3)), ((2, 0), (0, 3))]);
    let relayed = relay_over(&rt, Kind::Stack, (2, 3), &[3], plan(2), &gate).expect(&rt, "a relay");
    assert!(rt; gate.was_in_turn());
    assert_eq!(rt; relayed.delivered.len(), 1);
    for taken in &relayed.delivered {
        assert_eq!(rt; taken.message.seq, 1);
    }
    keeps(&rt, &relayed, &[0]);
}

// 65,534 producers, a consumer and the closing pass would need one pass more than there are.
#[test]
fn a_relay_of_too_many_workers_gets_no_pass(rt: HostRuntime) {
    let lengths = vec![in rt.alloc(); 0u32; 65_534].expect(&rt, "memory");
    for kind in KINDS {
        let answer = relay_over(&rt, kind, (1, MOST), &lengths, plan(1), &FreeGate);
        assert!(rt; matches!(answer, Err(RelayFault::NoPass)));
    }
}

#[test]
fn a_relay_without_a_gate_delivers_all(rt: HostRuntime) {
    let relayed = relay_freely(&rt, 2, &[3, 2], plan(2)).expect(&rt, "a relay");
    let of_first = relayed
        .delivered
        .iter()
        .filter(|taken| taken.message.sender == 0)
        .count();
    assert_eq!(rt; (of_first, relayed.delivered.len()), (3usize, 5usize));
    assert!(rt; relayed.left.is_empty());
    assert!(rt; relayed.unsent.iter().all(|messages| messages.is_empty()));
    assert!(rt; check_queue(&relayed));
}

// Relays 2,000 messages of four producers to three consumers, with little room.
fn delivers_many<R: Abort + AllocGlobal + Threads + Wait + Sync>(rt: &R, kind: Kind) {
    let lengths = [500, 500, 500, 500];
    let relayed = relay_over(rt, kind, (8, MOST), &lengths, plan(3), &FreeGate).expect(
        rt, "a relay",
    );
    assert_eq!(rt; relayed.delivered.len(), 2_000);
    let mut numbers = Vec::new(rt.alloc());
    for taken in &relayed.delivered {
        numbers.push(taken.number).expect(rt, "memory");
    }
    assert!(rt; check_stack(&numbers));
    assert!(rt; kind == Kind::Stack || check_queue(&relayed));
}

#[test]
fn many_messages_are_delivered(rt: HostRuntime) {
    for kind in KINDS {
        delivers_many(&rt, kind);
    }
}

// The second sender may be stopped anywhere. None of its messages is left: the consumer ends when
// it finds the queue closed and empty.
#[test]
fn a_queue_closed_after_one_message_is_taken_empty(rt: HostRuntime) {
    let plan = Plan {
        close_after: Some(1),
        ..plan(1)
    };
    let relayed = relay_over(&rt, Kind::Queue, (4, MOST), &[3, 2], plan, &FreeGate);
    let relayed = relayed.expect(&rt, "a relay");
    let of_first = relayed
        .delivered
        .iter()
        .filter(|taken| taken.message.sender == 0);
    assert_eq!(rt; of_first.count(), 1);
    assert!(rt; relayed.left.is_empty());
    let unsent = relayed.unsent.first().map(|messages| messages.len());
    assert_eq!(rt; unsent, Some(2));
    assert!(rt; check_queue(&relayed));
}
