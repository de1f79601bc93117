//! Inputs that are numbered, and outcomes that a queue or a stack allows.

use crate::made::{message, nothing_of, taken};
use audit::{check_queue, check_stack};
use relay::{FreeGate, Gate, numbered};

// The sender and the seq of two messages of the first input, and of the only one of the second.
#[test]
fn tells_numbered_inputs(rt: HostRuntime) {
    for (first, second, third, want) in [
        ((0, 0), (0, 1), (1, 0), true),
        ((0, 0), (0, 1), (1, 1), false),
        ((0, 0), (0, 1), (0, 0), false),
        ((0, 1), (0, 0), (1, 0), false),
    ] {
        let alloc = rt.alloc();
        let mut input = Vec::new(alloc);
        let mut other = Vec::new(alloc);
        input
            .push(message(&rt, alloc, first, b""))
            .expect(&rt, "memory");
        input
            .push(message(&rt, alloc, second, b""))
            .expect(&rt, "memory");
        other
            .push(message(&rt, alloc, third, b""))
            .expect(&rt, "memory");
        let mut inputs = Vec::new(alloc);
        inputs.push(input).expect(&rt, "memory");
        inputs.push(other).expect(&rt, "memory");
        assert_eq!(rt; numbered(&inputs), want);
    }
    FreeGate.pass(0, u64::MAX);
}

// Two messages of sender 0 were delivered, with these seqs and numbers, and one of this sender is
// left.
#[test]
fn checks_outcomes(rt: HostRuntime) {
    for (first, second, left, want) in [
        ((0, 0, 0), (0, 1, 1), 0, true),
        ((0, 0, 0), (0, 1, 2), 0, false),
        ((0, 1, 0), (0, 0, 1), 0, false),
        ((0, 0, 0), (0, 1, 1), 1, false),
    ] {
        let alloc = rt.alloc();
        let mut relayed = nothing_of(&rt, alloc, 1);
        for one in [first, second] {
            relayed
                .delivered
                .push(taken(&rt, alloc, one, b"x"))
                .expect(&rt, "memory");
        }
        relayed
            .left
            .push(message(&rt, alloc, (left, 2), b"y"))
            .expect(&rt, "memory");
        assert_eq!(rt; check_queue(&relayed), want, "at {left}");
    }
    assert!(rt; check_stack(&[]));
    assert!(rt; check_stack(&[1, 4]));
    assert!(rt; !check_stack(&[4, 4]));
    assert!(rt; !check_stack(&[1, 5, 4]));
}
