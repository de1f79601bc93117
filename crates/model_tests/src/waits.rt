//! What a pass remembers of its caller, and how long its calls wait.

use backoff::{Density, Known, Pause, Sight};
use std::cell::Cell;

// A word with this tag and this index.
fn word(tag: u64, index: u64) -> u64 {
    tag.wrapping_mul(4_194_304).wrapping_add(index)
}

// A pass with this evidence, before a call.
fn knowing(evidence: u8) -> Known {
    Known {
        evidence,
        failures: 0,
        sight: Sight::Nothing,
    }
}

#[test]
fn waits_grow_to_the_longest(rt: HostRuntime) {
    let given = Cell::new(0u32);
    let mut pause = Pause::of(knowing(8).together());
    for hints in [80u32, 320, 640, 640] {
        given.set(0);
        pause = pause.wait_by(|| given.set(given.get().wrapping_add(1)));
        assert_eq!(rt; given.get(), hints);
    }
}

#[test]
fn who_does_not_wait_never_does(rt: HostRuntime) {
    let given = Cell::new(0u32);
    let mut pause = Pause::of(knowing(7).together());
    for _ in 0..3 {
        pause = pause.wait_by(|| given.set(given.get().wrapping_add(1)));
    }
    assert_eq!(rt; (given.get(), pause.has_failed()), (0, true));
}

#[test]
fn a_look_counts_what_it_found(rt: HostRuntime) {
    // Each line: the evidence before, the tag and the index that the last call left, the tag
    // and the index that the look found, and the evidence after.
    let looks = [
        (0u8, 5u64, 3u64, 5u64, 3u64, 1u8),
        (15, 5, 3, 5, 3, 16),
        (23, 5, 3, 5, 3, 24),
        (24, 5, 3, 5, 3, 24),
        (24, 5, 3, 6, 3, 20),
        (16, 5, 3, 5, 4, 12),
        (3, 5, 3, 7, 3, 0),
        (0, 5, 3, 5, 1_048_575, 0),
    ];
    for (before, tag, index, tag_found, index_found, after) in looks {
        let left = Known {
            evidence: before,
            failures: 3,
            sight: Sight::Nothing,
        };
        let left = left.together().after_failure(word(tag, index));
        assert!(rt; left.is_marked());
        let found = Known::of(left.after_look(word(tag_found, index_found)));
        assert_eq!(rt; (found.evidence, found.failures), (after, 0));
        assert!(rt; matches!(found.sight, Sight::Nothing));
    }
}

#[test]
fn each_fourth_failure_makes_a_look(rt: HostRuntime) {
    let mut density = Density::new();
    for looks in [false, false, false, true, false, false, false, true] {
        density = density.after_failure(word(1, 2));
        assert_eq!(rt; density.is_marked(), looks);
        assert_eq!(rt; matches!(Known::of(density).sight, Sight::Left(3)), looks);
    }
    assert_eq!(rt; Known::of(density).evidence, 0);
}

#[test]
fn a_call_left_under_way_keeps_its_failure(rt: HostRuntime) {
    let density = knowing(9).together();
    assert!(rt; !density.is_marked());
    let left = density.under_way();
    assert!(rt; left.is_marked() && Pause::of(left).has_failed());
    assert_eq!(rt; Known::of(left).evidence, 9);
}
