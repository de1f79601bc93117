//! Scripts replayed, and texts that are none.

use script_replay::{ReplayFault, replay};

// A script of a queue and one of a stack, each with its replies, worked out by hand. `tests/cases`
// has all others.
const ROWS: &[(&str, &str)] = &[
    (
        "queue 1 7\na put x\na put y\na take\na take\nfinish\n",
        "put 0\nfull y\ntake 0 x\nempty\nrest\n",
    ),
    (
        "stack 3 15\na range a b c d e\na take\na range\na range f g\na take\n",
        "range 0 3 kept d e\ntake 1 c\nnothing\nrange 2 1 kept g\ntake 3 f\n",
    ),
];

#[test]
fn each_script_gets_its_replies(rt: HostRuntime) {
    for (script, wanted) in ROWS {
        let mut output = Vec::new(rt.alloc());
        let done = replay(&rt, rt.alloc(), &mut script.as_bytes(), &mut output);
        assert_eq!(rt; done, Ok(()), "of {script}");
        assert_eq!(rt; output.as_slice(), wanted.as_bytes(), "of {script}");
    }
}

#[test]
fn a_text_that_is_no_script_gets_no_reply(rt: HostRuntime) {
    for (text, fault) in [
        ("", ReplayFault::BadLine(1)),
        ("queue 0 7\n", ReplayFault::BadLine(1)),
        ("queue 65533 140737488355327\n", ReplayFault::BadLine(1)),
        ("queue 1 7\na put x\na pull\n", ReplayFault::BadLine(3)),
        ("queue 1 7", ReplayFault::NoFinalNewline),
    ] {
        let mut output = Vec::new(rt.alloc());
        let refused = replay(&rt, rt.alloc(), &mut text.as_bytes(), &mut output);
        assert_eq!(rt; refused, Err(fault), "of {text}");
        assert!(rt; output.is_empty());
    }
}
