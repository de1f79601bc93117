//! Files relayed: what is written, and why nothing is.

use crate::command_lines::split;
use audit::ReadFault;
use file_relay::{ToolFault, relay_main};
use relay::RelayFault;
use std::process::Abort;
use std::sync::Wait;
use std::thread::Threads;
use words::{Chosen, read_words};

// What a relay of these files writes, and how it ends. The words ask for it.
fn relayed<R: Abort + AllocGlobal + Threads + Wait + Sync>(
    rt: &R,
    line: &str,
    files: &[&str],
) -> (Vec<u8>, Result<(), ToolFault>) {
    let words = split(rt, line);
    let Ok(Chosen::Relay(args, names)) = read_words(rt.alloc(), &words) else {
        panic!(rt; "the words ask for no relay")
    };
    let mut readers = Vec::new(rt.alloc());
    for file in files {
        readers.push(file.as_bytes()).expect(rt, "memory");
    }
    assert_eq!(rt; readers.len(), names.len());
    let mut output = Vec::new(rt.alloc());
    let done = relay_main(rt, rt.alloc(), &args, readers, &mut output);
    (output, done)
}

#[test]
fn a_relay_writes_its_outcome(rt: HostRuntime) {
    let line = "lockfree relay --kind queue --capacity 4 --consumers 1 --take 1 --list 1";
    let (output, done) = relayed(&rt, line, &["a\nb\nc\n"]);
    assert_eq!(rt; done, Ok(()));
    let wanted =
        "sender 0 read 3 delivered 1 left 2 unsent 0\ntotal read 3 delivered 1 left 2 unsent 0\ntake 0 sender 0 seq 0 a\nleft sender 0 seq 1 b\nleft sender 0 seq 2 c\n";
    assert_eq!(rt; output.as_slice(), wanted.as_bytes());
}

// Ten messages, for which two places and three takes are too few.
const TEN: &str = "0\n1\n2\n3\n4\n5\n6\n7\n8\n9\n";

#[test]
fn a_relay_with_no_outcome_writes_nothing(rt: HostRuntime) {
    let long = "x".repeat(rt.alloc(), 1025).expect(&rt, "memory");
    for (line, file, fault) in [
        (
            "lockfree relay --kind queue --capacity 2 --consumers 1 --take 3 1",
            TEN,
            ToolFault::Relay(RelayFault::TooSmall),
        ),
        (
            "lockfree relay --kind queue --capacity 2 --consumers 2 --shut-after 3 1",
            TEN,
            ToolFault::Relay(RelayFault::TooSmall),
        ),
        (
            "lockfree relay --kind queue --capacity 2 --consumers 1 1",
            "x",
            ToolFault::File(1, ReadFault::NoFinalNewline),
        ),
        (
            "lockfree relay --kind queue --capacity 2 --consumers 1 1",
            long.as_str(),
            ToolFault::File(1, ReadFault::LineTooLong(1)),
        ),
    ] {
        let (output, done) = relayed(&rt, line, &[file]);
        assert_eq!(rt; done, Err(fault), "of {line}");
        assert!(rt; output.is_empty(), "of {line}");
    }
}
