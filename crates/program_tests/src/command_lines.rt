//! Words of the command line: what they ask for.

use relay_args::{Kind, RelayArgs};
use std::process::Abort;
use words::{Chosen, WordsRefused, read_words};

/// The words of a line.
pub(crate) fn split<'a, R: Abort + AllocGlobal>(rt: &R, line: &'a str) -> Vec<&'a str> {
    let mut words = Vec::new(rt.alloc());
    for word in line.split(' ') {
        words.push(word).expect(rt, "memory");
    }
    words
}

// A relay over a queue by one consumer.
const ONE: RelayArgs = RelayArgs {
    kind: Kind::Queue,
    capacity: 4,
    consumers: 1,
    take: None,
    close_after: None,
    shut_after: None,
    list: false,
};

#[test]
fn words_ask_for_relays(rt: HostRuntime) {
    for (line, wanted, names) in [
        (
            "lockfree relay --kind queue --capacity 2 --consumers 2 one two",
            RelayArgs {
                capacity: 2,
                consumers: 2,
                ..ONE
            },
            ["one", "two"].as_slice(),
        ),
        (
            "lockfree relay --kind queue --capacity 4 --consumers 1 --take 1 --list one",
            RelayArgs {
                take: Some(1),
                list: true,
                ..ONE
            },
            ["one"].as_slice(),
        ),
        (
            "lockfree relay --kind queue --capacity 4 --consumers 1 --close-after 2 --list one",
            RelayArgs {
                close_after: Some(2),
                list: true,
                ..ONE
            },
            ["one"].as_slice(),
        ),
        (
            "lockfree relay --kind queue --capacity 2 --consumers 1 --take 3 one",
            RelayArgs {
                capacity: 2,
                take: Some(3),
                ..ONE
            },
            ["one"].as_slice(),
        ),
        (
            "lockfree relay --kind stack --capacity 01048573 --consumers 16 --shut-after 65535 one",
            RelayArgs {
                kind: Kind::Stack,
                capacity: 1_048_573,
                consumers: 16,
                shut_after: Some(65_535),
                ..ONE
            },
            ["one"].as_slice(),
        ),
    ] {
        let words = split(&rt, line);
        let Ok(Chosen::Relay(args, files)) = read_words(rt.alloc(), &words) else {
            panic!(rt; "no relay by {line}")
        };
        assert_eq!(rt; args, wanted, "of {line}");
        assert_eq!(rt; files.len(), names.len(), "of {line}");
        assert!(rt;
            files
                .iter()
                .zip(names)
                .all(|(file, name)| file.as_str() == *name),
            "of {line}"
        );
    }
}

#[test]
fn words_ask_for_a_replay(rt: HostRuntime) {
    for (line, wanted) in [("lockfree", None), ("lockfree replay one", Some("one"))] {
        let words = split(&rt, line);
        let Ok(Chosen::Replay(file)) = read_words(rt.alloc(), &words) else {
            panic!(rt; "no replay by {line}")
        };
        assert_eq!(rt; file.as_ref().map(|file| file.as_str()), wanted);
    }
}

#[test]
fn words_are_refused(rt: HostRuntime) {
    for (line, is_help) in [
        ("lockfree --help", true),
        ("lockfree relay --help", true),
        ("lockfree relay --capacity 4 --consumers 1 one", false),
        (
            "lockfree relay --kind queue --capacity 0 --consumers 1 one",
            false,
        ),
        (
            "lockfree relay --kind queue --capacity 1048574 --consumers 1 one",
            false,
        ),
        (
            "lockfree relay --kind queue --capacity 4 --consumers 0 one",
            false,
        ),
        (
            "lockfree relay --kind queue --capacity 4 --consumers 17 one",
            false,
        ),
        (
            "lockfree relay --kind queue --capacity 4 --consumers 1 --take 65536 one",
            false,
        ),
        (
            "lockfree relay --kind queue --capacity 4 --consumers 1",
            false,
        ),
        ("lockfree play", false),
    ] {
        let words = split(&rt, line);
        match read_words(rt.alloc(), &words) {
            Err(WordsRefused::Help(_)) => assert!(rt; is_help, "of {line}"),
            Err(WordsRefused::Bad(_)) => assert!(rt; !is_help, "of {line}"),
            Ok(_) => panic!(rt; "taken: {line}"),
        }
    }
}
