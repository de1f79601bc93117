//! How much of an audit or a list went out, and an audit of many senders.

use crate::made::{message, nothing_of, taken};
use audit::{AuditFault, write_audit, write_list};
use relay::Relayed;
use std::io;
use std::io::{Error, ErrorKind, Write};
use std::process::Abort;

/// Takes at most three bytes a write, and is interrupted before each. After `left` bytes it fails,
/// or takes nothing.
#[derive(Drop)]
struct Short {
    left: usize,
    fails: bool,
    interrupted: bool,
    taken: Vec<u8>,
}

impl Write for Short {
    fn write(&mut self, buf: &[u8]) -> io::Result<usize> {
        self.interrupted = !self.interrupted;
        if self.interrupted {
            return Err(Error::from(ErrorKind::Interrupted));
        }
        let count = buf.len().min(3).min(self.left);
        if count == 0 && self.fails {
            return Err(Error::from(ErrorKind::BrokenPipe));
        }
        self.taken.extend_from_slice(&buf[..count])?;
        self.left -= count;
        Ok(count)
    }

    fn flush(&mut self) -> io::Result<()> {
        Ok(())
    }
}

// Writes the list of an outcome, or its audit, which is this text.
fn counts_out<R: Abort + AllocGlobal>(rt: &R, relayed: &Relayed, is_list: bool, text: &[u8]) {
    for fails in [true, false] {
        for left in 0..text.len().saturating_add(1) {
            let mut writer = Short {
                left,
                fails,
                interrupted: false,
                taken: Vec::new(rt.alloc()),
            };
            let got = if is_list {
                write_list(relayed, &mut writer)
            } else {
                write_audit(relayed, &mut writer)
            };
            let want = if left == text.len() {
                Ok(())
            } else {
                Err(AuditFault::Write(left as u64))
            };
            assert_eq!(rt; got, want);
            assert_eq!(rt; writer.taken.as_slice(), &text[..left.min(text.len())]);
        }
    }
}

#[test]
fn counts_what_went_out(rt: HostRuntime) {
    let alloc = rt.alloc();
    let mut relayed = nothing_of(&rt, alloc, 0);
    let mut unsent = Vec::new(alloc);
    unsent
        .push(message(&rt, alloc, (0, 2), b"c"))
        .expect(&rt, "memory");
    relayed.unsent.push(unsent).expect(&rt, "memory");
    relayed
        .delivered
        .push(taken(&rt, alloc, (0, 0, 0), b"a"))
        .expect(&rt, "memory");
    relayed
        .left
        .push(message(&rt, alloc, (0, 1), b"b"))
        .expect(&rt, "memory");
    let audit =
        "sender 0 read 3 delivered 1 left 1 unsent 1\ntotal read 3 delivered 1 left 1 unsent 1\n";
    let list = "take 0 sender 0 seq 0 a\nleft sender 0 seq 1 b\nunsent sender 0 seq 2 c\n";
    counts_out(&rt, &relayed, false, audit.as_bytes());
    counts_out(&rt, &relayed, true, list.as_bytes());
}

// One pass counts sixteen senders.
#[test]
fn writes_eighteen_senders(rt: HostRuntime) {
    let alloc = rt.alloc();
    let mut relayed = nothing_of(&rt, alloc, 18);
    for one in [(17, 0, 0), (17, 1, 1)] {
        relayed
            .delivered
            .push(taken(&rt, alloc, one, b"x"))
            .expect(&rt, "memory");
    }
    relayed
        .left
        .push(message(&rt, alloc, (0, 0), b"y"))
        .expect(&rt, "memory");
    let mut text = Vec::new(alloc);
    assert_eq!(rt; write_audit(&relayed, &mut text), Ok(()));
    let first =
        "sender 0 read 1 delivered 0 left 1 unsent 0\nsender 1 read 0 delivered 0 left 0 unsent 0\n";
    let last =
        "sender 16 read 0 delivered 0 left 0 unsent 0\nsender 17 read 2 delivered 2 left 0 unsent 0\ntotal read 3 delivered 2 left 1 unsent 0\n";
    assert!(rt; text.starts_with(first.as_bytes()));
    assert!(rt; text.ends_with(last.as_bytes()));
}
