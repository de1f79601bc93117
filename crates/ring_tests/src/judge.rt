//! Whether the answers of calls that overlap are those of a plain list. Each call has its effect at
//! once, at some time between its begin and its end. A judge keeps all cases that this allows.

use crate::plain::{Asked, Plain, ROOM, Reply};
use std::alloc::Global;
use std::process::Abort;

/// How many passes have calls at most.
pub(crate) const CREW: usize = 4;

// The state of a pass in a case.
#[derive(Clone, Copy, PartialEq, Eq)]
enum Standing {
    // It is in no call.
    Resting,
    // Its call has had no effect yet.
    Asked(Asked),
    // Its call has had its effect, and will answer this.
    Told(Reply),
}

// A possible case: the list, and the state of each pass.
#[derive(Clone, Copy, PartialEq, Eq)]
struct Case {
    ring: Plain,
    standing: [Standing; CREW],
}

impl Case {
    fn standing_of(&self, pass: usize) -> Standing {
        match self.standing.get(pass) {
            Some(standing) => *standing,
            None => Standing::Resting,
        }
    }

    // The same case, except for the state of this pass.
    fn with(self, pass: usize, standing: Standing) -> Case {
        let mut all = self.standing;
        if let Some(place) = all.get_mut(pass) {
            *place = standing;
        }
        Case {
            ring: self.ring,
            standing: all,
        }
    }

    // The case in which the call of this pass has its effect next.
    fn after(self, pass: usize) -> Option<Case> {
        let Standing::Asked(asked) = self.standing_of(pass) else {
            return None;
        };
        let (ring, reply) = self.ring.after(asked);
        let told = self.with(pass, Standing::Told(reply));
        Some(Case { ring, ..told })
    }
}

// Adds the cases that arise if one more call has its effect, and returns those that are new.
fn with_one_more<R: Abort>(
    rt: &R,
    alloc: Global,
    these: &[Case],
    all: &mut Vec<Case>,
) -> Vec<Case> {
    let mut new = Vec::new(alloc);
    for case in these {
        for pass in 0..CREW {
            if let Some(after) = case.after(pass) {
                if !all.contains(&after) {
                    all.push(after).expect(rt, "memory");
                    new.push(after).expect(rt, "memory");
                }
            }
        }
    }
    new
}

/// Listens to the calls of a ring.
#[derive(Drop)]
pub(crate) struct Judge {
    alloc: Global,
    cases: Vec<Case>,
}

impl Judge {
    /// A judge of a new ring.
    pub(crate) fn new<R: Abort>(rt: &R, alloc: Global, ring: Plain) -> Judge {
        let mut cases = Vec::new(alloc);
        let standing = [Standing::Resting; CREW];
        cases.push(Case { ring, standing }).expect(rt, "memory");
        Judge { alloc, cases }
    }

    /// A pass begins a call.
    pub(crate) fn hear(&mut self, pass: usize, asked: Asked) {
        for case in self.cases.iter_mut() {
            *case = case.with(pass, Standing::Asked(asked));
        }
    }

    /// A pass ends its call. Returns whether a plain list may answer so.
    pub(crate) fn allows<R: Abort>(&mut self, rt: &R, pass: usize, reply: Reply) -> bool {
        let mut all = self.cases.to_vec(self.alloc).expect(rt, "memory");
        let mut new = self.cases.to_vec(self.alloc).expect(rt, "memory");
        for _ in 0..CREW {
            new = with_one_more(rt, self.alloc, &new, &mut all);
        }
        let mut left = Vec::new(self.alloc);
        for case in &all {
            if case.standing_of(pass) == Standing::Told(reply) {
                let rests = case.with(pass, Standing::Resting);
                left.push(rests).expect(rt, "memory");
            }
        }
        self.cases = left;
        !self.cases.is_empty()
    }

    /// Whether these may be the values of the ring, once no pass is in a call.
    pub(crate) fn allows_left(&self, values: [Option<u64>; ROOM]) -> bool {
        self.cases.iter().any(|case| case.ring.values() == values)
    }
}
