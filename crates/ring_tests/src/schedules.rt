//! Calls that overlap, in schedules of single steps that look random: each answer is one that a plain
//! list may give.

ghost use Rattle.ring_queue.specs.Calls.{IsPassOf, IsRootOf};
ghost use Rattle.ring_tests.specs.Doing.{IsDoing};

use crate::dice::Dice;
use crate::doing::{Doing, begun, stepped};
use crate::judge::{CREW, Judge};
use crate::plain::{Asked, Plain, ROOM, Reply};
use bounded_model::{Container, Leaving};
use ring_queue::{Pass, Rest, RingLimits, RingQueue, Root};
use std::alloc::Global;
use std::process::Abort;

/// More steps than any call makes if nobody interferes from here on.
const MOST: u32 = 60;

// The parameters of a test: how large the ring is and how long it lasts, how many passes have
// calls, the seed of the dice, and the number of turns.
#[derive(Clone, Copy)]
struct Plan {
    capacity: u32,
    laps: u64,
    passes: u64,
    seed: u64,
    turns: u64,
}

// Which answers came at least once.
#[derive(Clone, Copy, PartialEq, Eq, Debug)]
struct Heard {
    put: bool,
    full: bool,
    put_closed: bool,
    spent: bool,
    taken: bool,
    empty: bool,
    take_closed: bool,
    take_shut: bool,
    closed: bool,
    shut: bool,
    looked: bool,
    counted: bool,
    gauged: bool,
}

impl Heard {
    const NOTHING: Heard = Heard {
        put: false,
        full: false,
        put_closed: false,
        spent: false,
        taken: false,
        empty: false,
        take_closed: false,
        take_shut: false,
        closed: false,
        shut: false,
        looked: false,
        counted: false,
        gauged: false,
    };

    const ALL: Heard = Heard {
        put: true,
        full: true,
        put_closed: true,
        spent: true,
        taken: true,
        empty: true,
        take_closed: true,
        take_shut: true,
        closed: true,
        shut: true,
        looked: true,
        counted: true,
        gauged: true,
    };

    fn hear(&mut self, reply: Reply) {
        match reply {
            Reply::Put(_) => self.put = true,
            Reply::Full(_) => self.full = true,
            Reply::PutClosed(_) => self.put_closed = true,
            Reply::Spent(_, _, _) => self.spent = true,
            Reply::Taken(_, _) => self.taken = true,
            Reply::Empty => self.empty = true,
            Reply::TakeClosed => self.take_closed = true,
            Reply::TakeShut => self.take_shut = true,
            Reply::TakeSpent => {}
            Reply::Closed(_) => self.closed = true,
            Reply::Shut(_) => self.shut = true,
            Reply::Looked(_) => self.looked = true,
            Reply::Counted(_) => self.counted = true,
            Reply::Gauged(_, _) => self.gauged = true,
        }
    }
}

// The state of a schedule that is played.
#[derive(Drop)]
struct Play {
    dice: Dice,
    judge: Judge,
    heard: Heard,
    // The value of the next put.
    value: u64,
}

impl Play {
    // The next call of a pass. It seldom closes or shuts the ring.
    fn ask(&mut self, pass: usize) -> Asked {
        let asked = match self.dice.below(128) {
            0 => Asked::Close,
            1 => Asked::Shut,
            2..12 => Asked::Look,
            12..20 => Asked::Count,
            20..26 => Asked::Gauge,
            26..78 => Asked::Put(self.value),
            _ => Asked::Take,
        };
        self.value = self.value.saturating_add(1);
        self.judge.hear(pass, asked);
        asked
    }

    // A call has answered.
    fn hear<R: Abort>(&mut self, rt: &R, pass: usize, reply: Reply) {
        self.heard.hear(reply);
        assert!(rt; self.judge.allows(rt, pass, reply));
    }
}

// A pass makes one step of its call. A pass that rests begins a call.
fn go_on<R: Abort>(
    rt: &R,
    ring: &RingQueue<u64>,
    doing: Doing,
    pass: usize,
    play: &mut Play,
) -> Doing
    requires { IsDoing ring.now doing }
    ensures { IsDoing ring.now result }
{
    match doing {
        Doing::Rests(rests) => begun(ring, rests, play.ask(pass)),
        doing => {
            let (next, reply) = stepped(ring, doing);
            if let Some(reply) = reply {
                play.hear(rt, pass, reply);
            }
            next
        }
    }
}

// A pass makes all remaining steps of its call, and is joined.
fn ended<R: Abort>(
    rt: &R,
    ring: &RingQueue<u64>,
    doing: Doing,
    pass: usize,
    play: &mut Play,
) -> Pass<u64>
    requires { IsDoing ring.now doing }
    ensures { IsPassOf ring.now result }
{
    let mut doing = doing;
    for _ in 0..MOST {
        match doing {
            Doing::Rests(rests) => return rests,
            busy => {
                let (next, reply) = stepped(ring, busy);
                if let Some(reply) = reply {
                    play.hear(rt, pass, reply);
                }
                doing = next;
            }
        }
    }
    panic!(rt; "the call does not end")
}

// A pass that begins with no call.
fn resting<R: Abort>(rt: &R, ring: &RingQueue<u64>, root: &mut Root<u64>) -> Doing
    requires { IsRootOf ring.now root.old }
    ensures root { IsRootOf ring.now root.new }
    ensures rests { IsDoing ring.now result }
{
    Doing::Rests(ring.split(root).expect(rt, "a pass"))
}

// Reads the values that are left, and returns whether these are all.
fn read_all(rest: Rest<u64>) -> ([Option<u64>; ROOM], bool) {
    let mut rest = rest;
    let first = rest.next();
    let second = rest.next();
    let third = rest.next();
    ([first, second, third], rest.next().is_none())
}

// Plays one schedule to its end, and joins all passes. At each turn the dice name a pass, and it
// makes a step. At most one of the passes sleeps at a time.
fn played<R: Abort>(rt: &R, alloc: Global, plan: Plan, heard: Heard) -> Heard {
    let limits = RingLimits::of(plan.capacity, plan.laps, 4).expect(rt, "limits");
    let (ring, mut root) = RingQueue::<u64>::new(alloc, limits).expect(rt, "memory");
    let mut first = resting(rt, &ring, &mut root);
    let mut second = resting(rt, &ring, &mut root);
    let mut third = resting(rt, &ring, &mut root);
    let mut fourth = resting(rt, &ring, &mut root);
    let plain = Plain::new(u64::from(plan.capacity), plan.laps);
    let mut play = Play {
        dice: Dice::new(plan.seed),
        judge: Judge::new(rt, alloc, plain),
        heard,
        value: 0,
    };
    let mut asleep = 0;
    for turn in 0..plan.turns {
        if turn % 32 == 0 {
            asleep = play.dice.below(CREW as u64);
        }
        match play.dice.below(plan.passes) {
            pass if pass == asleep => {}
            0 => first = go_on(rt, &ring, first, 0, &mut play),
            1 => second = go_on(rt, &ring, second, 1, &mut play),
            2 => third = go_on(rt, &ring, third, 2, &mut play),
            _ => fourth = go_on(rt, &ring, fourth, 3, &mut play),
        }
    }
    ring.join(&mut root, ended(rt, &ring, first, 0, &mut play));
    ring.join(&mut root, ended(rt, &ring, second, 1, &mut play));
    ring.join(&mut root, ended(rt, &ring, third, 2, &mut play));
    ring.join(&mut root, ended(rt, &ring, fourth, 3, &mut play));
    let (values, is_all) = read_all(ring.finish(root));
    assert!(rt; is_all);
    assert!(rt; play.judge.allows_left(values));
    play.heard
}

// Every capacity and number of passes, from two laps on. A schedule is long enough to spend a ring.
// Every answer comes at least once.
#[test]
fn answers_in_any_schedule_are_those_of_a_plain_list(rt: HostRuntime) {
    let mut heard = Heard::NOTHING;
    let mut seed = 0u64;
    for capacity in 1..=3 {
        for laps in 2..=9 {
            for passes in 2..=4 {
                for _ in 0..5 {
                    seed = seed.wrapping_add(1);
                    let plan = Plan {
                        capacity,
                        laps,
                        passes,
                        seed,
                        turns: laps.saturating_mul(60),
                    };
                    heard = played(&rt, rt.alloc(), plan, heard);
                }
            }
        }
    }
    assert_eq!(rt; heard, Heard::ALL);
}
