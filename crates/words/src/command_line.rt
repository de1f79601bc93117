//! The arguments that the program understands, and its help.

use clap::{Arg, ArgAction, Command, value_parser};
use relay_args::{MAX_CONSUMERS, MAX_COUNT, MAX_FILES};
use std::alloc::{AllocError, Global};
use tagged_index::MAX_CAPACITY;

/// The program's version.
pub const VERSION: &str = "0.2.0";

// The parser breaks no lines: with these texts its own stay within 80 columns.
const ABOUT: &str = "Replays a script of calls on a bounded lock-free container, or relays the
lines of files through one";

const EXAMPLES: &str =
    "A container is a queue (first in, first out), a stack (last in, first out), or a
ring, which is a queue in a circle of slots. Scripts have queues and stacks.
Without arguments, a script is read from standard input. See also
`lockfree replay --help` and `lockfree relay --help`. The formats of scripts and
replies, and all exit statuses, are in docs/cli.md.

Examples:
  lockfree < script.txt
  lockfree replay script.txt
  lockfree relay --kind queue --capacity 1024 --consumers 4 a.txt b.txt";

const ABOUT_REPLAY: &str = "Replays a script of calls, and writes a reply for each line after
the first. Use it to see what each atomic step of a call does";

const REPLAY_EXAMPLE: &str =
    "The first line of a script makes the container: its kind, its capacity, and its
tag limit. Every put and take raises a tag. At the limit the container is worn
out: calls are refused as spent. The greatest limit is 4398046511103. A small
one shows what happens then. Every other line is a call of a pass, which one
letter names. docs/cli.md describes all lines and replies.

Example:
  printf 'stack 2 7\\na put x\\na put y\\na take\\n' | lockfree replay -

prints
  put 0
  put 1
  take 2 y
and with --trace it writes on standard error, for the last line,
  a 1 load TOP
  a 2 load link 1
  a 3 compare-and-swap TOP succeeded
  a 4 load FREE
  a 5 store link 1
  a 6 compare-and-swap FREE succeeded";

const ABOUT_RELAY: &str = "Relays the lines of files through one container: a thread for each
file puts its lines in, others take lines out. Writes how many lines
of each file were delivered, left and unsent, so that a lost or
duplicated line would show";

const RELAY_USAGE: &str = "lockfree relay [OPTIONS] --kind <KIND> --capacity <N> --consumers <C>
                      <FILE>...";

const RELAY_EXAMPLE: &str =
    "A queue and a ring deliver the lines of each file in their order. A stack
delivers the last line in first, so only the lines' numbers tell in which order
they went in. A line has at most 1,024 bytes and ends in a line feed; a file has
at most 65,535 lines.

Examples:
  lockfree relay --kind queue --capacity 1024 --consumers 4 --list a.txt b.txt
  seq 1000 | lockfree relay --kind stack --capacity 8 --consumers 2 --stats -";

/// The command line.
pub fn command_line<'a>(alloc: Global) -> Result<Command<'a>, AllocError> {
    Command::new(alloc, "lockfree")
        .bin_name("lockfree")?
        .version(VERSION)
        .about(ABOUT)
        .after_help(EXAMPLES)
        .subcommand(replay(alloc)?)?
        .subcommand(relay(alloc)?)
}

fn replay<'a>(alloc: Global) -> Result<Command<'a>, AllocError> {
    let file = Arg::new(alloc, "file")
        .value_name("FILE")
        .required(true)
        .action(ArgAction::Set)
        .help("The script; - is standard input");
    Command::new(alloc, "replay")
        .about(ABOUT_REPLAY)
        .after_help(REPLAY_EXAMPLE)
        .arg(trace(alloc))?
        .arg(file)
}

fn trace<'a>(alloc: Global) -> Arg<'a> {
    Arg::new(alloc, "trace")
        .long("trace")
        .action(ArgAction::SetTrue)
        .help(
            "Writes on standard error a line for each atomic step:\nthe pass, the step's number in its call, its name, and\nwhether a compare-and-swap succeeded",
        )
}

/// The words of a relay.
pub fn relay<'a>(alloc: Global) -> Result<Command<'a>, AllocError> {
    let args = vec![in alloc;
        kind(alloc),
        capacity(alloc),
        consumers(alloc),
        take(alloc),
        close_after(alloc),
        shut_after(alloc),
        list(alloc),
        stats(alloc),
        files(alloc),
    ]?;
    Command::new(alloc, "relay")
        .about(ABOUT_RELAY)
        .override_usage(RELAY_USAGE)
        .after_help(RELAY_EXAMPLE)
        .args(args)
}

fn files<'a>(alloc: Global) -> Arg<'a> {
    Arg::new(alloc, "files")
        .value_name("FILE")
        .required(true)
        .num_args(1..=MAX_FILES)
        .action(ArgAction::Append)
        .help("The files, 1 to 16 of them; file 1 is sender 0.\n- is standard input, once")
}

fn kind<'a>(alloc: Global) -> Arg<'a> {
    Arg::new(alloc, "kind")
        .long("kind")
        .value_name("KIND")
        .required(true)
        .value_parser(["queue", "stack", "ring"].as_slice())
        .hide_possible_values(true)
        .help(
            "Which container: queue or ring, from which the first\nline in comes out first, or stack, from which the last\none does",
        )
}

fn capacity<'a>(alloc: Global) -> Arg<'a> {
    Arg::new(alloc, "capacity")
        .long("capacity")
        .value_name("N")
        .required(true)
        .value_parser(value_parser!(u32).range(1..=i64::from(MAX_CAPACITY)))
        .help("The most lines that the container holds, 1 to\n1,048,573; of a ring 1 to 1,048,542")
}

fn consumers<'a>(alloc: Global) -> Arg<'a> {
    Arg::new(alloc, "consumers")
        .long("consumers")
        .value_name("C")
        .required(true)
        .value_parser(value_parser!(u32).range(1..=i64::from(MAX_CONSUMERS)))
        .help("How many threads take lines out, 1 to 16")
}

fn take<'a>(alloc: Global) -> Arg<'a> {
    Arg::new(alloc, "take")
        .long("take")
        .value_name("K")
        .value_parser(value_parser!(u32).range(0..=i64::from(MAX_COUNT)))
        .help(
            "Each consumer ends after K lines, 0 to 65,535. All\nfiles together may then have at most N + C * K lines",
        )
}

fn close_after<'a>(alloc: Global) -> Arg<'a> {
    Arg::new(alloc, "close_after")
        .long("close-after")
        .value_name("M")
        .value_parser(value_parser!(u32).range(0..=i64::from(MAX_COUNT)))
        .help(
            "The first file's producer closes the container after\nM lines, 0 to 65,535; no line gets in afterwards",
        )
}

fn shut_after<'a>(alloc: Global) -> Arg<'a> {
    Arg::new(alloc, "shut_after")
        .long("shut-after")
        .value_name("M")
        .value_parser(value_parser!(u32).range(0..=i64::from(MAX_COUNT)))
        .help(
            "The first consumer shuts the container after M lines,\n0 to 65,535; no line gets out afterwards. All files\ntogether may then have at most N + M lines",
        )
}

fn list<'a>(alloc: Global) -> Arg<'a> {
    Arg::new(alloc, "list")
        .long("list")
        .action(ArgAction::SetTrue)
        .help("Also writes a line for each line of the files: taken,\nleft or unsent")
}

fn stats<'a>(alloc: Global) -> Arg<'a> {
    Arg::new(alloc, "stats")
        .long("stats")
        .action(ArgAction::SetTrue)
        .help(
            "Writes on standard error how long it took, how many\nlines each consumer took, and how often the container\nwas full or empty",
        )
}
