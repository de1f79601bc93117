//! The program `lockfree`: it replays a script of calls on a container, or relays the lines of
//! files through one, as the arguments of its command line ask (`run`). The crates `script_replay`
//! and `file_relay` do the work, and `words` reads the arguments. This crate has the arguments,
//! files and streams of a process.
//!
//! The name `-` stands for the standard input, once (`Source`, `open_sources`). The status and the line
//! on standard error follow from the fault (`Failure`). On a terminal more is said: why it failed
//! (`write_reason`), and that it waits for a script to be typed (`Awaited`).
#![tactic(auto)]

ghost use Rattle.std.specs.Prelude.{⊤};

mod awaited;
mod bad_line;
mod failure;
mod kept;
mod opening;
mod reason;
mod session;
mod source;

use awaited::Awaited;
use opening::OpenFiles;
use session::run;
use std::cell::Cell;
use std::io::{self, BufWriter};
use std::process::ExitCode;
use std::rt::Files;
use std::{env, fs};

/// How many bytes one write to standard output has, except the last. If there is no memory for
/// them, each write goes out by itself.
const OUTPUT_BUFFER: usize = 65_536;

/// The files of the host, by their paths.
#[derive(Drop)]
struct HostFiles<'a, T> {
    rt: &'a T,
    last_refusal: Cell<Option<io::Error>>,
}

impl<'a, T: Files> OpenFiles for HostFiles<'a, T> {
    type File = T::File;

    // No contract says what the host's files are.
    ghost is_file = { λ _ _ _. ⊤ };

    ghost cannot_open = { λ _ _. ⊤ };

    fn open(&self, name: &str) -> io::Result<T::File> {
        let opened = fs::open(self.rt, name);
        if let Err(error) = &opened {
            self.last_refusal.set(Some(*error));
        }
        opened
    }

    fn last_refusal(&self) -> Option<io::Error> {
        self.last_refusal.get()
    }
}

fn main(rt: HostRuntime) -> ExitCode {
    let alloc = rt.alloc();
    let words = env::args(&rt).and_then(|words| Ok(words.collect(alloc)?));
    let files = HostFiles {
        rt: &rt,
        last_refusal: Cell::new(None),
    };
    let mut output = match BufWriter::with_capacity(alloc, OUTPUT_BUFFER, io::writer(&rt)) {
        Ok(output) => output,
        Err(_) => {
            let Ok(output) = BufWriter::with_capacity(alloc, 0, io::writer(&rt)) else {
                unreachable!()
            };
            output
        }
    };
    let status = run(
        &rt,
        alloc,
        words,
        &files,
        Awaited::new(rt.reader(), rt.stderr()),
        &mut output,
        &mut rt.stderr(),
    );
    ExitCode::from(status)
}
