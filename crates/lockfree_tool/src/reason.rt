//! Why the program failed, in words for a person. On a terminal they follow the line of the
//! failure.

use crate::bad_line::expected;
use crate::failure::Failure;
use crate::opening::OpenFiles;
use crate::source::STANDARD_INPUT;
use audit::{MAX_LINE, MAX_LINES, ReadFault};
use relay::RelayFault;
use relay_args::RelayArgs;
use script_replay::ReplayFault;
use std::io::{self, Write};
use words::Chosen;

/// Writes what is known of the failure beyond its line: the name of a file, why the system did not
/// open it and which limit it exceeds, how many lines a relay has room for, or what a line of the
/// script should have been. `script` is as much of its text as was kept.
pub(crate) fn write_reason<F: OpenFiles, E: Write>(
    failure: Failure,
    chosen: &Chosen,
    files: &F,
    script: Option<&[u8]>,
    errors: &mut E,
) -> io::Result<()> {
    match failure {
        Failure::Script(ReplayFault::BadLine(number)) => match script {
            Some(script) => writeln!(errors, "error: {}", expected(script, number)),
            None => Ok(()),
        },
        Failure::ScriptUnopened => write_unopened(script_name(chosen), files, errors),
        Failure::FileUnopened(number) => write_unopened(file_name(chosen, number), files, errors),
        Failure::File(number, fault) => {
            let name = file_name(chosen, number);
            writeln!(errors, "error: file {number} is '{name}'")?;
            write_limit(fault, errors)
        }
        Failure::Relay(RelayFault::TooSmall) => match chosen {
            Chosen::Relay(args, _) | Chosen::Measured(args, _) => write_room(args, errors),
            _ => Ok(()),
        },
        _ => Ok(()),
    }
}

// Writes what a message file may have that it has too much of, or lacks.
fn write_limit<E: Write>(fault: ReadFault, errors: &mut E) -> io::Result<()> {
    match fault {
        ReadFault::LineTooLong(_) => writeln!(errors, "error: a line has at most {MAX_LINE} bytes"),
        ReadFault::TooMany => writeln!(errors, "error: a file has at most {MAX_LINES} lines"),
        ReadFault::NoFinalNewline => writeln!(errors, "error: a line feed ends each line"),
        _ => Ok(()),
    }
}

// Writes how many lines the files of a relay may have, for each option that limits them.
fn write_room<E: Write>(args: &RelayArgs, errors: &mut E) -> io::Result<()> {
    let room = args.capacity;
    let consumers = args.consumers;
    if let Some(take) = args.take {
        writeln!(
            errors,
            "error: with --take {take} all files have at most {room} + {consumers} * {take} lines"
        )?;
    }
    if let Some(taken) = args.shut_after {
        writeln!(
            errors,
            "error: with --shut-after {taken} all files have at most {room} + {taken} lines"
        )?;
    }
    Ok(())
}

// Writes why the file of this name could not be opened.
fn write_unopened<F: OpenFiles, E: Write>(name: &str, files: &F, errors: &mut E) -> io::Result<()> {
    if name == STANDARD_INPUT {
        return writeln!(errors, "error: '-' is standard input, once");
    }
    match files.last_refusal() {
        Some(why) => writeln!(errors, "error: '{name}': {why}"),
        None => Ok(()),
    }
}

fn script_name(chosen: &Chosen) -> &str {
    match chosen {
        Chosen::Traced(name) | Chosen::Replay(Some(name)) => name.as_str(),
        _ => STANDARD_INPUT,
    }
}

// The name of a relay's file of this number, from 1.
fn file_name(chosen: &Chosen, number: u64) -> &str {
    let (Chosen::Relay(_, names) | Chosen::Measured(_, names)) = chosen else {
        return STANDARD_INPUT;
    };
    let place = usize::try_from(number.saturating_sub(1)).unwrap_or_default();
    names
        .get(place)
        .map_or(STANDARD_INPUT, |name| name.as_str())
}
