//! A run of the program over what a process would give it.

ghost use Rattle.std.specs.Prelude.{◌≡◌, ◌≢◌, [], IfErr, IfOk, OnErr, OnOk, map, string_bytes};
ghost use Rattle.std.specs.Io.Buffered.{writer_buffer};
ghost use Rattle.lockfree_tool.specs.declared.failure.Failure.TheVariants.{Output};
ghost use Rattle.words.specs.Ranges.{AreInRange, AskForDetails, IsDetailed};

use crate::failure::Failure;
use crate::kept::Kept;
use crate::opening::{OpenFiles, open_source, open_sources};
use crate::reason::write_reason;
use crate::source::STANDARD_INPUT;
use file_relay::{relay_main, relay_measured};
use script_replay::{replay, replay_traced};
use std::alloc::{AllocError, Global};
use std::io::{self, BufWriter, ErrorKind, IsTerminal, Read, Write};
use std::sync::Wait;
use std::thread::Threads;
use std::time::Clock;
use words::{Chosen, WordsRefused, read_words};

/// Does what the arguments of the command line ask for, and returns the status that the program
/// ends with. `words` are these arguments, the program's name first, or why they could not be read:
/// one is not UTF-8, or memory ran out. A script without a name, and the name `-`, come from
/// `input`.
///
/// The output is flushed before the status is known. A failure is one line on `errors`, by one
/// write if there is memory for it. If `errors` is a terminal, the reason follows, as far as more is
/// known than the line says. If the arguments ask for them, the stats of a relay or the trace of a
/// script are written on `errors`.
pub(crate) fn run<
    T: Threads + Wait + Clock + Sync,
    F: OpenFiles,
    I: Read + Drop,
    O: Write + Drop,
    E: Write + IsTerminal,
>(
    rt: &T,
    alloc: Global,
    words: io::Result<Vec<String>>,
    files: &F,
    input: I,
    output: &mut BufWriter<O>,
    errors: &mut E,
) -> u8
    // A run that is done writes no error, unless the arguments ask for stats or for a trace.
    ensures silent { result ≡ 0
        → ¬ (IfOk words (λ all. AskForDetails (map string_bytes all.items)))
        → errors.new ≡ errors.old }
    // Nothing is written if the arguments, a text, a file or a relay failed.
    ensures unwritten { result ≢ 0 → result ≢ 5 → output.new ≡ output.old }
    // After a run that is done no output is left in the buffer.
    ensures flushed { result ≡ 0 → writer_buffer output.new ≡ [] }
{
    let chosen = match choose(alloc, words) {
        Ok(chosen) => chosen,
        Err(refused) => return refuse(alloc, &refused, output, errors),
    };
    let mut script = errors.is_terminal().then(|| Vec::new(alloc));
    let done = attempt(
        rt,
        alloc,
        &chosen,
        files,
        input,
        output,
        errors,
        &mut script,
    );
    match done {
        Ok(()) => finish(alloc, output, errors),
        Err(failure) => {
            let status = fail(alloc, failure, errors);
            if errors.is_terminal() {
                let _ = write_reason(failure, &chosen, files, script.as_deref(), errors);
            }
            status
        }
    }
}

// What the arguments ask for.
fn choose(alloc: Global, words: io::Result<Vec<String>>) -> Result<Chosen, WordsRefused>
    ensures ranges { IfOk result AreInRange }
    ensures asked { IfOk result (λ chosen. IsDetailed chosen
        → IfOk words (λ all. AskForDetails (map string_bytes all.items))) }
{
    let words = match words {
        Ok(words) => words,
        Err(error) if error.kind() == ErrorKind::OutOfMemory => return Err(AllocError.into()),
        Err(_) => return Err(WordsRefused::not_text(alloc)),
    };
    let mut texts = Vec::new(alloc);
    for word in &words {
        texts.push(word.as_str())?;
    }
    read_words(alloc, &texts)
}

// Writes the help or the version, or that the arguments are refused. On a terminal it also writes
// what is wrong with them. Returns the status.
fn refuse<O: Write + Drop, E: Write + IsTerminal>(
    alloc: Global,
    refused: &WordsRefused,
    output: &mut BufWriter<O>,
    errors: &mut E,
) -> u8
    ensures silent { result ≡ 0 → errors.new ≡ errors.old }
    ensures unwritten { result ≢ 0 → result ≢ 5 → output.new ≡ output.old }
    ensures flushed { result ≡ 0 → writer_buffer output.new ≡ [] }
{
    match refused {
        WordsRefused::Help(text) => match write_help(text, output) {
            Ok(()) => finish(alloc, output, errors),
            Err(failure) => fail(alloc, failure, errors),
        },
        WordsRefused::Bad(reason) => {
            let status = fail(alloc, Failure::CommandLine, errors);
            if errors.is_terminal() {
                let _ = write!(errors, "{reason}");
            }
            status
        }
    }
}

// Flushes the output of a run that is done, and returns the status. The calls that write have
// flushed it too. Only here does the proof show that the buffer is empty.
fn finish<O: Write + Drop, E: Write>(alloc: Global, output: &mut BufWriter<O>, errors: &mut E) -> u8
    ensures silent { result ≡ 0 → errors.new ≡ errors.old }
    ensures flushed { result ≡ 0 → writer_buffer output.new ≡ [] }
    ensures failed { result ≢ 0 → result ≡ 5 }
{
    match output.flush() {
        Ok(()) => 0,
        Err(_) => fail(alloc, Failure::Output, errors),
    }
}

// Writes the failure in a line, and returns its status. If the write fails too, nothing is left to
// do.
fn fail<E: Write>(alloc: Global, failure: Failure, errors: &mut E) -> u8
    ensures failed { result ≢ 0 }
    ensures output { failure ≡ Output → result ≡ 5 }
{
    let _ = match format!(in alloc; "lockfree: {failure}\n") {
        Ok(line) => errors.write_all(line.as_bytes()),
        Err(_) => writeln!(errors, "lockfree: {failure}"),
    };
    failure.status()
}

// Does what was chosen. If there is a text in `script`, what is read of a script is added to it.
fn attempt<T: Threads + Wait + Clock + Sync, F: OpenFiles, I: Read + Drop, O: Write, E: Write>(
    rt: &T,
    alloc: Global,
    chosen: &Chosen,
    files: &F,
    input: I,
    output: &mut O,
    errors: &mut E,
    script: &mut Option<Vec<u8>>,
) -> Result<(), Failure>
    requires { AreInRange chosen.now }
    ensures unwritten { IfErr result (λ failure. failure ≢ Output → output.new ≡ output.old) }
    ensures untold { OnErr result (errors.new ≡ errors.old) }
    ensures silent { OnOk result (¬ (IsDetailed chosen.now) → errors.new ≡ errors.old) }
{
    let mut input = Some(input);
    match chosen {
        Chosen::Replay(name) => {
            let name = name.as_ref().map_or(STANDARD_INPUT, |name| name.as_str());
            let source = open_source(files, name, &mut input);
            let source = source.ok_or(Failure::ScriptUnopened)?;
            let mut source = Kept::new(source, script.take());
            let done = replay(rt, alloc, &mut source, output);
            *script = source.into_text();
            Ok(done?)
        }
        Chosen::Traced(name) => {
            let source = open_source(files, name.as_str(), &mut input);
            let source = source.ok_or(Failure::ScriptUnopened)?;
            let mut source = Kept::new(source, script.take());
            let done = replay_traced(rt, alloc, &mut source, output, errors);
            *script = source.into_text();
            // A trace or stats that cannot be written are no failure.
            let _ = done?;
            Ok(())
        }
        Chosen::Relay(args, names) => {
            let sources = open_sources(alloc, files, names, input)?;
            Ok(relay_main(rt, alloc, args, sources, output)?)
        }
        Chosen::Measured(args, names) => {
            let sources = open_sources(alloc, files, names, input)?;
            let _ = relay_measured(rt, alloc, args, sources, output, errors)?;
            Ok(())
        }
    }
}

// Writes the text of help, or of the version.
fn write_help<O: Write>(help: &clap::Error, output: &mut O) -> Result<(), Failure>
    ensures { IfErr result (λ failure. failure ≡ Output) }
{
    write!(output, "{help}").map_err(|_| Failure::Output)
}
