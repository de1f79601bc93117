//! The trace of a script that is played: a line for each step of its calls.

ghost use Rattle.std.specs.Prelude.{◌≡◌, ◌++◌, ◌↔◌, [], IsSome, IsTrue, OnOk, string_bytes};
ghost use Rattle.player.specs.Traces.{lines_in, step_line, text_in, whole_line, with_line};

use script::PassName;
use std::alloc::{AllocError, Global};
use std::fmt::Write;
use step_names::{Outcome, StepName};

/// The trace of a script that is played, if one is asked for. `play` adds a line for each step of the
/// script's calls, in the order in which they are made.
#[derive(Drop)]
pub struct Trace {
    /// The pass whose steps are made.
    pub(crate) pass: PassName,
    /// The lines so far. `None` if no trace is asked for.
    lines: Option<String>,
}

/// A step that a pass has made.
#[derive(Clone, Copy)]
pub struct MadeStep {
    /// Its number among the steps of its call, from 1.
    pub number: u64,
    pub name: StepName,
    pub outcome: Outcome,
}

impl Trace {
    /// No trace is kept.
    pub fn none() -> Trace
        ensures { lines_in result ≡ None }
    {
        Trace {
            pass: PassName(b'a'),
            lines: None,
        }
    }

    /// A trace is kept, and has no line yet.
    pub fn new(alloc: Global) -> Trace
        ensures { lines_in result ≡ Some [] }
    {
        Trace {
            pass: PassName(b'a'),
            lines: Some(String::new(alloc)),
        }
    }

    /// Whether a trace is kept.
    pub fn is_kept(&self) -> bool
        ensures { IsTrue result ↔ IsSome self.now.lines }
    {
        self.lines.is_some()
    }

    /// The lines so far. The text is empty if no trace is kept.
    pub fn text(&self) -> &str
        ensures { result.now ≡ text_in self.now }
    {
        match &self.lines {
            Some(lines) => lines.as_str(),
            None => "",
        }
    }

    /// From here on this pass makes the steps.
    pub fn turn_to(&mut self, pass: PassName)
        ensures lines { self.new.lines ≡ self.old.lines }
        ensures pass { self.new.pass ≡ pass }
    {
        self.pass = pass;
    }

    /// Adds the line of a step, if a trace is kept.
    pub fn add_step(&mut self, made: MadeStep) -> Result<(), AllocError>
        ensures lines { OnOk result (lines_in self.new
            ≡ with_line (lines_in self.old) (step_line self.old.pass made)) }
        ensures pass { self.new.pass ≡ self.old.pass }
    {
        let pass = self.pass;
        match &mut self.lines {
            Some(lines) => write_step(lines, pass, made),
            None => Ok(()),
        }
    }

    /// Adds the line of a call that is made whole, if a trace is kept.
    pub fn add_whole(&mut self, call: &str) -> Result<(), AllocError>
        ensures lines { OnOk result (lines_in self.new
            ≡ with_line (lines_in self.old) (whole_line self.old.pass call.now)) }
        ensures pass { self.new.pass ≡ self.old.pass }
    {
        let pass = self.pass;
        match &mut self.lines {
            Some(lines) => write_whole(lines, pass, call),
            None => Ok(()),
        }
    }
}

fn write_step(text: &mut String, pass: PassName, made: MadeStep) -> Result<(), AllocError>
    ensures { OnOk result (string_bytes text.new ≡ string_bytes text.old ++ step_line pass made) }
{
    let letter = char::from(pass.0);
    let MadeStep {
        number,
        name,
        outcome,
    } = made;
    writeln!(text, "{letter} {number} {name}{outcome}")
}

fn write_whole(text: &mut String, pass: PassName, call: &str) -> Result<(), AllocError>
    ensures { OnOk result (string_bytes text.new
        ≡ string_bytes text.old ++ whole_line pass call.now) }
{
    let letter = char::from(pass.0);
    writeln!(text, "{letter} whole {call}")
}
