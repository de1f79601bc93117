//! A script played over a container.

ghost use Rattle.std.specs.Prelude.{◌≡◌, ◌++◌, ℕ, IfOk, OnOk, IsTrue, List, codes, map, string_bytes};
ghost use Rattle.std.specs.List.{AllByRecursion};
ghost use Rattle.bounded_model.specs.declared.history.Order.{Order};
ghost use Rattle.player.specs.Plays.{Ends, IsFit, Plays, World, start};
ghost use Rattle.player.specs.Shows.{IsOn, reading_of};
ghost use Rattle.player.specs.Traces.{Adds, PlaysTraced, lines_in, nothing_held};
ghost use Rattle.script.specs.AnswerTexts.{answer_text};
ghost use Rattle.script.specs.Script.{FinishesLast, IsLine, is_allowed, text_of};
ghost use Rattle.script.specs.declared.answer.Answer.{Answer};
ghost use Rattle.script.specs.declared.answer.Answer.TheVariants.{Rest as LeftOver};

use crate::ranges::Ranges;
use crate::stage::{Stage, act, finish};
use crate::trace::Trace;
use script::{Act, Answer, Line, Value};
use std::alloc::{AllocError, Global};
use std::collections::VecDeque;
use std::sync::Wait;
use step_names::Named;

/// Plays the lines of a script over a container from which no pass is out, and adds the steps that
/// are made to the trace. Returns the text of the replies, a line for each line of the script. The
/// error means that memory ran out for that text, for the values of a range or a fold, or for the
/// trace.
///
/// If a trace is kept, whole calls are made by steps, except ranges and folds, which are made
/// whole. The trace gains a line for each step, in their order, with the step's name and its number
/// in the call. It gains a line for each range and fold, and no other line. A line tells a
/// compare-and-swap's outcome by the names of this step and the next (`StepName::outcome`).
pub fn play<'a, G: Ranges<'a, C>, C: Named<Value<'a>>, R: Wait>(
    rt: &R,
    alloc: Global,
    container: C,
    root: C::Root,
    lines: VecDeque<Line<'a>>,
    trace: &mut Trace,
) -> Result<String, AllocError>
    requires root { C.is_root container root }
    requires each { AllByRecursion IsLine lines.items }
    requires allowed { AllByRecursion
        (λ line. IsTrue (is_allowed (C.shape container).order line)) lines.items }
    requires finish_last { FinishesLast lines.items }
    ensures plays { IfOk result (λ output. (answers : List Answer)
        × Plays (C.shape container) (start (C.root root))
        lines.entry.items answers
        × (string_bytes output ≡ text_of (map answer_text answers))) }
    ensures traced { IfOk result (λ output. Adds (lines_in trace.old) (lines_in trace.new)
        (λ traced. (answers : List Answer)
        × PlaysTraced (reading_of C.Container C.Stepwise.own container) C.is_step
        (start (C.root root)) nothing_held lines.entry.items answers traced
        × (string_bytes output ≡ text_of (map answer_text answers)))) }
{
    let mut lines = lines;
    let mut stage = Stage::new(alloc, root)?;
    let mut output = String::new(alloc);
    while let Some(line) = lines.pop_front() {
        match line {
            Line::By(name, what) => {
                trace.turn_to(name);
                let what = fitting(&container, trace, what);
                let answer = act::<G, _, _>(&container, rt, &mut stage, what, trace)?;
                write_reply(answer, &mut output)?;
            }
            Line::Finish => {
                play_end(alloc, container, stage, &mut output)?;
                return Ok(output);
            }
        }
    }
    Ok(output)
}

/// The same act. As with `held`, the prover then knows what the next call requires: it is in the
/// words of that call. What this requires in turn is shown by hand, which is cheap because its type
/// parameter has no bound.
fn fitting<'a, C>(_container: &C, trace: &Trace, what: Act<'a>) -> Act<'a>
    ghost order: { Order }
    requires { IsFit order trace.now.pass.0 what }
    ensures same { result ≡ what.entry }
    ensures fit { IsFit order trace.now.pass.0 result }
{
    what
}

/// Adds the reply of a line.
fn write_reply(answer: Answer<'_>, output: &mut String) -> Result<(), AllocError>
    ensures { OnOk result (string_bytes output.new
        ≡ string_bytes output.old ++ (answer_text answer.entry ++ codes "\n")) }
{
    answer.write_line(output)
}

/// Ends the container, and adds the line of the values that are left.
fn play_end<'a, C: Named<Value<'a>>>(
    alloc: Global,
    container: C,
    stage: Stage<C::Root, C::Pass, C::Op>,
    output: &mut String,
) -> Result<(), AllocError>
    requires { (world : World) × IsOn (reading_of C.Container C.Stepwise.own container) stage world }
    ensures { (world : World) → IsOn (reading_of C.Container C.Stepwise.own container) stage world
        → OnOk result ((values : List (List ℕ)) × Ends (C.shape container) world values
        × (string_bytes output.new
        ≡ string_bytes output.old ++ (answer_text (LeftOver values) ++ codes "\n"))) }
{
    let answer = Answer::Rest(finish(alloc, container, stage)?);
    answer.write_line(output)
}
