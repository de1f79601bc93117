//! A script from its text.

ghost use Rattle.std.specs.Prelude.{◌≡◌, ◌≤◌, length, option_map, true, IfOk, IfErr};
ghost use Rattle.script.specs.declared.fault.ScriptFault.TheVariants.{NoMemory};
ghost use Rattle.script.specs.Faults.{IsAccepted, IsTextFault};
ghost use Rattle.script.specs.Reading.{Gives, head_of, is_ended, is_in_place, line_before, lines_from, script_of, numbered, split_lines};
ghost use Rattle.script.specs.Script.{IsScript};
ghost use Rattle.script.specs.View.{head_view, script_view};

use crate::fault::ScriptFault;
use crate::grammar::line_of;
use crate::header::{Header, header_of};
use crate::line::Line;
use crate::lines::{is_ended, line_and_rest};
use bounded_model::Order;
use std::alloc::Global;
use std::collections::VecDeque;

/// The most bytes that a script has.
pub const MAX_SCRIPT_LEN: usize = 1 << 20;

/// A whole script.
#[derive(Drop)]
pub struct Script<'a> {
    pub header: Header,
    pub lines: VecDeque<Line<'a>>,
}

/// What a first line says.
fn first_line(text: &[u8]) -> Option<Header>
    ensures { option_map head_view result ≡ head_of text.now }
{
    let Ok(text) = str::from_utf8(text) else {
        return None;
    };
    header_of(text)
}

/// Whether the line may stand before the rest of the script: `finish` must be the last line.
fn is_in_place(line: &Line<'_>, after: &[u8]) -> bool
    ensures { result ≡ is_in_place line.now (split_lines after.now) }
{
    match line {
        Line::By(..) => true,
        Line::Finish => after.is_empty(),
    }
}

/// The line that has this text and may stand before the rest of the script.
fn line_before<'a>(order: Order, text: &'a [u8], after: &[u8]) -> Option<Line<'a>>
    ensures { result ≡ line_before order text.now (split_lines after.now) }
{
    let Ok(text) = str::from_utf8(text) else {
        return None;
    };
    let line = line_of(text)?;
    if line.is_allowed(order) && is_in_place(&line, after) {
        Some(line)
    } else {
        None
    }
}

/// The lines of this text, which begins with line 2 of a script.
fn lines_of(alloc: Global, order: Order, text: &[u8]) -> Result<VecDeque<Line<'_>>, ScriptFault>
    requires ended { is_ended text.now ≡ true }
    requires short { length text.now ≤ MAX_SCRIPT_LEN }
    ensures { Gives NoMemory (λ lines. lines.items) result
        (numbered (lines_from order (split_lines text.now))) }
{
    let mut lines = VecDeque::new(alloc);
    let mut rest = text;
    while let Some((line, after)) = line_and_rest(rest) {
        let number = lines.len() as u64 + 2;
        let Some(line) = line_before(order, line, after) else {
            return Err(ScriptFault::BadLine(number));
        };
        lines.push_back(line)?;
        rest = after;
    }
    Ok(lines)
}

/// The script that has this text, or the first thing that is wrong with the text.
#[tactic(auto, unfolding(crate::specs::Reading::script_of))]
fn read_script(alloc: Global, text: &[u8]) -> Result<Script<'_>, ScriptFault>
    requires { length text.now ≤ MAX_SCRIPT_LEN }
    ensures { Gives NoMemory script_view result (script_of text.now) }
{
    if !is_ended(text) {
        return Err(ScriptFault::NoFinalNewline);
    }
    let Some((first, rest)) = line_and_rest(text) else {
        return Err(ScriptFault::BadLine(1));
    };
    let Some(header) = first_line(first) else {
        return Err(ScriptFault::BadLine(1));
    };
    let lines = lines_of(alloc, header.order, rest)?;
    Ok(Script { header, lines })
}

/// The script that has this text.
///
/// - `NoMemory`: there was no room for the lines.
/// - `NoFinalNewline`: the last line has no newline.
/// - `BadLine`: the last line has a newline. The number is that of the first line that a script
///   cannot have there.
pub fn parse(alloc: Global, text: &[u8]) -> Result<Script<'_>, ScriptFault>
    requires { length text.now ≤ MAX_SCRIPT_LEN }
    // The script that is read is the text's.
    ensures script { IfOk result
        (λ script. IsScript text.now (head_view script.header) script.lines.items) }
    // The fault is in the text. A script gives no fault but `NoMemory`.
    ensures fault { IfErr result (λ fault. IsTextFault fault text.now) }
    ensures only { IfErr result (λ fault. IsAccepted text.now → fault ≡ NoMemory) }
{
    read_script(alloc, text)
}
