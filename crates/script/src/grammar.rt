//! The lines of a script.

ghost use Rattle.std.specs.Prelude.{◌≡◌, option_map};
ghost use Rattle.script.specs.Reading.{act_alone, act_of, command_of, line_of, steps_of};
ghost use Rattle.script.specs.Words.{word_and_rest};

use crate::line::{Act, Line, PassName};
use crate::number::number_of;
use crate::value::{Value, Values};
use bounded_model::Command;

/// The first word of a text and the text after the space that follows it. `None` if there is no
/// space.
pub fn word_and_rest(text: &str) -> Option<(&str, &str)>
    ensures { option_map (λ parts. (parts.0.now, parts.1.now)) result ≡ word_and_rest text.now }
{
    text.split_once(' ')
}

/// The call that these words are, without the pass before them.
#[tactic(auto, unfolding(crate::specs::Reading::command_of))]
fn command_of(words: &str) -> Option<Command<Value<'_>>>
    ensures { result ≡ command_of words.now }
{
    match word_and_rest(words) {
        Some(("put", word)) => Some(Command::Put(Value::of(word)?)),
        Some(_) => None,
        None => match words {
            "take" => Some(Command::Take),
            "close" => Some(Command::Close),
            "shut" => Some(Command::Shut),
            "look" => Some(Command::Look),
            _ => None,
        },
    }
}

/// How many steps a word says: 1 to 65,535.
fn steps_of(word: &str) -> Option<u16>
    ensures { result ≡ steps_of word.now }
{
    let count = u16::try_from(number_of(word)?).ok()?;
    if count == 0 { None } else { Some(count) }
}

/// What one word has a pass do.
#[tactic(auto, unfolding(crate::specs::Reading::act_alone))]
fn act_alone(word: &str) -> Option<Act<'_>>
    ensures { result ≡ act_alone word.now }
{
    match word {
        "range" => Some(Act::Range(Values::none())),
        "fold" => Some(Act::Fold),
        "rfold" => Some(Act::ReversedFold),
        "drop" => Some(Act::Drop),
        _ => Some(Act::Call(command_of(word)?)),
    }
}

/// What these words have a pass do, without the pass before them.
#[tactic(auto, unfolding(crate::specs::Reading::act_of))]
fn act_of(words: &str) -> Option<Act<'_>>
    ensures { result ≡ act_of words.now }
{
    match word_and_rest(words) {
        Some(("begin", call)) => Some(Act::Begin(command_of(call)?)),
        Some(("step", count)) => Some(Act::Step(steps_of(count)?)),
        Some(("range", values)) => Some(Act::Range(Values::of(values)?)),
        Some(("meet", other)) => Some(Act::Meet(PassName::of(other)?)),
        Some(_) => Some(Act::Call(command_of(words)?)),
        None => act_alone(words),
    }
}

/// The line that has this text, without the newline at its end.
#[tactic(auto, unfolding(crate::specs::Reading::line_of))]
pub fn line_of(text: &str) -> Option<Line<'_>>
    ensures { result ≡ line_of text.now }
{
    if text == "finish" {
        return Some(Line::Finish);
    }
    let (name, words) = word_and_rest(text)?;
    Some(Line::By(PassName::of(name)?, act_of(words)?))
}
