//! The reply to a line of a script, and its text.

ghost use Rattle.std.specs.Prelude.{◌≡◌, ◌++◌, OnOk, string_bytes};
ghost use Rattle.script.specs.AnswerTexts.{fold_text, range_text};
ghost use Rattle.script.specs.ReplyTexts.{reply_text};

use crate::reply::{ReplyText, TakeRefusedText, WordName};
use crate::value::Value;
use crate::value_list::ValueList;
use bounded_model::{Reply, TakeRefused, Word};
use std::alloc::AllocError;
use std::fmt::Write;

/// The reply to a range of values.
#[derive(Clone, Copy, Debug, PartialEq, Eq)]
pub enum RangeReply {
    /// The number of the put, and how many values it put.
    Put(u64, u32),
    /// There was no value.
    Nothing,
    Full,
    Closed,
    Spent(Word, u64),
}

/// The reply to a line of a script.
#[derive(Drop)]
pub enum Answer<'a> {
    /// The reply of a whole call.
    Call(Reply<Value<'a>>),
    /// A call was begun.
    Begun,
    /// A call has made this many steps since it was begun, and has not ended.
    Again(u64),
    /// A call has ended with this reply, after this many steps.
    Ended(Reply<Value<'a>>, u64),
    /// The reply to a range, and the values that were not put.
    Range(RangeReply, ValueList<'a>),
    /// The number of a fold and its values, or why nothing was taken.
    Fold(Result<(u64, ValueList<'a>), TakeRefused>),
    /// The same for a fold from the bottom up.
    ReversedFold(Result<(u64, ValueList<'a>), TakeRefused>),
    /// The pass has seen what the other has seen.
    Met,
    /// The pass was dropped, with its call.
    Dropped,
    /// The pass, or the one that it was to meet, is in the middle of a call.
    Busy,
    /// The pass has begun no call.
    NothingBegun,
    /// No pass of this name could be had, or the pass could not meet the other.
    NoPass,
    /// The values that were left at the end.
    Rest(ValueList<'a>),
}

impl<'a> Answer<'a> {
    ghost use Rattle.std.specs.Prelude.{◌≡◌, ◌++◌, codes, OnOk, string_bytes};
    ghost use Rattle.script.specs.AnswerTexts.{answer_text};

    /// Adds the reply, as a line, to a text.
    pub fn write_line(&self, output: &mut String) -> Result<(), AllocError>
        ensures { OnOk result (string_bytes output.new ≡ string_bytes output.old
            ++ (answer_text self.now ++ codes "\n")) }
    {
        self.write(output)?;
        output.push_str("\n")
    }

    /// Adds the words of the reply to a text.
    fn write(&self, output: &mut String) -> Result<(), AllocError>
        ensures { OnOk result (string_bytes output.new ≡ string_bytes output.old
            ++ answer_text self.now) }
    {
        match self {
            Answer::Call(reply) => write_reply(output, reply),
            Answer::Begun => output.push_str("begun"),
            Answer::Again(steps) => write!(output, "again {steps}"),
            Answer::Ended(reply, steps) => {
                write_reply(output, reply)?;
                write!(output, " steps {steps}")
            }
            Answer::Range(reply, kept) => write_range(output, *reply, kept),
            Answer::Fold(answer) => write_fold(output, "fold", answer),
            Answer::ReversedFold(answer) => write_fold(output, "rfold", answer),
            Answer::Met => output.push_str("met"),
            Answer::Dropped => output.push_str("dropped"),
            Answer::Busy => output.push_str("busy"),
            Answer::NothingBegun => output.push_str("nothing begun"),
            Answer::NoPass => output.push_str("no pass"),
            Answer::Rest(values) => {
                output.push_str("rest")?;
                values.write(output)
            }
        }
    }
}

/// Adds the words of a call's reply to a text.
fn write_reply(output: &mut String, reply: &Reply<Value<'_>>) -> Result<(), AllocError>
    ensures { OnOk result (string_bytes output.new ≡ string_bytes output.old
        ++ reply_text reply.now) }
{
    let reply = ReplyText(reply);
    write!(output, "{reply}")
}

/// Adds the words of a range's reply to a text.
fn write_range(
    output: &mut String,
    reply: RangeReply,
    kept: &ValueList<'_>,
) -> Result<(), AllocError>
    ensures { OnOk result (string_bytes output.new ≡ string_bytes output.old
        ++ range_text reply kept.now) }
{
    match reply {
        RangeReply::Put(number, count) => write!(output, "range {number} {count} kept")?,
        RangeReply::Nothing => return output.push_str("nothing"),
        RangeReply::Full => output.push_str("full kept")?,
        RangeReply::Closed => output.push_str("closed kept")?,
        RangeReply::Spent(word, tag) => {
            let word = WordName(word);
            write!(output, "spent {word} {tag} kept")?;
        }
    }
    kept.write(output)
}

/// Adds the words of a fold's reply to a text. `name` says which fold it was.
fn write_fold(
    output: &mut String,
    name: &str,
    answer: &Result<(u64, ValueList<'_>), TakeRefused>,
) -> Result<(), AllocError>
    ensures { OnOk result (string_bytes output.new ≡ string_bytes output.old
        ++ fold_text name.now answer.now) }
{
    match answer {
        Ok((number, values)) => {
            write!(output, "{name} {number}")?;
            values.write(output)
        }
        Err(refused) => {
            let refused = TakeRefusedText(refused);
            write!(output, "{refused}")
        }
    }
}
