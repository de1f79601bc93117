//! The values of a script.

ghost use Rattle.std.specs.Prelude.{◌≡◌, IfOk, Some, map};
ghost use Rattle.std.specs.Char.{is_ascii_alphanumeric};
ghost use Rattle.std.specs.List.{list_all};
ghost use Rattle.script.specs.Words.{is_value, words};

use crate::grammar::word_and_rest;
use std::alloc::{AllocError, Global};
use std::marker::Model;

/// The most bytes that a value has.
pub const MAX_VALUE_LEN: usize = 64;

/// The value of a put: 1 to `MAX_VALUE_LEN` ASCII letters and digits of the script.
#[derive(Debug, Drop)]
pub struct Value<'a> {
    text: &'a str,
}

/// Contracts see a value as its bytes.
impl<'a> Model for Value<'a> {
    ghost use Rattle.std.specs.Prelude.{List, ℕ};

    ghost Value = { List ℕ };

    ghost view = { λ v. v.text.now };
}

impl<'a> Value<'a> {
    ghost use Rattle.std.specs.Prelude.{◌≡◌};
    ghost use Rattle.script.specs.Words.{value_of};

    /// The value that a word spells, or `None` if it spells none.
    pub fn of(word: &'a str) -> Option<Value<'a>>
        ensures { result ≡ value_of word.now }
    {
        if is_value(word.as_bytes()) {
            Some(Value { text: word })
        } else {
            None
        }
    }

    pub fn as_str(&self) -> &'a str
        ensures { result.now ≡ self.now }
    {
        self.text
    }
}

/// The values of a range, which may be none. They stay in the script's text.
#[derive(Debug, Drop)]
pub struct Values<'a> {
    /// The values with a space between each two, if there are any.
    text: Option<&'a str>,
}

/// Contracts see the list of the values.
impl<'a> Model for Values<'a> {
    ghost use Rattle.std.specs.Prelude.{List, ℕ};
    ghost use Rattle.script.specs.Words.{words_in};

    ghost Value = { List (List ℕ) };

    ghost view = { λ v. words_in v.text };
}

impl<'a> Values<'a> {
    ghost use Rattle.std.specs.Prelude.{◌≡◌, [], Some, map, IfOk};
    ghost use Rattle.script.specs.Words.{values_of};

    /// No value.
    pub fn none() -> Values<'a>
        ensures { result ≡ [] }
    {
        Values { text: None }
    }

    /// The values that these words spell, or `None` if one of them spells none.
    pub fn of(words: &'a str) -> Option<Values<'a>>
        ensures { result ≡ values_of words.now }
    {
        if are_values(words) {
            Some(Values { text: Some(words) })
        } else {
            None
        }
    }

    /// The values, each in a place that it can be taken from.
    pub fn to_places(&self, alloc: Global) -> Result<Vec<Option<Value<'a>>>, AllocError>
        ensures { IfOk result (λ places. places.items ≡ map (λ value. Some value) self.now) }
    {
        match self.text {
            Some(words) => places_of(alloc, words),
            None => Ok(Vec::new(alloc)),
        }
    }
}

/// Whether a word spells a value.
fn is_value(word: &[u8]) -> bool
    ensures { result ≡ is_value word.now }
{
    (1..=MAX_VALUE_LEN).contains(&word.len()) && is_alphanumeric(word)
}

/// Whether a word has only ASCII letters and digits.
fn is_alphanumeric(word: &[u8]) -> bool
    ensures { result ≡ list_all is_ascii_alphanumeric word.now }
{
    word.iter().all(|byte| byte.is_ascii_alphanumeric())
}

/// Whether each of these words spells a value.
fn are_values(text: &str) -> bool
    ensures { result ≡ list_all is_value (words text.now) }
{
    let mut rest = text;
    while let Some((word, after)) = word_and_rest(rest) {
        if !is_value(word.as_bytes()) {
            return false;
        }
        rest = after;
    }
    is_value(rest.as_bytes())
}

/// These words, each in a place of its own.
fn places_of(alloc: Global, text: &str) -> Result<Vec<Option<Value<'_>>>, AllocError>
    ensures { IfOk result (λ places. places.items ≡ map (λ value. Some value) (words text.now)) }
{
    let mut places = Vec::new(alloc);
    let mut rest = text;
    while let Some((word, after)) = word_and_rest(rest) {
        places.push(Some(Value { text: word }))?;
        rest = after;
    }
    places.push(Some(Value { text: rest }))?;
    Ok(places)
}
