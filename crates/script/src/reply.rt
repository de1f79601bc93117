//! The text of a call's reply.

ghost use Rattle.std.specs.Prelude.{◌≡◌, ◌++◌, OnOk, IfOk, Some};
ghost use Rattle.script.specs.ReplyTexts.{bool_text, look_text, put_text, refused_text, take_text, reply_text, word_text};

use crate::value::Value;
use bounded_model::{PutRefused, Reply, TakeRefused, Word};
use std::fmt;

/// A word as replies name it.
#[derive(Clone, Copy)]
pub struct WordName(pub Word);

impl fmt::Display for WordName {
    ghost output = { λ word. Some (word_text word.0) };

    fn fmt<W: fmt::Write>(&self, f: &mut fmt::Formatter<W>) -> fmt::Result {
        match self.0 {
            Word::Cells => write!(f, "cells"),
            Word::Nodes => write!(f, "nodes"),
            Word::Next(node) => write!(f, "next {node}"),
            Word::Free => write!(f, "free"),
            Word::Top => write!(f, "top"),
            Word::Count => write!(f, "count"),
        }
    }
}

impl<'a> fmt::Display for Value<'a> {
    ghost output = { λ value. Some value };

    fn fmt<W: fmt::Write>(&self, f: &mut fmt::Formatter<W>) -> fmt::Result {
        f.write_str(self.as_str())
    }
}

/// Why nothing was taken, as a reply says it.
#[derive(Drop)]
pub struct TakeRefusedText<'r>(pub &'r TakeRefused);

impl<'r> fmt::Display for TakeRefusedText<'r> {
    ghost output = { λ text. Some (refused_text text.0.now) };

    fn fmt<W: fmt::Write>(&self, f: &mut fmt::Formatter<W>) -> fmt::Result {
        match self.0 {
            TakeRefused::Empty => write!(f, "empty"),
            TakeRefused::Closed => write!(f, "closed"),
            TakeRefused::Spent(word, tag) => {
                let word = WordName(*word);
                write!(f, "spent {word} {tag}")
            }
            TakeRefused::Shut => write!(f, "shut"),
        }
    }
}

/// A reply as its line says it.
#[derive(Drop)]
pub struct ReplyText<'r, 'a>(pub &'r Reply<Value<'a>>);

impl<'r, 'a> fmt::Display for ReplyText<'r, 'a> {
    ghost output = { λ text. Some (reply_text text.0.now) };

    fn fmt<W: fmt::Write>(&self, f: &mut fmt::Formatter<W>) -> fmt::Result {
        match self.0 {
            Reply::Put(Ok(number)) => write!(f, "put {number}"),
            Reply::Put(Err(PutRefused::Full(value))) => write!(f, "full {value}"),
            Reply::Put(Err(PutRefused::Closed(value))) => write!(f, "closed {value}"),
            Reply::Put(Err(PutRefused::Spent(value, word, tag))) => {
                let word = WordName(*word);
                write!(f, "spent {word} {tag} {value}")
            }
            Reply::Take(Ok((value, number))) => write!(f, "take {number} {value}"),
            Reply::Take(Err(refused)) => {
                let refused = TakeRefusedText(refused);
                write!(f, "{refused}")
            }
            Reply::Close(closed) => write!(f, "close {closed}"),
            Reply::Shut(shut) => write!(f, "shut {shut}"),
            Reply::Look(true) => write!(f, "look empty"),
            Reply::Look(false) => write!(f, "look some"),
        }
    }
}
