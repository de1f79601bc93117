//! The first line of a script.

ghost use Rattle.std.specs.Prelude.{◌≡◌, option_map};
ghost use Rattle.script.specs.Reading.{head_of, limits_in, limits_of, order_of};
ghost use Rattle.script.specs.View.{head_view, limits_view};

use crate::grammar::word_and_rest;
use crate::number::number_of;
use bounded_model::Order;
use tagged_index::Limits;

/// What the first line of a script says.
#[derive(Clone, Copy)]
pub struct Header {
    pub order: Order,
    pub limits: Limits,
}

/// The order of the container that this word names.
fn order_of(word: &str) -> Option<Order>
    ensures { result ≡ order_of word.now }
{
    match word {
        "queue" => Some(Order::Fifo),
        "stack" => Some(Order::Lifo),
        _ => None,
    }
}

/// These limits, in range.
fn limits_of(capacity: u64, tag_limit: u64) -> Option<Limits>
    ensures { option_map limits_view result ≡ limits_of capacity tag_limit }
{
    Limits::of(u32::try_from(capacity).ok()?, tag_limit)
}

/// The limits that these two words spell.
#[tactic(auto, unfolding(crate::specs::Reading::limits_in))]
fn limits_in(words: &str) -> Option<Limits>
    ensures { option_map limits_view result ≡ limits_in words.now }
{
    let (capacity, tag_limit) = word_and_rest(words)?;
    limits_of(number_of(capacity)?, number_of(tag_limit)?)
}

/// What a first line with this text says.
#[tactic(auto, unfolding(crate::specs::Reading::head_of))]
pub fn header_of(text: &str) -> Option<Header>
    ensures { option_map head_view result ≡ head_of text.now }
{
    let (kind, limits) = word_and_rest(text)?;
    let order = order_of(kind)?;
    let limits = limits_in(limits)?;
    Some(Header { order, limits })
}
