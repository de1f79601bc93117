//! Tagged words: an index, two marks and a tag packed into one `u64`. One compare-and-swap changes
//! them together, and the tag tells a stale word from a fresh one. This is the cure for ABA of IBM
//! System/370's Principles of Operation. Treiber 1986, Michael and Scott 1996 and Boost.Lockfree
//! use it.
//!
//! The contracts promise:
//!
//! - Every `u64` is a tagged word, and its fields read back as they were put in.
//! - Each change alters the fields that it names and keeps the other fields.
//! - A tag never wraps: `raised` gives `None` instead of a rise past the limit.
//!
//! `Limits` holds what a container is made with. Its capacity and its tag limit are in range.
#![tactic(auto)]

mod limit;
mod word;

pub use limit::{Limits, MAX_CAPACITY, MIN_CAPACITY, MIN_TAG_LIMIT, USUAL_PASSES};
pub use word::{
    Fields, INDEX_BITS, MARK_SHIFT, MARK_UNIT, MAX_TAG, NULL, SECOND_SHIFT, SECOND_UNIT, TAG_BITS,
    TAG_SHIFT, TAG_UNIT, Tagged,
};
