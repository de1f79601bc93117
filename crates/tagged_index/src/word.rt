//! A tagged word: from the lowest bit up an index, two marks and a tag, in one `u64`.
ghost use Rattle.std.specs.Prelude.{◌≡◌, ◌<◌, ◌≤◌, ◌↔◌, ℕ, IsSome, IfSome, IfNone};
ghost use Rattle.tagged_index.specs.Fields.{fields_of, index_of, mark_of, second_of, tag_of, number, kept, raised, marked, with_second};

use std::marker::Model;

/// The width of the index in bits. The index is the lowest field.
pub const INDEX_BITS: u32 = 20;

/// The width of the tag in bits. The tag is the highest field.
pub const TAG_BITS: u32 = 42;

/// The place of the mark, right above the index.
pub const MARK_SHIFT: u32 = INDEX_BITS;

/// The place of the second mark.
pub const SECOND_SHIFT: u32 = MARK_SHIFT + 1;

/// The place of the tag's lowest bit.
pub const TAG_SHIFT: u32 = SECOND_SHIFT + 1;

/// What the mark adds to a word: 1,048,576.
pub const MARK_UNIT: u64 = 1 << MARK_SHIFT;

/// What the second mark adds to a word: 2,097,152.
pub const SECOND_UNIT: u64 = 1 << SECOND_SHIFT;

/// What each unit of the tag adds to a word: 4,194,304.
pub const TAG_UNIT: u64 = 1 << TAG_SHIFT;

/// The greatest index, which names nothing: 1,048,575.
pub const NULL: u32 = (1 << INDEX_BITS) - 1;

/// The greatest tag: 4,398,046,511,103.
pub const MAX_TAG: u64 = (1 << TAG_BITS) - 1;

// The fields fill a word, and their widths are fixed.
const _: () = prove!(TAG_SHIFT + TAG_BITS == 64);

const _: () = prove!(NULL == 1_048_575 && MAX_TAG == 4_398_046_511_103);

/// A tagged word taken apart. Definitions and proofs speak of words by their fields.
#[derive(Clone, Copy, PartialEq, Eq, Debug)]
pub struct Fields {
    pub index: u32,
    pub mark: bool,
    pub second: bool,
    pub tag: u64,
}

/// An index from 0 to `NULL`, a mark, a second mark and a tag from 0 to `MAX_TAG`.
///
/// The user decides what the marks mean. The tag counts the changes of the atomic word that holds
/// it.
#[derive(Clone, Copy, PartialEq, Eq, Debug)]
pub struct Tagged {
    word: u64,
}

/// Contracts see a tagged word as its number.
impl Model for Tagged {
    ghost Value = { ℕ };

    ghost view = { λ t. t.word };

    ghost inverse = { λ w. record { word = w } };
}

impl Tagged {
    /// The word with these four fields. `None` exactly if `index` is above `NULL` or `tag` is above
    /// `MAX_TAG`.
    #[inline]
    pub fn of(index: u32, mark: bool, second: bool, tag: u64) -> Option<Tagged>
        ensures in_range { IsSome result ↔ ((index ≤ NULL) × (tag ≤ MAX_TAG)) }
        ensures fields { IfSome result (λ t.
            fields_of t ≡ record { index = index; mark = mark; second = second; tag = tag }) }
        ensures sum { IfSome result (λ t.
            t ≡ number (record { index = index; mark = mark; second = second; tag = tag })) }
    {
        if index > NULL || tag > MAX_TAG {
            return None;
        }
        // The fields' bits are apart, so a sum is their union.
        let marks = mark as u64 * MARK_UNIT + second as u64 * SECOND_UNIT;
        Some(Tagged {
            word: (tag << TAG_SHIFT) + marks + index as u64,
        })
    }

    /// Every `u64` is a tagged word.
    #[inline]
    pub fn from_word(word: u64) -> Tagged
        ensures { result ≡ word }
    {
        Tagged { word }
    }

    /// The `u64` that an atomic word holds.
    #[inline]
    pub fn word(self) -> u64
        ensures same { result ≡ self }
        ensures sum { result ≡ number (fields_of self) }
    {
        self.word
    }

    /// The index, from 0 to `NULL`.
    #[inline]
    pub fn index(self) -> u32
        ensures field { result ≡ index_of self }
        ensures in_range { result ≤ NULL }
    {
        (self.word & NULL as u64) as u32
    }

    /// Whether the mark is set.
    #[inline]
    pub fn is_marked(self) -> bool
        ensures { result ≡ mark_of self }
    {
        (self.word >> MARK_SHIFT) & 1 == 1
    }

    /// Whether the second mark is set.
    #[inline]
    pub fn has_second(self) -> bool
        ensures { result ≡ second_of self }
    {
        (self.word >> SECOND_SHIFT) & 1 == 1
    }

    /// The tag, from 0 to `MAX_TAG`.
    #[inline]
    pub fn tag(self) -> u64
        ensures field { result ≡ tag_of self }
        ensures in_range { result ≤ MAX_TAG }
    {
        self.word >> TAG_SHIFT
    }

    /// The word with the new index. The tag and both marks stay.
    #[inline]
    pub fn kept(self, index: u32) -> Tagged
        requires { index ≤ NULL }
        ensures { fields_of result ≡ kept (fields_of self) index }
    {
        Tagged {
            // Shifting down and up again clears the old index.
            word: (self.word >> INDEX_BITS << INDEX_BITS) + index as u64,
        }
    }

    /// The word with the new index and the next tag. Both marks stay. `None` exactly if the tag has
    /// reached `limit`, so that no tag ever wraps.
    #[inline]
    pub fn raised(self, limit: u64, index: u32) -> Option<Tagged>
        requires index_in_range { index ≤ NULL }
        requires limit_in_range { limit ≤ MAX_TAG }
        ensures below_limit { IsSome result ↔ (tag_of self < limit) }
        ensures fields { IfSome result (λ t. fields_of t ≡ raised (fields_of self) index) }
    {
        if self.tag() >= limit {
            return None;
        }
        Some(Tagged {
            word: (self.word >> INDEX_BITS << INDEX_BITS) + TAG_UNIT + index as u64,
        })
    }

    /// The word with the mark set. Its other fields stay.
    #[inline]
    #[tactic(auto, using(crate::proofs::Words::fields_of_or_mark))]
    pub fn marked(self) -> Tagged
        ensures { fields_of result ≡ marked (fields_of self) }
    {
        Tagged {
            word: self.word | MARK_UNIT,
        }
    }

    /// The word with the second mark set. Its other fields stay.
    #[inline]
    #[tactic(auto, using(crate::proofs::Words::fields_of_or_second))]
    pub fn with_second(self) -> Tagged
        ensures { fields_of result ≡ with_second (fields_of self) }
    {
        Tagged {
            word: self.word | SECOND_UNIT,
        }
    }
}
