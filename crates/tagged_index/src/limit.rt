//! What a container is made with: its capacity, the limit of its tags, and how many passes it has.
ghost use Rattle.std.specs.Prelude.{◌≡◌, ◌≤◌, ◌↔◌, IsSome, IfSome};
ghost use Rattle.tagged_index.specs.declared.limit.TheConstants.{MAX_CAPACITY, MIN_CAPACITY, MIN_TAG_LIMIT};
ghost use Rattle.tagged_index.specs.declared.word.TheConstants.{MAX_TAG};

use crate::word::{MAX_TAG, NULL};

/// The least capacity of a container.
pub const MIN_CAPACITY: u32 = 1;

/// The greatest capacity of a container: 1,048,573. A queue has one node more than its capacity,
/// and no node's index is `NULL`.
pub const MAX_CAPACITY: u32 = NULL - 2;

/// The least tag limit. The greatest is `MAX_TAG`.
pub const MIN_TAG_LIMIT: u64 = 2;

/// How many passes may be out at one time, unless `for_passes` sets another number.
pub const USUAL_PASSES: u32 = 65_535;

// Clauses say the names; this says the numbers.
const _: () = prove!(MIN_CAPACITY == 1 && MAX_CAPACITY == 1_048_573 && MIN_TAG_LIMIT == 2);

const _: () = prove!(USUAL_PASSES == 65_535);

/// What a container is made with:
///
/// - a capacity from `MIN_CAPACITY` to `MAX_CAPACITY`
/// - a tag limit from `MIN_TAG_LIMIT` to `MAX_TAG`, to which its tags may rise
/// - a number of passes. A ring has a cell for each. A queue and a stack are always made for
///   `USUAL_PASSES`.
#[derive(Clone, Copy, PartialEq, Eq, Debug)]
pub struct Limits {
    capacity: u32,
    tag_limit: u64,
    passes: u32,
    pub ghost some_capacity: { MIN_CAPACITY ≤ capacity },
    pub ghost capacity_in_range: { capacity ≤ MAX_CAPACITY },
    pub ghost some_tag_limit: { MIN_TAG_LIMIT ≤ tag_limit },
    pub ghost tag_limit_in_range: { tag_limit ≤ MAX_TAG },
}

impl Limits {
    ghost use Rattle.tagged_index.specs.Limits.{capacity_of, tag_limit_of, passes_of};

    /// Limits for `USUAL_PASSES` passes. `None` exactly if the capacity or the tag limit is out of
    /// range.
    #[inline]
    pub fn of(capacity: u32, tag_limit: u64) -> Option<Limits>
        ensures in_range { IsSome result
            ↔ ((MIN_CAPACITY ≤ capacity) × (capacity ≤ MAX_CAPACITY)
            × (MIN_TAG_LIMIT ≤ tag_limit) × (tag_limit ≤ MAX_TAG)) }
        ensures values { IfSome result (λ l.
            (capacity_of l ≡ capacity) × (tag_limit_of l ≡ tag_limit)) }
        ensures passes { IfSome result (λ l. passes_of l ≡ USUAL_PASSES) }
    {
        if capacity < MIN_CAPACITY || capacity > MAX_CAPACITY {
            return None;
        }
        if tag_limit < MIN_TAG_LIMIT || tag_limit > MAX_TAG {
            return None;
        }
        Some(Limits {
            capacity,
            tag_limit,
            passes: USUAL_PASSES,
        })
    }

    /// The same capacity and tag limit, for this number of passes.
    #[inline]
    pub fn for_passes(self, passes: u32) -> Limits
        ensures kept { (capacity_of result ≡ capacity_of self)
            × (tag_limit_of result ≡ tag_limit_of self) }
        ensures passes { passes_of result ≡ passes }
    {
        let Limits {
            capacity,
            tag_limit,
            ..
        } = self;
        Limits {
            capacity,
            tag_limit,
            passes,
        }
    }

    /// The greatest number of values that the container holds.
    #[inline]
    pub fn capacity(self) -> u32
        ensures { result ≡ capacity_of self }
    {
        self.capacity
    }

    /// The tag limit: a tag that has reached it cannot rise.
    #[inline]
    pub fn tag_limit(self) -> u64
        ensures { result ≡ tag_limit_of self }
    {
        self.tag_limit
    }

    /// How many passes may be out at one time.
    #[inline]
    pub fn passes(self) -> u32
        ensures { result ≡ passes_of self }
    {
        self.passes
    }
}
