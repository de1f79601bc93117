//! What a ring is made with: how many slots it has, how often each of them can be filled, and for
//! how many passes it is.
ghost use Rattle.std.specs.Prelude.{◌≡◌, ◌↔◌, ◌+◌, ◌≤◌, IsSome, IfSome};
ghost use Rattle.tagged_index.specs.Limits.{capacity_of, passes_of};
ghost use Rattle.tagged_index.specs.declared.word.TheConstants.{NULL};
ghost use Rattle.bounded_model.specs.declared.container.TheConstants.{MIN_PASSES, MAX_PASSES};
ghost use Rattle.ring_queue.specs.code.Machine.{laps_at};

use bounded_model::{MAX_PASSES, MIN_PASSES};
use tagged_index::{Limits, MAX_TAG, NULL};

/// The least number of laps.
pub const MIN_LAPS: u64 = 1;

/// The greatest number of laps: 2,199,023,255,551. Each lap raises the tag of a slot by two.
pub const MAX_LAPS: u64 = MAX_TAG / 2;

// Clauses have the name. This proves the number.
const _: () = prove!(MAX_LAPS == 2_199_023_255_551);

/// How large a ring is, and how long it lasts:
/// - its capacity, which is the number of its slots,
/// - its laps: how often each slot can be filled,
/// - for how many passes it is. Each pass has a cell of its own.
///
/// The slots and the passes together are at most 1,048,575.
#[derive(Clone, Copy, PartialEq, Eq, Debug)]
pub struct RingLimits {
    pub(crate) limits: Limits,
    pub ghost some_passes: { MIN_PASSES ≤ passes_of limits },
    pub ghost few_passes: { passes_of limits ≤ MAX_PASSES },
    pub ghost small: { capacity_of limits + passes_of limits ≤ NULL },
}

impl RingLimits {
    ghost use Rattle.tagged_index.specs.declared.limit.TheConstants.{MIN_CAPACITY};
    ghost use Rattle.ring_queue.specs.declared.life.limits.TheConstants.{MIN_LAPS, MAX_LAPS};

    /// `None` exactly if the capacity is 0, the capacity and the passes together are above
    /// 1,048,575, the laps are not 1 to `MAX_LAPS`, or the passes are not 2 to 65,535.
    pub fn of(capacity: u32, laps: u64, passes: u32) -> Option<RingLimits>
        ensures in_range { IsSome result
            ↔ ((MIN_CAPACITY ≤ capacity) × (capacity + passes ≤ NULL)
            × (MIN_LAPS ≤ laps) × (laps ≤ MAX_LAPS)
            × (MIN_PASSES ≤ passes) × (passes ≤ MAX_PASSES)) }
        ensures values { IfSome result (λ l. (capacity_of l.limits ≡ capacity)
            × (laps_at l.limits ≡ laps) × (passes_of l.limits ≡ passes)) }
    {
        if laps < MIN_LAPS || laps > MAX_LAPS {
            return None;
        }
        if passes < MIN_PASSES || passes > MAX_PASSES || capacity > NULL - passes {
            return None;
        }
        let limits = Limits::of(capacity, 2 * laps)?;
        Some(RingLimits {
            limits: limits.for_passes(passes),
        })
    }

    /// How many values the ring holds at most.
    pub fn capacity(self) -> u32
        ensures { result ≡ capacity_of self.limits }
    {
        self.limits.capacity()
    }

    /// How often each slot can be filled.
    pub fn laps(self) -> u64
        ensures { result ≡ laps_at self.limits }
    {
        self.limits.tag_limit() / 2
    }

    /// How many passes may be out at one time.
    pub fn passes(self) -> u32
        ensures { result ≡ passes_of self.limits }
    {
        self.limits.passes()
    }
}
