//! Where the words of a ring lie. The first 16 words never change, so that notes and meetings,
//! which load word 0, load none that calls change. The head and the tail follow, each on cache
//! lines of its own, and then the words of the slots. In a small ring these are 8 words apart.
ghost use Rattle.std.specs.Prelude.{◌≡◌, ◌<◌, ◌≤◌};
ghost use Rattle.tagged_index.specs.declared.word.TheConstants.{NULL};
ghost use Rattle.ring_table.specs.Layout.{spread, slot_at, words_for, start_at};

/// A position near the front.
pub const HEAD: usize = 16;

/// A position near the back.
pub const TAIL: usize = 32;

/// The word of the first slot.
pub const FIRST_SLOT: usize = 48;

/// How far apart the words of two slots are.
#[inline(always)]
pub fn spread(capacity: u32) -> usize
    ensures { result ≡ spread capacity }
{
    if capacity < 64 { 8 } else { 1 }
}

/// The word of a slot.
#[inline(always)]
pub fn slot(capacity: u32, index: u32) -> usize
    requires { index ≤ NULL }
    ensures { result ≡ slot_at capacity index }
{
    FIRST_SLOT + spread(capacity) * index as usize
}

/// How many words a ring of this capacity has.
#[inline]
pub fn words(capacity: u32) -> usize
    requires { capacity ≤ NULL }
    ensures { result ≡ words_for capacity }
{
    FIRST_SLOT + spread(capacity) * capacity as usize
}

/// A word of a new ring. All slots are empty, and slot i has cell i.
pub fn start(capacity: u32, at: usize) -> u64
    requires { (capacity ≤ NULL) × (at < words_for capacity) }
    ensures { result ≡ start_at capacity at }
{
    if at < FIRST_SLOT {
        return 0;
    }
    let apart = spread(capacity);
    let past = at - FIRST_SLOT;
    if past % apart == 0 {
        (past / apart) as u64
    } else {
        0
    }
}
