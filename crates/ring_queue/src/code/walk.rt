//! A walk along the positions.
ghost use Rattle.std.specs.Prelude.{◌≡◌, ◌+◌, ◌*◌, ◌<◌, ◌==◌};
ghost use Rattle.tagged_index.specs.Fields.{fields_of, index_of, kept, raised as raised_by, tag_of};
ghost use Rattle.tagged_index.specs.declared.word.TheConstants.{MAX_TAG, NULL};
ghost use Rattle.ring_machine.specs.Machine.{behind, stride};
ghost use Rattle.ring_table.specs.Layout.{slot_at};

use crate::life::ring::RingQueue;
use crate::life::spare::Spare;
use ring_table::layout;
use running::{Tie, raised};
use tagged_index::Tagged;

/// A walk along the positions: a position's index says which slot, and its tag in which lap.
#[derive(Clone, Copy)]
pub struct Walk {
    /// The spare cell of the pass.
    pub(crate) spare: Spare,
    /// The hint that was read.
    pub(crate) from: Tagged,
    /// The position that the walk has come to.
    pub(crate) at: Tagged,
    /// How many positions it has passed.
    pub(crate) gone: u32,
    /// The word of the slot at that position. The next one is found from it, with the ring's `apart`
    /// and `end`: these stay in the ring, since a register for each would cost a store at each call.
    pub(crate) place: usize,
    /// The tag of that slot if it is empty at the position's lap.
    pub(crate) empty: u64,
    pub ghost lapped: { empty ≡ 2 * tag_of at },
}

impl Walk {
    ghost use Rattle.ring_queue.specs.Calls.{room_of};

    /// A walk from this hint.
    #[inline(always)]
    pub(crate) fn from<T, D: Tie<T>>(on: &RingQueue<T, D>, spare: Spare, hint: Tagged) -> Walk
        ensures start { (result.spare ≡ spare) × (result.from ≡ hint) × (result.at ≡ hint)
            × (result.gone ≡ 0) }
        ensures place { result.place ≡ slot_at (room_of on.now) (index_of hint) }
    {
        Walk {
            spare,
            from: hint,
            at: hint,
            gone: 0,
            place: layout::FIRST_SLOT + on.apart * hint.index() as usize,
            empty: 2 * hint.tag(),
        }
    }

    /// The same walk, with this spare cell.
    #[inline(always)]
    pub(crate) fn with(self, spare: Spare) -> Walk
        ensures { (result.spare ≡ spare) × (result.from ≡ self.from) × (result.at ≡ self.at)
            × (result.gone ≡ self.gone) × (result.place ≡ self.place) }
    {
        Walk {
            spare,
            from: self.from,
            at: self.at,
            gone: self.gone,
            place: self.place,
            empty: self.empty,
        }
    }

    // Whether its slot is the last.
    #[inline(always)]
    fn is_last<T, D: Tie<T>>(&self, on: &RingQueue<T, D>) -> bool
        requires at { index_of self.now.at < room_of on.now }
        requires place { self.now.place ≡ slot_at (room_of on.now) (index_of self.now.at) }
        ensures { result ≡ (index_of self.now.at + 1 == room_of on.now) }
    {
        self.place + on.apart == on.end
    }

    /// The walk at the next position.
    #[inline(always)]
    pub(crate) fn further<T, D: Tie<T>>(self, on: &RingQueue<T, D>) -> Walk
        requires at { (index_of self.at < room_of on.now) × (tag_of self.at < MAX_TAG) }
        requires place { self.place ≡ slot_at (room_of on.now) (index_of self.at) }
        requires gone { self.gone < stride }
        ensures at { fields_of result.at ≡ behind (room_of on.now) (fields_of self.at) }
        ensures place { result.place ≡ slot_at (room_of on.now) (index_of result.at) }
        ensures same { (result.spare ≡ self.spare) × (result.from ≡ self.from)
            × (result.gone ≡ self.gone + 1) }
    {
        let last = self.is_last(on);
        let Walk {
            spare,
            from,
            at,
            gone,
            place,
            empty,
        } = self;
        if last {
            Walk {
                spare,
                from,
                at: around(at),
                gone: gone + 1,
                place: layout::FIRST_SLOT,
                empty: empty + 2,
            }
        } else {
            Walk {
                spare,
                from,
                at: following(at),
                gone: gone + 1,
                place: place + on.apart,
                empty,
            }
        }
    }
}

// The next position, at a slot that is not the last.
#[inline(always)]
fn following(at: Tagged) -> Tagged
    requires { index_of at < NULL }
    ensures { fields_of result ≡ kept (fields_of at) (index_of at + 1) }
{
    Tagged::from_word(at.word() + 1)
}

// The first position of the next lap. Cold, so that a walk does not compute it at each position.
#[cold]
#[inline(never)]
fn around(at: Tagged) -> Tagged
    requires { tag_of at < MAX_TAG }
    ensures { fields_of result ≡ raised_by (fields_of at) 0 }
{
    raised(at, 0)
}
