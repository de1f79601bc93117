//! An atomic step of an operation, as data.
ghost use Rattle.std.specs.Prelude.{◌≡◌, true};
ghost use Rattle.running.specs.Code.{is_single, plain};

use index_list::Front;
use tagged_index::Tagged;

/// What an operation's next atomic step does to the table. It is a step on a word that belongs to
/// no list, or a step on a list, which `index_list` makes.
#[derive(Clone, Copy)]
pub enum Access {
    /// Load this word.
    Load(usize),
    /// Load this word. Slots come with it.
    Fetch(usize),
    /// Load this word. All slots held go home.
    Stow(usize),
    /// Store in this word.
    Store(usize, u64),
    /// Store in this word. If a load finds the value there already, the load is the step, which
    /// costs less.
    Keep(usize, u64),
    /// Compare-and-swap this word from the one seen to a new one. No slot moves.
    Swap(usize, Tagged, Tagged),
    /// Like `Swap`, but slots come if it succeeds.
    Bring(usize, Tagged, Tagged),
    /// Like `Swap`, but all slots held go with the new word if it succeeds.
    Return(usize, Tagged, Tagged),
    /// Load the top of this list.
    LoadTop(usize),
    /// Load the link of an index on this list.
    LoadLink(usize, u32),
    /// Store in the link of a held index.
    StoreLink(usize, u32, u64),
    /// Store in the link of a held index. If a load finds the value there already, the load is the
    /// step.
    KeepLink(usize, u32, u64),
    /// Compare-and-swap the top of this list from the word seen to its second index.
    Take(usize, Tagged, u32),
    /// Like `Take`, on a list without slots.
    TakeBare(usize, Tagged, u32),
    /// Compare-and-swap the top for null. The whole list comes, with its slots from this end on.
    TakeAll(usize, Tagged, Front),
    /// Compare-and-swap the top for a held index. All slots held go with it.
    Give(usize, Tagged, u32),
    /// Like `Give`, on a list without slots.
    GiveBare(usize, Tagged, u32),
    /// Compare-and-swap the top for the first index of the chain held. All slots held go with it.
    GiveChain(usize, Tagged, u32),
    /// Compare-and-swap the top for itself with its mark set.
    Mark(usize, Tagged),
    /// Compare-and-swap the top for itself with its second mark set.
    Shut(usize, Tagged),
}

impl Access {
    /// The same access without a load before a store.
    #[inline(always)]
    pub(crate) fn plain(self) -> Single
        ensures { result.access ≡ plain self }
    {
        let access = match self {
            Access::Keep(place, word) => Access::Store(place, word),
            Access::KeepLink(list, index, next) => Access::StoreLink(list, index, next),
            access => access,
        };
        Single { access }
    }
}

/// One access alone: a load, a store or a compare-and-swap. It is never the pair of a load and a
/// store that `Keep` and `KeepLink` are.
#[derive(Clone, Copy)]
pub(crate) struct Single {
    pub(crate) access: Access,
    pub(crate) ghost alone: { is_single access ≡ true },
}

/// The outcome of an atomic step.
#[derive(Clone, Copy)]
pub struct Outcome {
    /// The word that was loaded or stored. After a compare-and-swap: the word that it expected.
    pub word: u64,
    /// Whether the compare-and-swap succeeded. Loads and stores always succeed.
    pub won: bool,
}
