//! Going to the back or to the front, along the positions, from one that a hint names. The steps
//! are the same for all operations.
ghost use Rattle.std.specs.Prelude.{◌≡◌, ℕ, ◌<◌, ◌≤◌, List, Option as Slot};
ghost use Rattle.tagged_index.specs.Fields.{fields_of, index_of, tag_of};
ghost use Rattle.tagged_index.specs.declared.word.TheConstants.{MAX_TAG};
ghost use Rattle.ring_machine.specs.Machine.{behind, place};
ghost use Rattle.ring_table.specs.Layout.{slot_at};
ghost use Rattle.ring_table.specs.Lists.{lists};
ghost use Rattle.ring_table.specs.declared.line.SeatLine.TheVariants.{At};
ghost use Rattle.running.specs.Code.{IsAccess};
ghost use Rattle.ring_queue.specs.Calls.{room_of, machine_of};
ghost use Rattle.ring_queue.specs.code.Walking.{Aim, hint_of, full_of, walk_line, IsRead};
ghost use Rattle.ring_queue.specs.code.Steps.{WalkedTo};

use crate::code::walk::Walk;
use crate::life::ring::RingQueue;
use crate::life::spare::Spare;
use ring_table::layout;
use running::{Access, Next, Outcome, Tie, raised};
use tagged_index::Tagged;

/// A walk passes fewer positions than this, and then moves the hint.
pub(crate) const STRIDE: u32 = 4;

/// The rounds of a walk's loop on a fast path. A walk ends before this, but a loop of no more rounds
/// than STRIDE is unrolled before the compiler decides what to inline, and is too large for that
/// then.
pub(crate) const FAST_ROUNDS: u32 = 8;

/// The next step of a walk.
#[derive(Clone, Copy)]
pub enum WalkAt {
    /// Load the hint.
    LoadHint(Spare),
    /// Load the slot that the walk has come to.
    LoadSlot(Walk),
    /// The walk has gone far: compare-and-swap the hint for the position that it has come to.
    MoveHint(Walk),
}

/// The end of a walk, and the word of the slot there.
#[derive(Clone, Copy)]
pub struct Found {
    pub(crate) walk: Walk,
    pub(crate) slot: Tagged,
}

/// The word of the slot at a position.
#[inline(always)]
pub(crate) fn slot_of<T, D: Tie<T>>(on: &RingQueue<T, D>, at: Tagged) -> usize
    ensures { result ≡ slot_at (room_of on.now) (index_of at) }
{
    layout::slot(on.limits.capacity(), at.index())
}

/// The number of a position.
#[inline(always)]
pub(crate) fn place_of<T, D: Tie<T>>(on: &RingQueue<T, D>, at: Tagged) -> u64
    ensures { result ≡ place (room_of on.now) (fields_of at) }
{
    at.tag() * on.limits.capacity() as u64 + at.index() as u64
}

/// The next position.
#[inline(always)]
pub(crate) fn behind<T, D: Tie<T>>(on: &RingQueue<T, D>, at: Tagged) -> Tagged
    requires { (index_of at < room_of on.now) × (tag_of at < MAX_TAG) }
    ensures { fields_of result ≡ behind (room_of on.now) (fields_of at) }
{
    if at.index() + 1 == on.limits.capacity() {
        raised(at, 0)
    } else {
        at.kept(at.index() + 1)
    }
}

/// What the next step of a walk does.
#[inline(always)]
pub(crate) fn walk_access<T, D: Tie<T>>(on: &RingQueue<T, D>, hint: usize, at: &WalkAt) -> Access
    requires { IsRead (room_of on.now) at.now }
    ensures { (aim : Aim T) (slots : List (ℕ × Slot T)) → hint ≡ hint_of aim
        → IsAccess (machine_of on.now).core lists 0 on.now.table.shared.table_id.words
        (At (walk_line aim at.now)) slots result }
{
    match at {
        WalkAt::LoadHint(_) => Access::Load(hint),
        WalkAt::LoadSlot(walk) => Access::Load(walk.place),
        WalkAt::MoveHint(walk) => Access::Swap(hint, walk.from, walk.at),
    }
}

/// The walk after a step with this outcome. It passes a slot whose tag is above that of the
/// empty slot at this lap plus `full`.
#[inline(always)]
pub(crate) fn walk_on<T, D: Tie<T>>(
    on: &RingQueue<T, D>,
    full: u64,
    at: WalkAt,
    outcome: Outcome,
) -> Next<WalkAt, Found>
    requires full { full ≤ 1 }
    requires read { IsRead (room_of on.now) at }
    ensures { (aim : Aim T) (had has : List (ℕ × Slot T)) → full ≡ full_of aim
        → WalkedTo on.now aim at outcome had has result }
{
    match at {
        WalkAt::LoadHint(spare) => {
            let hint = Tagged::from_word(outcome.word);
            let walk = Walk::from(on, spare, hint);
            Next::On(WalkAt::LoadSlot(walk))
        }
        WalkAt::LoadSlot(walk) => {
            let slot = Tagged::from_word(outcome.word);
            if slot.tag() <= walk.empty + full {
                return Next::Done(Found { walk, slot });
            }
            let further = walk.further(on);
            if further.gone == STRIDE {
                return Next::On(WalkAt::MoveHint(further));
            }
            Next::On(WalkAt::LoadSlot(further))
        }
        // Whichever pass succeeds, the hint has moved: there is nothing to wait for.
        WalkAt::MoveHint(walk) => Next::On(WalkAt::LoadHint(walk.spare)),
    }
}
