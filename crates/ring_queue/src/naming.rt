//! The names of the next steps of operations under way.
ghost use Rattle.std.specs.Prelude.{◌≡◌, ℕ};
ghost use Rattle.ring_queue.specs.code.Closing.{mark_line};
ghost use Rattle.ring_queue.specs.code.Naming.{IsNextStep, IsStep, hint_at};
ghost use Rattle.ring_queue.specs.code.Putting.{put_line};
ghost use Rattle.ring_queue.specs.code.Taking.{take_line};
ghost use Rattle.ring_queue.specs.code.Walking.{Aim, walk_line};

use crate::code::closing::{Mark, MarkAt};
use crate::code::every::{AnyOp, RingAt};
use crate::code::putting::PutAt;
use crate::code::taking::TakeAt;
use crate::code::walking::WalkAt;
use crate::life::ring::RingQueue;
use step_names::{Location, Named, StepName};

// The next step of a walk from this hint.
fn walk_step<T>(hint: Location, at: &WalkAt) -> StepName
    ensures { (aim : Aim T) → hint ≡ hint_at aim → IsNextStep (walk_line aim at.now) result }
{
    match at {
        WalkAt::LoadHint(_) => StepName::Load(hint),
        WalkAt::LoadSlot(walk) => StepName::Load(Location::Slot(walk.at.index())),
        WalkAt::MoveHint(_) => StepName::Attempt(hint),
    }
}

// The next step of a put.
fn put_name<T>(at: &PutAt<T>) -> StepName
    ensures { IsNextStep (put_line at.now) result }
{
    match at {
        PutAt::FetchTail(_, _) => StepName::Load(Location::Tail),
        PutAt::Walking(_, at) => walk_step::<T>(Location::Tail, at),
        PutAt::Exchange(_, end) => {
            let slot = Location::Slot(end.walk.at.index());
            StepName::CompareAndSwap(slot, slot)
        }
        PutAt::PassTail(_, _) => StepName::Attempt(Location::Tail),
        PutAt::Stow(walk, _) => StepName::Stow(Location::Slot(walk.at.index())),
    }
}

// The next step of a take.
fn take_name<T>(at: &TakeAt<T>) -> StepName
    ensures { (n : ℕ) → IsNextStep (take_line n at.now) result }
{
    match at {
        TakeAt::Walking(at) => walk_step::<T>(Location::Head, at),
        TakeAt::Exchange(end) => {
            let slot = Location::Slot(end.walk.at.index());
            StepName::CompareAndSwap(slot, slot)
        }
        TakeAt::PassHead(_, _) => StepName::Attempt(Location::Head),
        TakeAt::Stow(walk, _) => StepName::Stow(Location::Slot(walk.at.index())),
    }
}

// The next step of a close or a shut.
fn mark_name<T>(at: &MarkAt) -> StepName
    ensures { IsNextStep {T = T} (mark_line at.now) result }
{
    match at {
        MarkAt::Walking(mark, at) => match mark {
            Mark::Closed => walk_step::<T>(Location::Tail, at),
            Mark::Shut => walk_step::<T>(Location::Head, at),
        },
        MarkAt::Setting(_, end) => {
            let slot = Location::Slot(end.walk.at.index());
            StepName::CompareAndSwap(slot, slot)
        }
    }
}

impl<T: Drop + Send> Named<T> for RingQueue<T> {
    ghost is_step = { IsStep };

    fn step_name(op: &AnyOp<T>) -> StepName {
        match &op.at {
            RingAt::Put(at) => put_name::<T>(at),
            RingAt::Take(at) => take_name::<T>(at),
            RingAt::Mark(at) => mark_name::<T>(at),
            RingAt::Look(at) => walk_step::<T>(Location::Head, &at.at),
        }
    }
}
