//! The names of the next steps of operations under way.
ghost use Rattle.std.specs.Prelude.{◌≡◌};
ghost use Rattle.machine.specs.Chains.{last as last_of};
ghost use Rattle.stack_machine.specs.declared.lines.Giving.{Giving};
ghost use Rattle.treiber_stack.specs.code.Closing.{mark_line};
ghost use Rattle.treiber_stack.specs.code.Giving.{give_line};
ghost use Rattle.treiber_stack.specs.code.Looking.{look_line};
ghost use Rattle.treiber_stack.specs.code.Naming.{IsNextStep};
ghost use Rattle.treiber_stack.specs.code.Putting.{put_line};
ghost use Rattle.treiber_stack.specs.code.Taking.{take_line};

use crate::code::closing::MarkAt;
use crate::code::every::{AnyOp, StackAt};
use crate::code::giving::Give;
use crate::code::looking::LookAt;
use crate::code::putting::PutAt;
use crate::code::taking::TakeAt;
use crate::life::stack::Stack;
use step_names::{Location, Named, StepName};

// The next step of giving back a chain that ends with this node.
fn give_step<T>(last: u32, at: &Give) -> StepName
    ensures { (giving : Giving T) → last_of giving.chain ≡ last
        → IsNextStep (give_line giving at.now) result }
{
    match at {
        Give::Load => StepName::Load(Location::Free),
        Give::Link(_) => StepName::Store(Location::Link(last)),
        Give::Exchange(_) => StepName::CompareAndSwap(Location::Free, Location::Free),
    }
}

// The next step of a put.
fn put_name<T>(at: &PutAt<T>) -> StepName
    ensures { IsNextStep (put_line at.now) result }
{
    match at {
        PutAt::LoadFree(_) => StepName::Load(Location::Free),
        PutAt::Link(_, free) => StepName::Load(Location::Link(free.index())),
        PutAt::Hold(_, _, _) => StepName::CompareAndSwap(Location::Free, Location::Free),
        PutAt::Load(_, _) => StepName::Load(Location::Top),
        PutAt::LinkTo(_, index, _) => StepName::Store(Location::Link(*index)),
        PutAt::Exchange(_, _, _) => StepName::CompareAndSwap(Location::Top, Location::Top),
        PutAt::Refuse(_) => StepName::Load(Location::Top),
        PutAt::GiveBack(_, index, at) => give_step::<T>(*index, at),
    }
}

// The next step of a take.
fn take_name<T>(at: &TakeAt<T>) -> StepName
    ensures { IsNextStep (take_line at.now) result }
{
    match at {
        TakeAt::Load => StepName::Load(Location::Top),
        TakeAt::Link(top) => StepName::Load(Location::Link(top.index())),
        TakeAt::Exchange(_, _) => StepName::CompareAndSwap(Location::Top, Location::Top),
        TakeAt::GiveBack(taken, at) => give_step::<T>(taken.index, at),
    }
}

// The next step of a close or a shut.
fn mark_name<T>(at: &MarkAt) -> StepName
    ensures { IsNextStep {T = T} (mark_line at.now) result }
{
    match at {
        MarkAt::Load(_) => StepName::Load(Location::Top),
        MarkAt::Set(_, _) => StepName::CompareAndSwap(Location::Top, Location::Top),
    }
}

// The next step of a look.
fn look_name<T>(at: &LookAt) -> StepName
    ensures { IsNextStep {T = T} (look_line at.now) result }
{
    match at {
        LookAt::Load => StepName::Load(Location::Top),
    }
}

impl<T: Drop + Send> Named<T> for Stack<T> {
    ghost use Rattle.treiber_stack.specs.code.Naming.{IsStep};

    ghost is_step = { IsStep };

    fn step_name(op: &AnyOp<T>) -> StepName {
        match &op.at {
            StackAt::Put(at) => put_name::<T>(at),
            StackAt::Take(at) => take_name::<T>(at),
            StackAt::Mark(at) => mark_name::<T>(at),
            StackAt::Look(at) => look_name::<T>(at),
        }
    }
}
