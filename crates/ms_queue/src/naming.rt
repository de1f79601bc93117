//! The names of the next steps of operations under way.
ghost use Rattle.queue_machine.specs.declared.lines.Answer.{Answer};
ghost use Rattle.queue_machine.specs.declared.lines.Seeking.{Seeking};
ghost use Rattle.ms_queue.specs.code.Closing.{close_line};
ghost use Rattle.ms_queue.specs.code.Giving.{give_line};
ghost use Rattle.ms_queue.specs.code.Looking.{look_line};
ghost use Rattle.ms_queue.specs.code.Naming.{IsNextStep};
ghost use Rattle.ms_queue.specs.code.Putting.{put_line};
ghost use Rattle.ms_queue.specs.code.Seeking.{seek_line};
ghost use Rattle.ms_queue.specs.code.Shutting.{shut_line};
ghost use Rattle.ms_queue.specs.code.Taking.{take_line};

use crate::code::closing::CloseAt;
use crate::code::every::{AnyOp, QueueAt};
use crate::code::giving::{Give, Held};
use crate::code::looking::LookAt;
use crate::code::putting::PutAt;
use crate::code::seeking::Seek;
use crate::code::shutting::ShutAt;
use crate::code::taking::TakeAt;
use crate::life::queue::Queue;
use step_names::{Location, Named, StepName};

// The next step of the way to the end of the chain.
fn seek_step<T>(at: &Seek) -> StepName
    ensures { (aim : Seeking T) → IsNextStep (seek_line aim at.now) result }
{
    match at {
        Seek::LoadTail => StepName::Load(Location::Tail),
        Seek::LoadNext(tail) => StepName::Load(Location::Next(tail.index())),
        Seek::CheckTail(_, _) => StepName::Load(Location::Tail),
        Seek::SwingTail(_, _) => StepName::Attempt(Location::Tail),
    }
}

// The next step of giving a node and a cell back.
fn give_step<T>(held: &Held, at: &Give) -> StepName
    ensures { (answer : Answer T) → IsNextStep (give_line answer held.now at.now) result }
{
    match at {
        Give::LoadNodes => StepName::Load(Location::Nodes),
        Give::LinkNode(_) => StepName::Store(Location::NodeLink(held.node)),
        Give::GiveNode(_) => StepName::CompareAndSwap(Location::Nodes, Location::Nodes),
        Give::LoadCells => StepName::Load(Location::Cells),
        Give::LinkCell(_) => StepName::Store(Location::CellLink(held.cell)),
        Give::GiveCell(_) => StepName::CompareAndSwap(Location::Cells, Location::Cells),
    }
}

// The next step of a put.
fn put_name<T>(at: &PutAt<T>) -> StepName
    ensures { IsNextStep (put_line at.now) result }
{
    match at {
        PutAt::LoadCells(_) => StepName::Load(Location::Cells),
        PutAt::LoadCellLink(_, cells) => StepName::Load(Location::CellLink(cells.index())),
        PutAt::TakeCell(_, _, _) => StepName::CompareAndSwap(Location::Cells, Location::Cells),
        PutAt::Refusing(_, at) => seek_step::<T>(at),
        PutAt::LoadNodes(_, _) => StepName::Load(Location::Nodes),
        PutAt::LoadNodeLink(_, _, nodes) => StepName::Load(Location::NodeLink(nodes.index())),
        PutAt::TakeNode(_, _, _, _) => StepName::CompareAndSwap(Location::Nodes, Location::Nodes),
        PutAt::StoreCell(_, held) => StepName::Store(Location::Cell(held.node)),
        PutAt::LoadNext(_, held) => StepName::Load(Location::Next(held.node)),
        PutAt::PrepareNext(_, held, _) => StepName::Store(Location::Next(held.node)),
        PutAt::Seeking(_, _, at) => seek_step::<T>(at),
        PutAt::LinkNext(_, _, tail, _) => {
            StepName::CompareAndSwap(Location::Next(tail.index()), Location::Tail)
        }
        PutAt::SwingTail(_, _, _) => StepName::Attempt(Location::Tail),
        PutAt::GiveBack(_, held, at) => give_step::<T>(held, at),
    }
}

// The next step of a take.
fn take_name<T>(at: &TakeAt<T>) -> StepName
    ensures { IsNextStep (take_line at.now) result }
{
    match at {
        TakeAt::LoadHead => StepName::Load(Location::Head),
        TakeAt::LoadTail(_) => StepName::Load(Location::Tail),
        TakeAt::LoadNext(head, _) => StepName::Load(Location::Next(head.index())),
        TakeAt::CheckHead(_, _, _) => StepName::Load(Location::Head),
        TakeAt::SwingTail(_, _) => StepName::Attempt(Location::Tail),
        TakeAt::LoadCell(_, link) => StepName::Load(Location::Cell(link.index())),
        TakeAt::TakeHead(_, _, _) => StepName::CompareAndSwap(Location::Head, Location::Head),
        TakeAt::GiveBack(taken, at) => give_step::<T>(&taken.held, at),
    }
}

// The next step of a close.
fn close_name<T>(at: &CloseAt) -> StepName
    ensures { IsNextStep {T = T} (close_line at.now) result }
{
    match at {
        CloseAt::Seeking(at) => seek_step::<T>(at),
        CloseAt::Mark(tail, _) => {
            StepName::CompareAndSwap(Location::Next(tail.index()), Location::Tail)
        }
    }
}

// The next step of a shut.
fn shut_name<T>(at: &ShutAt) -> StepName
    ensures { IsNextStep {T = T} (shut_line at.now) result }
{
    match at {
        ShutAt::LoadHead => StepName::Load(Location::Head),
        ShutAt::Mark(_) => StepName::CompareAndSwap(Location::Head, Location::Head),
    }
}

// The next step of a look.
fn look_name<T>(at: &LookAt) -> StepName
    ensures { IsNextStep {T = T} (look_line at.now) result }
{
    match at {
        LookAt::LoadHead => StepName::Load(Location::Head),
        LookAt::LoadNext(head) => StepName::Load(Location::Next(head.index())),
        LookAt::CheckHead(_, _) => StepName::Load(Location::Head),
    }
}

impl<T: Drop + Send> Named<T> for Queue<T> {
    ghost use Rattle.ms_queue.specs.code.Naming.{IsStep};

    ghost is_step = { IsStep };

    fn step_name(op: &AnyOp<T>) -> StepName {
        match &op.at {
            QueueAt::Put(at) => put_name::<T>(at),
            QueueAt::Take(at) => take_name::<T>(at),
            QueueAt::Close(at) => close_name::<T>(at),
            QueueAt::Shut(at) => shut_name::<T>(at),
            QueueAt::Look(at) => look_name::<T>(at),
        }
    }
}
