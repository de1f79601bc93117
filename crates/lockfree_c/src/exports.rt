//! The functions that C calls. Only they write a slot, and C gives a slot to one call at a time.
ghost use Rattle.std.specs.Prelude.{◌≡◌};
ghost use Rattle.bounded_model.specs.declared.commands.Command.TheVariants.{
  Put,
  Take,
  Close,
  Shut,
  Look,
};
ghost use Rattle.lockfree_c.specs.declared.exports.TheConstants.{VERSION};
ghost use Rattle.lockfree_c.specs.Bulk.{front_from};
ghost use Rattle.lockfree_c.specs.Slots.{
  IsSlot,
  SlotContinues,
  SlotCalled,
  SlotCopied,
  SlotCounted,
  SlotFinished,
  SlotFolded,
  SlotFreed,
  SlotGauged,
  SlotJoined,
  SlotNumber,
  SlotSplit,
  SlotWentOn,
  SlotsMatch,
};

use crate::answers::{Answer, IN_USE, NO_HANDLE, OK};
use crate::slot::Slot;
use bounded_model::Command;
use running::aside;
use std::alloc::Global;

/// The version, 0.2.0: 10,000 times the first number, 100 times the second, and the third.
pub const VERSION: u32 = 200;

const _: () = prove!(VERSION == 200);

/// The version of the library, which a program compares with its header's.
#[unsafe(no_mangle)]
pub extern "C" fn lockfree_version() -> u32
    ensures { result ≡ VERSION }
{
    VERSION
}

/// A new pass of the root's container.
#[unsafe(no_mangle)]
pub extern "C" fn lockfree_split(alloc: Global, root: &mut Slot, pass: &mut Slot) -> u32
    requires { IsSlot root.old × IsSlot pass.old }
    ensures of { IsSlot root.new × IsSlot pass.new }
    ensures gives { SlotSplit root.old pass.old root.new pass.new result }
{
    if pass.full {
        return IN_USE;
    }
    if !root.full {
        return NO_HANDLE;
    }
    match root.handle.open_mut().split_boxed(alloc) {
        Ok(held) => {
            pass.put(held);
            OK
        }
        Err(code) => code,
    }
}

/// Gives a pass back to the root that it was split from, and empties its slot.
#[unsafe(no_mangle)]
pub extern "C" fn lockfree_join(alloc: Global, root: &mut Slot, pass: &mut Slot) -> u32
    requires slots { IsSlot root.old × IsSlot pass.old }
    requires same { SlotsMatch root.old pass.old }
    ensures of { IsSlot root.new × IsSlot pass.new }
    ensures gives { SlotJoined root.old pass.old root.new pass.new result }
{
    if !root.full || !pass.full {
        return NO_HANDLE;
    }
    match root.handle.open_mut().join(pass.handle.open_mut()) {
        Ok(()) => {
            drop(pass.take(alloc));
            OK
        }
        Err(code) => code,
    }
}

// The pass in the slot makes any call.
fn call(pass: &mut Slot, command: Command<u64>, tries: u64) -> Answer
    requires { IsSlot pass.old }
    ensures of { IsSlot pass.new }
    ensures gives { SlotCalled tries pass.old command pass.new result }
{
    if !pass.full {
        return Answer::of(NO_HANDLE);
    }
    pass.handle.open_mut().call(command, tries)
}

/// Puts a value.
#[unsafe(no_mangle)]
pub extern "C" fn lockfree_put(pass: &mut Slot, value: u64, tries: u64) -> Answer
    requires { IsSlot pass.old }
    ensures of { IsSlot pass.new }
    ensures gives { SlotCalled tries pass.old (Put value) pass.new result }
{
    if !pass.full {
        aside();
        return Answer::of(NO_HANDLE);
    }
    pass.handle.open_mut().put(value, tries)
}

/// Takes a value.
#[unsafe(no_mangle)]
pub extern "C" fn lockfree_take(pass: &mut Slot, tries: u64) -> Answer
    requires { IsSlot pass.old }
    ensures of { IsSlot pass.new }
    ensures gives { SlotCalled tries pass.old Take pass.new result }
{
    if !pass.full {
        aside();
        return Answer::of(NO_HANDLE);
    }
    pass.handle.open_mut().take(tries)
}

/// Closes the container.
#[unsafe(no_mangle)]
pub extern "C" fn lockfree_close(pass: &mut Slot, tries: u64) -> Answer
    requires { IsSlot pass.old }
    ensures of { IsSlot pass.new }
    ensures gives { SlotCalled tries pass.old Close pass.new result }
{
    call(pass, Command::Close, tries)
}

/// Shuts the container.
#[unsafe(no_mangle)]
pub extern "C" fn lockfree_shut(pass: &mut Slot, tries: u64) -> Answer
    requires { IsSlot pass.old }
    ensures of { IsSlot pass.new }
    ensures gives { SlotCalled tries pass.old Shut pass.new result }
{
    call(pass, Command::Shut, tries)
}

/// Looks whether the container is empty.
#[unsafe(no_mangle)]
pub extern "C" fn lockfree_look(pass: &mut Slot, tries: u64) -> Answer
    requires { IsSlot pass.old }
    ensures of { IsSlot pass.new }
    ensures gives { SlotCalled tries pass.old Look pass.new result }
{
    if !pass.full {
        return Answer::of(NO_HANDLE);
    }
    pass.handle.open_mut().look(tries)
}

/// Counts the values of a queue or of a ring.
#[unsafe(no_mangle)]
pub extern "C" fn lockfree_count(pass: &mut Slot, tries: u64) -> Answer
    requires { IsSlot pass.old }
    ensures of { IsSlot pass.new }
    ensures gives { SlotCounted tries pass.old pass.new result }
{
    if !pass.full {
        return Answer::of(NO_HANDLE);
    }
    pass.handle.open_mut().count(tries)
}

/// Tells whether the container was closed, and how many of its tags were used, or in a ring how
/// many values were put.
#[unsafe(no_mangle)]
pub extern "C" fn lockfree_gauge(pass: &mut Slot, tries: u64) -> Answer
    requires { IsSlot pass.old }
    ensures of { IsSlot pass.new }
    ensures gives { SlotGauged tries pass.old pass.new result }
{
    if !pass.full {
        return Answer::of(NO_HANDLE);
    }
    pass.handle.open_mut().gauge(tries)
}

/// Folds all values of a stack: one compare-and-swap takes them. The order is from the top down, or
/// reversed. Each value is an answer of its own.
#[unsafe(no_mangle)]
pub extern "C" fn lockfree_fold(pass: &mut Slot, reversed: bool, tries: u64) -> Answer
    requires { IsSlot pass.old }
    ensures of { IsSlot pass.new }
    ensures gives { SlotFolded tries pass.old (front_from reversed) pass.new result }
{
    if !pass.full {
        return Answer::of(NO_HANDLE);
    }
    pass.handle.open_mut().fold(reversed, tries)
}

/// Puts the values of an array onto a stack by one compare-and-swap, from the first, as far as it
/// gets cells for them. After `BUSY` call it again with the same array to continue the put.
#[unsafe(no_mangle)]
pub extern "C" fn lockfree_put_range(pass: &mut Slot, values: &[u64], tries: u64) -> Answer
    requires slot { IsSlot pass.old }
    requires same { SlotContinues pass.old values.now }
    ensures of { IsSlot pass.new }
    ensures gives { SlotCopied tries pass.old values.now pass.new result }
{
    if !pass.full {
        return Answer::of(NO_HANDLE);
    }
    pass.handle.open_mut().put_copies(values, tries)
}

/// Continues the call that returned `BUSY`, or the fold that returned `VALUE`. It continues no put
/// of an array: C calls `lockfree_put_range` again for that, and this call gives `NO_CALL`.
#[unsafe(no_mangle)]
pub extern "C" fn lockfree_go_on(pass: &mut Slot, tries: u64) -> Answer
    requires { IsSlot pass.old }
    ensures of { IsSlot pass.new }
    ensures gives { SlotWentOn tries pass.old pass.new result }
{
    if !pass.full {
        return Answer::of(NO_HANDLE);
    }
    pass.handle.open_mut().go_on(tries)
}

/// The number of the call of this pass that ended last, or 0.
#[unsafe(no_mangle)]
pub extern "C" fn lockfree_number(pass: &mut Slot) -> Answer
    requires { IsSlot pass.old }
    ensures of { IsSlot pass.new }
    ensures gives { SlotNumber pass.old pass.new result }
{
    if !pass.full {
        return Answer::of(NO_HANDLE);
    }
    pass.handle.open_mut().number()
}

/// Ends a container if the root is its only handle, and hands out what is left in it, one value an
/// answer.
#[unsafe(no_mangle)]
pub extern "C" fn lockfree_finish(root: &mut Slot) -> Answer
    requires { IsSlot root.old }
    ensures of { IsSlot root.new }
    ensures gives { SlotFinished root.old root.new result }
{
    if !root.full {
        return Answer::of(NO_HANDLE);
    }
    root.handle.open_mut().finish()
}

/// Gives up a root or a pass. The last of a container's handles frees it.
#[unsafe(no_mangle)]
pub extern "C" fn lockfree_free(alloc: Global, handle: &mut Slot) -> u32
    requires { IsSlot handle.old }
    ensures of { IsSlot handle.new }
    ensures gives { SlotFreed handle.old handle.new result }
{
    match handle.take(alloc) {
        None => NO_HANDLE,
        Some(held) => {
            drop(held);
            OK
        }
    }
}
