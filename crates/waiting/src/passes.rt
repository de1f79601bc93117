//! Passes for many threads.

ghost use Rattle.std.specs.Prelude.{◌≡◌, All, MatchResult, map, length};
ghost use Rattle.waiting.specs.Passes.{SplitsMany, SplitsNone, JoinsEach};

use bounded_model::Container;
use std::alloc::{AllocError, Global};
use thiserror::Error;

/// Why fewer passes were split off than were asked for.
#[derive(Debug, Drop, Error)]
pub enum SplitRefused {
    /// The allocator had no memory for the list of passes.
    #[error("no memory")]
    NoMemory,
    /// More passes would be out at one time than may be, which is
    /// [`MAX_PASSES`](bounded_model::MAX_PASSES) for a queue or a stack.
    #[error("no pass")]
    NoPass,
}

/// Splits off `count` passes. `NoMemory`: nothing was split off. `NoPass`: fewer were split off
/// until no more could be, and these are joined again. Called in `examples::jobs`.
pub fn split_many<T, C: Container<T>>(
    c: &C,
    alloc: Global,
    root: &mut C::Root,
    count: u32,
) -> Result<Vec<C::Pass>, SplitRefused>
    requires { C.is_root c.now root.old }
    ensures root { C.is_root c.now root.new }
    ensures gives { MatchResult result
        (λ passes. All (C.is_pass c.now) passes.items
        × SplitsMany (C.shape c.now) count
        (C.root root.old) (map C.pass passes.items) (C.root root.new))
        (λ why. SplitsNone (C.shape c.now) count (C.root root.old) (C.root root.new) why) }
{
    let Ok(room) = Vec::with_capacity(alloc, count as usize) else {
        return Err(SplitRefused::NoMemory);
    };
    let mut passes = room;
    while passes.len() < count as usize {
        let Some(pass) = c.split(root) else {
            join_all(c, root, passes);
            return Err(SplitRefused::NoPass);
        };
        passes.push_reserved(pass);
    }
    Ok(passes)
}

/// Takes passes back, the first one first. The root has then seen what each of them has. Called in
/// `container_tests`.
pub fn join_all<T, C: Container<T>>(c: &C, root: &mut C::Root, passes: Vec<C::Pass>)
    requires root { C.is_root c.now root.old }
    requires passes { All (C.is_pass c.now) passes.items }
    ensures root { C.is_root c.now root.new }
    ensures gives { JoinsEach (C.root root.old) (map C.pass passes.items) (C.root root.new) }
{
    for pass in passes {
        c.join(root, pass);
    }
}
