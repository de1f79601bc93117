//! Where a call leaves its fast path.
use std::hint;

/// Marks where a call leaves its fast path. It is cold, so that the compiler takes the steps on the
/// fast path for the usual way. Without this mark it takes a step after some ten branches for a
/// rare one, and calls it as a function. To a call that leaves, the hint costs next to nothing. The
/// hint also keeps the compiler from removing this function.
#[cold]
#[inline(never)]
pub fn aside() {
    hint::spin_loop();
}
