//! Waiting between two tries.

use std::{hint, thread};

/// How many spin hints a wait gives the processor before it yields. They take as long as another
/// thread's call does. A wait that only yields makes a small container a fifth to a third slower.
const HINTS: u32 = 50;

/// Lets the other threads run between two tries: 50 hints of the processor, and then a yield. For
/// calls that are tried again by hand. Called in `put_waiting` and `take_waiting`.
#[inline]
pub fn wait_a_little() {
    for _ in 0..HINTS {
        hint::spin_loop();
    }
    thread::yield_now();
}
