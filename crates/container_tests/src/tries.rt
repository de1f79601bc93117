//! How many tries a call that waits has begun.

use std::sync::atomic::{AtomicU64, Ordering};
use std::thread;

/// How often a test looks before it gives up.
const LOOKS: u64 = 10_000_000;

#[derive(Drop)]
pub(crate) struct Tries {
    begun: AtomicU64,
}

impl Tries {
    pub(crate) fn none() -> Tries {
        Tries {
            begun: AtomicU64::new(0),
        }
    }

    /// Counts one more.
    pub(crate) fn count(&self) {
        self.begun.fetch_add(1, Ordering::SeqCst);
    }

    /// Waits until two were begun, so that the first was refused; `false` if they never were.
    pub(crate) fn are_two(&self) -> bool {
        for _ in 0..LOOKS {
            if self.begun.load(Ordering::SeqCst) >= 2 {
                return true;
            }
            thread::yield_now();
        }
        false
    }
}
