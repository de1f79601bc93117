//! Waiting after a failed compare-and-swap.
ghost use Rattle.std.specs.Prelude.{◌≡◌, ◌≢◌, ◌<◌, ◌≤◌, true};
ghost use Rattle.backoff.specs.Density.{evidence_of, has_failed};
ghost use Rattle.backoff.specs.declared.density.TheConstants.{DENSE};
ghost use Rattle.backoff.specs.declared.pause.TheConstants.{MOST_HINTS};

use crate::density::{DENSE, Density, Known, Sight};
use std::hint;

/// How many spin hints the first wait of a call gives the processor. It is short: if two threads
/// share a small container, each soon needs what the other takes or puts.
const FIRST_HINTS: u32 = 80;

/// How many the second wait gives. A call that fails again keeps out of the other threads' way.
const SECOND_HINTS: u32 = 320;

/// How many each further wait gives. It takes some microseconds, and no wait is longer.
pub const MOST_HINTS: u32 = 640;

/// How long a call waits after its next failed compare-and-swap. It is passed by value, so that a
/// call whose every compare-and-swap succeeds keeps it in a register.
#[derive(Drop)]
pub struct Pause {
    /// How many spin hints the wait gives the processor.
    hints: u32,
    /// Whether a compare-and-swap of the call has failed.
    failed: bool,
    ghost bounded: { hints ≤ MOST_HINTS },
}

impl Pause {
    /// The first pause of a call by a pass that knows this. It is a wait only if the pass's calls
    /// follow one another closely: if its evidence is at least `DENSE`.
    #[inline]
    pub fn of(density: Density) -> Pause
        ensures dense { DENSE ≤ evidence_of density → 0 < result.hints }
        ensures sparse { evidence_of density < DENSE → result.hints ≡ 0 }
        ensures failed { result.failed ≡ has_failed density }
    {
        let known = Known::of(density);
        Pause {
            hints: if known.evidence >= DENSE {
                FIRST_HINTS
            } else {
                0
            },
            failed: matches!(known.sight, Sight::Failed),
        }
    }

    /// Whether a compare-and-swap of the call has failed.
    #[inline]
    pub fn has_failed(&self) -> bool
        ensures { result ≡ self.now.failed }
    {
        self.failed
    }

    /// Waits, and returns the next pause. It is longer, until the longest is reached. If this pause
    /// is no wait, the next is none either.
    #[inline(never)]
    pub fn wait(self) -> Pause
        ensures grows { self.hints ≢ 0 → self.hints ≢ MOST_HINTS → self.hints < result.hints }
        ensures none { self.hints ≡ 0 → result.hints ≡ 0 }
        ensures failed { result.failed ≡ true }
    {
        self.wait_by(hint::spin_loop)
    }

    /// The same, with this call for each spin hint.
    #[inline]
    pub fn wait_by<F: Fn()>(self, hint: F) -> Pause
        requires { F.IsAlwaysCallable hint }
        ensures grows { self.hints ≢ 0 → self.hints ≢ MOST_HINTS → self.hints < result.hints }
        ensures none { self.hints ≡ 0 → result.hints ≡ 0 }
        ensures failed { result.failed ≡ true }
    {
        for _ in 0..self.hints {
            hint();
        }
        Pause {
            hints: match self.hints {
                0 => 0,
                FIRST_HINTS => SECOND_HINTS,
                _ => MOST_HINTS,
            },
            failed: true,
        }
    }
}
