//! What a pass learns of its caller when a call begins and when it ends.
ghost use Rattle.std.specs.Prelude.{◌<◌};

use crate::rule::{Machine, Running};
use atomic_table::Shared;
use backoff::{Density, Pause};
use machine::View;
use tagged_index::Limits;

/// The density when a call begins. If the last call kept a hash, this call looks at the watched
/// word, to see whether other threads got something done while the caller was away.
#[inline(always)]
pub(crate) fn at_begin<T, L, O, M: Machine<T, L, O>>(
    density: Density,
    table: &Shared<Option<T>, View<T, L>, Limits, Running<O, M>>,
    watched: usize,
) -> Density
    requires { watched < table.now.table_id.words }
{
    if !density.is_marked() {
        return density;
    }
    Density {
        number: look::<T, L, O, M>(density.number, table, watched),
    }
}

// Cold, so that a call that does not look has only one test for it. It takes the bare number, which
// the caller passes in a register.
#[cold]
#[inline(never)]
fn look<T, L, O, M: Machine<T, L, O>>(
    number: u32,
    table: &Shared<Option<T>, View<T, L>, Limits, Running<O, M>>,
    watched: usize,
) -> u32
    requires { watched < table.now.table_id.words }
{
    let found = table.peek(watched);
    Density { number }.after_look(found).number
}

/// The density when a call ends with this pause. A refused call tells nothing: what happens before
/// the next call is not its caller's work.
#[inline]
pub(crate) fn at_end<T, L, O, M: Machine<T, L, O>>(
    density: Density,
    table: &Shared<Option<T>, View<T, L>, Limits, Running<O, M>>,
    watched: usize,
    pause: Pause,
    refused: bool,
) -> Density
    requires { watched < table.now.table_id.words }
{
    if pause.has_failed() && !refused {
        density.after_failure(table.peek(watched))
    } else {
        density
    }
}

/// The density when a call with this pause is left under way.
#[inline]
pub(crate) fn left_under_way(density: Density, pause: Pause) -> Density {
    if pause.has_failed() {
        density.under_way()
    } else {
        density
    }
}
