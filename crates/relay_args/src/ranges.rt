//! The ranges of what a relay of files is given.

use tagged_index::NULL;

/// The most consumers of a relay.
pub const MAX_CONSUMERS: u32 = 16;

/// The largest count after which a relay's worker stops: the most messages of a file.
pub const MAX_COUNT: u32 = 65_535;

/// The most files of a relay.
pub const MAX_FILES: usize = 16;

/// The most passes of a relay: one for each file, one for each consumer, and one that closes.
pub const MAX_RELAY_PASSES: u32 = MAX_FILES as u32 + MAX_CONSUMERS + 1;

/// The greatest capacity of a ring that a relay runs over. A ring has a cell for each pass, and the
/// cells of its slots and its passes are together at most `NULL`.
pub const MAX_RING_CAPACITY: u32 = NULL - MAX_RELAY_PASSES;

// Clauses and the help of the command line say these numbers.
const _: () = prove!(MAX_RELAY_PASSES == 33 && MAX_RING_CAPACITY == 1_048_542);
