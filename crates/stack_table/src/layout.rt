//! Where the words of a stack lie. The first 16 words never change, so that notes and meetings,
//! which load word 0, load none that calls change. The tops of the free list and of the stack
//! follow, 16 words apart, so that each has cache lines of its own. Then comes one link for each
//! node, which serves whichever list the node is on.
ghost use Rattle.std.specs.Prelude.{◌≡◌, ◌<◌, ◌≤◌};
ghost use Rattle.tagged_index.specs.declared.word.TheConstants.{NULL};
ghost use Rattle.stack_table.specs.Layout.{link_at, words_for, start_at};

use tagged_index::NULL;

/// The top of the free nodes.
pub const FREE: usize = 16;

/// The top of the stack.
pub const TOP: usize = 32;

/// The free nodes as a list of the machine.
pub const FREE_LIST: usize = 0;

/// The stack as a list of the machine.
pub const STACK_LIST: usize = 1;

const FIRST_LINK: usize = 48;

/// The word that is the link of a node.
#[inline]
pub fn link(index: u32) -> usize
    requires { index ≤ NULL }
    ensures { result ≡ link_at index }
{
    FIRST_LINK + index as usize
}

/// How many words a stack of this capacity has.
#[inline]
pub fn words(capacity: u32) -> usize
    requires { capacity ≤ NULL }
    ensures { result ≡ words_for capacity }
{
    FIRST_LINK + capacity as usize
}

/// A word of a new stack: every node is free, each is linked to the next, and the stack is empty.
pub fn start(capacity: u32, at: usize) -> u64
    requires { (capacity ≤ NULL) × (at < words_for capacity) }
    ensures { result ≡ start_at capacity at }
{
    if at == TOP {
        NULL as u64
    } else if at < FIRST_LINK {
        0
    } else if at == words(capacity) - 1 {
        NULL as u64
    } else {
        (at - FIRST_LINK + 1) as u64
    }
}
