//! Where the words of a queue lie. The first 16 words never change, so that notes and meetings,
//! which load word 0, load none that calls change. The tops of the two free lists, the head and the
//! tail follow, 16 words apart, so that each has cache lines of its own. Then come four words for
//! each index: the link of the free cell, that of the free node, and the node's link in the chain
//! and its cell.
ghost use Rattle.std.specs.Prelude.{◌≡◌, ◌+◌, ◌*◌, ◌<◌, ◌≤◌};
ghost use Rattle.tagged_index.specs.declared.word.TheConstants.{NULL};
ghost use Rattle.machine.specs.Words.{start_link};
ghost use Rattle.queue_table.specs.Layout.{clink_at, nlink_at, next_at, cell_at, words_for, start_at};

use tagged_index::NULL;

/// The top of the free cells.
pub const CELLS: usize = 16;

/// The top of the free nodes.
pub const NODES: usize = 32;

/// It names the dummy, which the first node follows.
pub const HEAD: usize = 48;

/// It names the last node, or the one before.
pub const TAIL: usize = 64;

/// The free cells as a list of the machine.
pub const CELL_LIST: usize = 0;

/// The free nodes as a list of the machine.
pub const NODE_LIST: usize = 1;

const FIRST_LINK: usize = 80;

const WORDS_OF_AN_INDEX: usize = 4;

/// The word that is the link of a free cell.
#[inline]
pub fn cell_link(index: u32) -> usize
    requires { index ≤ NULL }
    ensures { result ≡ clink_at index }
{
    FIRST_LINK + WORDS_OF_AN_INDEX * index as usize
}

/// The word that is the link of a free node.
#[inline]
pub fn node_link(index: u32) -> usize
    requires { index ≤ NULL }
    ensures { result ≡ nlink_at index }
{
    FIRST_LINK + WORDS_OF_AN_INDEX * index as usize + 1
}

/// The word that links a node to the next one in the chain.
#[inline]
pub fn next(index: u32) -> usize
    requires { index ≤ NULL }
    ensures { result ≡ next_at index }
{
    FIRST_LINK + WORDS_OF_AN_INDEX * index as usize + 2
}

/// The word that says in which cell a node's value is.
#[inline]
pub fn cell(index: u32) -> usize
    requires { index ≤ NULL }
    ensures { result ≡ cell_at index }
{
    FIRST_LINK + WORDS_OF_AN_INDEX * index as usize + 3
}

/// How many words a queue of this capacity has.
#[inline]
pub fn words(capacity: u32) -> usize
    requires { capacity ≤ NULL }
    ensures { result ≡ words_for capacity }
{
    FIRST_LINK + WORDS_OF_AN_INDEX * (capacity as usize + 1)
}

// The next of `count` indexes; null after the last.
fn after(index: usize, count: usize) -> u64
    requires { index ≤ 4 * NULL }
    ensures { result ≡ start_link count index }
{
    if index + 1 == count {
        NULL as u64
    } else {
        (index + 1) as u64
    }
}

/// A word of a new queue. All cells are free, and all nodes but node 0, which is the dummy. Each
/// free one is linked to the next.
pub fn start(capacity: u32, at: usize) -> u64
    requires { (capacity ≤ NULL) × (at < words_for capacity) }
    ensures { result ≡ start_at capacity at }
{
    if at < FIRST_LINK {
        return if at == NODES { 1 } else { 0 };
    }
    let index = (at - FIRST_LINK) / WORDS_OF_AN_INDEX;
    let part = (at - FIRST_LINK) % WORDS_OF_AN_INDEX;
    if part == 0 {
        after(index, capacity as usize)
    } else if part == 1 && index != 0 {
        after(index, capacity as usize + 1)
    } else {
        NULL as u64
    }
}
