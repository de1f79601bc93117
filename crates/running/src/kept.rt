//! What passes and roots have beside their seats.
ghost use Rattle.std.specs.Prelude.{◌≡◌};

use crate::passes::{Pass, Root};

/// A pass, with what it keeps between its calls, as a ring's pass keeps a spare cell.
#[derive(Drop)]
pub struct PassWith<T, L, K> {
    pub pass: Pass<T, L>,
    pub kept: K,
}

/// A root, with what the passes that are not out keep.
#[derive(Drop)]
pub struct RootWith<T, L, S> {
    pub root: Root<T, L>,
    pub stock: S,
}

/// What an operation has answered, and what its pass keeps now.
#[derive(Drop)]
pub struct Answered<K, R> {
    pub kept: K,
    pub reply: R,
}

/// What comes back from a call: its pass, with what it keeps now, and the reply.
#[inline(always)]
pub fn told<T, L, K, R>(pass: Pass<T, L>, answer: Answered<K, R>) -> (PassWith<T, L, K>, R)
    ensures pass { result.0 ≡ record { pass = pass; kept = answer.kept } }
    ensures reply { result.1 ≡ answer.reply }
{
    let Answered { kept, reply } = answer;
    (PassWith { pass, kept }, reply)
}
