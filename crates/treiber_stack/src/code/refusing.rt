//! Why a top lets no pass put onto it, take from under it, or take a free node.
ghost use Rattle.std.specs.Prelude.{◌≡◌, MatchOption};
ghost use Rattle.treiber_stack.specs.code.Refusing.{AllowsPut, AllowsTake, AllowsNode, RefusesPut, RefusesTake, RefusesNode, barring, barring_range};
ghost use Rattle.treiber_stack.specs.Calls.{limit_of};

use crate::life::stack::Stack;
use bounded_model::{PutRefused, RangeRefused, TakeRefused, Word};
use running::Tie;
use tagged_index::{NULL, Tagged};

/// Why nothing may be put onto a top, whether there is a node or not.
#[derive(Clone, Copy)]
pub(crate) enum Barred {
    Closed,
    /// Its tag is at the limit.
    Spent(u64),
}

/// Why no further node can be had.
#[derive(Clone, Copy)]
pub(crate) enum NoNode {
    NoneFree,
    /// The tag of the free nodes' top is at the limit.
    Spent(u64),
}

impl Barred {
    /// The refusal of a put, which hands the value back.
    #[inline]
    pub(crate) fn of_put<T>(self, value: T) -> PutRefused<T>
        ensures { result ≡ barring self value }
    {
        match self {
            Barred::Closed => PutRefused::Closed(value),
            Barred::Spent(tag) => PutRefused::Spent(value, Word::Top, tag),
        }
    }

    /// The refusal of a range.
    #[inline]
    pub(crate) fn of_range(self) -> RangeRefused
        ensures { result ≡ barring_range self }
    {
        match self {
            Barred::Closed => RangeRefused::Closed,
            Barred::Spent(tag) => RangeRefused::Spent(Word::Top, tag),
        }
    }
}

/// Why a pass that has read this top puts nothing.
#[inline]
pub(crate) fn bars_put<T, D: Tie<T>>(on: &Stack<T, D>, top: Tagged) -> Option<Barred>
    ensures { MatchOption result (AllowsPut (limit_of on.now) top)
        (RefusesPut T (limit_of on.now) top) }
{
    if top.is_marked() {
        return Some(Barred::Closed);
    }
    if top.tag() >= on.limits.tag_limit() {
        return Some(Barred::Spent(top.tag()));
    }
    None
}

/// Why a pass that has read this top of the free nodes gets no node.
#[inline]
pub(crate) fn bars_free<T, D: Tie<T>>(on: &Stack<T, D>, free: Tagged) -> Option<NoNode>
    ensures { MatchOption result (AllowsNode (limit_of on.now) free)
        (RefusesNode (limit_of on.now) free) }
{
    if free.index() == NULL {
        return Some(NoNode::NoneFree);
    }
    if free.tag() >= on.limits.tag_limit() {
        return Some(NoNode::Spent(free.tag()));
    }
    None
}

/// Why a pass that has read this top takes nothing.
#[inline]
pub(crate) fn bars_take<T, D: Tie<T>>(on: &Stack<T, D>, top: Tagged) -> Option<TakeRefused>
    ensures { MatchOption result (AllowsTake (limit_of on.now) top)
        (RefusesTake T (limit_of on.now) top) }
{
    if top.has_second() {
        return Some(TakeRefused::Shut);
    }
    if top.index() == NULL {
        if top.is_marked() {
            return Some(TakeRefused::Closed);
        }
        return Some(TakeRefused::Empty);
    }
    if top.tag() >= on.limits.tag_limit() {
        return Some(TakeRefused::Spent(Word::Top, top.tag()));
    }
    None
}
