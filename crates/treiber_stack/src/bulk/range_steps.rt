//! The steps of a range. It stops with each node that it takes, whose slot wants the next value. It
//! also stops when it has put all values that have nodes, and when nothing can be put.
ghost use Rattle.std.specs.Prelude.{List};
ghost use Rattle.bounded_model.specs.Stepping.{MatchStepped};
ghost use Rattle.running.specs.Steps.{TookFor};
ghost use Rattle.treiber_stack.specs.code.RangeTrying.{HasStopped, IsRangeOf, RanOn};
ghost use Rattle.treiber_stack.specs.Calls.{begun_with};

use crate::code::begun::Begun;
use crate::code::giving::{Chain, Give, give_access, give_next};
use crate::code::refusing::{Barred, NoNode, bars_free, bars_put};
use crate::life::stack::Stack;
use crate::rule::Stacked;
use atomic_table::Seat;
use bounded_model::Stepped;
use machine::View;
use running::{Access, Code, Next, Outcome, Tie, try_for};
use stack_machine::Line;
use stack_table::Operation;
use stack_table::layout::{FREE_LIST, STACK_LIST};
use tagged_index::Tagged;

/// The nodes of a range, each with its value.
#[derive(Clone, Copy)]
pub(crate) struct Held {
    pub(crate) chain: Chain,
    pub(crate) count: u32,
}

/// The next step of a range, with what it has read.
#[derive(Drop)]
pub(crate) enum RangeAt {
    /// Load `FREE`.
    LoadFree,
    /// Load the link of the free node.
    Link(Tagged),
    /// Compare-and-swap `FREE` for the next free node.
    Hold(Tagged, u32),
    /// Load `TOP`.
    Load,
    /// Link the last node held to the top one.
    LinkTo(Tagged),
    /// Compare-and-swap `TOP` for the first node held.
    Exchange(Tagged),
    /// No node is free, and the range holds none: load `TOP`, to say why nothing can be put.
    Refuse,
    /// Nothing could be put, and the values are back in their places: give the nodes back.
    GiveBack(Barred, Give),
}

/// The state of a range between two of its steps: the nodes that it holds, and its next step.
#[derive(Drop)]
pub struct RangeState {
    pub(crate) held: Held,
    pub(crate) at: RangeAt,
}

/// A range under way.
#[derive(Drop)]
pub(crate) struct Range<T> {
    pub(crate) begun: Begun<T>,
    pub(crate) held: Held,
    pub(crate) at: RangeAt,
}

/// What a range stops with.
#[derive(Clone, Copy)]
pub(crate) enum RangeStop {
    /// A node, whose slot wants the next value.
    Took(u32),
    /// It is over.
    Over(RangeEnd),
}

/// How a range ends.
#[derive(Clone, Copy)]
pub(crate) enum RangeEnd {
    /// The values held were put, with this number.
    Put(u64),
    /// No node is free, and the range holds none.
    Full,
    /// No node is free, the range holds none, and nothing can be put onto the top.
    Refused(Barred),
    /// The range holds no node, and can get none: the tag of the free nodes' top is at the limit.
    Spent(u64),
    /// Nothing can be put onto the top. The range holds its nodes, with their values.
    Barred(Barred),
    /// Nothing can be put onto the top, and the range has given its nodes back.
    GaveBack(Barred),
}

/// A range that has stopped.
#[derive(Drop)]
pub(crate) struct RangeStopped<T> {
    pub(crate) begun: Begun<T>,
    pub(crate) stop: RangeStop,
}

/// Makes a range's steps until it stops, or until it has made `steps` steps.
pub(crate) fn try_range<T, D: Tie<T>>(
    on: &Stack<T, D>,
    by: running::Pass<T, Line<T>>,
    held: Held,
    at: RangeAt,
    operation: &Operation<T>,
    steps: u64,
) -> Stepped<(running::Pass<T, Line<T>>, RangeAt), running::Pass<T, Line<T>>, RangeStop>
    requires { (vs : List T) × IsRangeOf D.rule on.now operation.now by vs held at }
    ensures ran { (vs : List T) → IsRangeOf D.rule on.now operation.now by vs held at
        → MatchStepped result
        (λ next. RanOn D.rule on.now operation.now by vs held at next.0 next.1)
        (λ back stop. HasStopped D.rule on.now operation.now (begun_with D.rule on.now by) back vs
        held at stop) }
    ensures took { TookFor steps by result }
{
    let begun = Begun::of(operation, &by);
    let first = (by, Next::On(Range { begun, held, at }));
    match try_for(&on.table.shared, on, first, operation, steps) {
        Stepped::Again((pass, range)) => Stepped::Again((pass, range.at)),
        Stepped::Done(pass, stopped) => Stepped::Done(pass, stopped.stop),
    }
}

impl<T, D: Tie<T>> Code<Stack<T, D>, T, Line<T>, Operation<T>, Stacked<D>, RangeStopped<T>, 2>
    for Range<T> {
    ghost use Rattle.treiber_stack.specs.code.Ranging.{range_account};

    ghost account = { range_account };

    #[inline(always)]
    fn access(&self, on: &Stack<T, D>) -> Access {
        match &self.at {
            RangeAt::LoadFree => Access::LoadTop(FREE_LIST),
            RangeAt::Link(free) => Access::LoadLink(FREE_LIST, free.index()),
            RangeAt::Hold(free, below) => Access::Take(FREE_LIST, *free, *below),
            RangeAt::Load => Access::LoadTop(STACK_LIST),
            RangeAt::LinkTo(top) => {
                Access::StoreLink(STACK_LIST, self.held.chain.last, top.index() as u64)
            }
            RangeAt::Exchange(top) => Access::GiveChain(STACK_LIST, *top, self.held.chain.first),
            RangeAt::Refuse => Access::LoadTop(STACK_LIST),
            RangeAt::GiveBack(_, at) => give_access(on, self.held.chain, at),
        }
    }

    #[inline(always)]
    fn next(
        self,
        on: &Stack<T, D>,
        _seat: &mut Seat<Option<T>, View<T, Line<T>>>,
        outcome: Outcome,
    ) -> Next<Range<T>, RangeStopped<T>> {
        let Range { begun, held, at } = self;
        match at {
            RangeAt::LoadFree => {
                let free = Tagged::from_word(outcome.word);
                match bars_free(on, free) {
                    None => {
                        let at = RangeAt::Link(free);
                        Next::On(Range { begun, held, at })
                    }
                    Some(why) => {
                        if held.count > 0 {
                            let at = RangeAt::Load;
                            return Next::On(Range { begun, held, at });
                        }
                        match why {
                            NoNode::NoneFree => {
                                let at = RangeAt::Refuse;
                                Next::On(Range { begun, held, at })
                            }
                            NoNode::Spent(tag) => {
                                let stop = RangeStop::Over(RangeEnd::Spent(tag));
                                Next::Done(RangeStopped { begun, stop })
                            }
                        }
                    }
                }
            }
            RangeAt::Link(free) => {
                let at = RangeAt::Hold(free, outcome.word as u32);
                Next::On(Range { begun, held, at })
            }
            RangeAt::Hold(free, _) => {
                if !outcome.won {
                    let at = RangeAt::LoadFree;
                    return Next::Lost(Range { begun, held, at });
                }
                let stop = RangeStop::Took(free.index());
                Next::Done(RangeStopped { begun, stop })
            }
            RangeAt::Load => {
                let top = Tagged::from_word(outcome.word);
                match bars_put(on, top) {
                    Some(why) => {
                        let stop = RangeStop::Over(RangeEnd::Barred(why));
                        Next::Done(RangeStopped { begun, stop })
                    }
                    None => {
                        let at = RangeAt::LinkTo(top);
                        Next::On(Range { begun, held, at })
                    }
                }
            }
            RangeAt::LinkTo(top) => {
                let at = RangeAt::Exchange(top);
                Next::On(Range { begun, held, at })
            }
            RangeAt::Exchange(top) => {
                if outcome.won {
                    // The put has had its effect.
                    let stop = RangeStop::Over(RangeEnd::Put(top.tag()));
                    return Next::Done(RangeStopped { begun, stop });
                }
                let at = RangeAt::Load;
                Next::Lost(Range { begun, held, at })
            }
            RangeAt::Refuse => {
                let top = Tagged::from_word(outcome.word);
                match bars_put(on, top) {
                    Some(why) => {
                        let stop = RangeStop::Over(RangeEnd::Refused(why));
                        Next::Done(RangeStopped { begun, stop })
                    }
                    None => {
                        let stop = RangeStop::Over(RangeEnd::Full);
                        Next::Done(RangeStopped { begun, stop })
                    }
                }
            }
            RangeAt::GiveBack(why, at) => match give_next(on, at, outcome) {
                Next::On(at) => {
                    let at = RangeAt::GiveBack(why, at);
                    Next::On(Range { begun, held, at })
                }
                Next::Lost(at) => {
                    let at = RangeAt::GiveBack(why, at);
                    Next::Lost(Range { begun, held, at })
                }
                Next::Done(()) => {
                    let stop = RangeStop::Over(RangeEnd::GaveBack(why));
                    Next::Done(RangeStopped { begun, stop })
                }
            },
        }
    }
}
