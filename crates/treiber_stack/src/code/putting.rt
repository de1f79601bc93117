//! A put, step by step. While the put has a node, the value is in the node's slot, and a snapshot shows
//! it to proofs.
ghost use Rattle.treiber_stack.specs.code.Putting.{put_account};

use crate::code::giving::{Chain, Give, give_access, give_next};
use crate::code::refusing::bars_put;
use crate::life::stack::{Answered, Stack};
use crate::rule::Stacked;
use atomic_table::Seat;
use bounded_model::{PutRefused, Word};
use index_list::{move_out, put_in};
use machine::View;
use running::{Access, Code, Next, Op, Outcome, Replies, Tie};
use stack_machine::Line;
use stack_table::Operation;
use stack_table::layout::{FREE_LIST, STACK_LIST};
use std::snapshot::Snapshot;
use tagged_index::{NULL, Tagged};

/// A put that was begun.
pub type PutOp<T> = Op<T, Line<T>, Operation<T>, PutAt<T>>;

/// The next step of a put, with what it has read and holds.
#[derive(Drop)]
pub enum PutAt<T> {
    /// Load `FREE`.
    LoadFree(T),
    /// Load the link of the free node.
    Link(T, Tagged),
    /// Compare-and-swap `FREE` for the next free node.
    Hold(T, Tagged, u32),
    /// Load `TOP`.
    Load(Snapshot<T>, u32),
    /// Link the node to the top one.
    LinkTo(Snapshot<T>, u32, Tagged),
    /// Compare-and-swap `TOP` for the node.
    Exchange(Snapshot<T>, u32, Tagged),
    /// No node is free: load `TOP`, to say why nothing can be put.
    Refuse(T),
    /// Give the node back.
    GiveBack(PutRefused<T>, u32, Give),
}

/// What a put answers.
pub(crate) type Answer<T> = Result<u64, PutRefused<T>>;

impl<T, D: Tie<T>> Code<Stack<T, D>, T, Line<T>, Operation<T>, Stacked<D>, Answered<Answer<T>>, 2>
    for PutAt<T> {
    ghost use Rattle.treiber_stack.specs.code.Putting.{put_account};

    ghost account = { put_account };

    #[inline]
    fn is_refusal(answer: &Answered<Answer<T>>) -> bool {
        answer.reply.is_err()
    }

    #[inline(always)]
    fn access(&self, on: &Stack<T, D>) -> Access {
        match self {
            PutAt::LoadFree(_) => Access::LoadTop(FREE_LIST),
            PutAt::Link(_, free) => Access::LoadLink(FREE_LIST, free.index()),
            PutAt::Hold(_, free, below) => Access::Take(FREE_LIST, *free, *below),
            PutAt::Load(_, _) => Access::LoadTop(STACK_LIST),
            PutAt::LinkTo(_, index, top) => {
                Access::StoreLink(STACK_LIST, *index, top.index() as u64)
            }
            PutAt::Exchange(_, index, top) => Access::GiveChain(STACK_LIST, *top, *index),
            PutAt::Refuse(_) => Access::LoadTop(STACK_LIST),
            PutAt::GiveBack(_, index, at) => give_access(on, Chain::of(*index), at),
        }
    }

    #[inline(always)]
    fn next(
        self,
        on: &Stack<T, D>,
        seat: &mut Seat<Option<T>, View<T, Line<T>>>,
        outcome: Outcome,
    ) -> Next<PutAt<T>, Answered<Answer<T>>> {
        match self {
            PutAt::LoadFree(value) => {
                let free = Tagged::from_word(outcome.word);
                if free.index() == NULL {
                    return Next::On(PutAt::Refuse(value));
                }
                if free.tag() >= on.limits.tag_limit() {
                    let why = PutRefused::Spent(value, Word::Free, free.tag());
                    return Next::Done(Answered {
                        kept: (),
                        reply: Err(why),
                    });
                }
                Next::On(PutAt::Link(value, free))
            }
            PutAt::Link(value, free) => Next::On(PutAt::Hold(value, free, outcome.word as u32)),
            PutAt::Hold(value, free, _) => {
                if !outcome.won {
                    return Next::Lost(PutAt::LoadFree(value));
                }
                // With the node comes its slot, and the value moves in.
                let index = free.index();
                let shown = Snapshot::of(&value);
                put_in(&on.table.shared, seat, index, value);
                Next::On(PutAt::Load(shown, index))
            }
            PutAt::Load(shown, index) => {
                let top = Tagged::from_word(outcome.word);
                match bars_put(on, top) {
                    Some(why) => {
                        // Nothing can be put: the value moves out of the slot.
                        let value = move_out(&on.table.shared, seat, index);
                        let why = why.of_put(value);
                        Next::On(PutAt::GiveBack(why, index, Give::Load))
                    }
                    None => Next::On(PutAt::LinkTo(shown, index, top)),
                }
            }
            PutAt::LinkTo(shown, index, top) => Next::On(PutAt::Exchange(shown, index, top)),
            PutAt::Exchange(shown, index, top) => {
                if outcome.won {
                    // The put has had its effect.
                    return Next::Done(Answered {
                        kept: (),
                        reply: Ok(top.tag()),
                    });
                }
                Next::Lost(PutAt::Load(shown, index))
            }
            PutAt::Refuse(value) => {
                let top = Tagged::from_word(outcome.word);
                match bars_put(on, top) {
                    Some(why) => Next::Done(Answered {
                        kept: (),
                        reply: Err(why.of_put(value)),
                    }),
                    None => Next::Done(Answered {
                        kept: (),
                        reply: Err(PutRefused::Full(value)),
                    }),
                }
            }
            PutAt::GiveBack(why, index, at) => match give_next(on, at, outcome) {
                Next::On(at) => Next::On(PutAt::GiveBack(why, index, at)),
                Next::Lost(at) => Next::Lost(PutAt::GiveBack(why, index, at)),
                Next::Done(()) => Next::Done(Answered {
                    kept: (),
                    reply: Err(why),
                }),
            },
        }
    }
}

// The answer is the put's number, or a refusal, which hands the value back:
// - with a free node: `Closed`, else `Spent` if the tag of the top is at its limit;
// - without one: `Closed`, else `Spent`, else `Full`;
// - `Spent` if the tag of the free nodes' top is at its limit.
impl<T, D: Tie<T>> Replies<Stack<T, D>, T, Line<T>, Operation<T>, Stacked<D>, (), Answer<T>, 2>
    for PutAt<T> {
    ghost use Rattle.std.specs.Prelude.{refl};
    ghost use Rattle.treiber_stack.specs.code.KeepsAnswers.{put_given};
    ghost use Rattle.treiber_stack.specs.code.KeepsAnswers.{put_promises};

    ghost gives = { put_promises };

    ghost idle = { λ key o answer. refl };

    ghost given = { put_given D.rule };

    ghost kept = { λ key o answer. tt };
}
