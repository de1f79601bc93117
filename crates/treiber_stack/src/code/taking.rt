//! A take, step by step.
ghost use Rattle.treiber_stack.specs.code.Taking.{take_account};

use crate::code::giving::{Chain, Give, give_access, give_next};
use crate::code::refusing::bars_take;
use crate::life::stack::{Answered, Stack};
use crate::rule::Stacked;
use atomic_table::Seat;
use bounded_model::TakeRefused;
use index_list::move_out;
use machine::View;
use running::{Access, Code, Next, Op, Outcome, Replies, Tie};
use stack_machine::Line;
use stack_table::Operation;
use stack_table::layout::STACK_LIST;
use tagged_index::Tagged;

/// A take that was begun.
pub type TakeOp<T> = Op<T, Line<T>, Operation<T>, TakeAt<T>>;

/// The next step of a take, with what it has read and holds.
#[derive(Drop)]
pub enum TakeAt<T> {
    /// Load `TOP`.
    Load,
    /// Load the link of the top node.
    Link(Tagged),
    /// Compare-and-swap `TOP` for the node below it.
    Exchange(Tagged, u32),
    /// Give the node back.
    GiveBack(Taken<T>, Give),
}

/// A value that was taken, with its number, and its node, which is to be given back.
#[derive(Drop)]
pub struct Taken<T> {
    pub(crate) value: T,
    pub(crate) number: u64,
    pub(crate) index: u32,
}

/// What a take answers.
pub(crate) type Answer<T> = Result<(T, u64), TakeRefused>;

impl<T, D: Tie<T>> Code<Stack<T, D>, T, Line<T>, Operation<T>, Stacked<D>, Answered<Answer<T>>, 2>
    for TakeAt<T> {
    ghost use Rattle.treiber_stack.specs.code.Taking.{take_account};

    ghost account = { take_account };

    #[inline]
    fn is_refusal(answer: &Answered<Answer<T>>) -> bool {
        answer.reply.is_err()
    }

    #[inline(always)]
    fn access(&self, on: &Stack<T, D>) -> Access {
        match self {
            TakeAt::Load => Access::LoadTop(STACK_LIST),
            TakeAt::Link(top) => Access::LoadLink(STACK_LIST, top.index()),
            TakeAt::Exchange(top, below) => Access::Take(STACK_LIST, *top, *below),
            TakeAt::GiveBack(taken, at) => give_access(on, Chain::of(taken.index), at),
        }
    }

    #[inline(always)]
    fn next(
        self,
        on: &Stack<T, D>,
        seat: &mut Seat<Option<T>, View<T, Line<T>>>,
        outcome: Outcome,
    ) -> Next<TakeAt<T>, Answered<Answer<T>>> {
        match self {
            TakeAt::Load => {
                let top = Tagged::from_word(outcome.word);
                match bars_take(on, top) {
                    Some(why) => Next::Done(Answered {
                        kept: (),
                        reply: Err(why),
                    }),
                    None => Next::On(TakeAt::Link(top)),
                }
            }
            TakeAt::Link(top) => Next::On(TakeAt::Exchange(top, outcome.word as u32)),
            TakeAt::Exchange(top, _) => {
                if !outcome.won {
                    return Next::Lost(TakeAt::Load);
                }
                // The take has its effect here; the value moves out with the node's slot.
                let index = top.index();
                let value = move_out(&on.table.shared, seat, index);
                let number = top.tag();
                let taken = Taken {
                    value,
                    number,
                    index,
                };
                Next::On(TakeAt::GiveBack(taken, Give::Load))
            }
            TakeAt::GiveBack(taken, at) => match give_next(on, at, outcome) {
                Next::On(at) => Next::On(TakeAt::GiveBack(taken, at)),
                Next::Lost(at) => Next::Lost(TakeAt::GiveBack(taken, at)),
                Next::Done(()) => Next::Done(Answered {
                    kept: (),
                    reply: Ok((taken.value, taken.number)),
                }),
            },
        }
    }
}

// The answer is the value with its number, or why the take took none: `Shut`, else `Closed` or
// `Empty` if there is no value, else `Spent`.
impl<T, D: Tie<T>> Replies<Stack<T, D>, T, Line<T>, Operation<T>, Stacked<D>, (), Answer<T>, 2>
    for TakeAt<T> {
    ghost use Rattle.std.specs.Prelude.{refl};
    ghost use Rattle.treiber_stack.specs.code.KeepsAnswers.{take_given, take_promises};

    ghost gives = { take_promises };

    ghost idle = { λ key o answer. refl };

    ghost given = { take_given D.rule };

    ghost kept = { λ key o answer. tt };
}
