//! A close or a shut, step by step: the top gets a mark.
ghost use Rattle.std.specs.Prelude.{◌≡◌};
ghost use Rattle.tagged_index.specs.Fields.{fields_of};
ghost use Rattle.treiber_stack.specs.code.Closing.{is_set, mark_account, mark_reply, sets};

use crate::life::stack::{Answered, Stack};
use crate::rule::Stacked;
use atomic_table::Seat;
use bounded_model::Reply;
use machine::View;
use running::{Access, Code, Next, Op, Outcome, Replies, Tie};
use stack_machine::Line;
use stack_table::Operation;
use stack_table::layout::STACK_LIST;
use tagged_index::Tagged;

/// A close that was begun.
pub type CloseOp<T> = Op<T, Line<T>, Operation<T>, MarkAt>;

/// A shut that was begun.
pub type ShutOp<T> = Op<T, Line<T>, Operation<T>, MarkAt>;

/// Which mark of the top an operation sets.
#[derive(Clone, Copy)]
pub enum Mark {
    Closed,
    Shut,
}

/// The next step of a close or a shut.
#[derive(Drop)]
pub enum MarkAt {
    /// Load `TOP`.
    Load(Mark),
    /// Set this mark of `TOP`, which was read without it.
    Set(Mark, Tagged),
}

impl MarkAt {
    /// Which mark it sets.
    #[inline]
    pub(crate) fn mark(&self) -> Mark
        ensures { result ≡ sets self.now }
    {
        match self {
            MarkAt::Load(mark) => *mark,
            MarkAt::Set(mark, _) => *mark,
        }
    }
}

impl Mark {
    /// The reply of the call that sets it.
    #[inline]
    pub(crate) fn said<T>(self, done: bool) -> Reply<T>
        ensures { result ≡ mark_reply self done }
    {
        match self {
            Mark::Closed => Reply::Close(done),
            Mark::Shut => Reply::Shut(done),
        }
    }

    #[inline]
    fn is_set(self, top: Tagged) -> bool
        ensures { result ≡ is_set self (fields_of top) }
    {
        match self {
            Mark::Closed => top.is_marked(),
            Mark::Shut => top.has_second(),
        }
    }
}

impl<T, D: Tie<T>> Code<Stack<T, D>, T, Line<T>, Operation<T>, Stacked<D>, Answered<bool>, 2>
    for MarkAt {
    ghost use Rattle.treiber_stack.specs.code.Closing.{mark_account};

    ghost account = { mark_account };

    #[inline(always)]
    fn access(&self, _on: &Stack<T, D>) -> Access {
        match self {
            MarkAt::Load(_) => Access::LoadTop(STACK_LIST),
            MarkAt::Set(Mark::Closed, top) => Access::Mark(STACK_LIST, *top),
            MarkAt::Set(Mark::Shut, top) => Access::Shut(STACK_LIST, *top),
        }
    }

    #[inline(always)]
    fn next(
        self,
        _on: &Stack<T, D>,
        _seat: &mut Seat<Option<T>, View<T, Line<T>>>,
        outcome: Outcome,
    ) -> Next<MarkAt, Answered<bool>> {
        match self {
            MarkAt::Load(mark) => {
                let top = Tagged::from_word(outcome.word);
                if mark.is_set(top) {
                    return Next::Done(Answered {
                        kept: (),
                        reply: false,
                    });
                }
                Next::On(MarkAt::Set(mark, top))
            }
            MarkAt::Set(mark, _) => {
                if outcome.won {
                    return Next::Done(Answered {
                        kept: (),
                        reply: true,
                    });
                }
                Next::Lost(MarkAt::Load(mark))
            }
        }
    }
}

// The answer is whether this operation set the mark.
impl<T, D: Tie<T>> Replies<Stack<T, D>, T, Line<T>, Operation<T>, Stacked<D>, (), bool, 2>
    for MarkAt {
    ghost use Rattle.std.specs.Prelude.{refl};
    ghost use Rattle.treiber_stack.specs.code.KeepsAnswers.{mark_given, mark_promises};

    ghost gives = { mark_promises };

    ghost idle = { λ key o answer. refl };

    ghost given = { mark_given D.rule };

    ghost kept = { λ key o answer. tt };
}
