//! A look, step by step: one load of the top.
ghost use Rattle.treiber_stack.specs.code.Looking.{look_account};

use crate::life::stack::{Answered, Stack};
use crate::rule::Stacked;
use atomic_table::Seat;
use machine::View;
use running::{Access, Code, Next, Op, Outcome, Replies, Tie};
use stack_machine::Line;
use stack_table::Operation;
use stack_table::layout::STACK_LIST;
use tagged_index::{NULL, Tagged};

/// A look that was begun.
pub type LookOp<T> = Op<T, Line<T>, Operation<T>, LookAt>;

/// The next step of a look. It has one.
#[derive(Drop)]
pub enum LookAt {
    /// Load `TOP`.
    Load,
}

impl<T, D: Tie<T>> Code<Stack<T, D>, T, Line<T>, Operation<T>, Stacked<D>, Answered<bool>, 2>
    for LookAt {
    ghost use Rattle.treiber_stack.specs.code.Looking.{look_account};

    ghost account = { look_account };

    #[inline(always)]
    fn access(&self, _on: &Stack<T, D>) -> Access {
        match self {
            LookAt::Load => Access::LoadTop(STACK_LIST),
        }
    }

    #[inline(always)]
    fn next(
        self,
        _on: &Stack<T, D>,
        _seat: &mut Seat<Option<T>, View<T, Line<T>>>,
        outcome: Outcome,
    ) -> Next<LookAt, Answered<bool>> {
        match self {
            LookAt::Load => Next::Done(Answered {
                kept: (),
                reply: Tagged::from_word(outcome.word).index() == NULL,
            }),
        }
    }
}

impl<T, D: Tie<T>> Replies<Stack<T, D>, T, Line<T>, Operation<T>, Stacked<D>, (), bool, 2>
    for LookAt {
    ghost use Rattle.std.specs.Prelude.{refl};
    ghost use Rattle.treiber_stack.specs.code.KeepsAnswers.{look_given, look_promises};

    ghost gives = { look_promises };

    ghost idle = { λ key o answer. refl };

    ghost given = { look_given D.rule };

    ghost kept = { λ key o answer. tt };
}
