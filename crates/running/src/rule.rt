//! A container's machine, and the rule of its table.
ghost use Rattle.tagged_index.specs.declared.limit.Limits.{Limits};
ghost use Rattle.running.specs.Laws.{Lawful as TheLaws};
ghost use Rattle.running.specs.Machine.{Names, Machine as TheMachine};

use atomic_table::TableRule;
use machine::View;
use std::marker::PhantomData;
use tagged_index::Limits;

/// The machine of a container for values `T`. Its passes are at lines `L` of operations `O`.
pub trait Machine<T, L, O> {
    ghost names: { Names L O };

    ghost machine: { Limits → TheMachine T L O names };
}

/// A machine whose laws are proved: every step of it keeps the rule of its table.
pub trait Lawful<T, L, O>: Machine<T, L, O> {
    ghost lawful: { (limits : Limits) → TheLaws (Self.machine limits) };
}

/// What holds of a container's table between any two steps.
pub struct Running<O, M> {
    marker: PhantomData<(O, M)>,
}

impl<T, L, O, M: Machine<T, L, O>> TableRule<Option<T>, View<T, L>, Limits> for Running<O, M> {
    ghost use Rattle.machine.specs.Seats.{first_view};
    ghost use Rattle.running.specs.Rule.{Rule};

    ghost holds = { λ limits. Rule (M.machine limits) };

    ghost first = { λ limits. first_view (M.machine limits).core.stock };
}
