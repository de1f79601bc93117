//! Gauging a stack: whether it is closed, and how many of its tags are used, by one load of its top.
ghost use Rattle.bounded_model.specs.Laws.{Answers};
ghost use Rattle.bounded_model.specs.declared.views.Answered.TheVariants.{Gauge as GaugeAnswered};
ghost use Rattle.stack_machine.specs.Machine.{ends};
ghost use Rattle.stack_machine.specs.declared.lines.Answer.TheVariants.{Gauge as Gauged};
ghost use Rattle.stack_machine.specs.declared.lines.Line.TheVariants.{LoadTopToGauge};
ghost use Rattle.treiber_stack.specs.Calls.{GaugeGives, IsPassWith, limit_of, pass_in, room_of};
ghost use Rattle.treiber_stack.specs.code.Steps.{OneLineWith};

use crate::life::stack::{Pass, Stack};
use running::{Tie, load_top_step};
use stack_table::Operation;
use stack_table::layout::STACK_LIST;

/// What a gauge shows.
#[derive(Clone, Copy, Debug, PartialEq, Eq)]
pub struct Gauge {
    /// Whether the stack was closed.
    pub closed: bool,
    /// How many of the tags that the stack's limit allows were used. Each put uses one and each
    /// take one, whether of one value or of many.
    pub used: u64,
}

impl<T, D: Tie<T>> Stack<T, D> {
    /// Whether the stack was closed, and how many tags were used, both at one time since its pass's
    /// last step before the call. The call is one load of the top. Called in `examples::stack`.
    #[inline]
    pub fn gauge(&self, by: Pass<T>) -> (Pass<T>, Gauge)
        requires { IsPassWith D.rule self.now by }
        ensures of { IsPassWith D.rule self.now result.0 }
        ensures gives { GaugeGives (room_of self.now) (limit_of self.now)
            (pass_in by) (pass_in result.0) result.1 }
        ensures answered { Answers (pass_in by) (pass_in result.0)
            (GaugeAnswered result.1.closed result.1.used) }
        ensures line { OneLineWith D.rule self.now by.pass result.0.pass LoadTopToGauge
            (ends (Gauged result.1.closed result.1.used)) }
    {
        let Pass { mut pass, kept } = by;
        let top = load_top_step(
            &self.table.shared,
            &mut pass.seat,
            STACK_LIST,
            &Operation::Gauge,
        );
        let gauge = Gauge {
            closed: top.is_marked(),
            used: top.tag(),
        };
        (Pass { pass, kept }, gauge)
    }
}
