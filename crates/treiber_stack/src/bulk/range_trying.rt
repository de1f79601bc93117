//! A range that is put in parts of a bounded number of steps, whatever its values come from. When
//! the steps are used up, it comes back as it is, begun as before.
ghost use Rattle.std.specs.Prelude.{◌≡◌, List, [], length, IfSome, MatchOption};
ghost use Rattle.bounded_model.specs.declared.views.PassView.{PassView};
ghost use Rattle.running.specs.Going.{Owes};
ghost use Rattle.treiber_stack.specs.Calls.{IsRange, IsPassWith, machine_with, begun_with, pass_in};
ghost use Rattle.treiber_stack.specs.code.RangeTrying.{HasStopped, IsRangeOpWith, RangeCame, RangeStarts, StoppedAt, left_after, left_at};
ghost use Rattle.treiber_stack.specs.Bulk.{RangeMost, RangeSteps};
ghost use Rattle.treiber_stack.specs.declared.bulk.range_steps.RangeAt.{RangeAt};
ghost use Rattle.treiber_stack.specs.declared.bulk.range_steps.RangeStop.TheVariants.{Over};

use crate::bulk::loading::{load_node, restore};
use crate::bulk::range_steps::{Held, RangeAt, RangeEnd, RangeState, RangeStop, try_range};
use crate::bulk::source::Source;
use crate::code::giving::{Chain, Give};
use crate::life::stack::{Pass, Stack};
use bounded_model::{RangeRefused, Ranged, Stepped, Word};
use running::{Op, Tie};
use stack_machine::Line;
use stack_table::Operation;
use tagged_index::NULL;

/// A put of a range that was begun. Values that have no node yet are in their source. Its operation
/// shows proofs the values that are put.
pub type RangeOp<T> = Op<T, Line<T>, Operation<T>, RangeState>;

/// What a range has come to that was begun, or was run for some steps.
pub type RangeMade<T> = Stepped<RangeOp<T>, Pass<T>, Result<Ranged, RangeRefused>>;

/// A put that makes no step yet. It is refused at once, as `Nothing`, if there is no value to put.
pub(crate) fn begin<T, D: Tie<T>>(
    on: &Stack<T, D>,
    by: Pass<T>,
    put: Option<Operation<T>>,
) -> RangeMade<T>
    requires pass { IsPassWith D.rule on.now by }
    requires owes { IfSome put (λ o. Owes (machine_with D.rule on.now) o (pass_in by)) }
    ensures { (vs : List T) → MatchOption put (vs ≡ []) (λ o. IsRange o vs)
        → RangeStarts D.rule on.now vs (pass_in by) result }
{
    let _ = on;
    let Some(operation) = put else {
        return Stepped::Done(by, Err(RangeRefused::Nothing));
    };
    let Pass { pass, .. } = by;
    let held = Held {
        chain: Chain::of(NULL),
        count: 0,
    };
    let at = RangeState {
        held,
        at: RangeAt::LoadFree,
    };
    Stepped::Again(Op {
        pass,
        operation,
        at,
    })
}

/// Continues the put with the source as it left it, for at most `steps` steps to take each node,
/// `steps` to put them onto the top and `steps` to give them back.
pub(crate) fn run_for<T, D: Tie<T>, V: Source<T>>(
    on: &Stack<T, D>,
    op: RangeOp<T>,
    values: &mut V,
    steps: u64,
) -> RangeMade<T>
    requires { (vs : List T) × IsRangeOpWith D.rule on.now vs op
        × V.left values.old vs (left_at op.at.at op.at.held) }
    ensures came { (vs : List T) → IsRangeOpWith D.rule on.now vs op
        → V.left values.old vs (left_at op.at.at op.at.held)
        → RangeCame D.rule on.now vs (begun_with D.rule on.now op.pass) result
        × V.left values.new vs (left_after result) }
    ensures took { RangeSteps steps op result }
    ensures most { (vs : List T) → IsRangeOpWith D.rule on.now vs op
        → V.left values.old vs (left_at op.at.at op.at.held)
        → RangeMost steps (length vs) op result }
    ensures same { V.borrow values.new ≡ V.borrow values.old }
{
    let mut range = op;
    // The range stops with each node, when the values go back to their source, and at its end.
    for round in 0..values.len().saturating_add(2) {
        let Op {
            pass,
            operation,
            at: RangeState { held, at },
        } = range;
        match try_range(on, pass, held, at, &operation, steps) {
            Stepped::Again((pass, at)) => {
                let at = RangeState { held, at };
                return Stepped::Again(Op {
                    pass,
                    operation,
                    at,
                });
            }
            Stepped::Done(back, stop) => {
                match after_stop(on, back, held, stop, values, operation) {
                    Stepped::Again(next) => range = next,
                    Stepped::Done(pass, answer) => return Stepped::Done(pass, answer),
                }
            }
        }
    }
    Stepped::Again(range)
}

// Continues a range that has stopped. With a node it moves the next value into its slot. Then it
// takes a node for the value after it, or goes to the top if all values have one.
fn after_stop<T, D: Tie<T>, V: Source<T>>(
    on: &Stack<T, D>,
    by: running::Pass<T, Line<T>>,
    held: Held,
    stop: RangeStop,
    values: &mut V,
    operation: Operation<T>,
) -> RangeMade<T>
    requires { (v : PassView T) × (vs : List T) × (at : RangeAt)
        × HasStopped D.rule on.now operation v by vs held at stop × IsRange operation vs
        × V.left values.old vs (left_at at held) }
    ensures came { (v : PassView T) (vs : List T) (at : RangeAt)
        → HasStopped D.rule on.now operation v by vs held at stop → IsRange operation vs
        → V.left values.old vs (left_at at held)
        → RangeCame D.rule on.now vs v result × V.left values.new vs (left_after result) }
    ensures stopped { (v : PassView T) (vs : List T) (at : RangeAt)
        → HasStopped D.rule on.now operation v by vs held at stop
        → V.left values.old vs (left_at at held) → StoppedAt at held.count by result }
    ensures same { V.borrow values.new ≡ V.borrow values.old }
{
    let index = match stop {
        RangeStop::Took(index) => index,
        RangeStop::Over(end) => return end_range(on, by, held, end, values, operation),
    };
    let value = values.take(held.count);
    let (pass, held) = load_node(on, by, held, index, value, &operation);
    if (held.count as usize) < values.len() {
        let at = RangeAt::LoadFree;
        let at = RangeState { held, at };
        return Stepped::Again(Op {
            pass,
            operation,
            at,
        });
    }
    let at = RangeAt::Load;
    let at = RangeState { held, at };
    Stepped::Again(Op {
        pass,
        operation,
        at,
    })
}

// Says what a range that is over has put. If nothing can be put onto the top, the values go back to
// their source, and then the nodes to the free list.
fn end_range<T, D: Tie<T>, V: Source<T>>(
    on: &Stack<T, D>,
    by: running::Pass<T, Line<T>>,
    held: Held,
    end: RangeEnd,
    values: &mut V,
    operation: Operation<T>,
) -> RangeMade<T>
    requires { (v : PassView T) × (vs : List T) × (at : RangeAt)
        × HasStopped D.rule on.now operation v by vs held at (Over end) × IsRange operation vs
        × V.left values.old vs (left_at at held) }
    ensures came { (v : PassView T) (vs : List T) (at : RangeAt)
        → HasStopped D.rule on.now operation v by vs held at (Over end) → IsRange operation vs
        → V.left values.old vs (left_at at held)
        → RangeCame D.rule on.now vs v result × V.left values.new vs (left_after result) }
    ensures stopped { (v : PassView T) (vs : List T) (at : RangeAt)
        → HasStopped D.rule on.now operation v by vs held at (Over end)
        → StoppedAt at held.count by result }
    ensures same { V.borrow values.new ≡ V.borrow values.old }
{
    match end {
        RangeEnd::Put(number) => {
            let count = held.count;
            Stepped::Done(Pass { pass: by, kept: () }, Ok(Ranged { number, count }))
        }
        RangeEnd::Full => Stepped::Done(Pass { pass: by, kept: () }, Err(RangeRefused::Full)),
        RangeEnd::Refused(why) => Stepped::Done(Pass { pass: by, kept: () }, Err(why.of_range())),
        RangeEnd::Spent(tag) => Stepped::Done(
            Pass { pass: by, kept: () },
            Err(RangeRefused::Spent(Word::Free, tag)),
        ),
        RangeEnd::Barred(why) => {
            let pass = restore(on, by, held, values);
            let at = RangeAt::GiveBack(why, Give::Load);
            let at = RangeState { held, at };
            Stepped::Again(Op {
                pass,
                operation,
                at,
            })
        }
        RangeEnd::GaveBack(why) => Stepped::Done(Pass { pass: by, kept: () }, Err(why.of_range())),
    }
}
