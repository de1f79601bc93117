//! Folds: one compare-and-swap of the top takes all values, and a walk along their chain hands them
//! out one after another. One more compare-and-swap gives the whole chain to the free list.
ghost use Rattle.std.specs.Prelude.{◌≡◌, ◌++◌, [], ◌∷◌, reverse, Some, None};
ghost use Rattle.atomic_table.specs.Table.{rest};
ghost use Rattle.bounded_model.specs.Bulk.{FoldsAll, FoldAnswers};
ghost use Rattle.bounded_model.specs.Consumes.{Folds};
ghost use Rattle.running.specs.Ties.{TakeAllDeals};
ghost use Rattle.stack_machine.specs.Deeds.{in_order};
ghost use Rattle.stack_table.specs.Lines.{direction};
ghost use Rattle.index_list.specs.declared.front.Front.TheVariants.{First, Last};
ghost use Rattle.stack_table.specs.declared.operation.Operation.TheVariants.{Fold as FoldFirst};
ghost use Rattle.treiber_stack.specs.Calls.{WasFolded, WasFoldedWith, call_of, pass_in, shape_of, IsPassOf, IsPassWith};

use crate::code::giving::{Chain, Give, give_access, give_next};
use crate::code::refusing::bars_take;
use crate::life::stack::{Pass, Stack};
use crate::rule::Stacked;
use atomic_table::Seat;
use bounded_model::{Folded, TakeRefused};
use index_list::{Front, move_out};
use machine::View;
use running::{Access, Code, Next, Outcome, Tie, any, to_the_end};
use stack_machine::Line;
use stack_table::Operation;
use stack_table::layout::STACK_LIST;
use std::snapshot::Snapshot;
use std::sync::Wait;
use tagged_index::{NULL, Tagged};

/// The slots that a pass has in hand, as proofs see them.
type Hand<T> = Snapshot<Seat<Option<T>, View<T, Line<T>>>>;

/// All values of a stack, taken by one compare-and-swap.
#[derive(Drop)]
pub struct Batch<T> {
    pub(crate) front: Front,
    /// The number of the compare-and-swap.
    pub(crate) number: u64,
    /// Their slots, in the order of the fold.
    pub(crate) taken: Hand<T>,
}

/// How far a walk along a batch has come.
#[derive(Drop)]
pub struct Walk<T> {
    pub(crate) first: u32,
    /// The node whose value is handed out next.
    pub(crate) index: u32,
    /// How many values it has handed out.
    pub(crate) count: u32,
    pub(crate) held: Hand<T>,
}

/// The next step of a fold, with what it has read and holds.
#[derive(Drop)]
pub enum FoldAt<T> {
    /// Load `TOP`.
    Load(Front),
    /// Compare-and-swap `TOP` for null.
    TakeAll(Front, Tagged),
    /// From the bottom up: load the link of a node. The index before it is the node above it.
    LoadToTurn(Batch<T>, u32, u32),
    /// Link the node to the one above it. The one below it comes next.
    TurnLink(Batch<T>, u32, u32, u32),
    /// Load the link of the node that the walk has come to.
    LoadToFold(Batch<T>, Walk<T>),
    /// Give all nodes back. The number is that of the values.
    GiveBack(Batch<T>, Chain, u32, Give),
}

/// What a fold stops with.
#[derive(Drop)]
pub(crate) enum FoldStop<T> {
    /// The next value is for the caller, and then the fold continues.
    Yields(T, FoldAt<T>),
    /// The fold has handed out this many values, which are all, and their nodes are free.
    Ended(Batch<T>, u32),
    Refused(TakeRefused),
}

impl<T> Stack<T> {
    /// Takes all values by one compare-and-swap, and folds them from the top down. Returns the last
    /// state. A refusal is as that of a take, and returns the state that was handed in. Called in
    /// `examples::buffers`.
    #[inline]
    pub fn fold_all_atomic<R: Wait, S, F: Fn(S, T) -> S + Drop>(
        &self,
        rt: &R,
        by: Pass<T>,
        state: S,
        f: F,
    ) -> (Pass<T>, S, Result<Folded, TakeRefused>)
        requires pass { IsPassOf self.now by }
        requires call { F.IsAlwaysCallable f }
        ensures of { IsPassOf self.now result.0 }
        ensures gives { FoldsAll (call_of self.now by result.0)
            (λ values. Folds (λ s x t. F.post f s x t) state values result.1)
            (result.1 ≡ state) result.2 }
        ensures answered { FoldAnswers (λ values. values) result.2 (pass_in by) (pass_in result.0) }
        ensures ran { WasFolded self.now (FoldFirst First) (pass_in by) result.0 First result.2 }
    {
        self.fold_all_atomic_as(rt, by, state, f)
    }
}

impl<T> Stack<T> {
    /// As `fold_all_atomic`, from the bottom up.
    #[inline]
    pub fn fold_all_atomic_reversed<R: Wait, S, F: Fn(S, T) -> S + Drop>(
        &self,
        rt: &R,
        by: Pass<T>,
        state: S,
        f: F,
    ) -> (Pass<T>, S, Result<Folded, TakeRefused>)
        requires pass { IsPassOf self.now by }
        requires call { F.IsAlwaysCallable f }
        ensures of { IsPassOf self.now result.0 }
        ensures gives { FoldsAll (call_of self.now by result.0)
            (λ values. Folds (λ s x t. F.post f s x t) state (reverse values) result.1)
            (result.1 ≡ state) result.2 }
        ensures answered { FoldAnswers reverse result.2 (pass_in by) (pass_in result.0) }
        ensures ran { WasFolded self.now (FoldFirst Last) (pass_in by) result.0 Last result.2 }
    {
        self.fold_all_atomic_reversed_as(rt, by, state, f)
    }
}

impl<T, D: Tie<T>> Stack<T, D> {
    /// Folds as `fold_all_atomic` does, in a stack with a rule of its client. The caller shows that
    /// the take of all values keeps the rule, as `take_as` has it of one.
    pub fn fold_all_atomic_as<R: Wait, S, F: Fn(S, T) -> S + Drop>(
        &self,
        rt: &R,
        by: Pass<T>,
        state: S,
        f: F,
    ) -> (Pass<T>, S, Result<Folded, TakeRefused>)
        requires pass { IsPassWith D.rule self.now by }
        requires deal { TakeAllDeals (shape_of self.now) D.rule (pass_in by) }
        requires call { F.IsAlwaysCallable f }
        ensures of { IsPassWith D.rule self.now result.0 }
        ensures tied { D.rule (pass_in result.0).seen }
        ensures gives { FoldsAll (call_of self.now by result.0)
            (λ values. Folds (λ s x t. F.post f s x t) state values result.1)
            (result.1 ≡ state) result.2 }
        ensures answered { FoldAnswers (λ values. values) result.2 (pass_in by) (pass_in result.0) }
        ensures ran { WasFoldedWith D.rule self.now (FoldFirst First) (pass_in by) result.0 First
            result.2 }
    {
        fold(self, rt, by, Front::First, state, f)
    }

    /// As `fold_all_atomic_as`, from the bottom up.
    pub fn fold_all_atomic_reversed_as<R: Wait, S, F: Fn(S, T) -> S + Drop>(
        &self,
        rt: &R,
        by: Pass<T>,
        state: S,
        f: F,
    ) -> (Pass<T>, S, Result<Folded, TakeRefused>)
        requires pass { IsPassWith D.rule self.now by }
        requires deal { TakeAllDeals (shape_of self.now) D.rule (pass_in by) }
        requires call { F.IsAlwaysCallable f }
        ensures of { IsPassWith D.rule self.now result.0 }
        ensures tied { D.rule (pass_in result.0).seen }
        ensures gives { FoldsAll (call_of self.now by result.0)
            (λ values. Folds (λ s x t. F.post f s x t) state (reverse values) result.1)
            (result.1 ≡ state) result.2 }
        ensures answered { FoldAnswers reverse result.2 (pass_in by) (pass_in result.0) }
        ensures ran { WasFoldedWith D.rule self.now (FoldFirst Last) (pass_in by) result.0 Last
            result.2 }
    {
        fold(self, rt, by, Front::Last, state, f)
    }
}

fn fold<T, D: Tie<T>, R: Wait, S, F: Fn(S, T) -> S + Drop>(
    on: &Stack<T, D>,
    rt: &R,
    by: Pass<T>,
    front: Front,
    state: S,
    f: F,
) -> (Pass<T>, S, Result<Folded, TakeRefused>)
    requires pass { IsPassWith D.rule on.now by }
    requires deal { TakeAllDeals (shape_of on.now) D.rule (pass_in by) }
    requires call { F.IsAlwaysCallable f }
    ensures of { IsPassWith D.rule on.now result.0 }
    ensures gives { FoldsAll (call_of on.now by result.0)
        (λ values. Folds (λ s x t. F.post f s x t) state (in_order (direction front) values)
        result.1)
        (result.1 ≡ state) result.2 }
    ensures answered { FoldAnswers (λ values. in_order (direction front) values) result.2
        (pass_in by) (pass_in result.0) }
    ensures ran { WasFoldedWith D.rule on.now (FoldFirst front) (pass_in by) result.0 front
        result.2 }
{
    let table = &on.table.shared;
    let Pass { mut pass, .. } = by;
    let mut at = FoldAt::Load(front);
    let mut folded = state;
    // Each round but the last hands out a value.
    for _done in 0..on.limits.capacity() + 1 {
        let operation = Operation::Fold(front);
        let first = any(table, on, pass, at, &operation);
        let (back, stop) = to_the_end(rt, table, on, first, &operation);
        match stop {
            FoldStop::Yields(value, next) => {
                folded = f(folded, value);
                pass = back;
                at = next;
            }
            FoldStop::Ended(batch, count) => {
                let number = batch.number;
                let pass = Pass {
                    pass: back,
                    kept: (),
                };
                return (pass, folded, Ok(Folded { number, count }));
            }
            FoldStop::Refused(why) => {
                let pass = Pass {
                    pass: back,
                    kept: (),
                };
                return (pass, folded, Err(why));
            }
        }
    }
    unreachable!()
}

// Moves the value out of the front slot held, which becomes the last one.
#[inline]
pub(crate) fn take_out<T, D: Tie<T>>(
    on: &Stack<T, D>,
    by: &mut running::Pass<T, Line<T>>,
    index: u32,
) -> T
    requires table { by.old.seat.table_id ≡ on.now.table.shared.table_id }
    requires full { (x : T) × (by.old.seat.me.1 ≡ (index, Some x) ∷ rest by.old.seat.me.1) }
    ensures table { by.new.seat.table_id ≡ by.old.seat.table_id }
    ensures value { by.old.seat.me.1 ≡ (index, Some result) ∷ rest by.old.seat.me.1 }
    ensures out { by.new.seat.me
        ≡ (by.old.seat.me.0, rest by.old.seat.me.1 ++ (index, None) ∷ []) }
{
    let value = move_out(&on.table.shared, &mut by.seat, index);
    by.seat.turn();
    value
}

impl<T, D: Tie<T>> Code<Stack<T, D>, T, Line<T>, Operation<T>, Stacked<D>, FoldStop<T>, 2>
    for FoldAt<T> {
    ghost use Rattle.treiber_stack.specs.code.Folding.{fold_account};

    ghost account = { fold_account };

    #[inline(always)]
    fn access(&self, on: &Stack<T, D>) -> Access {
        match self {
            FoldAt::Load(_) => Access::LoadTop(STACK_LIST),
            FoldAt::TakeAll(front, top) => Access::TakeAll(STACK_LIST, *top, *front),
            FoldAt::LoadToTurn(_, _, index) => Access::LoadLink(STACK_LIST, *index),
            FoldAt::TurnLink(_, above, index, _) => {
                Access::StoreLink(STACK_LIST, *index, *above as u64)
            }
            FoldAt::LoadToFold(_, walk) => Access::LoadLink(STACK_LIST, walk.index),
            FoldAt::GiveBack(_, chain, _, at) => give_access(on, *chain, at),
        }
    }

    #[inline(always)]
    fn next(
        self,
        on: &Stack<T, D>,
        seat: &mut Seat<Option<T>, View<T, Line<T>>>,
        outcome: Outcome,
    ) -> Next<FoldAt<T>, FoldStop<T>> {
        match self {
            FoldAt::Load(front) => {
                let top = Tagged::from_word(outcome.word);
                match bars_take(on, top) {
                    Some(why) => Next::Done(FoldStop::Refused(why)),
                    None => Next::On(FoldAt::TakeAll(front, top)),
                }
            }
            FoldAt::TakeAll(front, top) => {
                if !outcome.won {
                    return Next::Lost(FoldAt::Load(front));
                }
                let index = top.index();
                let number = top.tag();
                let taken = Snapshot::of(&*seat);
                let batch = Batch {
                    front,
                    number,
                    taken,
                };
                match front {
                    Front::First => {
                        let walk = Walk {
                            first: index,
                            index,
                            count: 0,
                            held: Snapshot::of(&*seat),
                        };
                        Next::On(FoldAt::LoadToFold(batch, walk))
                    }
                    Front::Last => Next::On(FoldAt::LoadToTurn(batch, NULL, index)),
                }
            }
            FoldAt::LoadToTurn(batch, above, index) => {
                Next::On(FoldAt::TurnLink(batch, above, index, outcome.word as u32))
            }
            FoldAt::TurnLink(batch, _, index, below) => {
                if below == NULL {
                    let walk = Walk {
                        first: index,
                        index,
                        count: 0,
                        held: Snapshot::of(&*seat),
                    };
                    return Next::On(FoldAt::LoadToFold(batch, walk));
                }
                Next::On(FoldAt::LoadToTurn(batch, index, below))
            }
            FoldAt::LoadToFold(batch, walk) => {
                // The step hands out the node's value, and its slot becomes the last one.
                let value = move_out(&on.table.shared, seat, walk.index);
                seat.turn();
                let next = outcome.word as u32;
                let Walk {
                    first,
                    index,
                    count,
                    held: _,
                } = walk;
                let count = count + 1;
                if next == NULL {
                    let chain = Chain { first, last: index };
                    let at = FoldAt::GiveBack(batch, chain, count, Give::Load);
                    return Next::Done(FoldStop::Yields(value, at));
                }
                let walk = Walk {
                    first,
                    index: next,
                    count,
                    held: Snapshot::of(&*seat),
                };
                Next::Done(FoldStop::Yields(value, FoldAt::LoadToFold(batch, walk)))
            }
            FoldAt::GiveBack(batch, chain, count, at) => match give_next(on, at, outcome) {
                Next::On(at) => Next::On(FoldAt::GiveBack(batch, chain, count, at)),
                Next::Lost(at) => Next::Lost(FoldAt::GiveBack(batch, chain, count, at)),
                Next::Done(()) => Next::Done(FoldStop::Ended(batch, count)),
            },
        }
    }
}
