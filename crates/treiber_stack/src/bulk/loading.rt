//! The nodes of a range: the next value goes into the one taken last, and if the range is refused,
//! each value comes out again.
ghost use Rattle.std.specs.Prelude.{◌≡◌, ◌+◌, ◌<◌, ◌≤◌, List};
ghost use Rattle.machine.specs.Seats.{Looks};
ghost use Rattle.running.specs.Passes.{pass_in};
ghost use Rattle.treiber_stack.specs.code.Ranging.{HasTaken, FillsOne, IsNext, IsRefused, Restores, ReadsAgain};
ghost use Rattle.treiber_stack.specs.Calls.{room_of, shape_of};
ghost use Rattle.treiber_stack.specs.declared.code.refusing.Barred.{Barred};

use crate::bulk::folding::take_out;
use crate::bulk::range_steps::Held;
use crate::bulk::source::Source;
use crate::code::giving::Chain;
use crate::life::stack::Stack;
use index_list::put_in;
use running::{Pass, Tie, peek, store_link_step};
use stack_machine::Line;
use stack_table::Operation;
use stack_table::layout::{STACK_LIST, link};
use tagged_index::Tagged;

/// Moves the next value into the slot of the node taken last, and links the node to the one before
/// it.
pub(crate) fn load_node<T, D: Tie<T>>(
    on: &Stack<T, D>,
    by: Pass<T, Line<T>>,
    held: Held,
    index: u32,
    value: T,
    operation: &Operation<T>,
) -> (Pass<T, Line<T>>, Held)
    requires { (vs : List T) × HasTaken D.rule on.now operation.now by vs held index
        × IsNext vs held.count value }
    ensures { (vs : List T) → HasTaken D.rule on.now operation.now by vs held index
        → IsNext vs held.count value
        → FillsOne D.rule on.now operation.now by vs held result.0 result.1 }
{
    let mut pass = by;
    let table = &on.table.shared;
    put_in(table, &mut pass.seat, index, value);
    if held.count == 0 {
        let chain = Chain::of(index);
        return (pass, Held { chain, count: 1 });
    }
    let Chain { first, last } = held.chain;
    let before = first as u64;
    store_link_step(table, &mut pass.seat, STACK_LIST, index, before, operation);
    let chain = Chain { first: index, last };
    let count = held.count + 1;
    (pass, Held { chain, count })
}

/// Moves the values of a refused range back to their source, the last first. It reads the links of
/// the nodes by loads that belong to no line.
pub(crate) fn restore<T, D: Tie<T>, V: Source<T>>(
    on: &Stack<T, D>,
    by: Pass<T, Line<T>>,
    held: Held,
    values: &mut V,
) -> Pass<T, Line<T>>
    requires { (o : Operation T) × (vs : List T) × (why : Barred)
        × IsRefused D.rule on.now o by vs held why × V.left values.old vs held.count }
    ensures restored { (o : Operation T) (vs : List T) (why : Barred)
        → IsRefused D.rule on.now o by vs held why → V.left values.old vs held.count
        → Restores D.rule on.now o by vs held why result × V.left values.new vs 0 }
    ensures took { (pass_in result).steps ≤ (pass_in by).steps + held.count }
    ensures same { V.borrow values.new ≡ V.borrow values.old }
{
    let mut pass = by;
    let mut index = held.chain.first;
    for moved in 0..held.count {
        let place = held.count - 1 - moved;
        let value = take_out(on, &mut pass, index);
        values.put_back(place, value);
        if place > 0 {
            index = read_again(on, &mut pass, index);
        }
    }
    pass
}

// Reads a link of the chain that it gives back next, by a load that belongs to no line.
#[inline]
fn read_again<T, D: Tie<T>>(on: &Stack<T, D>, by: &mut Pass<T, Line<T>>, index: u32) -> u32
    requires { (by.old.seat.table_id ≡ on.now.table.shared.table_id)
        × (index < room_of on.now) }
    ensures seat { (by.new.seat.table_id ≡ by.old.seat.table_id)
        × (by.new.seat.me.1 ≡ by.old.seat.me.1) }
    ensures looks { Looks (shape_of on.now) by.old.seat.me.0 by.new.seat.me.0 }
    ensures took { (pass_in by.new).steps ≤ (pass_in by.old).steps + 1 }
    ensures link { ReadsAgain by.old.seat.me.0 index result }
{
    let found = peek(&on.table.shared, &mut by.seat, link(index));
    Tagged::from_word(found).index()
}
