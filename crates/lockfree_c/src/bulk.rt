//! Folds and ranges of a stack's pass. One compare-and-swap takes or puts all their values.
ghost use Rattle.std.specs.Prelude.{◌≡◌, []};
ghost use Rattle.bounded_model.specs.Stepping.{no_step};
ghost use Rattle.running.specs.Ops.{underway_of};
ghost use Rattle.treiber_stack.specs.Bulk.{IsFolding};
ghost use Rattle.treiber_stack.specs.Calls.{IsPassOf, machine_of, pass_in};
ghost use Rattle.lockfree_c.specs.Bulk.{Continues, PassCopied, PassFolded, front_from};
ghost use Rattle.lockfree_c.specs.Passes.{IsPass};
ghost use Rattle.lockfree_c.specs.Stacks.{Copied, stack_reading};

use crate::answers::{Answer, UNDER_WAY};
use crate::calls::{StackWork, copy_on, fold_on};
use crate::held::StackPass;
use crate::work::{Said, UnderWay, Worked};
use bounded_model::Stepped;
use std::mem;
use treiber_stack::{FoldOp, Pass, Stack};

// A fold that makes no step yet.
fn first(stack: &Stack<u64>, by: Pass<u64>, reversed: bool) -> FoldOp<u64>
    requires { IsPassOf stack.now by }
    ensures { IsFolding stack.now (front_from reversed) [] result
        × (underway_of (machine_of stack.now) result.pass ≡ no_step (pass_in by)) }
{
    if reversed {
        stack.begin_fold_reversed(by)
    } else {
        stack.begin_fold(by)
    }
}

// A put of these values, begun and tried.
fn copy(
    stack: &Stack<u64>,
    by: Pass<u64>,
    values: &[u64],
    tries: u64,
) -> Worked<StackWork, Pass<u64>>
    requires { IsPassOf stack.now by }
    ensures { Copied stack.now tries values.now (pass_in by) result }
{
    match stack.begin_copies(by, values) {
        Stepped::Again(op) => copy_on(stack, op, values, tries),
        Stepped::Done(by, said) => Worked::Done(by, Said::Range(said)),
    }
}

impl StackPass {
    /// Folds all values. If the pass is in a call already, nothing changes, and the code is
    /// `UNDER_WAY`.
    pub fn fold(&mut self, reversed: bool, tries: u64) -> Answer
        requires { IsPass stack_reading self.old }
        ensures of { IsPass stack_reading self.new }
        ensures gives { PassFolded tries self.old (front_from reversed) self.new result }
    {
        match self.stage.resting.take() {
            Some(by) => {
                let op = first(&self.container, by, reversed);
                let made = fold_on(&self.container, op, tries);
                self.stage.settle(made)
            }
            None => Answer::of(UNDER_WAY),
        }
    }

    /// Puts these values as a range, or continues their put. If the pass is in another call,
    /// nothing changes, and the code is `UNDER_WAY`.
    pub fn put_copies(&mut self, values: &[u64], tries: u64) -> Answer
        requires pass { IsPass stack_reading self.old }
        requires same { Continues self.old values.now }
        ensures of { IsPass stack_reading self.new }
        ensures gives { PassCopied tries self.old values.now self.new result }
    {
        if let Some(by) = self.stage.resting.take() {
            let made = copy(&self.container, by, values, tries);
            return self.stage.settle(made);
        }
        match mem::replace(&mut self.stage.under_way, UnderWay::Nothing) {
            UnderWay::Work(StackWork::Copy(op)) => {
                let made = copy_on(&self.container, op, values, tries);
                self.stage.settle(made)
            }
            other => {
                self.stage.under_way = other;
                Answer::of(UNDER_WAY)
            }
        }
    }
}
