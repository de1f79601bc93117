//! A pass of any container, with a share of it.
ghost use Rattle.std.specs.Prelude.{◌≡◌, None};
ghost use Rattle.bounded_model.specs.declared.commands.Command.TheVariants.{Look, Put, Take};
ghost use Rattle.lockfree_c.specs.Calls.{IsWorked, MakesSome};
ghost use Rattle.lockfree_c.specs.Passes.{IsPass, PassBegan, PassCalled, PassTried, PassWentOn};
ghost use Rattle.lockfree_c.specs.declared.work.UnderWay.TheVariants.{Nothing};

use crate::answers::{Answer, NO_CALL, UNDER_WAY};
use crate::calls::{AtOnce, BeginsAny, Counts, Gauges, Tries};
use crate::stage::Stage;
use crate::work::UnderWay;
use bounded_model::{Command, Stepped};
use running::aside;
use std::alloc::Global;
use std::mem;
use std::sync::Arc;

/// A container's pass, with a share of the container. So the pass is used with no other container.
#[derive(Drop)]
pub struct PassOf<C, P, O, W> {
    pub container: Arc<C, Global>,
    pub stage: Stage<P, O, W>,
}

impl<C: AtOnce> PassOf<C, C::Pass, C::Operation, C::Work> {
    /// Puts a value. If the pass is in a call already, nothing changes, and the code is
    /// `UNDER_WAY`.
    #[inline(always)]
    pub fn put(&mut self, value: u64, tries: u64) -> Answer
        requires { IsPass C.reading self.old }
        ensures of { IsPass C.reading self.new }
        ensures gives { PassCalled C.reading (C.steps tries)
            self.old (Put value) self.new result }
    {
        match self.stage.resting.take() {
            Some(by) => match self.container.put_at_once(by, value) {
                Stepped::Done(by, said) => self.stage.rest(by, said),
                Stepped::Again(operation) => {
                    aside();
                    // Nothing is under way, so nothing is there to be dropped. An assignment would
                    // drop it all the same, and hold the call in memory of its own until then.
                    mem::forget(mem::replace(&mut self.stage.under_way, UnderWay::Call(operation)));
                    self.go_on(tries)
                }
            },
            None => {
                aside();
                Answer::of(UNDER_WAY)
            }
        }
    }

    /// Takes a value. If the pass is in a call already, nothing changes, and the code is
    /// `UNDER_WAY`.
    #[inline(always)]
    pub fn take(&mut self, tries: u64) -> Answer
        requires { IsPass C.reading self.old }
        ensures of { IsPass C.reading self.new }
        ensures gives { PassCalled C.reading (C.steps tries)
            self.old Take self.new result }
    {
        match self.stage.resting.take() {
            Some(by) => match self.container.take_at_once(by) {
                Stepped::Done(by, said) => self.stage.rest(by, said),
                Stepped::Again(operation) => {
                    aside();
                    // As in `put`.
                    mem::forget(mem::replace(&mut self.stage.under_way, UnderWay::Call(operation)));
                    self.go_on(tries)
                }
            },
            None => {
                aside();
                Answer::of(UNDER_WAY)
            }
        }
    }

    /// Looks. If the pass is in a call already, nothing changes, and the code is `UNDER_WAY`.
    #[inline(always)]
    pub fn look(&mut self, tries: u64) -> Answer
        requires { IsPass C.reading self.old }
        ensures of { IsPass C.reading self.new }
        ensures gives { PassCalled C.reading (C.steps tries)
            self.old Look self.new result }
    {
        match self.stage.resting.take() {
            Some(by) => match self.container.look_at_once(by) {
                Stepped::Done(by, said) => self.stage.rest(by, said),
                Stepped::Again(operation) => {
                    self.stage.under_way = UnderWay::Call(operation);
                    self.go_on(tries)
                }
            },
            None => Answer::of(UNDER_WAY),
        }
    }
}

impl<C: BeginsAny> PassOf<C, C::Pass, C::Operation, C::Work> {
    /// Makes any call, with no fast path. If the pass is in one already, nothing changes, and the
    /// code is `UNDER_WAY`.
    pub fn call(&mut self, command: Command<u64>, tries: u64) -> Answer
        requires { IsPass C.reading self.old }
        ensures of { IsPass C.reading self.new }
        ensures gives { PassCalled C.reading (C.steps tries)
            self.old command self.new result }
    {
        match self.stage.resting.take() {
            Some(by) => {
                let operation = self.container.begin(by, command);
                self.try_on(operation, tries)
            }
            None => Answer::of(UNDER_WAY),
        }
    }
}

impl<C: Tries> PassOf<C, C::Pass, C::Operation, C::Work> {
    // Continues a call of this pass.
    fn try_on(&mut self, operation: C::Operation, tries: u64) -> Answer
        requires free { (self.old.stage.resting ≡ None) × (self.old.stage.under_way ≡ Nothing) }
        requires made { MakesSome (C.reading self.old.container.value) operation }
        ensures of { IsPass C.reading self.new }
        ensures gives { PassTried C.reading (C.steps tries)
            self.old operation self.new result }
    {
        let made = self.container.try_on(operation, tries);
        self.stage.leave(made)
    }

    /// Continues what the pass has under way. If it has nothing under way, the code is `NO_CALL`. A
    /// function of its own, which finds the call in its place, so that a call on its fast path has
    /// no locals for it and need not clear them.
    #[inline(never)]
    pub fn go_on(&mut self, tries: u64) -> Answer
        requires { IsPass C.reading self.old }
        ensures of { IsPass C.reading self.new }
        ensures gives { PassWentOn C.reading tries (C.steps tries)
            self.old self.new result }
    {
        match mem::replace(&mut self.stage.under_way, UnderWay::Nothing) {
            UnderWay::Nothing => Answer::of(NO_CALL),
            UnderWay::Call(operation) => self.try_on(operation, tries),
            UnderWay::Work(work) => {
                let made = self.container.work_on(work, tries);
                self.stage.settle(made)
            }
        }
    }
}

impl<C: Gauges> PassOf<C, C::Pass, C::Operation, C::Work> {
    /// Gauges the container. If the pass is in a call already, nothing changes, and the code is
    /// `UNDER_WAY`.
    pub fn gauge(&mut self, tries: u64) -> Answer
        requires { IsPass C.reading self.old }
        ensures of { IsPass C.reading self.new }
        ensures gives { PassBegan C.reading (C.gauges self.old.container.value tries)
            self.old self.new result }
    {
        match self.stage.resting.take() {
            Some(by) => {
                let made = self.container.gauge_for(by, tries);
                self.stage.settle(made)
            }
            None => Answer::of(UNDER_WAY),
        }
    }
}

impl<C: Counts> PassOf<C, C::Pass, C::Operation, C::Work> {
    /// Counts the values. If the pass is in a call already, nothing changes, and the code is
    /// `UNDER_WAY`.
    pub fn count(&mut self, tries: u64) -> Answer
        requires { IsPass C.reading self.old }
        ensures of { IsPass C.reading self.new }
        ensures gives { PassBegan C.reading (C.counts self.old.container.value tries)
            self.old self.new result }
    {
        match self.stage.resting.take() {
            Some(by) => {
                let made = self.container.count_for(by, tries);
                self.stage.settle(made)
            }
            None => Answer::of(UNDER_WAY),
        }
    }
}
