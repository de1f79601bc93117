//! What a line does at the place of its letter.

ghost use Rattle.std.specs.Prelude.{◌≡◌, ℕ, IfOk, List, [], ◌∷◌};
ghost use Rattle.bounded_model.specs.declared.commands.Command.{Command};
ghost use Rattle.bounded_model.specs.Calls.{CallGives};
ghost use Rattle.bounded_model.specs.Stepping.{Underway, no_step};
ghost use Rattle.player.specs.Plays.{Acting, ActingTold, IsFor, Meaning, RestingTold, StepsTold, Told};
ghost use Rattle.player.specs.Shows.{Holds, Shows, StepOf, reading_of};
ghost use Rattle.player.specs.declared.place.Place.TheVariants.{Acting as AtWork};
ghost use Rattle.player.specs.Traces.{ActingLines, CallLines, IsCounted, PlaceLines, RestingLines, StepLine, Traces};
ghost use Rattle.script.specs.declared.line.Act.TheVariants.{Meet, Step};
ghost use Rattle.script.specs.declared.line.PassName.{PassName};

use crate::place::{Begun, Place};
use crate::ranges::Ranges;
use crate::trace::{MadeStep, Trace};
use bounded_model::{Command, Reply, Stepped};
use script::{Act, Answer, Value};
use std::alloc::{AllocError, Global};
use std::sync::Wait;
use step_names::Named;

/// Does what a line other than a meet says, with what its letter names. Returns what it names then.
pub fn act_at<'a, G: Ranges<'a, C>, C: Named<Value<'a>>, R: Wait>(
    container: &C,
    rt: &R,
    alloc: Global,
    place: Place<C::Pass, C::Op>,
    act: Act<'a>,
    trace: &mut Trace,
) -> Result<(Place<C::Pass, C::Op>, Answer<'a>), AllocError>
    requires place { (found : Meaning) × Shows (reading_of C.Container C.Stepwise.own container.now)
        place found }
    requires alone { (other : PassName) → ¬ (act ≡ Meet other) }
    requires fits { IsFor (C.shape container.now).order act }
    ensures told { (found : Meaning) → Shows (reading_of C.Container C.Stepwise.own container.now)
        place found → IfOk result (λ done. (after : Meaning)
        × Shows (reading_of C.Container C.Stepwise.own container.now) done.0 after
        × Told (C.shape container.now) found act.entry done.1 after) }
    ensures traced { IfOk result (λ done. Traces trace.old trace.new
        (λ lines. PlaceLines (reading_of C.Container C.Stepwise.own container.now) C.is_step
        trace.old.pass place act.entry done.1 lines done.0)) }
{
    match held(container, place) {
        Place::Nobody => Ok((Place::Nobody, Answer::NoPass)),
        Place::Resting(pass) => act_resting::<G, _, _>(container, rt, alloc, pass, act, trace),
        Place::Acting(begun) => act_begun(container, begun, act, trace),
    }
}

/// The same place. In each arm of a match on it the prover knows what it holds, so that it proves by
/// itself what the arm's call requires.
fn held<'a, C: Named<Value<'a>>>(
    _container: &C,
    place: Place<C::Pass, C::Op>,
) -> Place<C::Pass, C::Op>
    requires { (found : Meaning) × Shows (reading_of C.Container C.Stepwise.own _container.now)
        place found }
    ensures same { result ≡ place }
    ensures held { Holds (reading_of C.Container C.Stepwise.own _container.now) result }
{
    place
}

/// Does the same with a pass between its calls.
fn act_resting<'a, G: Ranges<'a, C>, C: Named<Value<'a>>, R: Wait>(
    container: &C,
    rt: &R,
    alloc: Global,
    pass: C::Pass,
    act: Act<'a>,
    trace: &mut Trace,
) -> Result<(Place<C::Pass, C::Op>, Answer<'a>), AllocError>
    requires pass { C.is_pass container.now pass }
    requires alone { (other : PassName) → ¬ (act ≡ Meet other) }
    requires fits { IsFor (C.shape container.now).order act }
    ensures told { IfOk result (λ done. (after : Meaning)
        × Shows (reading_of C.Container C.Stepwise.own container.now) done.0 after
        × RestingTold (C.shape container.now) (C.pass pass) act.entry done.1 after) }
    ensures traced { IfOk result (λ done. Traces trace.old trace.new
        (λ lines. RestingLines (reading_of C.Container C.Stepwise.own container.now) C.is_step
        trace.old.pass pass act.entry done.1 lines done.0)) }
{
    match act {
        Act::Call(command) => {
            let (pass, reply) = make_call(container, rt, pass, command, trace)?;
            Ok((Place::Resting(pass), Answer::Call(reply)))
        }
        Act::Begin(command) => {
            let operation = begin(container, pass, command);
            let begun = Begun {
                operation,
                steps: 0,
            };
            Ok((Place::Acting(begun), Answer::Begun))
        }
        Act::Range(values) => {
            let (pass, reply, kept) = G::range(container, rt, alloc, pass, values)?;
            trace.add_whole("range")?;
            Ok((Place::Resting(pass), Answer::Range(reply, kept)))
        }
        Act::Fold => {
            let (pass, told) = G::fold(container, rt, alloc, pass, false)?;
            trace.add_whole("fold")?;
            Ok((Place::Resting(pass), Answer::Fold(told)))
        }
        Act::ReversedFold => {
            let (pass, told) = G::fold(container, rt, alloc, pass, true)?;
            trace.add_whole("rfold")?;
            Ok((Place::Resting(pass), Answer::ReversedFold(told)))
        }
        Act::Step(_) => Ok((Place::Resting(pass), Answer::NothingBegun)),
        Act::Drop => Ok((Place::Resting(pass), Answer::NothingBegun)),
        Act::Meet(_) => unreachable!(),
    }
}

/// Makes a whole call. If a trace is kept, it makes the call by steps, so that each has its line.
fn make_call<'a, C: Named<Value<'a>>, R: Wait>(
    container: &C,
    rt: &R,
    by: C::Pass,
    command: Command<Value<'a>>,
    trace: &mut Trace,
) -> Result<(C::Pass, Reply<Value<'a>>), AllocError>
    requires { C.is_pass container.now by }
    ensures of { IfOk result (λ done. C.is_pass container.now done.0) }
    ensures gives { IfOk result (λ done. CallGives (C.shape container.now)
        (C.pass by) command.entry (C.pass done.0) done.1) }
    ensures traced { IfOk result (λ done. Traces trace.old trace.new (CallLines
        (reading_of C.Container C.Stepwise.own container.now) C.is_step trace.old.pass command.entry
        by done.0 done.1)) }
{
    if !trace.is_kept() {
        return Ok(call_whole(container, rt, by, command));
    }
    let mut operation = begin(container, by, command);
    let mut made: u64 = 0;
    for _ in rt.forever() {
        made = made.saturating_add(1);
        match make_step(container, operation, made, trace)? {
            Stepped::Again(next) => operation = next,
            Stepped::Done(pass, reply) => return Ok((pass, reply)),
        }
    }
    unreachable!()
}

/// Begins a call of any kind.
fn begin<'a, C: Named<Value<'a>>>(container: &C, by: C::Pass, command: Command<Value<'a>>) -> C::Op
    requires { C.is_pass container.now by }
    ensures call { C.is_making container.now command.entry result }
    ensures begun { C.making result ≡ no_step (C.pass by) }
{
    match command {
        Command::Put(value) => container.begin_put(by, value),
        Command::Take => container.begin_take(by),
        Command::Close => container.begin_close(by),
        Command::Shut => container.begin_shut(by),
        Command::Look => container.begin_look(by),
    }
}

/// Makes a whole call as the container makes it.
fn call_whole<'a, C: Named<Value<'a>>, R: Wait>(
    container: &C,
    rt: &R,
    by: C::Pass,
    command: Command<Value<'a>>,
) -> (C::Pass, Reply<Value<'a>>)
    requires { C.is_pass container.now by }
    ensures of { C.is_pass container.now result.0 }
    ensures gives { CallGives (C.shape container.now)
        (C.pass by) command.entry (C.pass result.0) result.1 }
{
    match command {
        Command::Put(value) => {
            let (pass, answer) = container.put(rt, by, value);
            (pass, Reply::Put(answer))
        }
        Command::Take => {
            let (pass, answer) = container.take(rt, by);
            (pass, Reply::Take(answer))
        }
        Command::Close => {
            let (pass, closed) = container.close(rt, by);
            (pass, Reply::Close(closed))
        }
        Command::Shut => {
            let (pass, shut) = container.shut(rt, by);
            (pass, Reply::Shut(shut))
        }
        Command::Look => {
            let (pass, is_empty) = container.look(rt, by);
            (pass, Reply::Look(is_empty))
        }
    }
}

/// Makes one step of a call, its step of this number, and adds it to the trace.
fn make_step<'a, C: Named<Value<'a>>>(
    container: &C,
    operation: C::Op,
    number: u64,
    trace: &mut Trace,
) -> Result<Stepped<C::Op, C::Pass, Reply<Value<'a>>>, AllocError>
    requires { (call : Command (List ℕ)) × C.is_making container.now call operation }
    ensures gives { (call : Command (List ℕ)) → C.is_making container.now call operation
        → IfOk result (StepOf (reading_of C.Container C.Stepwise.own container.now) call operation) }
    ensures traced { IfOk result (λ stepped. Traces trace.old trace.new (λ lines. (line : List ℕ)
        × (lines ≡ line ∷ []) × StepLine (reading_of C.Container C.Stepwise.own container.now)
        C.is_step trace.old.pass number operation stepped line)) }
{
    if !trace.is_kept() {
        return Ok(container.step(operation));
    }
    let name = C::step_name(&operation);
    let stepped = container.step(operation);
    let next = match &stepped {
        Stepped::Again(next) => Some(C::step_name(next)),
        Stepped::Done(_, _) => None,
    };
    let outcome = name.outcome(next);
    trace.add_step(MadeStep {
        number,
        name,
        outcome,
    })?;
    Ok(stepped)
}

/// Does the same with a pass in the middle of a call. If the pass is dropped, so is its operation.
fn act_begun<'a, C: Named<Value<'a>>>(
    container: &C,
    begun: Begun<C::Op>,
    act: Act<'a>,
    trace: &mut Trace,
) -> Result<(Place<C::Pass, C::Op>, Answer<'a>), AllocError>
    requires { (call : Command (List ℕ))
        × C.is_making container.now call begun.operation }
    ensures told { (call : Command (List ℕ)) (u : Underway (List ℕ))
        → Shows (reading_of C.Container C.Stepwise.own container.now) (AtWork begun) (Acting call u)
        → IfOk result (λ done. (after : Meaning)
        × Shows (reading_of C.Container C.Stepwise.own container.now) done.0 after
        × ActingTold (C.shape container.now) call u act.entry done.1 after) }
    ensures traced { IsCounted (reading_of C.Container C.Stepwise.own container.now) begun
        → IfOk result (λ done. Traces trace.old trace.new (λ lines. (call : Command (List ℕ))
        → C.is_making container.now call begun.operation
        → ActingLines (reading_of C.Container C.Stepwise.own container.now) C.is_step trace.old.pass
        call begun act.entry done.1 lines done.0)) }
{
    match act {
        Act::Step(count) => make_steps(container, begun, count, trace),
        Act::Drop => Ok((Place::Nobody, Answer::Dropped)),
        _ => Ok((Place::Acting(begun), Answer::Busy)),
    }
}

/// Makes `count` steps of a call, or fewer if it ends.
fn make_steps<'a, C: Named<Value<'a>>>(
    container: &C,
    begun: Begun<C::Op>,
    count: u16,
    trace: &mut Trace,
) -> Result<(Place<C::Pass, C::Op>, Answer<'a>), AllocError>
    requires { (call : Command (List ℕ))
        × C.is_making container.now call begun.operation }
    ensures told { (call : Command (List ℕ)) (u : Underway (List ℕ))
        → Shows (reading_of C.Container C.Stepwise.own container.now) (AtWork begun) (Acting call u)
        → IfOk result (λ done. (after : Meaning)
        × Shows (reading_of C.Container C.Stepwise.own container.now) done.0 after
        × StepsTold (C.shape container.now) call u count done.1 after) }
    ensures traced { IsCounted (reading_of C.Container C.Stepwise.own container.now) begun
        → IfOk result (λ done. Traces trace.old trace.new (λ lines. (call : Command (List ℕ))
        → C.is_making container.now call begun.operation
        → ActingLines (reading_of C.Container C.Stepwise.own container.now) C.is_step trace.old.pass
        call begun (Step count) done.1 lines done.0)) }
{
    let Begun {
        mut operation,
        steps,
    } = begun;
    let mut made = 0;
    while made < u64::from(count) {
        made += 1;
        let number = steps.saturating_add(made);
        match make_step(container, operation, number, trace)? {
            Stepped::Again(next) => operation = next,
            Stepped::Done(pass, reply) => {
                return Ok((Place::Resting(pass), Answer::Ended(reply, number)));
            }
        }
    }
    let steps = steps.saturating_add(made);
    let place = Place::Acting(Begun { operation, steps });
    Ok((place, Answer::Again(steps)))
}
