//! The root of a container and the passes that a script names, and what each line does with them.

ghost use Rattle.std.specs.Prelude.{◌≡◌, ◌≢◌, ◌-◌, if◌then◌else◌, ℕ, List, IsTrue, IfOk, length, slice_set};
ghost use Rattle.std.specs.Char.{is_ascii_lowercase};
ghost use Rattle.bounded_model.specs.declared.views.RootView.{RootView};
ghost use Rattle.player.specs.Plays.{Acts, Does, DoesMeet, Ends, IsFor, JoinsAll, MeetTold, Meaning, World};
ghost use Rattle.player.specs.Shows.{CanAct, Found, IsOn, Shows, ShowsAll, reading_of};
ghost use Rattle.player.specs.Traces.{ActsTraced, AreKept, DoesTraced, IsFound, IsKept, Traces, held_by};
ghost use Rattle.player.specs.declared.place.Place.TheVariants.{Nobody};
ghost use Rattle.script.specs.declared.answer.Answer.TheVariants.{Met, NoPass};
ghost use Rattle.script.specs.declared.line.Act.TheVariants.{Meet};
ghost use Rattle.script.specs.declared.line.PassName.{PassName};

use crate::acts::act_at;
use crate::place::{Place, Places};
use crate::ranges::Ranges;
use crate::trace::Trace;
use bounded_model::Leaving;
use script::{Act, Answer, PassName, Value, ValueList};
use std::alloc::{AllocError, Global};
use std::collections::VecDeque;
use std::sync::Wait;
use step_names::Named;

/// The root of a container, and what each letter names. Its allocator keeps the values of ranges
/// and folds.
#[derive(Drop)]
pub struct Stage<R, P, O> {
    pub alloc: Global,
    pub root: R,
    pub places: Places<P, O>,
}

impl<R: Drop, P: Drop, O: Drop> Stage<R, P, O> {
    ghost use Rattle.std.specs.Prelude.{◌≡◌, IfOk, replicate};
    ghost use Rattle.player.specs.declared.place.Place.TheVariants.{Nobody};

    /// No letter names a pass.
    pub fn new(alloc: Global, root: R) -> Result<Stage<R, P, O>, AllocError>
        ensures root { IfOk result (λ stage. stage.root ≡ root) }
        ensures places { IfOk result (λ stage. stage.places.of.items ≡ replicate 26 Nobody) }
    {
        let places = Places::new(alloc)?;
        Ok(Stage {
            alloc,
            root,
            places,
        })
    }
}

/// Takes what a letter names out of its place. A letter that names nobody gets a new pass, if one
/// can be had.
fn find<'a, C: Named<Value<'a>>>(
    container: &C,
    stage: &mut Stage<C::Root, C::Pass, C::Op>,
    name: PassName,
) -> Place<C::Pass, C::Op>
    requires on { (world : World) × IsOn (reading_of C.Container C.Stepwise.own container.now)
        stage.old world }
    requires name { IsTrue (is_ascii_lowercase name.0) }
    ensures found { (world : World) → IsOn (reading_of C.Container C.Stepwise.own container.now)
        stage.old world → Found (reading_of C.Container C.Stepwise.own container.now) world name.0
        stage.new result }
    ensures on { (world : World) × IsOn (reading_of C.Container C.Stepwise.own container.now)
        stage.new world }
    ensures shows { (found : Meaning) × Shows (reading_of C.Container C.Stepwise.own container.now)
        result found }
    ensures same { IsFound (held_by stage.old.places.of.items name.0) result }
    ensures places { stage.new.places.of.items
        ≡ slice_set stage.old.places.of.items (name.0 - 97) Nobody }
{
    match stage.places.exchange(name, Place::Nobody) {
        Place::Nobody => match container.split(&mut stage.root) {
            Some(pass) => Place::Resting(pass),
            None => Place::Nobody,
        },
        place => place,
    }
}

/// Puts back what a letter names.
fn keep<R: Drop, P: Drop, O: Drop>(stage: &mut Stage<R, P, O>, name: PassName, place: Place<P, O>)
    requires { IsTrue (is_ascii_lowercase name.0) }
    ensures root { stage.new.root ≡ stage.old.root }
    ensures places { stage.new.places.of.items
        ≡ slice_set stage.old.places.of.items (name.0 - 97) place }
{
    stage.places.exchange(name, place);
}

/// Does what a line of the trace's pass says, adds the steps that are made to the trace, and returns
/// the reply.
pub fn act<'a, G: Ranges<'a, C>, C: Named<Value<'a>>, R: Wait>(
    container: &C,
    rt: &R,
    stage: &mut Stage<C::Root, C::Pass, C::Op>,
    act: Act<'a>,
    trace: &mut Trace,
) -> Result<Answer<'a>, AllocError>
    requires { CanAct C.Container C.Stepwise.own container.now stage.old trace.old.pass.0 act }
    ensures acts { (world : World) → IsOn (reading_of C.Container C.Stepwise.own container.now)
        stage.old world → IfOk result (λ answer. (next : World)
        × IsOn (reading_of C.Container C.Stepwise.own container.now) stage.new next
        × Acts (C.shape container.now) world trace.old.pass.0 act.entry answer next) }
    ensures traced { (world : World) → IsOn (reading_of C.Container C.Stepwise.own container.now)
        stage.old world → IfOk result (λ answer. Traces trace.old trace.new (λ lines. (next : World)
        × IsOn (reading_of C.Container C.Stepwise.own container.now) stage.new next
        × ActsTraced (reading_of C.Container C.Stepwise.own container.now) C.is_step world
        stage.old.places.of.items trace.old.pass act.entry answer lines next
        stage.new.places.of.items)) }
{
    let name = trace.pass;
    match act {
        Act::Meet(other) => {
            let other = other_letter(name, other);
            Ok(meet(container, stage, name, other))
        }
        act => act_alone::<G, _, _>(container, rt, stage, name, act, trace),
    }
}

/// The same other letter. As with `held`, the prover then knows what the next call requires.
fn other_letter(name: PassName, other: PassName) -> PassName
    requires { IsTrue (is_ascii_lowercase other.0) × (name.0 ≢ other.0) }
    ensures same { result ≡ other }
    ensures apart { IsTrue (is_ascii_lowercase result.0) × (name.0 ≢ result.0) }
{
    other
}

/// Does it at the place of its letter.
fn act_alone<'a, G: Ranges<'a, C>, C: Named<Value<'a>>, R: Wait>(
    container: &C,
    rt: &R,
    stage: &mut Stage<C::Root, C::Pass, C::Op>,
    name: PassName,
    act: Act<'a>,
    trace: &mut Trace,
) -> Result<Answer<'a>, AllocError>
    requires on { (world : World) × IsOn (reading_of C.Container C.Stepwise.own container.now)
        stage.old world }
    requires small { IsTrue (is_ascii_lowercase name.0) }
    requires fits { IsFor (C.shape container.now).order act }
    requires alone { (other : PassName) → ¬ (act ≡ Meet other) }
    ensures acts { (world : World) → IsOn (reading_of C.Container C.Stepwise.own container.now)
        stage.old world → IfOk result (λ answer. (next : World)
        × IsOn (reading_of C.Container C.Stepwise.own container.now) stage.new next
        × Does (C.shape container.now) world name.0 act.entry answer next) }
    ensures traced { (world : World) → IsOn (reading_of C.Container C.Stepwise.own container.now)
        stage.old world → trace.old.pass ≡ name → IfOk result
        (λ answer. Traces trace.old trace.new (λ lines. (next : World)
        × IsOn (reading_of C.Container C.Stepwise.own container.now) stage.new next
        × DoesTraced (reading_of C.Container C.Stepwise.own container.now) C.is_step world
        stage.old.places.of.items name act.entry answer lines next stage.new.places.of.items)) }
{
    let place = find(container, stage, name);
    let alloc = stage.alloc;
    let (place, answer) = act_at::<G, _, _>(container, rt, alloc, place, act, trace)?;
    keep(stage, name, place);
    Ok(answer)
}

/// Two passes meet, if both are there and between their calls.
fn meet<'a, C: Named<Value<'a>>>(
    container: &C,
    stage: &mut Stage<C::Root, C::Pass, C::Op>,
    name: PassName,
    other: PassName,
) -> Answer<'a>
    requires on { (world : World) × IsOn (reading_of C.Container C.Stepwise.own container.now)
        stage.old world }
    requires name { IsTrue (is_ascii_lowercase name.0) }
    requires other { IsTrue (is_ascii_lowercase other.0) × (name.0 ≢ other.0) }
    ensures meets { (world : World) → IsOn (reading_of C.Container C.Stepwise.own container.now)
        stage.old world → (next : World)
        × IsOn (reading_of C.Container C.Stepwise.own container.now) stage.new next
        × DoesMeet (C.shape container.now) world name.0 other.0 result next }
    ensures kept { AreKept stage.old.places.of.items stage.new.places.of.items }
{
    let first = find(container, stage, name);
    if let Place::Nobody = first {
        return Answer::NoPass;
    }
    let second = find(container, stage, other);
    let (first, second, answer) = meet_at(container, first, second);
    keep(stage, name, first);
    keep(stage, other, second);
    answer
}

/// Has what two letters name meet. The first names somebody.
fn meet_at<'a, C: Named<Value<'a>>>(
    container: &C,
    first: Place<C::Pass, C::Op>,
    second: Place<C::Pass, C::Op>,
) -> (Place<C::Pass, C::Op>, Place<C::Pass, C::Op>, Answer<'a>)
    requires first { (found : Meaning) × Shows (reading_of C.Container C.Stepwise.own container.now)
        first found }
    requires second { (found : Meaning) × Shows (reading_of C.Container C.Stepwise.own container.now)
        second found }
    ensures meets { (one two : Meaning) → Shows (reading_of C.Container C.Stepwise.own container.now)
        first one → Shows (reading_of C.Container C.Stepwise.own container.now) second two
        → (after : Meaning) × Shows (reading_of C.Container C.Stepwise.own container.now) result.0
        after × Shows (reading_of C.Container C.Stepwise.own container.now) result.1 two
        × MeetTold one two result.2 after }
    ensures first_kept { IsKept first result.0 }
    ensures second_kept { IsKept second result.1 }
{
    match (first, second) {
        (Place::Nobody, second) => (Place::Nobody, second, Answer::NoPass),
        (first, Place::Nobody) => (first, Place::Nobody, Answer::NoPass),
        (Place::Resting(mut pass), Place::Resting(by)) => {
            let (by, has_met) = container.meet(&mut pass, by);
            (
                Place::Resting(pass),
                Place::Resting(by),
                answer_to_meet(has_met),
            )
        }
        (Place::Resting(pass), Place::Acting(begun)) => {
            (Place::Resting(pass), Place::Acting(begun), Answer::Busy)
        }
        (Place::Acting(begun), Place::Resting(pass)) => {
            (Place::Acting(begun), Place::Resting(pass), Answer::Busy)
        }
        (Place::Acting(begun), Place::Acting(other)) => {
            (Place::Acting(begun), Place::Acting(other), Answer::Busy)
        }
    }
}

fn answer_to_meet<'a>(has_met: bool) -> Answer<'a>
    ensures { result ≡ (if has_met then Met else NoPass) }
{
    if has_met { Answer::Met } else { Answer::NoPass }
}

/// Joins the passes that are between their calls, in the order of the letters, and drops the rest.
fn join_all<'a, C: Named<Value<'a>>>(
    container: &C,
    root: &mut C::Root,
    places: Places<C::Pass, C::Op>,
)
    requires root { C.is_root container.now root.old }
    requires places { (names : List Meaning)
        × ShowsAll (reading_of C.Container C.Stepwise.own container.now) places.of.items names }
    ensures root { C.is_root container.now root.new }
    ensures joined { (names : List Meaning)
        → ShowsAll (reading_of C.Container C.Stepwise.own container.now) places.of.items names
        → JoinsAll (C.root root.old) names (C.root root.new) }
{
    let mut left = VecDeque::from(places.of);
    while !left.is_empty() {
        join_first(container, root, &mut left);
    }
}

/// Does it for the first of those that are left. It takes the place itself, so that what it requires
/// is word for word what the loop keeps, which is of all that are left.
fn join_first<'a, C: Named<Value<'a>>>(
    container: &C,
    root: &mut C::Root,
    left: &mut VecDeque<Place<C::Pass, C::Op>>,
)
    requires root { C.is_root container.now root.old }
    requires places { (names : List Meaning)
        × ShowsAll (reading_of C.Container C.Stepwise.own container.now) left.old.items names }
    ensures root { C.is_root container.now root.new }
    ensures places { (names : List Meaning)
        × ShowsAll (reading_of C.Container C.Stepwise.own container.now) left.new.items names }
    ensures joined { (names : List Meaning)
        → ShowsAll (reading_of C.Container C.Stepwise.own container.now) left.old.items names
        → (rest : List Meaning)
        × ShowsAll (reading_of C.Container C.Stepwise.own container.now) left.new.items rest
        × ((s : RootView (List ℕ)) → JoinsAll (C.root root.new) rest s
        → JoinsAll (C.root root.old) names s) }
    ensures fewer { length left.new.items ≡ length left.old.items - 1 }
{
    if let Some(Place::Resting(pass)) = left.pop_front() {
        container.join(root, pass);
    }
}

/// Ends the container, and returns the values that are left.
pub fn finish<'a, C: Named<Value<'a>>>(
    alloc: Global,
    container: C,
    stage: Stage<C::Root, C::Pass, C::Op>,
) -> Result<ValueList<'a>, AllocError>
    requires { (world : World) × IsOn (reading_of C.Container C.Stepwise.own container) stage world }
    ensures { (world : World) → IsOn (reading_of C.Container C.Stepwise.own container) stage world
        → IfOk result (Ends (C.shape container) world) }
{
    let Stage {
        mut root,
        places,
        ..
    } = stage;
    join_all(&container, &mut root, places);
    values_left(alloc, container.finish(root))
}

/// The values that are left, in their order.
fn values_left<'a, L: Leaving<Value<'a>> + Drop>(
    alloc: Global,
    rest: L,
) -> Result<ValueList<'a>, AllocError>
    ensures { IfOk result (λ values. values ≡ L.left rest) }
{
    let mut rest = rest;
    let mut values = ValueList::new(alloc);
    while let Some(value) = rest.next() {
        values.push(value)?;
    }
    Ok(values)
}
