//! The laws of every container.

ghost use Rattle.std.specs.Prelude.{◌≡◌, ◌∷◌, [], List, MatchOption, IfSome};
ghost use Rattle.bounded_model.specs.declared.history.Event.{Event};
ghost use Rattle.bounded_model.specs.declared.history.Order.{Order};
ghost use Rattle.bounded_model.specs.declared.views.PassView.{PassView};
ghost use Rattle.bounded_model.specs.declared.views.Answered.TheVariants.{
  Take as TakeAnswered,
  Close as CloseAnswered,
  Shut as ShutAnswered,
};
ghost use Rattle.bounded_model.specs.declared.views.RootView.{RootView};
ghost use Rattle.bounded_model.specs.Machine.{Shape, Legal};
ghost use Rattle.bounded_model.specs.Laws.{
  Answers,
  put_answered,
  PassesInRange,
  IsAtRest,
  IsSound,
  IsFullOfPasses,
  PutGives,
  TakeGives,
  CloseGives,
  ShutGives,
  Splits,
  Joins,
  MeetGives,
  Heeds,
  Leaves,
};

use crate::{Order, PutRefused, TakeRefused};
use std::sync::Wait;

/// The fewest passes that a container may allow at one time.
pub const MIN_PASSES: u32 = 2;

/// The most passes that a container may allow at one time. A queue and a stack each allow this
/// many. A container's `shape` says how many it allows.
pub const MAX_PASSES: u32 = 65_535;

// Laws and clauses say the names; this says the numbers.
const _: () = prove!(MIN_PASSES == 2 && MAX_PASSES == 65_535);

/// The values that a container still holds at its end. A queue's come in the order of their puts,
/// and a stack's from the top down.
pub trait Leaving<T> {
    /// The values that `next` has not given yet.
    ghost left: { Self → List T };

    /// The next value, or `None` if no value is left. After a `None` it gives no value again.
    /// Called in `examples::calls`.
    fn next(&mut self) -> Option<T>
        ensures { MatchOption result
            ((left self.old ≡ []) × (left self.new ≡ []))
            (λ v. left self.old ≡ v ∷ left self.new) };
}

/// A bounded container that many threads share. Each thread uses passes of its own.
///
/// A root gives passes, one for each thread, and takes them back. The contract of a call compares
/// what its pass has seen before and after the call. What a pass has seen is a history of the
/// container. The bounded machine allows this history, and it only grows.
///
/// A refusal, and a `false` of `close` or `shut`, was right at some time between the pass's last
/// step before the call and the end of the call.
///
/// A pass or a root is used only with the container that it came from. A call that takes `rt` may
/// retry as long as others interfere. Its contract holds if it returns. Each method names an
/// example crate that calls it.
pub trait Container<T>: Drop {
    type Root: Drop + Send;

    type Pass: Drop + Send;

    /// What a pass had seen when the note was made. A note may be dropped, sent to another thread,
    /// or stored beside a message.
    type Note: Drop + Send;

    type Rest: Leaving<T> + Drop + Send;

    /// In which order values leave.
    const ORDER: Order;

    ghost ORDER: { Order };

    /// Its order, its capacity, the limit of its tags, and how many passes may be out at one time.
    ghost shape: { Self → Shape };

    /// Whether this is a pass of this container, between its calls.
    ghost is_pass: { Self → Self.Pass → Type 0 };

    /// Whether this is the root of this container.
    ghost is_root: { Self → Self.Root → Type 0 };

    /// Whether this is a note of a pass of this container.
    ghost is_note: { Self → Self.Note → Type 0 };

    /// A pass's number, what it has seen, how many steps it has made, and what its calls have
    /// answered.
    ghost pass: { Self.Pass → PassView T };

    /// What a root has seen, how many passes it has given, and what the joined passes have done.
    ghost root: { Self.Root → RootView T };

    /// The history that a note tells.
    ghost told: { Self.Note → List (Event T) };

    /// The capacity that the container was made with: how many values it has room for. Called in
    /// `relay`, before it starts.
    fn capacity(&self) -> u32
        ensures { result ≡ (shape self.now).capacity };

    /// Gives a new pass, which has seen what the root has. `None` exactly if the number of passes
    /// that are out is already the most that the container allows. A queue and a stack allow
    /// [`MAX_PASSES`]. After a `None` nothing has changed. Called in `examples::calls`, and for
    /// many threads in `examples::jobs`.
    fn split(&self, parent: &mut Self::Root) -> Option<Self::Pass>
        requires { is_root self.now parent.old }
        ensures root { is_root self.now parent.new }
        ensures gives { MatchOption result
            ((root parent.new ≡ root parent.old)
            × IsFullOfPasses (shape self.now) (root parent.old))
            (λ p. is_pass self.now p
            × Splits (shape self.now) (root parent.old) (root parent.new) (pass p)) };

    /// Puts one value. Called in `examples::calls`, and again if it is full in `examples::jobs`.
    ///
    /// - `Ok`: the value is put. This is the put's number.
    /// - `Full`: the container was open, and each cell held a value or was in a pass's hand.
    /// - `Closed`: the container was closed.
    /// - `Spent`: the tag of this word allowed no further rise.
    ///
    /// Each refusal hands the value back.
    fn put<R: Wait>(
        &self,
        rt: &R,
        by: Self::Pass,
        value: T,
    ) -> (Self::Pass, Result<u64, PutRefused<T>>)
        requires { is_pass self.now by }
        ensures of { is_pass self.now result.0 }
        ensures gives { PutGives (shape self.now) (pass by) value (pass result.0) result.1 }
        ensures answered { Answers (pass by) (pass result.0) (put_answered result.1) };

    /// Takes one value. Called in `examples::calls`, and until the container is closed in
    /// `examples::jobs`.
    ///
    /// - `Ok`: the value, and the take's number.
    /// - `Empty`: the container held no value, and it was neither closed nor shut.
    /// - `Closed`: the container held no value, and it was closed but not shut.
    /// - `Shut`: the container was shut.
    /// - `Spent`: the tag of this word allowed no further rise, and the container was not shut.
    fn take<R: Wait>(&self, rt: &R, by: Self::Pass) -> (Self::Pass, Result<(T, u64), TakeRefused>)
        requires { is_pass self.now by }
        ensures of { is_pass self.now result.0 }
        ensures gives { TakeGives (shape self.now) (pass by) (pass result.0) result.1 }
        ensures answered { Answers (pass by) (pass result.0) (TakeAnswered result.1) };

    /// Closes the container: no put follows. Returns true if this call closed it, and false if it
    /// was closed already. Called in `examples::closing`.
    fn close<R: Wait>(&self, rt: &R, by: Self::Pass) -> (Self::Pass, bool)
        requires { is_pass self.now by }
        ensures of { is_pass self.now result.0 }
        ensures gives { CloseGives (shape self.now) (pass by) (pass result.0) result.1 }
        ensures answered { Answers (pass by) (pass result.0) (CloseAnswered result.1) };

    /// Shuts the container: no take follows, but puts may follow until it is closed. Returns true
    /// if this call shut it, and false if it was shut already. Called in `examples::stack`.
    fn shut<R: Wait>(&self, rt: &R, by: Self::Pass) -> (Self::Pass, bool)
        requires { is_pass self.now by }
        ensures of { is_pass self.now result.0 }
        ensures gives { ShutGives (shape self.now) (pass by) (pass result.0) result.1 }
        ensures answered { Answers (pass by) (pass result.0) (ShutAnswered result.1) };

    /// Lets the first pass see what the second has seen. True: the first pass has now seen what
    /// either pass had seen. False: the table has no seat for the meeting, and the first pass is as
    /// it was. The second pass comes back as it was. Called in `examples::stack`.
    fn meet(&self, first: &mut Self::Pass, second: Self::Pass) -> (Self::Pass, bool)
        requires first { is_pass self.now first.old }
        requires second { is_pass self.now second }
        ensures first { is_pass self.now first.new }
        ensures second { is_pass self.now result.0 × (pass result.0 ≡ pass second) }
        ensures gives { MeetGives (pass first.old) (pass second) (pass first.new) result.1 };

    /// Makes a note of what the pass has seen. `None` if the table has no seat for the note. The
    /// pass is as it was. Called in `examples::notes`.
    fn note(&self, by: &mut Self::Pass) -> Option<Self::Note>
        requires { is_pass self.now by.old }
        ensures pass { is_pass self.now by.new × (pass by.new ≡ pass by.old) }
        ensures gives { IfSome result (λ n. is_note self.now n × (told n ≡ (pass by.old).seen)) };

    /// The pass has now seen at least what the note tells. So a caller can learn of an event in
    /// some other way, together with a note that was made after the event. If its pass heeds the
    /// note, no later call of the pass gives an answer that was right only before the event. Called
    /// in `examples::notes`.
    fn heed(&self, by: &mut Self::Pass, note: Self::Note)
        requires pass { is_pass self.now by.old }
        requires note { is_note self.now note }
        ensures of { is_pass self.now by.new }
        ensures gives { Heeds (pass by.old) (told note) (pass by.new) };

    /// Takes a pass back: the root has now seen what the pass has. The root keeps the pass's own
    /// events, its steps, and what its calls have answered. Called in `examples::calls`.
    fn join(&self, parent: &mut Self::Root, by: Self::Pass)
        requires root { is_root self.now parent.old }
        requires pass { is_pass self.now by }
        ensures root { is_root self.now parent.new }
        ensures gives { Joins (root parent.old) (pass by) (root parent.new) };

    /// Ends the container, and gives the values that it still holds. Called in `examples::calls`.
    fn finish(self, parent: Self::Root) -> Self::Rest
        requires { is_root self parent }
        ensures { Leaves (shape self) (root parent) (Self.Rest.left result) };

    /// The order in its shape is `ORDER`.
    ghost order_law: { (c : Self) → (shape c).order ≡ ORDER };

    /// At least [`MIN_PASSES`] and at most [`MAX_PASSES`] passes may be out at one time.
    ghost passes_law: { (c : Self) → PassesInRange (shape c) };

    /// What a pass has seen is legal, and between its calls its hand is empty.
    ghost pass_law: { (c : Self) (p : Self.Pass) → is_pass c p → IsAtRest (shape c) (pass p) };

    /// What a note tells is legal.
    ghost note_law: { (c : Self) (n : Self.Note) → is_note c n → Legal (shape c) (told n) };

    /// What a root has seen is legal. Its account is right: of each joined pass it has seen exactly
    /// the events of the account, and it has seen none of a pass that it has not given.
    ghost root_law: { (c : Self) (r : Self.Root) → is_root c r → IsSound (shape c) (root r) };
}
