//! The laws of the stack's machine (Treiber 1986), in the words of Herlihy and Wing (1990) and Herlihy
//! (1991, 1993).
ghost use Rattle.std.specs.Prelude.{◌≡◌, ℕ, suc, ◌+◌, ◌*◌, ◌<◌, ◌≤◌, List, ◌++◌, ◌≢◌, ◌∷◌, length};
ghost use mathlib.Core.Option.{some};
ghost use lib.ListN.{get_elem?};
ghost use Rattle.tagged_index.specs.declared.word.TheConstants.{NULL};
ghost use Rattle.bounded_model.specs.Machine.{Shape};
ghost use Rattle.bounded_model.specs.declared.history.Event.{Event};
ghost use Rattle.bounded_model.specs.Histories.{pass_of};
ghost use Rattle.machine.specs.Schedule.{Act, Schedule, start, after, next};
ghost use Rattle.machine.specs.Bound.{AtLine, IsStretch, own_steps};
ghost use Rattle.machine.specs.Progress.{Only, steps_made, calls_ended, calls_cost, others_win, AtOnce, LockFree, LockFreeOf};
ghost use Rattle.stack_machine.specs.declared.lines.Answer.{Answer};
ghost use Rattle.stack_machine.specs.declared.lines.Call.{Call};
ghost use Rattle.stack_machine.specs.declared.lines.Line.{Line};
ghost use Rattle.stack_machine.specs.Answers.{shape, state};
ghost use Rattle.stack_machine.specs.Machine.{Pass, State, stack, step};
ghost use Rattle.stack_machine.specs.Places.{NoNodeTwice, WinsUnheld};
ghost use Rattle.step_core.specs.Linearizable.{Entry, Hand, Rests, most_of, events, stage, call_of, most_in_hand, IsLinearization, IsLinearizationWithAnyHands, KeepsRealTimeOrder, Linearizable};
ghost use Rattle.step_core.specs.stack.Object.{object, object_with_any_hands, answer, full_put};
ghost use Rattle.step_core.specs.stack.Bound.{IsSingle};
ghost use Rattle.step_core.specs.stack.Costs.{cost, IsSingleCall};
ghost use Rattle.step_core.specs.stack.Law.{Lawful, AllDone, NoneUnanswered, MeetsRule, lines_of};

/// What holds in every schedule of puts of one or more values, takes, folds, closes, shuts, looks at
/// and gauges of a stack of `n` nodes. The history is legal for a bounded stack, and the words and
/// slots represent it. Each node is in one place. Each refusal is justified by the history at some time
/// between its begin and its end.
pub fn stack_core<T>()
    ensures { (n limit passes : ℕ) (schedule : Schedule (Call T)) → 0 < n → n ≤ NULL →
        Lawful T n limit (after (stack (shape n limit)) passes schedule) }
{}

/// The rule of the stack's machine holds before the first act of any number of passes, and whatever
/// a pass does keeps it (`queue_rule`).
pub fn stack_rule<T>()
    ensures at_the_start { (n limit passes : ℕ) → 0 < n → n ≤ NULL →
        MeetsRule n limit (start (stack {T = T} (shape n limit)) passes) }
    ensures kept { (n limit p : ℕ) (act : Act (Call T)) (s : State T) →
        MeetsRule n limit s → MeetsRule n limit (next (stack (shape n limit)) s (p, act)) }
{}

/// No node of a stack is used again while a pass holds it. In every state that meets the rule, and
/// so in every schedule, each node is in one place, and once: free, on the stack, or held by one
/// pass. No pass had the node that a step brings into its pass's hand. A put's was free and not on
/// the stack, and a take's or a fold's was on the stack. No other step brings any.
pub fn stack_nodes<T>()
    ensures wherever_the_rule_holds { (n limit : ℕ) (s : State T) →
        MeetsRule n limit s → NoNodeTwice n s.memory (lines_of s) }
    ensures wins_unheld { (n limit p : ℕ) (s : State T) (l : Line T) →
        MeetsRule n limit s → get_elem? (lines_of s) p ≡ some l →
        WinsUnheld s.memory (lines_of s) l (step (shape n limit) s.memory p l).line }
    ensures in_every_schedule { (n limit passes : ℕ) (schedule : Schedule (Call T)) →
        0 < n → n ≤ NULL →
        let s = after (stack (shape n limit)) passes schedule in
        NoNodeTwice n s.memory (lines_of s) }
{}

/// In every schedule of a stack, a call ends with an answer, and each pass answers the call that it
/// began. From the begin to the answer the call adds exactly the events of its answer. A put takes
/// one node for each value that it puts, by one compare-and-swap. The values that it puts and those
/// that it leaves over are the call's, in order. A take takes one value and gives its node back. A
/// fold takes all values by one compare-and-swap, folds them in the call's direction, and gives all
/// nodes back by one. A refused put hands back the call's values, and a refusal leaves nothing
/// held. A range leaves values out only if it got no node for them.
pub fn stack_answers<T>()
    ensures answered { (n limit passes : ℕ) (schedule : Schedule (Call T)) → 0 < n → n ≤ NULL →
        NoneUnanswered (after (stack (shape n limit)) passes schedule) }
    ensures done { (n limit passes : ℕ) (schedule : Schedule (Call T)) → 0 < n → n ≤ NULL →
        AllDone (shape n limit) (after (stack (shape n limit)) passes schedule) }
{}

/// While no other pass's compare-and-swap succeeds, a stack's put of one value, take, close, shut,
/// look or gauge has ended after at most 16 of its own steps. This holds from every state, wherever
/// the call is in it.
pub fn stack_bound<T>()
    ensures { (c : Shape) (p : ℕ) (s : State T) (stretch : Schedule (Call T)) →
        AtLine IsSingle (get_elem? s.passes p) → IsStretch (stack c) p stretch s →
        own_steps (stack c) p stretch s ≤ 16 }
{}

/// A stack is lock-free, by number and without any fairness (`queue_lock_free`). Suppose never more
/// than P = 1 + `others` passes are in a call at once, from any state that meets the rule, and E
/// calls end.
/// - If the passes only put and take one value a call, close, shut, look and gauge, they make at
///   most (7 * P + 2) * (E + P) steps. So among any P * (7 * P + 2) + 1 steps after any schedule of
///   P passes some call ends.
/// - With ranges and folds, which go over up to n nodes, the factor is (3 * n + 4) * P + n + 2
///   instead of 7 * P + 2 in both.
///
/// From the start, the passes make in all no more steps than the calls cost that they begin:
/// - a put of one value 7 * P, a take 7 * P - 1, a close or a shut 4 * P - 2, a look or a gauge 1,
/// - a put of r values, up to n, (3 * r + 4) * P + r - 1,
/// - a fold downwards 7 * P + n - 2, one upwards 7 * P + 3 * n - 2.
///
/// A single call has ended after at most 9 of its own steps, or `4 * n + 6` for a range or a fold,
/// and 4 for each compare-and-swap by which another pass succeeds meanwhile. So a step that does
/// not succeed costs no other pass anything.
pub fn stack_lock_free<T>()
    ensures wherever_the_rule_holds { (n limit others : ℕ) (s : State T) (schedule : Schedule (Call T)) →
        0 < n → MeetsRule n limit s → AtOnce (stack (shape n limit)) (suc others) schedule s →
        steps_made (stack (shape n limit)) schedule s
        ≤ (4 * n + 6 + (3 * n + 4) * others) * (calls_ended (stack (shape n limit)) schedule s + suc others) }
    ensures calls_of_one_value { (n limit others : ℕ) (s : State T) (schedule : Schedule (Call T)) →
        0 < n → MeetsRule n limit s →
        ((q : ℕ) (v : Pass T) → get_elem? s.passes q ≡ some v → IsSingle v.line) →
        Only IsSingleCall schedule → AtOnce (stack (shape n limit)) (suc others) schedule s →
        steps_made (stack (shape n limit)) schedule s
        ≤ (9 + 7 * others) * (calls_ended (stack (shape n limit)) schedule s + suc others) }
    ensures in_every_schedule { (n limit others : ℕ) → 0 < n → n ≤ NULL →
        LockFree (stack {T = T} (shape n limit)) (suc others) ((4 * n + 6 + (3 * n + 4) * others) * suc others) }
    ensures in_every_schedule_of_one_value { (n limit others : ℕ) → 0 < n → n ≤ NULL →
        LockFreeOf (stack {T = T} (shape n limit)) IsSingleCall (suc others) ((9 + 7 * others) * suc others) }
    ensures all_costs { (n limit passes others : ℕ) (schedule : Schedule (Call T)) →
        0 < n → n ≤ NULL →
        let s = start (stack (shape n limit)) passes in
        AtOnce (stack (shape n limit)) (suc others) schedule s →
        steps_made (stack (shape n limit)) schedule s
        ≤ calls_cost (stack (shape n limit)) (cost n others) schedule s }
    ensures overtaken { (n limit p : ℕ) (s : State T) (schedule : Schedule (Call T)) →
        0 < n → MeetsRule n limit s →
        own_steps (stack (shape n limit)) p schedule s
        ≤ 4 * n + 6 + 4 * others_win (stack (shape n limit)) p schedule s }
    ensures overtaken_with_one_value { (n limit p : ℕ) (s : State T) (schedule : Schedule (Call T)) →
        0 < n → MeetsRule n limit s → AtLine IsSingle (get_elem? s.passes p) →
        own_steps (stack (shape n limit)) p schedule s
        ≤ 9 + 4 * others_win (stack (shape n limit)) p schedule s }
    ensures unhindered { (n limit p : ℕ) (s : State T) (stretch : Schedule (Call T)) →
        0 < n → MeetsRule n limit s → AtLine IsSingle (get_elem? s.passes p) →
        IsStretch (stack (shape n limit)) p stretch s →
        own_steps (stack (shape n limit)) p stretch s ≤ 9 }
{}

/// A stack is linearizable, as a queue is (`queue_linearizable`). A put of several values takes effect
/// at one point, and so does a fold of all values.
pub fn stack_linearizable<T>()
    ensures points { (n limit passes : ℕ) (schedule : Schedule (Call T)) → 0 < n → n ≤ NULL →
        Linearizable (stack (shape n limit)) answer (object n limit) passes schedule }
    ensures with_any_hands { (n limit : ℕ) (course : List (Entry T (Call T) (Answer T))) →
        IsLinearization (object n limit) course → IsLinearizationWithAnyHands (object_with_any_hands n limit) course }
    ensures keeps_real_time_order { (n limit p : ℕ) (newer older : List (Entry T (Call T) (Answer T))) →
        IsLinearizationWithAnyHands (object_with_any_hands n limit) (newer ++ older) → KeepsRealTimeOrder p older }
{}

/// Full means full. Suppose that a put on a stack of `n` nodes is refused as full. At the moment at which the
/// refusal takes effect, each node that holds no value is in the hand of another call that is under way. A put
/// of several values has at most one for each of them, a take one, and a fold those of all values that it took.
/// The refused put has none. Hands move only during a call, and a pass that is in no call has none.
pub fn stack_full_means_full<T>()
    ensures hands { (n limit p : ℕ) (newer older : List (Entry T (Call T) (Answer T))) →
        IsLinearization (object n limit) (newer ++ older) →
        (state n limit (events older)).hand p ≤ most_of (object n limit) (call_of p older) }
    ensures moves { (n limit : ℕ) (e : Event T) (newer older : List (Entry T (Call T) (Answer T))) →
        IsLinearization (object n limit) (newer ++ Hand e ∷ older) → stage (pass_of e) older ≢ Rests }
    ensures full { (n limit p : ℕ) (v : T) (vs us : List T) (newer older : List (Entry T (Call T) (Answer T))) →
        IsLinearization (object n limit) (newer ++ full_put p v vs us ∷ older) →
        n + suc (length vs) ≤ length (state n limit (events older)).values + most_in_hand (object n limit) older }
{}
