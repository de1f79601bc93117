//! The laws of the queue's machine (Michael and Scott 1996), in the words of Herlihy and Wing (1990)
//! and Herlihy (1991, 1993).
ghost use Rattle.std.specs.Prelude.{◌≡◌, ℕ, suc, ◌+◌, ◌*◌, ◌<◌, ◌≤◌, List, ◌++◌, ◌≢◌, ◌∷◌, length};
ghost use mathlib.Core.Option.{some};
ghost use lib.ListN.{get_elem?};
ghost use Rattle.tagged_index.specs.declared.word.TheConstants.{NULL};
ghost use Rattle.bounded_model.specs.declared.history.Event.{Event};
ghost use Rattle.bounded_model.specs.Histories.{pass_of};
ghost use Rattle.bounded_model.specs.Gathers.{gather, sent_of, took_of, values_of, Counts};
ghost use Rattle.machine.specs.Schedule.{Act, Schedule, start, after, next};
ghost use Rattle.machine.specs.Bound.{IsStretch, own_steps};
ghost use Rattle.machine.specs.Progress.{steps_made, calls_ended, calls_cost, others_win, AtOnce, LockFree};
ghost use Rattle.queue_machine.specs.declared.lines.Answer.{Answer};
ghost use Rattle.queue_machine.specs.declared.lines.Call.{Call};
ghost use Rattle.queue_machine.specs.declared.lines.Line.{Line};
ghost use Rattle.queue_machine.specs.Machine.{State, queue, step};
ghost use Rattle.queue_machine.specs.Answers.{shape, state};
ghost use Rattle.queue_machine.specs.Places.{NothingTwice, WinsUnheld};
ghost use Rattle.step_core.specs.Linearizable.{Entry, Hand, Rests, most_of, events, stage, call_of, under_way, most_in_hand, IsLinearization, IsLinearizationWithAnyHands, KeepsRealTimeOrder, Linearizable};
ghost use Rattle.step_core.specs.queue.Object.{object, object_with_any_hands, answer, full_put};
ghost use Rattle.step_core.specs.queue.Law.{Lawful, AllDone, NoneUnanswered, lines_of, values_left};
ghost use Rattle.step_core.specs.queue.Bound.{MeetsRule};
ghost use Rattle.step_core.specs.queue.Costs.{cost};

/// What holds in every schedule of puts, takes, closes, shuts, looks at, counts and gauges of a queue
/// of `n` value cells, whose nodes are used again. The history is legal for a bounded queue, and the
/// words and cells represent it. Each cell and each node is in one place. A put that has a cell finds a
/// node. Each refusal is justified by the history at some time between its begin and its end.
pub fn queue_core<T>()
    ensures { (n limit passes : ℕ) (schedule : Schedule (Call T)) → 0 < n → n < NULL → 0 < limit →
        Lawful T n limit (after (queue (shape n limit)) passes schedule) }
{}

/// The rule of the queue's machine holds before the first act of any number of passes, and whatever
/// a pass does keeps it: a begin of each call, and the step of each line. The table of a running
/// queue must meet the same rule.
pub fn queue_rule<T>()
    ensures at_the_start { (n limit passes : ℕ) → 0 < n → n < NULL → 0 < limit →
        MeetsRule n limit (start (queue {T = T} (shape n limit)) passes) }
    ensures kept { (n limit p : ℕ) (act : Act (Call T)) (s : State T) →
        MeetsRule n limit s → MeetsRule n limit (next (queue (shape n limit)) s (p, act)) }
{}

/// No cell and no node of a queue is used again while a pass holds it. In every state that meets
/// the rule, and so in every schedule, each cell and each node is in one place, and once: free, in
/// the chain, or held by one pass. No pass had the cell or the node that a step brings into its
/// pass's hand. A put's was free and not in the chain, and a take's was in the chain. No other step
/// brings any.
pub fn queue_nodes<T>()
    ensures wherever_the_rule_holds { (n limit : ℕ) (s : State T) →
        MeetsRule n limit s → NothingTwice n s.memory (lines_of s) }
    ensures wins_unheld { (n limit p : ℕ) (s : State T) (l : Line T) →
        MeetsRule n limit s → get_elem? (lines_of s) p ≡ some l →
        WinsUnheld s.memory (lines_of s) l (step (shape n limit) s.memory p l).line }
    ensures in_every_schedule { (n limit passes : ℕ) (schedule : Schedule (Call T)) →
        0 < n → n < NULL → 0 < limit →
        let s = after (queue (shape n limit)) passes schedule in
        NothingTwice n s.memory (lines_of s) }
{}

/// In every schedule of a queue, a call ends with an answer, and each pass answers the call that it
/// began. From the begin to the answer the call adds exactly the events of its answer. A put takes one
/// cell and puts the call's value. A take takes one value and gives its cell back. A refused put hands
/// back the call's value. A refusal leaves nothing held.
pub fn queue_answers<T>()
    ensures answered { (n limit passes : ℕ) (schedule : Schedule (Call T)) → 0 < n → n < NULL → 0 < limit →
        NoneUnanswered (after (queue (shape n limit)) passes schedule) }
    ensures done { (n limit passes : ℕ) (schedule : Schedule (Call T)) → 0 < n → n < NULL
        → 0 < limit →
        AllDone (after (queue (shape n limit)) passes schedule) }
{}

/// While no other pass's compare-and-swap succeeds, a queue's put, take, close, shut, look, count
/// or gauge has ended after at most 32 of its own steps. This holds from every state that meets the
/// rule, wherever the call is in it, and so from every state to which a schedule leads.
pub fn queue_bound<T>()
    ensures wherever_the_rule_holds { (n limit p : ℕ) (s : State T) (stretch : Schedule (Call T)) →
        MeetsRule n limit s → IsStretch (queue (shape n limit)) p stretch s →
        own_steps (queue (shape n limit)) p stretch s ≤ 32 }
    ensures in_every_schedule { (n limit passes : ℕ) (schedule : Schedule (Call T)) →
        0 < n → n < NULL → 0 < limit →
        MeetsRule n limit (after (queue (shape n limit)) passes schedule) }
{}

/// A queue is lock-free (Herlihy 1993, there non-blocking), by number and without any fairness. It
/// is not wait-free (Herlihy 1991): a single pass may be overtaken for ever. Suppose never more
/// than P = 1 + `others` passes are in a call at once, from any state that meets the rule. If E
/// calls end, the passes make at most (14 * P + 6) * (E + P) steps. So among any
/// P * (14 * P + 6) + 1 steps after any schedule of P passes, some call ends. From the start, the
/// passes make in all no more steps than the calls cost that they begin: a put 14 * P + 4, a take
/// 12 * P + 5, a close 8 * P, a shut 6 * P - 4, a look 3, a count 4, a gauge 8.
///
/// A single call has ended after at most 20 of its own steps, and 8 for each compare-and-swap by
/// which another pass succeeds meanwhile. So a step that does not succeed costs no other pass
/// anything. While no other pass's compare-and-swap succeeds, 20 steps are enough.
pub fn queue_lock_free<T>()
    ensures wherever_the_rule_holds { (n limit others : ℕ) (s : State T) (schedule : Schedule (Call T)) →
        MeetsRule n limit s → AtOnce (queue (shape n limit)) (suc others) schedule s →
        steps_made (queue (shape n limit)) schedule s
        ≤ (20 + 14 * others) * (calls_ended (queue (shape n limit)) schedule s + suc others) }
    ensures in_every_schedule { (n limit others : ℕ) → 0 < n → n < NULL → 0 < limit →
        LockFree (queue {T = T} (shape n limit)) (suc others) ((20 + 14 * others) * suc others) }
    ensures all_costs { (n limit passes others : ℕ) (schedule : Schedule (Call T)) →
        0 < n → n < NULL → 0 < limit →
        let s = start (queue (shape n limit)) passes in
        AtOnce (queue (shape n limit)) (suc others) schedule s →
        steps_made (queue (shape n limit)) schedule s
        ≤ calls_cost (queue (shape n limit)) (cost others) schedule s }
    ensures overtaken { (n limit p : ℕ) (s : State T) (schedule : Schedule (Call T)) →
        MeetsRule n limit s →
        own_steps (queue (shape n limit)) p schedule s
        ≤ 20 + 8 * others_win (queue (shape n limit)) p schedule s }
    ensures unhindered { (n limit p : ℕ) (s : State T) (stretch : Schedule (Call T)) →
        MeetsRule n limit s → IsStretch (queue (shape n limit)) p stretch s →
        own_steps (queue (shape n limit)) p stretch s ≤ 20 }
{}

/// In every schedule of a queue, the values that were put are, in the order of the puts, those that
/// were taken and then those in the cells along the chain. Puts and takes are numbered 0, 1, 2, ..
/// each. So the take numbered k gives the value of the put numbered k, and the values that are left
/// are the untaken puts in order.
pub fn queue_order<T>()
    ensures values { (n limit passes : ℕ) (schedule : Schedule (Call T)) → 0 < n → n < NULL
        → 0 < limit →
        let s = after (queue (shape n limit)) passes schedule in
        values_of (gather sent_of s.history)
        ≡ values_of (gather took_of s.history) ++ values_left n s.memory }
    ensures puts { (n limit passes : ℕ) (schedule : Schedule (Call T)) → 0 < n → n < NULL
        → 0 < limit →
        Counts (λ m. m.number) 0
        (gather sent_of (after (queue (shape n limit)) passes schedule).history) }
    ensures takes { (n limit passes : ℕ) (schedule : Schedule (Call T)) → 0 < n → n < NULL
        → 0 < limit →
        Counts (λ m. m.number) 0
        (gather took_of (after (queue (shape n limit)) passes schedule).history) }
{}

/// A queue is linearizable (Herlihy and Wing 1990). Linearization points can be put into the
/// invocations and responses of any schedule. Each completed operation and some of the pending ones
/// have one, between invocation and response. In the order of their points the operations are a
/// legal history of the bounded queue as a sequential object, with their answers. A put, a take, a
/// close and a shut take effect at the compare-and-swap that makes their event. A refusal, a look,
/// a count and a gauge take effect at a moment at which they are right. The order of the points
/// keeps real time. At each prefix of such a history, the operations of a pass that have taken
/// effect are those that it has completed, or these and its pending one. This does not need the bounds
/// on hands, so it is stated without them (`with_any_hands`).
pub fn queue_linearizable<T>()
    ensures points { (n limit passes : ℕ) (schedule : Schedule (Call T)) → 0 < n → n < NULL → 0 < limit →
        Linearizable (queue (shape n limit)) answer (object n limit) passes schedule }
    ensures with_any_hands { (n limit : ℕ) (course : List (Entry T (Call T) (Answer T))) →
        IsLinearization (object n limit) course → IsLinearizationWithAnyHands (object_with_any_hands n limit) course }
    ensures keeps_real_time_order { (n limit p : ℕ) (newer older : List (Entry T (Call T) (Answer T))) →
        IsLinearizationWithAnyHands (object_with_any_hands n limit) (newer ++ older) → KeepsRealTimeOrder p older }
{}

/// Full means full. Suppose that a put on a queue of `n` cells is refused as full while `k` other calls are
/// under way. At the moment at which the refusal takes effect, at least `n - k` values are stored. Of the
/// other calls only puts and takes count (`most_in_hand`): each cell that holds no value is in the hand of one of
/// them, each of them has one at most, and the refused put has none. Hands move only during a call, and a
/// pass that is in no call has none.
pub fn queue_full_means_full<T>()
    ensures hands { (n limit p : ℕ) (newer older : List (Entry T (Call T) (Answer T))) →
        IsLinearization (object n limit) (newer ++ older) →
        (state n limit (events older)).hand p ≤ most_of (object n limit) (call_of p older) }
    ensures moves { (n limit : ℕ) (e : Event T) (newer older : List (Entry T (Call T) (Answer T))) →
        IsLinearization (object n limit) (newer ++ Hand e ∷ older) → stage (pass_of e) older ≢ Rests }
    ensures full { (n limit p : ℕ) (v u : T) (newer older : List (Entry T (Call T) (Answer T))) →
        IsLinearization (object n limit) (newer ++ full_put p v u ∷ older) →
        n < length (state n limit (events older)).values + most_in_hand (object n limit) older }
    ensures by_calls { (n limit p : ℕ) (v u : T) (newer older : List (Entry T (Call T) (Answer T))) →
        IsLinearization (object n limit) (newer ++ full_put p v u ∷ older) →
        n < length (state n limit (events older)).values + length (under_way older) }
{}
