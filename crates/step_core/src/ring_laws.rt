//! The laws of the ring's machine, in the words of Herlihy and Wing (1990) and Herlihy (1991, 1993).
ghost use Rattle.std.specs.Prelude.{◌≡◌, ℕ, suc, ◌+◌, ◌*◌, ◌<◌, ◌≤◌, List, ◌++◌, ◌≢◌, ◌∷◌, length};
ghost use mathlib.Core.Option.{some};
ghost use lib.ListN.{get_elem?};
ghost use Rattle.bounded_model.specs.declared.history.Event.{Event};
ghost use Rattle.bounded_model.specs.Histories.{pass_of};
ghost use Rattle.bounded_model.specs.Gathers.{gather, sent_of, took_of, values_of, Counts};
ghost use Rattle.machine.specs.Schedule.{Act, Schedule, start, after, next};
ghost use Rattle.machine.specs.Bound.{IsStretch, own_steps};
ghost use Rattle.machine.specs.Progress.{steps_made, calls_ended, calls_cost, others_win, AtOnce, LockFree};
ghost use Rattle.ring_machine.specs.declared.lines.Answer.{Answer};
ghost use Rattle.ring_machine.specs.declared.lines.Call.{Call};
ghost use Rattle.ring_machine.specs.declared.lines.Line.{Line};
ghost use Rattle.ring_machine.specs.Machine.{State, ring, step};
ghost use Rattle.ring_machine.specs.Answers.{shape, state};
ghost use Rattle.ring_machine.specs.Places.{NothingTwice, WinsUnheld};
ghost use Rattle.step_core.specs.Linearizable.{Entry, Hand, Rests, most_of, events, stage, call_of, under_way, most_in_hand, IsLinearization, IsLinearizationWithAnyHands, KeepsRealTimeOrder, Linearizable};
ghost use Rattle.step_core.specs.ring.Object.{object, object_with_any_hands, answer, full_put};
ghost use Rattle.step_core.specs.ring.Law.{Lawful, AllDone, NoneUnanswered, lines_of};
ghost use Rattle.step_core.specs.ring.Bound.{MeetsRule};
ghost use Rattle.step_core.specs.ring.Costs.{cost};

/// What holds in every schedule of puts, takes, closes, shuts, looks at, counts and gauges of a ring of
/// `n` slots, each of which is filled at most `laps` times. The history is legal for a bounded queue of
/// `n` values, and the words and cells represent it. Each of the cells of `n` slots and of all passes is
/// in one slot or the spare one of one pass. No hand has anything between two steps. Each refusal is
/// justified by the history at some time between its begin and its end.
pub fn ring_core<T>()
    ensures { (n laps passes : ℕ) (schedule : Schedule (Call T)) → 0 < n →
        Lawful T n laps (n + passes) (after (ring (shape n laps)) passes schedule) }
{}

/// The rule of the ring's machine holds before the first act of any number of passes, and whatever a
/// pass does keeps it: a begin of each call, and the step of each line.
pub fn ring_rule<T>()
    ensures at_the_start { (n laps passes : ℕ) → 0 < n →
        MeetsRule n laps (n + passes) (start (ring {T = T} (shape n laps)) passes) }
    ensures kept { (n laps cells p : ℕ) (act : Act (Call T)) (s : State T) →
        MeetsRule n laps cells s → MeetsRule n laps cells (next (ring (shape n laps)) s (p, act)) }
{}

/// No cell of a ring is used by two passes. In every state that meets the rule, and so in every
/// schedule, each cell is in one place, and once: in one slot, or the spare one of one pass. No
/// pass had the cell that a step brings into its pass's hand: it was in a slot. Only the winning
/// compare-and-swap of a put or a take brings one.
pub fn ring_cells<T>()
    ensures wherever_the_rule_holds { (n laps cells : ℕ) (s : State T) →
        MeetsRule n laps cells s → NothingTwice n cells s.memory (lines_of s) }
    ensures wins_unheld { (n laps cells p : ℕ) (s : State T) (l : Line T) →
        MeetsRule n laps cells s → get_elem? (lines_of s) p ≡ some l →
        WinsUnheld n s.memory (lines_of s) l (step (shape n laps) s.memory p l).line }
    ensures in_every_schedule { (n laps passes : ℕ) (schedule : Schedule (Call T)) → 0 < n →
        let s = after (ring (shape n laps)) passes schedule in
        NothingTwice n (n + passes) s.memory (lines_of s) }
{}

/// In every schedule of a ring, a call ends with an answer, and each pass answers the call that it
/// began. From the begin to the answer the call adds exactly the events of its answer. A put that
/// succeeds takes a cell and puts the call's value in one step. A take takes one value and gives its
/// cell back in one step. A refused put hands back the call's value. A refusal adds nothing.
pub fn ring_answers<T>()
    ensures answered { (n laps passes : ℕ) (schedule : Schedule (Call T)) → 0 < n →
        NoneUnanswered (after (ring (shape n laps)) passes schedule) }
    ensures done { (n laps passes : ℕ) (schedule : Schedule (Call T)) → 0 < n →
        AllDone (after (ring (shape n laps)) passes schedule) }
{}

/// A ring is linearizable (Herlihy and Wing 1990). A put, a take, a close and a shut take effect at
/// the compare-and-swap that makes their event. A refusal, a look and a gauge take effect at the
/// load by which they answer, and a count at the load that found the back.
pub fn ring_linearizable<T>()
    ensures points { (n laps passes : ℕ) (schedule : Schedule (Call T)) → 0 < n →
        Linearizable (ring (shape n laps)) answer (object n laps) passes schedule }
    ensures with_any_hands { (n laps : ℕ) (course : List (Entry T (Call T) (Answer T))) →
        IsLinearization (object n laps) course → IsLinearizationWithAnyHands (object_with_any_hands n laps) course }
    ensures keeps_real_time_order { (n laps p : ℕ) (newer older : List (Entry T (Call T) (Answer T))) →
        IsLinearizationWithAnyHands (object_with_any_hands n laps) (newer ++ older) → KeepsRealTimeOrder p older }
{}

/// While no other pass's compare-and-swap succeeds, a ring's call has ended after at most 31 of its
/// own steps. This holds from every state that meets the rule, wherever the call is in it, and so
/// from every state to which a schedule leads.
pub fn ring_bound<T>()
    ensures wherever_the_rule_holds { (n laps cells p : ℕ) (s : State T) (stretch : Schedule (Call T)) →
        MeetsRule n laps cells s → IsStretch (ring (shape n laps)) p stretch s →
        own_steps (ring (shape n laps)) p stretch s ≤ 31 }
    ensures in_every_schedule { (n laps passes : ℕ) (schedule : Schedule (Call T)) → 0 < n →
        MeetsRule n laps (n + passes) (after (ring (shape n laps)) passes schedule) }
{}

/// A ring is lock-free (Herlihy 1993, there non-blocking), by number and without any fairness.
/// Suppose never more than P = 1 + `others` passes are in a call at once, from any state that meets
/// the rule. If E calls end, the passes make at most (24 * P + 7) * (E + P) steps. So among any
/// P * (24 * P + 7) + 1 steps after any schedule of P passes, some call ends. From the start, the
/// passes make in all no more steps than the calls cost that they begin: a put 24 * P - 14, a take
/// 23 * P - 12, a close or a shut 14 * P - 5, a look or a gauge 8, a count 17.
///
/// A single call has ended after at most 31 of its own steps, and 18 for each compare-and-swap by
/// which another pass succeeds meanwhile. So a step that does not succeed costs no other pass
/// anything. While no other pass's compare-and-swap succeeds, 31 steps are enough, however long the
/// pass had stopped.
pub fn ring_lock_free<T>()
    ensures wherever_the_rule_holds { (n laps cells others : ℕ) (s : State T) (schedule : Schedule (Call T)) →
        MeetsRule n laps cells s → AtOnce (ring (shape n laps)) (suc others) schedule s →
        steps_made (ring (shape n laps)) schedule s
        ≤ (31 + 24 * others) * (calls_ended (ring (shape n laps)) schedule s + suc others) }
    ensures in_every_schedule { (n laps others : ℕ) → 0 < n →
        LockFree (ring {T = T} (shape n laps)) (suc others) ((31 + 24 * others) * suc others) }
    ensures all_costs { (n laps passes others : ℕ) (schedule : Schedule (Call T)) → 0 < n →
        let s = start (ring (shape n laps)) passes in
        AtOnce (ring (shape n laps)) (suc others) schedule s →
        steps_made (ring (shape n laps)) schedule s
        ≤ calls_cost (ring (shape n laps)) (cost others) schedule s }
    ensures overtaken { (n laps cells p : ℕ) (s : State T) (schedule : Schedule (Call T)) →
        MeetsRule n laps cells s →
        own_steps (ring (shape n laps)) p schedule s
        ≤ 31 + 18 * others_win (ring (shape n laps)) p schedule s }
    ensures unhindered { (n laps cells p : ℕ) (s : State T) (stretch : Schedule (Call T)) →
        MeetsRule n laps cells s → IsStretch (ring (shape n laps)) p stretch s →
        own_steps (ring (shape n laps)) p stretch s ≤ 31 }
{}

/// In every schedule of a ring, the values that were put are, in the order of the puts, those that
/// were taken and then those that are left. These stand in the slots from the front to the back
/// (`ring_core`). Puts and takes are numbered 0, 1, 2, .. each. So the take numbered k gives the
/// value of the put numbered k.
pub fn ring_order<T>()
    ensures values { (n laps passes : ℕ) (schedule : Schedule (Call T)) → 0 < n →
        let h = (after (ring (shape n laps)) passes schedule).history in
        values_of (gather sent_of h) ≡ values_of (gather took_of h) ++ (state n laps h).values }
    ensures puts { (n laps passes : ℕ) (schedule : Schedule (Call T)) → 0 < n →
        Counts (λ m. m.number) 0
        (gather sent_of (after (ring (shape n laps)) passes schedule).history) }
    ensures takes { (n laps passes : ℕ) (schedule : Schedule (Call T)) → 0 < n →
        Counts (λ m. m.number) 0
        (gather took_of (after (ring (shape n laps)) passes schedule).history) }
{}

/// Full means full. Suppose that a put on a ring of `n` cells is refused as full while `k` other calls are
/// under way. At the moment at which the refusal takes effect, at least `n - k` values are stored. Of the
/// other calls only puts and takes count (`most_in_hand`): each cell that holds no value is in the hand of one of
/// them, each of them has one at most, and the refused put has none. Hands move only during a call, and a
/// pass that is in no call has none.
pub fn ring_full_means_full<T>()
    ensures hands { (n laps p : ℕ) (newer older : List (Entry T (Call T) (Answer T))) →
        IsLinearization (object n laps) (newer ++ older) →
        (state n laps (events older)).hand p ≤ most_of (object n laps) (call_of p older) }
    ensures moves { (n laps : ℕ) (e : Event T) (newer older : List (Entry T (Call T) (Answer T))) →
        IsLinearization (object n laps) (newer ++ Hand e ∷ older) → stage (pass_of e) older ≢ Rests }
    ensures full { (n laps p : ℕ) (v u : T) (newer older : List (Entry T (Call T) (Answer T))) →
        IsLinearization (object n laps) (newer ++ full_put p v u ∷ older) →
        n < length (state n laps (events older)).values + most_in_hand (object n laps) older }
    ensures by_calls { (n laps p : ℕ) (v u : T) (newer older : List (Entry T (Call T) (Answer T))) →
        IsLinearization (object n laps) (newer ++ full_put p v u ∷ older) →
        n < length (state n laps (events older)).values + length (under_way older) }
{}
