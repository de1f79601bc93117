//! What the ring's machine does, played, and near misses that its laws refuse.
ghost use Rattle.std.specs.Prelude.{◌≡◌, ℕ, ◌+◌, ◌*◌, ◌≤◌};
ghost use Rattle.bounded_model.specs.declared.answers.TakeRefused.TheVariants.{Empty};
ghost use Rattle.machine.specs.Bound.{own_steps};
ghost use Rattle.machine.specs.Progress.{LockFree, others_win};
ghost use Rattle.machine.specs.Schedule.{after};
ghost use Rattle.ring_machine.specs.Answers.{shape};
ghost use Rattle.ring_machine.specs.Places.{NothingTwice};
ghost use Rattle.ring_machine.specs.declared.lines.Answer.TheVariants.{Len};
ghost use Rattle.step_core.specs.Letters.{x, y};
ghost use Rattle.step_core.specs.Linearizable.{IsLinearization, LinearizableWithAnyHands};
ghost use Rattle.step_core.specs.Scripts.{answers, ended};
ghost use Rattle.step_core.specs.ring.Cast.{Plays, Fails, ring_with, full, slot_spent, take_is, no_take};
ghost use Rattle.step_core.specs.ring.Law.{Lawful, AllDone, NoneUnanswered, lines_of};
ghost use Rattle.step_core.specs.ring.Mistakes.{hands_with_cell, WinsHeld, cell_held, cell_held_twice, number_again, put_late, taken_early, slot_left_out, closed_full, put_after_close, take_after_shut, open_again, unshut_again, above_limit, not_full};
ghost use Rattle.step_core.specs.ring.Object.{object, object_with_any_hands, answer};
ghost use Rattle.step_core.specs.ring.WrongAnswers.{put_another, handed_back, closed_instead, counts_once, counted_two};
ghost use Rattle.step_core.specs.ring.WrongRuns.{ends_where_it_lost, lost_take, is_always_empty, stale_take, spoils_where_it_lost, starving, in_turn, resting_hand, full_of_resting_hands, second_cell, full_of_its_own, full_of_another_call, spent_too_early};
ghost use Rattle.step_core.specs.ring.Rows.{alone, closed_before_full, closed_before_spent, shut_ring, counts};
ghost use Rattle.step_core.specs.ring.Orders.{limit_first, full_first, shut_last, empty_before_closed};

/// Rows played by the ring's machine, by single steps of up to three passes, and machines that are
/// nearly the ring's. Each such machine has the scene that it fails: the first lines of it get
/// their replies, and then one gets another. They show what the order of the tests is for.
pub fn ring_exhibits()
    // Played rows.
    ensures alone { Plays alone }
    ensures closed_before_full { Plays closed_before_full }
    ensures closed_before_spent { Plays closed_before_spent }
    ensures shut_ring { Plays shut_ring }
    ensures counts { Plays counts }
    // With another order of tests, or without the second look, a scene gets another reply.
    ensures limit_first_fails { Fails limit_first closed_before_spent 3 (answers (slot_spent 0 2 y)) }
    ensures full_first_fails { Fails full_first closed_before_full 2 (answers (full y)) }
    ensures shut_last_fails { Fails shut_last shut_ring 2 (answers (take_is 0 x)) }
    ensures empty_before_closed_fails { Fails empty_before_closed closed_before_full 4 (answers (no_take Empty)) }
    ensures counts_once_fails { Fails counts_once counts 4 (ended (Len 2) 6) }
{}

/// Near misses: machines that are nearly the ring's, each with a schedule in which it breaks a law.
/// They show what the tags, the marks and the walks are for, and that the laws refuse a machine
/// without them.
pub fn ring_near_misses()
    // Near misses that break the law of `ring_core` or that of `ring_cells`.
    ensures cell_in_two_hands { hands_with_cell 2 cell_held_twice ≡ 2 }
    ensures cell_held_twice_unlawful { ¬ Lawful ℕ 1 2 3 cell_held_twice }
    ensures cell_held_by_two { ¬ NothingTwice 1 3 cell_held_twice.memory (lines_of cell_held_twice) }
    ensures wins_held_cell { WinsHeld (cell_held 3) (cell_held 4) }
    ensures number_again_unlawful { ¬ Lawful ℕ 2 2 3 number_again }
    ensures put_late_unlawful { ¬ Lawful ℕ 2 2 4 put_late }
    ensures taken_early_unlawful { ¬ Lawful ℕ 2 2 3 taken_early }
    ensures slot_left_out_unlawful { ¬ Lawful ℕ 6 1 7 slot_left_out }
    ensures closed_full_unlawful { ¬ Lawful ℕ 1 2 2 closed_full }
    ensures put_after_close_unlawful { ¬ Lawful ℕ 1 2 3 put_after_close }
    ensures take_after_shut_unlawful { ¬ Lawful ℕ 1 2 3 take_after_shut }
    ensures open_again_unlawful { ¬ Lawful ℕ 1 2 2 open_again }
    ensures unshut_again_unlawful { ¬ Lawful ℕ 1 2 2 unshut_again }
    ensures above_limit_unlawful { ¬ Lawful ℕ 1 1 2 above_limit }
    ensures not_full_unlawful { ¬ Lawful ℕ 2 2 3 not_full }
    ensures counted_two_unlawful { ¬ Lawful ℕ 1 2 3 counted_two }
    // Near misses that break the law of `ring_answers`.
    ensures put_another_unlawful { ¬ AllDone put_another }
    ensures handed_back_unlawful { ¬ AllDone handed_back }
    ensures closed_instead_unlawful { ¬ AllDone closed_instead }
    // Near misses that are not linearizable, whatever the hands hold, or leave a call unanswered.
    ensures lost_take_unanswered { ¬ NoneUnanswered (after (ring_with ends_where_it_lost (shape 1 1)) 3 lost_take) }
    ensures lost_take_not_linearizable { ¬ LinearizableWithAnyHands (ring_with ends_where_it_lost (shape 1 1)) answer (object_with_any_hands 1 1) 3 lost_take }
    ensures stale_take_unlawful { ¬ Lawful ℕ 1 1 3 (after (ring_with is_always_empty (shape 1 1)) 2 stale_take) }
    ensures stale_take_not_linearizable { ¬ LinearizableWithAnyHands (ring_with is_always_empty (shape 1 1)) answer (object_with_any_hands 1 1) 2 stale_take }
    // Courses that are no linearizations: hands of passes that are in no call, more cells than a call may have, refusals
    // as full for a cell in a hand, and one as spent after a put too few.
    ensures resting_hand_refused { ¬ IsLinearization (object 1 1) resting_hand }
    ensures full_of_resting_hands_refused { ¬ IsLinearization (object 1 1) full_of_resting_hands }
    ensures second_cell_refused { ¬ IsLinearization (object 2 1) second_cell }
    ensures full_of_its_own_refused { ¬ IsLinearization (object 1 1) full_of_its_own }
    ensures full_of_another_call_refused { ¬ IsLinearization (object 1 1) full_of_another_call }
    ensures spent_too_early_refused { ¬ IsLinearization (object 2 1) spent_too_early }
    // A near miss that is not lock-free: two passes make each other fail, round after round.
    ensures starving_not_lock_free { ¬ LockFree (ring_with spoils_where_it_lost (shape 1 1)) 2 ((31 + 24 * 1) * 2) }
    ensures starving_not_unhindered { let machine = ring_with spoils_where_it_lost (shape 1 1) in
        ¬ (own_steps machine 0 (in_turn 16) starving ≤ 31 + 18 * others_win machine 0 (in_turn 16) starving) }
{}
