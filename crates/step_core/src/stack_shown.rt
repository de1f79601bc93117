//! What the stack's machine does, played, and near misses that its laws refuse.
ghost use Rattle.std.specs.Prelude.{◌≡◌, ℕ, ◌+◌, ◌*◌, ◌≤◌, true, false, [], ◌∷◌};
ghost use Rattle.bounded_model.specs.declared.answers.TakeRefused.TheVariants.{Empty, Spent};
ghost use Rattle.bounded_model.specs.declared.answers.Word.TheVariants.{Top};
ghost use Rattle.machine.specs.Bound.{own_steps};
ghost use Rattle.machine.specs.Progress.{LockFree, others_win};
ghost use Rattle.machine.specs.Schedule.{after};
ghost use Rattle.stack_machine.specs.Answers.{shape};
ghost use Rattle.stack_machine.specs.Machine.{stack};
ghost use Rattle.stack_machine.specs.Places.{NoNodeTwice};
ghost use Rattle.stack_machine.specs.declared.lines.Answer.TheVariants.{Close, Shut};
ghost use Rattle.step_core.specs.Letters.{x, y, z};
ghost use Rattle.step_core.specs.Linearizable.{IsLinearization, LinearizableWithAnyHands};
ghost use Rattle.step_core.specs.Scripts.{answers, ended};
ghost use Rattle.step_core.specs.stack.Cast.{Plays, Fails, stack_with, fold_is, free_spent, full, no_take, top_spent};
ghost use Rattle.step_core.specs.stack.Law.{Lawful, AllDone, NoneUnanswered, lines_of};
ghost use Rattle.step_core.specs.stack.Rows.{alone, spent_top, gauges, spent_free, closed_before_spent_top, close_is_overtaken, empty_and_shut, closed_before_spent_at_last, closed_before_full, shut_before_spent, put_overtakes_shut, close_overtakes_take, folds_alone};
ghost use Rattle.step_core.specs.stack.Orders.{limit_before_null, limit_before_closed, limit_before_closed_at_last, full_first, empty_first, limit_first, answers_a_lost_mark, skips_the_walk, skips_the_turn, ignores_marks};
ghost use Rattle.step_core.specs.stack.Mistakes.{hands_with_node, WinsHeld, node_held, node_held_twice, number_again, cut_off, forgotten, left_there, put_after_close, take_after_shut};
ghost use Rattle.step_core.specs.stack.Object.{object, object_with_any_hands, answer};
ghost use Rattle.step_core.specs.stack.WrongAnswers.{put_only_the_first, shut_as_a_close, fold_as_a_take, fold_without_a_turn, value_between};
ghost use Rattle.step_core.specs.stack.WrongRuns.{ends_where_it_lost, lost_take, is_always_empty, stale_take, plain_object, full_of_hands, spoils_where_it_lost, starving, in_turn, resting_hand, full_of_resting_hands, second_cell, full_of_its_own};

/// Rows played by the stack's machine, by single steps of up to three passes, and machines that are
/// nearly the stack's, each with the scene that it fails (see `queue_exhibits`).
pub fn stack_exhibits()
    // Played rows.
    ensures alone { Plays alone }
    ensures spent_top { Plays spent_top }
    ensures gauges { Plays gauges }
    ensures spent_free { Plays spent_free }
    ensures closed_before_spent_top { Plays closed_before_spent_top }
    ensures close_is_overtaken { Plays close_is_overtaken }
    ensures empty_and_shut { Plays empty_and_shut }
    ensures closed_before_spent_at_last { Plays closed_before_spent_at_last }
    ensures closed_before_full { Plays closed_before_full }
    ensures shut_before_spent { Plays shut_before_spent }
    ensures put_overtakes_shut { Plays put_overtakes_shut }
    ensures close_overtakes_take { Plays close_overtakes_take }
    ensures folds_alone { Plays folds_alone }
    // With another order of tests, or without a comparison, a scene gets another reply.
    ensures limit_before_null_fails { Fails limit_before_null spent_top 2 (answers (free_spent 2 (z ∷ []))) }
    ensures limit_before_closed_fails { Fails limit_before_closed closed_before_spent_top 4 (ended (top_spent 2 (x ∷ [])) 7) }
    ensures limit_before_closed_at_last_fails { Fails limit_before_closed_at_last closed_before_spent_at_last 2 (answers (top_spent 1 (y ∷ []))) }
    ensures full_before_closed_fails { Fails full_first closed_before_full 2 (answers (full (y ∷ []))) }
    ensures full_before_limit_fails { Fails full_first spent_top 2 (answers (full (z ∷ []))) }
    ensures empty_before_shut_fails { Fails empty_first empty_and_shut 1 (answers (no_take Empty)) }
    ensures empty_before_closed_fails { Fails empty_first closed_before_full 4 (answers (no_take Empty)) }
    ensures limit_before_empty_fails { Fails limit_first spent_free 4 (answers (no_take (Spent Top 2))) }
    ensures limit_before_shut_fails { Fails limit_first shut_before_spent 3 (answers (no_take (Spent Top 2))) }
    ensures lost_mark_fails { Fails answers_a_lost_mark close_is_overtaken 3 (ended (Close false) 2) }
    ensures lost_second_mark_fails { Fails answers_a_lost_mark put_overtakes_shut 3 (ended (Shut false) 2) }
    ensures skipped_walk_fails { Fails skips_the_walk folds_alone 2 (ended (fold_is 2 (y ∷ x ∷ [])) 6) }
    ensures skipped_turn_fails { Fails skips_the_turn folds_alone 5 (ended (fold_is 5 (x ∷ y ∷ [])) 8) }
    ensures ignored_mark_fails { Fails ignores_marks close_overtakes_take 4 (answers (Close true)) }
{}

/// Near misses: machines that are nearly the stack's, each with a schedule in which it breaks a law (see
/// `queue_near_misses`).
pub fn stack_near_misses()
    // Near misses that break the law of `stack_core` or that of `stack_nodes`.
    ensures node_in_two_hands { hands_with_node 1 node_held_twice ≡ 2 }
    ensures node_held_twice_unlawful { ¬ Lawful ℕ 3 15 node_held_twice }
    ensures node_held_by_two { ¬ NoNodeTwice 3 node_held_twice.memory (lines_of node_held_twice) }
    ensures wins_held_node { WinsHeld (node_held 2) (node_held 3) }
    ensures number_again_unlawful { ¬ Lawful ℕ 2 15 number_again }
    ensures cut_off_unlawful { ¬ Lawful ℕ 2 15 cut_off }
    ensures forgotten_unlawful { ¬ Lawful ℕ 1 15 forgotten }
    ensures left_there_unlawful { ¬ Lawful ℕ 1 15 left_there }
    ensures put_after_close_unlawful { ¬ Lawful ℕ 1 15 put_after_close }
    ensures take_after_shut_unlawful { ¬ Lawful ℕ 1 15 take_after_shut }
    // Near misses that break the law of `stack_answers`.
    ensures put_only_the_first_unlawful { ¬ AllDone (shape 3 15) put_only_the_first }
    ensures shut_as_a_close_unlawful { ¬ AllDone (shape 3 15) shut_as_a_close }
    ensures fold_as_a_take_unlawful { ¬ AllDone (shape 3 15) fold_as_a_take }
    ensures fold_without_a_turn_unlawful { ¬ AllDone (shape 3 15) fold_without_a_turn }
    ensures value_between_unlawful { ¬ AllDone (shape 3 15) value_between }
    // Near misses that are not linearizable, whatever the hands hold, or leave a call unanswered.
    ensures lost_take_unanswered { ¬ NoneUnanswered (after (stack_with ends_where_it_lost (shape 1 15)) 3 lost_take) }
    ensures lost_take_not_linearizable { ¬ LinearizableWithAnyHands (stack_with ends_where_it_lost (shape 1 15)) answer (object_with_any_hands 1 15) 3 lost_take }
    ensures stale_take_unlawful { ¬ Lawful ℕ 1 15 (after (stack_with is_always_empty (shape 1 15)) 2 stale_take) }
    ensures stale_take_not_linearizable { ¬ LinearizableWithAnyHands (stack_with is_always_empty (shape 1 15)) answer (object_with_any_hands 1 15) 2 stale_take }
    ensures full_of_hands_not_plain { ¬ LinearizableWithAnyHands (stack (shape 1 15)) answer plain_object 3 full_of_hands }
    // Courses that are no linearizations: hands of passes that are in no call, more cells than a call may have, and a
    // refusal as full for the own cell.
    ensures resting_hand_refused { ¬ IsLinearization (object 1 1) resting_hand }
    ensures full_of_resting_hands_refused { ¬ IsLinearization (object 1 1) full_of_resting_hands }
    ensures second_cell_refused { ¬ IsLinearization (object 2 1) second_cell }
    ensures full_of_its_own_refused { ¬ IsLinearization (object 1 1) full_of_its_own }
    // A near miss that is not lock-free: two passes make each other fail, round after round.
    ensures starving_not_lock_free { ¬ LockFree (stack_with spoils_where_it_lost (shape 1 15)) 2 ((4 * 1 + 6 + (3 * 1 + 4) * 1) * 2) }
    ensures starving_not_unhindered { let machine = stack_with spoils_where_it_lost (shape 1 15) in
        ¬ (own_steps machine 0 in_turn starving ≤ 9 + 4 * others_win machine 0 in_turn starving) }
{}
