//! What the queue's machine does, played, and near misses that its laws refuse.
ghost use Rattle.std.specs.Prelude.{◌≡◌, ℕ, ◌+◌, ◌*◌, ◌≤◌, true, false};
ghost use Rattle.bounded_model.specs.declared.answers.TakeRefused.TheVariants.{Empty, Closed};
ghost use Rattle.machine.specs.Bound.{own_steps};
ghost use Rattle.machine.specs.Progress.{LockFree, others_win};
ghost use Rattle.machine.specs.Schedule.{after};
ghost use Rattle.queue_machine.specs.Answers.{shape};
ghost use Rattle.queue_machine.specs.Machine.{queue};
ghost use Rattle.queue_machine.specs.Places.{NothingTwice};
ghost use Rattle.queue_machine.specs.declared.lines.Answer.TheVariants.{Close, Shut, Look, Len, Gauge};
ghost use Rattle.step_core.specs.Letters.{x, y, z};
ghost use Rattle.step_core.specs.Linearizable.{IsLinearization, Linearizable, LinearizableWithAnyHands};
ghost use Rattle.step_core.specs.Scripts.{answers, ended};
ghost use Rattle.step_core.specs.queue.Cast.{Plays, Fails, queue_with, cells_spent, full, no_take, put_closed, take_is};
ghost use Rattle.step_core.specs.queue.Law.{Lawful, AllDone, NoneUnanswered, lines_of};
ghost use Rattle.step_core.specs.queue.Rows.{alone, alone_refused, closed_before_full, shut_queue};
ghost use Rattle.step_core.specs.queue.Overtaking.{look_and_shut, put_overtakes_close, spent_before_closed, next_spent_before_closed, null_before_limit, shut_before_empty, tail_before_link, tail_before_null_link, tail_before_node, head_before_tail, head_before_link, head_before_mark, head_before_answer, counts, gauges};
ghost use Rattle.step_core.specs.queue.Orders.{limit_first, closed_first, next_limit_last, null_before_mark, link_before_tail, null_before_tail, node_before_tail, shut_last, empty_before_closed, link_before_head, mark_before_head, tail_before_null, tail_before_head, link_before_answer, count_before_head, count_to_tail, gauge_to_tail, gauge_before_next, mark_overlooked, marks_anyway, second_overlooked};
ghost use Rattle.step_core.specs.queue.Mistakes.{hands_with_cell, hands_with_node, WinsHeld, cell_held, cell_held_twice, node_held, node_held_twice, number_again, linked_late, dummy_free, left_there, overtaken, put_after_close, take_after_shut, wrong_cell, no_node, linked_aside};
ghost use Rattle.step_core.specs.queue.Object.{object, object_with_any_hands, answer};
ghost use Rattle.step_core.specs.queue.WrongAnswers.{put_another, handed_back, kept_cell, closed_instead, keeps_cell, keeping};
ghost use Rattle.step_core.specs.queue.WrongRuns.{ends_where_it_lost, lost_take, is_always_empty, stale_take, plain_object, full_of_hands, spoils_where_it_lost, starving, in_turn, resting_hand, full_of_resting_hands, second_cell, full_of_its_own};

/// Rows played by the queue's machine, by single steps of up to three passes, and machines that are
/// nearly the queue's. Each such machine has the scene that it fails: the first lines of it get
/// their replies, and then one gets another. They show what the comparisons and the order of the
/// tests are for.
pub fn queue_exhibits()
    // Played rows.
    ensures alone { Plays alone }
    ensures alone_refused { Plays alone_refused }
    ensures closed_before_full { Plays closed_before_full }
    ensures shut_queue { Plays shut_queue }
    // Rows in which passes overtake and help one another, and in which two reasons to refuse meet.
    ensures look_and_shut { Plays look_and_shut }
    ensures put_overtakes_close { Plays put_overtakes_close }
    ensures spent_before_closed { Plays spent_before_closed }
    ensures next_spent_before_closed { Plays next_spent_before_closed }
    ensures null_before_limit { Plays null_before_limit }
    ensures shut_before_empty { Plays shut_before_empty }
    ensures tail_before_link { Plays tail_before_link }
    ensures tail_before_null_link { Plays tail_before_null_link }
    ensures tail_before_node { Plays tail_before_node }
    ensures head_before_tail { Plays head_before_tail }
    ensures head_before_link { Plays head_before_link }
    ensures head_before_mark { Plays head_before_mark }
    ensures head_before_answer { Plays head_before_answer }
    ensures counts { Plays counts }
    ensures gauges { Plays gauges }
    // With another order of tests, or without a comparison, a scene gets another reply.
    ensures limit_first_fails { Fails limit_first null_before_limit 2 (answers (cells_spent 2 z)) }
    ensures closed_first_fails { Fails closed_first spent_before_closed 4 (answers (put_closed z)) }
    ensures next_limit_last_fails { Fails next_limit_last next_spent_before_closed 5 (ended (put_closed x) 18) }
    ensures null_before_mark_fails { Fails null_before_mark closed_before_full 2 (answers (full y)) }
    ensures link_before_tail_fails { Fails link_before_tail tail_before_link 5 (ended (Close false) 3) }
    ensures null_before_tail_fails { Fails null_before_tail tail_before_null_link 5 (ended (Close true) 4) }
    ensures node_before_tail_fails { Fails node_before_tail tail_before_node 2 (ended (Close true) 8) }
    ensures shut_last_fails { Fails shut_last shut_before_empty 1 (answers (no_take Empty)) }
    ensures empty_before_closed_fails { Fails empty_before_closed closed_before_full 4 (answers (no_take Empty)) }
    ensures link_before_head_fails { Fails link_before_head head_before_link 4 (ended (no_take Empty) 4) }
    ensures mark_before_head_fails { Fails mark_before_head head_before_mark 5 (ended (no_take Closed) 4) }
    ensures tail_before_null_fails { Fails tail_before_null alone_refused 0 (ended (no_take Empty) 9) }
    ensures tail_before_head_fails { Fails tail_before_head head_before_tail 3 (ended (no_take Empty) 9) }
    ensures link_before_answer_fails { Fails link_before_answer head_before_answer 3 (ended (Look false) 3) }
    ensures count_before_head_fails { Fails count_before_head counts 7 (ended (Len 2) 4) }
    ensures count_to_tail_fails { Fails count_to_tail counts 2 (ended (Len 0) 4) }
    ensures gauge_to_tail_fails { Fails gauge_to_tail gauges 2 (ended (Gauge false 0) 3) }
    ensures gauge_before_next_fails { Fails gauge_before_next gauges 6 (ended (Gauge false 1) 4) }
    ensures mark_overlooked_fails { Fails mark_overlooked shut_queue 5 (ended (take_is 0 x) 12) }
    ensures marks_anyway_closes { Fails marks_anyway put_overtakes_close 2 (ended (Close true) 4) }
    ensures marks_anyway_shuts { Fails marks_anyway look_and_shut 5 (ended (Shut true) 2) }
    ensures second_overlooked_fails { Fails second_overlooked look_and_shut 5 (ended (Shut true) 2) }
{}

/// Near misses: machines that are nearly the queue's, each with a schedule in which it breaks a law. They
/// show what the comparisons and the tags are for, and that the laws refuse a machine without them.
pub fn queue_near_misses()
    // Near misses that break the law of `queue_core` or that of `queue_nodes`.
    ensures cell_in_two_hands { hands_with_cell 1 cell_held_twice ≡ 2 }
    ensures cell_held_twice_unlawful { ¬ Lawful ℕ 3 15 cell_held_twice }
    ensures cell_held_by_two { ¬ NothingTwice 3 cell_held_twice.memory (lines_of cell_held_twice) }
    ensures wins_held_cell { WinsHeld (cell_held 2) (cell_held 3) }
    ensures node_in_two_hands { hands_with_node 2 node_held_twice ≡ 2 }
    ensures node_held_twice_unlawful { ¬ Lawful ℕ 3 15 node_held_twice }
    ensures node_held_by_two { ¬ NothingTwice 3 node_held_twice.memory (lines_of node_held_twice) }
    ensures wins_held_node { WinsHeld (node_held 5) (node_held 6) }
    ensures number_again_unlawful { ¬ Lawful ℕ 2 15 number_again }
    ensures linked_late_unlawful { ¬ Lawful ℕ 2 15 linked_late }
    ensures dummy_free_unlawful { ¬ Lawful ℕ 1 15 dummy_free }
    ensures left_there_unlawful { ¬ Lawful ℕ 1 15 left_there }
    ensures overtaken_unlawful { ¬ Lawful ℕ 2 15 overtaken }
    ensures put_after_close_unlawful { ¬ Lawful ℕ 2 15 put_after_close }
    ensures take_after_shut_unlawful { ¬ Lawful ℕ 2 15 take_after_shut }
    ensures other_cell_in_two_hands { hands_with_cell 1 wrong_cell ≡ 2 }
    ensures wrong_cell_unlawful { ¬ Lawful ℕ 2 15 wrong_cell }
    ensures no_node_unlawful { ¬ Lawful ℕ 1 15 no_node }
    ensures linked_aside_unlawful { ¬ Lawful ℕ 2 15 linked_aside }
    // Near misses that break the law of `queue_answers`.
    ensures put_another_unlawful { ¬ AllDone put_another }
    ensures handed_back_unlawful { ¬ AllDone handed_back }
    ensures kept_cell_unlawful { ¬ AllDone kept_cell }
    ensures closed_instead_unlawful { ¬ AllDone closed_instead }
    // Near misses that are not linearizable, whatever the hands hold, or leave a call unanswered.
    ensures lost_take_unanswered { ¬ NoneUnanswered (after (queue_with ends_where_it_lost (shape 1 15)) 3 lost_take) }
    ensures lost_take_not_linearizable { ¬ LinearizableWithAnyHands (queue_with ends_where_it_lost (shape 1 15)) answer (object_with_any_hands 1 15) 3 lost_take }
    ensures stale_take_unlawful { ¬ Lawful ℕ 1 15 (after (queue_with is_always_empty (shape 1 15)) 2 stale_take) }
    ensures stale_take_not_linearizable { ¬ LinearizableWithAnyHands (queue_with is_always_empty (shape 1 15)) answer (object_with_any_hands 1 15) 2 stale_take }
    ensures full_of_hands_not_plain { ¬ LinearizableWithAnyHands (queue (shape 1 15)) answer plain_object 3 full_of_hands }
    // Courses that are no linearizations: hands of passes that are in no call, more cells than a call may have, and a
    // refusal as full for the own cell.
    ensures resting_hand_refused { ¬ IsLinearization (object 1 1) resting_hand }
    ensures full_of_resting_hands_refused { ¬ IsLinearization (object 1 1) full_of_resting_hands }
    ensures second_cell_refused { ¬ IsLinearization (object 2 1) second_cell }
    ensures full_of_its_own_refused { ¬ IsLinearization (object 1 1) full_of_its_own }
    ensures kept_cell_not_linearizable { ¬ Linearizable (queue_with keeps_cell (shape 1 15)) answer (object 1 15) 2 keeping }
    // A near miss that is not lock-free: two passes make each other fail, round after round.
    ensures starving_not_lock_free { ¬ LockFree (queue_with spoils_where_it_lost (shape 1 15)) 2 ((20 + 14 * 1) * 2) }
    ensures starving_not_unhindered { let machine = queue_with spoils_where_it_lost (shape 1 15) in
        ¬ (own_steps machine 0 in_turn starving ≤ 20 + 8 * others_win machine 0 in_turn starving) }
{}
