//! How long a queue lives, by the run of a call that found it spent.
ghost use Rattle.std.specs.Prelude.{◌≡◌, ℕ, ◌<◌, Err};
ghost use Rattle.tagged_index.specs.declared.word.TheConstants.{NULL};
ghost use Rattle.bounded_model.specs.declared.answers.PutRefused.TheVariants.{Spent};
ghost use Rattle.bounded_model.specs.declared.answers.Word.{Word};
ghost use Rattle.bounded_model.specs.declared.answers.Word.TheVariants.{Next};
ghost use Rattle.bounded_model.specs.declared.views.PassView.{PassView};
ghost use Rattle.bounded_model.specs.Justified.{IsWorn};
ghost use Rattle.machine.specs.declared.seats.View.{View};
ghost use Rattle.machine.specs.Seats.{pass_of};
ghost use Rattle.queue_machine.specs.declared.lines.Answer.TheVariants.{Put as AnswerPut};
ghost use Rattle.queue_machine.specs.declared.lines.Line.{Line};
ghost use Rattle.queue_machine.specs.Machine.{ends};
ghost use Rattle.queue_machine.specs.Answers.{shape};
ghost use Rattle.queue_table.specs.declared.operation.Operation.{Operation};
ghost use Rattle.queue_table.specs.Core.{core, queue};
ghost use Rattle.queue_table.specs.Lines.{names};
ghost use Rattle.running.specs.Acts.{played};
ghost use Rattle.running.specs.Going.{HasRun};
ghost use Rattle.runs.specs.queue.Life.{IsSpent, backed_out, one_put, put_that_backs_out};

/// A put is refused as spent at the end of its queue's life, and not before. By the put's run (its clause
/// `ran`), as many cells were reserved by then as the queue's limit says. If the queue is open in all that the
/// caller has seen, a value was put with each of these cells, but for one, and for those that are in some
/// pass's hand. So if no other call is under way, the queue has taken as many values as its limit says, or one
/// fewer.
pub fn queue_spent_put<T>()
    ensures { (n limit : ℕ) → 0 < n → n < NULL → 0 < limit
        → (o : Operation T) (v : View T (Line T)) (begun : PassView T) (x : T) (word : Word) (t : ℕ)
        → HasRun (queue T n limit) o v begun (ends (AnswerPut (Err (Spent x word t))))
        → IsSpent n limit (pass_of v).seen }
{}

/// Near misses of a spent queue. A queue with a single tag is spent by its first put, which gives its cell back.
/// With two tags, it is not spent by a put that stored its value, though it is then worn (`IsWorn`), as each
/// refusal says. Nor is an open queue spent by puts that all gave their cells back.
pub fn queue_spent_near_misses()
    ensures first_put_spent { (played names (core ℕ 1 1) put_that_backs_out).line 0
        ≡ ends (AnswerPut (Err (Spent 7 (Next 1) 0))) }
    ensures first_history { (played names (core ℕ 1 1) put_that_backs_out).history ≡ backed_out 1 }
    ensures first_life { IsSpent 1 1 (backed_out 1) }
    ensures half_life_worn { IsWorn (shape 1 2) one_put }
    ensures half_life_refused { ¬ IsSpent 1 2 one_put }
    ensures no_values_refused { ¬ IsSpent 1 3 (backed_out 3) }
{}
