//! The theorems about every legal history, whoever made it. A container's users may depend on them.
//! The functions here do nothing: the contract of each is the theorem.
ghost use Rattle.std.specs.Prelude.{◌≡◌, ℕ, ◌+◌, ◌≤◌, ◌++◌, ◌∷◌, List, [], length, IsPermutation};
ghost use Rattle.bounded_model.specs.declared.history.Event.{Event};
ghost use Rattle.bounded_model.specs.declared.history.Event.TheVariants.{TakeAll};
ghost use Rattle.bounded_model.specs.declared.history.Order.TheVariants.{Fifo, Lifo};
ghost use Rattle.bounded_model.specs.Machine.{Shape, state, Legal};
ghost use Rattle.bounded_model.specs.Justified.{IsClosed, IsShut};
ghost use Rattle.bounded_model.specs.Alone.{without_hands, IsListRun, SameList};
ghost use Rattle.bounded_model.specs.Latest.{IsLatest};
ghost use Rattle.bounded_model.specs.Gathers.{
  gather,
  put_of,
  sent_of,
  took_of,
  number_of,
  close_of,
  shut_of,
  values_of,
  Counts,
};

/// A queue is first in, first out. The values that were put are, in order, the values that were
/// taken followed by the values that it holds. Puts are numbered 0, 1, 2, .., and so are takes. So
/// the take numbered k gives the value of the put numbered k, and each value is taken once.
pub fn queue_keeps_order<T>()
    ensures values { (c : Shape) (h : List (Event T))
        → c.order ≡ Fifo → Legal c h
        → values_of (gather sent_of h) ≡ values_of (gather took_of h) ++ (state c h).values }
    ensures puts { (c : Shape) (h : List (Event T))
        → c.order ≡ Fifo → Legal c h → Counts (λ m. m.number) 0 (gather sent_of h) }
    ensures takes { (c : Shape) (h : List (Event T))
        → c.order ≡ Fifo → Legal c h → Counts (λ m. m.number) 0 (gather took_of h) }
{}

/// A stack is last in, first out: each take gives the value of the latest put that has not been
/// taken. Since this value was put, the number of values taken equals the number of values put
/// after it. At no time was the number taken greater. A fold takes one value after another in this
/// way, and leaves none. Puts, takes and folds are numbered 0, 1, 2, .. together.
pub fn stack_keeps_order<T>()
    ensures values { (c : Shape) (newer : List (Event T)) (e : Event T) (h : List (Event T))
        → c.order ≡ Lifo → Legal c (newer ++ e ∷ h)
        → (first : List T) (v : T) (last : List T)
        → values_of (took_of e) ≡ first ++ v ∷ last
        → IsLatest v (length first) h }
    ensures folds { (c : Shape) (p n : ℕ) (vs : List T) (h : List (Event T))
        → Legal c (TakeAll p vs n ∷ h)
        → IsPermutation (gather put_of h) (values_of (gather took_of (TakeAll p vs n ∷ h))) }
    ensures numbers { (c : Shape) (h : List (Event T))
        → c.order ≡ Lifo → Legal c h → Counts (λ k. k) 0 (gather number_of h) }
{}

/// Leave out the moves of hands from a legal history. Its puts, takes, folds, close and shut are
/// then a run of one sequential list. That list is the container's at any time. So hands matter
/// only for when a call may be refused as full or spent.
pub fn calls_alone_are_a_list<T>()
    ensures run { (c : Shape) (h : List (Event T)) → Legal c h → IsListRun c (without_hands h) }
    ensures list { (c : Shape) (h : List (Event T))
        → SameList (state c h) (state c (without_hands h)) }
{}

/// In either order nothing is lost and nothing comes twice. Up to the order, the values that were
/// put are the values that were taken and the values that the container holds.
pub fn nothing_is_lost<T>()
    ensures { (c : Shape) (h : List (Event T))
        → Legal c h
        → IsPermutation (gather put_of h) (values_of (gather took_of h) ++ (state c h).values) }
{}

/// No put follows the close, and no take or fold follows the shut. There is at most one close and
/// at most one shut.
pub fn closing_is_final<T>()
    ensures puts { (c : Shape) (more h : List (Event T))
        → Legal c (more ++ h) → IsClosed c h → gather put_of more ≡ [] }
    ensures takes { (c : Shape) (more h : List (Event T))
        → Legal c (more ++ h) → IsShut c h → gather took_of more ≡ [] }
    ensures one_close { (c : Shape) (h : List (Event T))
        → Legal c h → length (gather close_of h) ≤ 1 }
    ensures one_shut { (c : Shape) (h : List (Event T))
        → Legal c h → length (gather shut_of h) ≤ 1 }
{}

/// The number of values in the container plus the number of cells held is never more than the
/// capacity.
pub fn capacity_is_kept<T>()
    ensures { (c : Shape) (h : List (Event T))
        → Legal c h → length (state c h).values + (state c h).held ≤ c.capacity }
{}
