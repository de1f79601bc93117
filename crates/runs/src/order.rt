//! The order in which the calls of all passes stand.
ghost use Rattle.std.specs.Prelude.{◌≡◌, ℕ, Bool, List, [], ◌∷◌, Result};
ghost use Rattle.std.specs.List.{AllByRecursion};
ghost use Rattle.bounded_model.specs.declared.answers.PutRefused.{PutRefused};
ghost use Rattle.bounded_model.specs.declared.answers.TakeRefused.{TakeRefused};
ghost use Rattle.bounded_model.specs.declared.history.Event.{Event};
ghost use Rattle.bounded_model.specs.declared.history.Event.TheVariants.{Put, TakeAll};
ghost use Rattle.bounded_model.specs.declared.views.PassView.{PassView};
ghost use Rattle.bounded_model.specs.Justified.{Counted, Looked};
ghost use Rattle.bounded_model.specs.Laws.{
  CloseGives,
  FoldGives,
  LenGives,
  LookGives,
  PutGives,
  RangeGives,
  ShutGives,
  TakeGives,
};
ghost use Rattle.bounded_model.specs.Machine.{Shape};
ghost use Rattle.runs.specs.InTime.{
  Changes,
  DidOnce,
  Finds,
  InOneOrder,
  InTurn,
  IsCallOf,
  KnownCall,
  close_effect,
  put_effect,
  shut_effect,
  take_effect,
};
ghost use Rattle.runs.specs.Point.{HasPoint};
ghost use Rattle.runs.specs.WrongCalls.{early_point, first_call, late_call, late_point, reading, second_call};

/// By its contract, each call did what it answers at one moment, between what its pass had seen as the
/// call began and as it ended. At that moment its event happened, or what it found was so.
pub fn each_call_did_once<T>()
    ensures put { (c : Shape) (v w : PassView T) (x : T) (said : Result ℕ (PutRefused T))
        → PutGives c v x w said → DidOnce c v w (put_effect v.number x said) }
    ensures take { (c : Shape) (v w : PassView T) (said : Result (T × ℕ) TakeRefused)
        → TakeGives c v w said → DidOnce c v w (take_effect v.number said) }
    ensures close { (c : Shape) (v w : PassView T) (said : Bool)
        → CloseGives c v w said → DidOnce c v w (close_effect v.number said) }
    ensures shut { (c : Shape) (v w : PassView T) (said : Bool)
        → ShutGives c v w said → DidOnce c v w (shut_effect v.number said) }
    ensures look { (c : Shape) (v w : PassView T) (said : Bool)
        → LookGives c v w said → DidOnce c v w (Finds (Looked said)) }
    ensures len { (c : Shape) (v w : PassView T) (k : ℕ)
        → LenGives c v w k → DidOnce c v w (Finds (Counted k)) }
    ensures range { (c : Shape) (v w : PassView T) (xs : List T) (n : ℕ)
        → RangeGives v xs w n → DidOnce c v w (Changes (Put v.number xs n)) }
    ensures fold { (c : Shape) (v w : PassView T) (xs : List T) (n : ℕ)
        → FoldGives v w xs n → DidOnce c v w (Changes (TakeAll v.number xs n)) }
{}

/// The calls of all passes are in one order, which keeps what their callers had heard. Suppose that a root has joined the
/// passes of these calls, so that the history that it has seen has all that they had seen. The calls are
/// listed so that those of one pass stand in the list as the pass made them. Then:
/// - each call stands at a moment of that one history, after it began and before it ended. What it did
///   is right there;
/// - no two calls are at one place of the order;
/// - a call that is listed after another of which its caller had heard stands after it. So a caller who
///   has met, heeded or joined what another call left, and then makes a call, makes it after that other.
pub fn calls_in_one_order<T>()
    ensures { (c : Shape) (h : List (Event T)) (calls : List (KnownCall T))
        → AllByRecursion (IsCallOf c h) calls → InTurn calls → InOneOrder c h calls }
{}

/// Near misses of that order: a pass's two puts that are listed the wrong way round, and a call whose
/// event had happened before the call began. Near misses of a call that has its point: one whose point is
/// before its invocation, and one whose point is after its response.
pub fn calls_near_misses()
    ensures out_of_turn_refused { ¬ InTurn (second_call ∷ first_call ∷ []) }
    ensures late_call_refused { (c : Shape) (h : List (Event ℕ)) → ¬ InOneOrder c h (late_call ∷ []) }
    ensures early_point_refused { ¬ HasPoint early_point [] reading }
    ensures late_point_refused { ¬ HasPoint late_point [] reading }
{}
