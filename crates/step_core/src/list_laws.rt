//! The law of the machine that is one list.
ghost use Rattle.std.specs.Prelude.{ℕ, ◌<◌};
ghost use Rattle.machine.specs.Schedule.{Schedule, after};
ghost use Rattle.step_core.specs.list.Machine.{Call, list};
ghost use Rattle.step_core.specs.list.Law.{Lawful};

/// In every schedule of takes from a list of `n` indexes and gives to it, its top and links stand
/// for a list of distinct indexes. The list shares none with the hands. The list and the hands
/// together have all `n` indexes, each once. No tag passes the limit.
pub fn list_core()
    ensures { (n limit passes : ℕ) (schedule : Schedule Call) → 0 < n →
        Lawful n limit (after (list n limit) passes schedule) }
{}
