//! Whole calls in real time.
ghost use Rattle.tagged_index.specs.declared.limit.Limits.{Limits};
ghost use Rattle.runs.specs.OneRun.{KeepsTime};

use running::Machine;

/// The runs of whole calls keep real time. A pass, a note and the root keep acts. A call says which of the
/// acts that its pass keeps are new (`BeganSince`), and what is met, heeded, split off or joined has its acts
/// handed on. Then:
/// - in the run of a call, all acts that its pass kept as the call was begun come before its begin;
/// - so a call whose caller had heard of the end of another stands after it: the whole run of the other call
///   comes before the begin of this one.
pub fn calls_keep_time<T, L, O, M: Machine<T, L, O>>()
    ensures { (limits : Limits) → KeepsTime (M.machine limits) }
{}
