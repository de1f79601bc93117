//! A host of lists: where its lists are, and the laws that it keeps.
ghost use Rattle.std.specs.Prelude.{◌≡◌, ◌<◌, ◌≤◌};
ghost use Rattle.tagged_index.specs.declared.word.TheConstants.{NULL};
ghost use Rattle.index_list.specs.Lists.{Layout};
ghost use Rattle.index_list.specs.Host.{Host, Laws};

use atomic_table::TableRule;

/// A table that has `L` lists of indexes among its words.
///
/// - `layout` says where the lists are. It also says of each whether a give keeps the top's tag,
///   and whether its indexes carry a value slot.
/// - `host` says in the host's own words what its seats hold and may do.
/// - `laws` has what the host keeps: one law of plain data for each kind of step.
///
/// `host` and `laws` see the table's key, so they may tell of limits that are set with the table.
pub trait ListHost<S, V, K, const L: usize>: TableRule<S, V, K> {
    /// The host's own name of a step: one kind of step can stand at several places of an operation.
    type Line;

    ghost layout: { Layout };

    ghost host: { K → Host S V Self.Line };

    /// The word that is the top of the list.
    fn top(list: usize) -> usize
        requires { list < L }
        ensures { result ≡ layout.top list };

    /// The word that is the link of the index on that list.
    fn link(list: usize, index: u32) -> usize
        requires { (list < L) × (index ≤ NULL) }
        ensures { result ≡ layout.link list index };

    /// Whether a give keeps the tag of the top.
    fn keeps_tag(list: usize) -> bool
        requires { list < L }
        ensures { result ≡ layout.keeps list };

    ghost laws: { (key : K) → Laws layout (host key) (Self.holds key) L };
}
