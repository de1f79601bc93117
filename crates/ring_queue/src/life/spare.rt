//! The spare cell of a pass.
ghost use Rattle.std.specs.Prelude.{◌≤◌};
ghost use Rattle.tagged_index.specs.declared.word.TheConstants.{NULL};

/// The index of a cell that no slot names: a pass has it, and exchanges it for that of a slot.
#[derive(Clone, Copy)]
pub struct Spare {
    pub(crate) index: u32,
    pub ghost low: { index ≤ NULL },
}
