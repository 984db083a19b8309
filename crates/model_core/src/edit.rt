//! Why an edit of a model is refused.

use crate::name::NoMemory;

/// Why an edit is refused. The model is then as before.
#[derive(Debug, Clone, Copy, PartialEq, Eq)]
pub enum EditFault {
    /// An option, a criterion or a group has this name, or two elements have one name.
    NameTaken,
    /// There are as many as there may be.
    LimitReached,
    UnknownOption,
    UnknownCriterion,
    UnknownElement,
    UnknownGroup,
    /// The first isn't listed above the second.
    AgainstOrder,
    /// The names aren't those of all criteria, each once.
    NotPermutation,
    NoMemory,
}

impl From<NoMemory> for EditFault {
    ghost use Rattle.std.specs.Prelude.{◌≡◌};
    ghost use Rattle.model_core.specs.declared.edit.EditFault.TheVariants as given;

    ghost from_gives = { λ _ fault. fault ≡ given.NoMemory };

    fn from(_: NoMemory) -> EditFault {
        EditFault::NoMemory
    }
}
