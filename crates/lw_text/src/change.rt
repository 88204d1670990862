// Changes of a text, and why they are refused.
use crate::Pos;
use lw_base::{Name, NoMemory};
use std::alloc::AllocError;

/// A change of a text: its new text, in place of what stands in the range, from its start up to its
/// end, or of the whole text where there is no range (Language Server Protocol 3.17,
/// "TextDocumentContentChangeEvent").
#[derive(Debug, PartialEq, Eq, Drop)]
pub struct Change {
    pub range: Option<(Pos, Pos)>,
    pub text: Name,
}

impl Change {
    ghost use Rattle.std.specs.Prelude.{◌↔◌, IsTrue};
    ghost use Rattle.lw_text.specs.Changes.{HasBadRange};

    /// Whether there is a range whose start comes after its end: by line, then by character.
    pub(crate) fn has_bad_range(&self) -> bool
        ensures { IsTrue result ↔ HasBadRange self.now }
    {
        match self.range {
            Some((start, end)) => start > end,
            None => false,
        }
    }
}

/// Why a text was not made or not changed.
#[derive(Clone, Copy, Debug, PartialEq, Eq)]
pub enum EditFault {
    /// The start of a range comes after its end, both as given: the number of the change, counted from
    /// zero.
    BadRange(u64),
    /// The text would be longer than [`LONGEST_TEXT`]: its length in bytes.
    TooLong(u64),
    /// Memory was refused.
    NoMemory,
}

impl From<NoMemory> for EditFault {
    ghost use Rattle.std.specs.Prelude.{◌≡◌};
    ghost use Rattle.lw_text.specs.declared.change.EditFault.TheVariants.{NoMemory as Refused};

    ghost from_gives = { λ _ fault. fault ≡ Refused };

    fn from(_: NoMemory) -> Self {
        EditFault::NoMemory
    }
}

impl From<AllocError> for EditFault {
    ghost use Rattle.std.specs.Prelude.{◌≡◌};
    ghost use Rattle.lw_text.specs.declared.change.EditFault.TheVariants.{NoMemory as Refused};

    ghost from_gives = { λ _ fault. fault ≡ Refused };

    fn from(_: AllocError) -> Self {
        EditFault::NoMemory
    }
}
