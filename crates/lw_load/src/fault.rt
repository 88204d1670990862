// Why a grammar is not loaded.
ghost use Rattle.std.specs.Prelude.{◌≡◌};
ghost use Rattle.lw_load.specs.declared.fault.LoadFault.TheVariants.{NoMemory as no_memory};

use lw_base::{Name, NoMemory};
use lw_gramread::ReadFault;
use lw_text::Pos;

/// Why a grammar is not loaded. The path is that of the file that is to blame: the root's as it was given, any
/// other in its walked form.
#[derive(Drop)]
pub enum LoadFault {
    /// No file is at this path.
    Absent(Name),
    /// The file at this path is no UTF-8.
    NotUtf8(Name),
    /// The file at this path has more than 67,108,864 bytes.
    TooLong(Name),
    /// The store failed to read this path.
    StoreFault(Name),
    /// The file at this path says no grammar: how it was refused, and the position of that in the file, line and
    /// UTF-16 unit from zero. The refusal is never want of memory.
    Read(Name, ReadFault, Pos),
    /// With the file at this path the grammar is larger than [`crate::LARGEST_GRAMMAR`].
    TooLarge(Name),
    /// There was no memory.
    NoMemory,
}

impl From<NoMemory> for LoadFault {
    ghost from_gives = { λ _ fault. fault ≡ no_memory };

    fn from(_: NoMemory) -> Self {
        LoadFault::NoMemory
    }
}
