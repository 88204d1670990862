// Why a workspace refuses what it is asked.
ghost use Rattle.std.specs.Prelude.{◌≡◌};
ghost use Rattle.lw_build.specs.declared.fault.WorkFault.TheVariants.{NoMemory as Refused};

use lw_base::NoMemory;

/// Why a workspace refuses what it is asked. What is refused changes nothing.
#[derive(Clone, Copy, Debug, PartialEq, Eq)]
pub enum WorkFault {
    /// No document is held at the address.
    NoDocument,
    /// As many documents are held as there may be, and the address is not among theirs.
    TooMany,
    /// A change, by its number from zero on, has a range that ends before it starts.
    BadRange(u64),
    /// A text would have so many bytes, and may have 67,108,864 at most.
    TooLong(u64),
    /// There was no memory.
    NoMemory,
}

impl From<NoMemory> for WorkFault {
    ghost from_gives = { λ _ fault. fault ≡ Refused };

    fn from(_: NoMemory) -> Self {
        WorkFault::NoMemory
    }
}
