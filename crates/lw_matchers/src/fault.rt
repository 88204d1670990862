// Why a set of tokens was not made.
use lw_base::NoMemory;
use std::alloc::{AllocError, AllocFailed};

/// Why a set of tokens was not made. Numbers are places among the terminals.
#[derive(Clone, Copy, Debug, PartialEq, Eq)]
pub enum MakeTokensFault {
    /// The pattern of this terminal was refused.
    Refused(usize),
    /// The pattern of this terminal matches the empty text.
    EmptyMatch(usize),
    /// There was no memory for the set.
    NoMemory,
}

impl From<NoMemory> for MakeTokensFault {
    ghost use Rattle.std.specs.Prelude.{◌≡◌};
    ghost use Rattle.lw_matchers.specs.declared.fault.MakeTokensFault.{MakeTokensFault};

    ghost from_gives = { λ _ fault. fault ≡ MakeTokensFault.NoMemory };

    fn from(_: NoMemory) -> Self {
        MakeTokensFault::NoMemory
    }
}

impl From<AllocError> for MakeTokensFault {
    ghost use Rattle.std.specs.Prelude.{◌≡◌};
    ghost use Rattle.lw_matchers.specs.declared.fault.MakeTokensFault.{MakeTokensFault};

    ghost from_gives = { λ _ fault. fault ≡ MakeTokensFault.NoMemory };

    fn from(_: AllocError) -> Self {
        MakeTokensFault::NoMemory
    }
}

impl<T: Drop> From<AllocFailed<T>> for MakeTokensFault {
    ghost use Rattle.std.specs.Prelude.{◌≡◌};
    ghost use Rattle.lw_matchers.specs.declared.fault.MakeTokensFault.{MakeTokensFault};

    ghost from_gives = { λ _ fault. fault ≡ MakeTokensFault.NoMemory };

    fn from(_: AllocFailed<T>) -> Self {
        MakeTokensFault::NoMemory
    }
}
