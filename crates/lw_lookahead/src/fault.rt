// Why a grammar has no tables.
ghost use Rattle.std.specs.Prelude.{◌≡◌};
ghost use Rattle.lw_lookahead.specs.declared.fault.LookFault.TheVariants.{NoMemory as no_memory};
ghost use Rattle.lw_lookahead.specs.Faults.{look_fault};

use crate::points::PointsFault;
use lw_base::{Name, NoMemory, Span};
use lw_first::heads::Head;

/// A choice at which two ways may be followed by the same.
#[derive(Drop)]
pub struct Conflict {
    /// The file that the choice is written in, by its place in load order, and its place there.
    pub file: u16,
    pub span: Span,
    /// The ways, counted from one. The first is the smaller one.
    pub first: u16,
    pub second: u16,
    /// What may come next at both, and how it is printed.
    pub shared: Head,
    pub text: Name,
}

/// Why a grammar has no tables.
#[derive(Drop)]
pub enum LookFault {
    /// Two ways of a choice cannot be told apart.
    Conflict(Conflict),
    /// The ways of all choices have more strings than [`MOST_STRINGS`](crate::points::MOST_STRINGS).
    TooMany,
    /// There was no memory.
    NoMemory,
}

impl From<NoMemory> for LookFault {
    ghost from_gives = { λ _ fault. fault ≡ no_memory };

    fn from(_: NoMemory) -> Self {
        LookFault::NoMemory
    }
}

impl From<PointsFault> for LookFault {
    ghost from_gives = { λ fault look. look ≡ look_fault fault };

    fn from(fault: PointsFault) -> Self {
        match fault {
            PointsFault::TooMany => LookFault::TooMany,
            PointsFault::NoMemory => LookFault::NoMemory,
        }
    }
}
