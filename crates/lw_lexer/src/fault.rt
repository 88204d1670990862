// Why a text is not cut into tokens.
use lw_base::{NoMemory, Span};
use std::alloc::AllocFailed;

/// Why a text is not cut into tokens.
#[derive(Clone, Copy, Debug, PartialEq, Eq)]
pub enum LexFault {
    /// No token stands at this character.
    NoToken(Span),
    /// There was no memory for the tokens.
    NoMemory,
}

impl From<NoMemory> for LexFault {
    ghost use Rattle.std.specs.Prelude.{◌≡◌};
    ghost use Rattle.lw_lexer.specs.declared.fault.LexFault.{LexFault};

    ghost from_gives = { λ _ fault. fault ≡ LexFault.NoMemory };

    fn from(_: NoMemory) -> Self {
        LexFault::NoMemory
    }
}

impl<T: Drop> From<AllocFailed<T>> for LexFault {
    ghost use Rattle.std.specs.Prelude.{◌≡◌};
    ghost use Rattle.lw_lexer.specs.declared.fault.LexFault.{LexFault};

    ghost from_gives = { λ _ fault. fault ≡ LexFault.NoMemory };

    fn from(_: AllocFailed<T>) -> Self {
        LexFault::NoMemory
    }
}
