// Why a grammar has no set of tokens.
ghost use Rattle.std.specs.Prelude.{◌≡◌};
ghost use Rattle.lw_terminals.specs.declared.fault.TermFault.TheVariants.{NoMemory as no_memory};

use lw_base::{NoMemory, RuleId, Span};

/// How many kinds of tokens a language may have.
pub const MOST_KINDS: usize = 256;

/// How many of them may be terminals.
pub const MOST_TERMINALS: usize = 32;

/// Why a grammar has no set of tokens. Terminals are told by their numbers among rules and terminals, of which the rules come first.
#[derive(Clone, Copy, Debug, PartialEq, Eq)]
pub enum TermFault {
    /// There are more kinds than [`MOST_KINDS`], and this many; or else more terminals than [`MOST_TERMINALS`], and this many.
    TooManyKinds(u32),
    /// A keyword is empty or begins with white space, and is first used in this file, by its number, at this place.
    KeywordBlank(u16, Span),
    /// The pattern of this terminal is longer than [`LONGEST_PATTERN`](crate::patterns::LONGEST_PATTERN): it has this many bytes, where
    /// 4,294,967,295 stands for all that are longer.
    PatternLong(RuleId, u32),
    /// The pattern of this terminal was refused.
    PatternRefused(RuleId),
    /// The pattern of this terminal matches the empty text.
    EmptyMatch(RuleId),
    /// There was no memory.
    NoMemory,
}

impl From<NoMemory> for TermFault {
    ghost from_gives = { λ _ fault. fault ≡ no_memory };

    fn from(_: NoMemory) -> Self {
        TermFault::NoMemory
    }
}
