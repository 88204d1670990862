// Why a document has no tree.
use lw_base::{KindId, Span};

/// Why a text is not read whole. Places are byte offsets.
#[derive(Clone, Copy, Debug, PartialEq, Eq)]
pub enum Issue {
    /// No token stands at this character.
    Lexical(Span),
    /// No sentence has this token, of this kind, after the tokens before it.
    Syntax(Span, KindId),
    /// The text ends, at this length, where every sentence goes on.
    End(u32),
    /// The text is longer than 2,097,152 bytes, and is not looked at.
    TooLarge,
}
