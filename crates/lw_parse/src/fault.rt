// Why tokens have no tree.
use lw_base::Token;

/// Why a list of tokens has no tree.
#[derive(Clone, Copy, Debug, PartialEq, Eq)]
pub enum ParseFault {
    /// The token is the first that no sentence has after those before it. It has this number, counted from 0 over all tokens, hidden ones
    /// too.
    Unexpected(u32, Token),
    /// Each token can stand after those before it, but all together are no sentence.
    UnexpectedEnd,
    /// There was no memory, or 2^64 turns in a row left no mark.
    NoMemory,
}
