// The end of a text with more behind it, cut.
use lw_base::{Name, Token};

/// The end of a text with more behind it, and its tokens, as they stand there.
#[derive(Drop)]
pub struct Recut {
    /// The end of the text, and what was put behind it.
    pub text: Name,
    /// All tokens of that.
    pub tokens: Vec<Token>,
    /// How many of these are the text's own.
    pub tail: usize,
    /// Where the end begins in the text.
    pub from: usize,
}

impl Recut {
    ghost use Rattle.std.specs.Prelude.{◌≡◌, ◌≤◌, length};
    ghost use Rattle.lw_lexer.specs.Recut.{added};

    /// The tokens that are added behind those of the text.
    pub fn added(&self) -> &[Token]
        requires { self.now.tail ≤ length self.now.tokens.items }
        ensures { result.now ≡ added self.now }
    {
        &self.tokens[self.tail..]
    }
}
