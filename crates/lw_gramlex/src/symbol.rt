// The symbols of a grammar file.
ghost use Rattle.std.specs.Prelude.{◌≡◌, ◌≢◌, ℕ, [], ◌∷◌, length, MatchOption, IfSome};
ghost use Rattle.lw_gramlex.specs.declared.token.Symbol.{Symbol};
ghost use Rattle.lw_gramlex.specs.Symbols.{BeginsSpelling, IsSymbol, spelling};

use crate::token::Symbol;

/// The longest symbol at the front of the text and how many bytes it has, or None where none stands
/// there.
pub(crate) fn symbol_at(rest: &str) -> Option<(Symbol, usize)>
    ensures symbol { MatchOption result
        ((s : Symbol) → ¬ IsSymbol rest.now s) (λ found. IsSymbol rest.now found.0) }
    ensures bytes { IfSome result (λ found. found.1 ≡ length (spelling found.0)) }
{
    let bytes = rest.as_bytes();
    match long_symbol(bytes) {
        Some(symbol) => Some((symbol, 2)),
        None => Some((short_symbol(*bytes.first()?)?, 1)),
    }
}

// The symbol of two bytes at the front.
fn long_symbol(bytes: &[u8]) -> Option<Symbol>
    ensures { MatchOption result
        ((s : Symbol) → length (spelling s) ≡ 2 → ¬ BeginsSpelling bytes.now (spelling s))
        (λ s. (length (spelling s) ≡ 2) × BeginsSpelling bytes.now (spelling s)) }
{
    match bytes {
        [b'.', b'.', ..] => Some(Symbol::DotDot),
        [b'+', b'=', ..] => Some(Symbol::PlusEquals),
        [b'?', b'=', ..] => Some(Symbol::QuestionEquals),
        [b'=', b'>', ..] => Some(Symbol::FatArrow),
        [b'-', b'>', ..] => Some(Symbol::ThinArrow),
        _ => None,
    }
}

// The symbol that is this byte.
fn short_symbol(byte: u8) -> Option<Symbol>
    ensures { MatchOption result
        ((s : Symbol) → spelling s ≢ byte ∷ []) (λ s. spelling s ≡ byte ∷ []) }
{
    match byte {
        b':' => Some(Symbol::Colon),
        b';' => Some(Symbol::Semicolon),
        b'?' => Some(Symbol::Question),
        b'*' => Some(Symbol::Star),
        b'+' => Some(Symbol::Plus),
        b'|' => Some(Symbol::Bar),
        b'(' => Some(Symbol::OpenParenthesis),
        b')' => Some(Symbol::CloseParenthesis),
        b'[' => Some(Symbol::OpenBracket),
        b']' => Some(Symbol::CloseBracket),
        b'{' => Some(Symbol::OpenBrace),
        b'}' => Some(Symbol::CloseBrace),
        b',' => Some(Symbol::Comma),
        b'.' => Some(Symbol::Dot),
        b'@' => Some(Symbol::At),
        b'=' => Some(Symbol::Equals),
        b'<' => Some(Symbol::Less),
        b'>' => Some(Symbol::Greater),
        b'&' => Some(Symbol::Ampersand),
        b'!' => Some(Symbol::Exclamation),
        _ => None,
    }
}
