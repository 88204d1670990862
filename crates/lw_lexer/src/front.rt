// What stands next in each text that begins in a known way.
ghost use Rattle.std.specs.Prelude.{◌≡◌, IfSome, IsTrue, IsCharBoundary, Some, nat_eq};
ghost use Rattle.std.specs.List.{starts_with};
ghost use Rattle.lw_tokens.specs.Lexicon.{Lexicon};
ghost use Rattle.lw_tokens.specs.NextToken.{IsNextToken};
ghost use Rattle.lw_lexer.specs.Fronts.{AreFronts, BeginsWithFront};
ghost use Rattle.lw_lexer.specs.Place.{next_of};

use crate::next::Next;
use lw_base::{Items, Name};

/// A text whose token is the next of each text which begins with it and goes on with a byte whose flag is on: that token, and a flag
/// for each byte.
#[derive(Drop)]
pub(crate) struct Front {
    pub(crate) text: Name,
    pub(crate) next: Next,
    pub(crate) ends: [bool; 256],
}

impl Front {
    /// Whether the text begins with this one and goes on with a byte whose flag is on.
    fn begins(&self, text: &str) -> bool
        ensures front { IsTrue result → BeginsWithFront self.now text.now }
        ensures boundary { IsTrue result → IsCharBoundary text.now self.now.next.bytes }
    {
        self.goes_on(text.as_bytes()) && text.is_char_boundary(self.next.bytes)
    }

    fn goes_on(&self, text: &[u8]) -> bool
        ensures { IsTrue result → BeginsWithFront self.now text.now }
    {
        let front = self.text.bytes();
        match text.get(front.len()) {
            Some(next) if self.ends[*next as usize] => begins_with(text, front),
            _ => false,
        }
    }
}

/// Whether a text begins with another. A single byte, as most blanks are, is compared without a loop.
fn begins_with(text: &[u8], front: &[u8]) -> bool
    ensures { result ≡ starts_with nat_eq text.now front.now }
{
    match (text, front) {
        ([first, ..], [only]) => only == first,
        _ => text.starts_with(front),
    }
}

/// The token of a front, of those in lists by their first byte, with which the text begins, and goes on as it is to.
pub(crate) fn known_next(fronts: &[Items<Front>], text: &str) -> Option<Next>
    ensures next { (lexicon : Lexicon) → AreFronts lexicon fronts.now → IfSome result (λ next. IsNextToken lexicon text.now (Some (next_of next))) }
    ensures boundary { IfSome result (λ next. IsCharBoundary text.now next.bytes) }
{
    let first = text.as_bytes().first()?;
    for front in fronts.get(*first as usize)?.as_slice() {
        if front.begins(text) {
            return Some(front.next);
        }
    }
    None
}
