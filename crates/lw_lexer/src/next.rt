// The token at the start of a text.
ghost use Rattle.std.specs.Prelude.{◌≡◌, ◌<◌, IfSome, IsCharBoundary, option_map};
ghost use Rattle.lw_tokens.specs.NextToken.{IsNextToken};
ghost use Rattle.lw_lexer.specs.Longer.{length_or_zero, keyword_next};
ghost use Rattle.lw_lexer.specs.Place.{next_of};
ghost use Rattle.lw_lexer.specs.Fronts.{AreFronts};
ghost use Rattle.lw_lexer.specs.Known.{AreKnownAt};
ghost use Rattle.lw_matchers.specs.TokenKinds.{AreTokenKinds};

use crate::front::{Front, known_next};
use crate::keyword::longest_keyword;
use crate::terminal::first_terminal;
use lw_base::{Items, KindId};
use lw_matchers::{TerminalMatcher, TokenSet};
use lw_matching::lengths::KnownLengths;

/// A token at the start of a text: its kind, how many bytes it takes, and whether the parser skips it.
#[derive(Clone, Copy, PartialEq, Eq)]
pub struct Next {
    pub kind: KindId,
    pub hidden: bool,
    pub bytes: usize,
}

/// The token at the start of the text: that of a front with which it begins, or else by its keywords and patterns. What is known of the
/// terminals' matches is of a whole text, whose rest from the place `at` on this is.
pub(crate) fn next_token(
    set: &TokenSet,
    fronts: &[Items<Front>],
    matchers: &mut Vec<TerminalMatcher<'_>>,
    known: &mut Vec<KnownLengths<'_>>,
    text: &str,
    at: usize,
) -> Option<Next>
    requires kinds { AreTokenKinds set.now }
    requires fronts { AreFronts set.now.lexicon fronts.now }
    requires matchers { matchers.old.items ≡ set.now.lexicon.terminals }
    requires known { AreKnownAt set.now.lexicon.terminals text.now at known.old.items }
    ensures next { IsNextToken set.now.lexicon text.now (option_map next_of result) }
    ensures boundary { IfSome result (λ next. IsCharBoundary text.now next.bytes) }
    ensures some { IfSome result (λ next. 0 < next.bytes) }
    ensures same { matchers.new.items ≡ matchers.old.items }
    ensures known { known.new.items ≡ known.old.items }
{
    if let Some(next) = known_next(fronts, text) {
        return Some(next);
    }
    let keyword = longest_keyword(set, text);
    match first_terminal(matchers, known, text, at, length_or_zero(&keyword)) {
        Some((i, bytes)) => Some(Next {
            kind: KindId((set.keywords().len() + i) as u16),
            hidden: matchers[i].is_hidden(),
            bytes,
        }),
        None => keyword_next(&keyword),
    }
}

// The longest keyword as a token.
fn keyword_next(keyword: &Option<(usize, usize)>) -> Option<Next>
    requires { IfSome keyword.now (λ found. found.0 < 65536) }
    ensures { option_map next_of result ≡ option_map keyword_next keyword.now }
{
    match keyword {
        Some((k, bytes)) => Some(Next {
            kind: KindId(*k as u16),
            hidden: false,
            bytes: *bytes,
        }),
        None => None,
    }
}

// The length of the longest keyword, or 0 where there is none.
fn length_or_zero(keyword: &Option<(usize, usize)>) -> usize
    ensures { result ≡ length_or_zero keyword.now }
{
    match keyword {
        Some((_, bytes)) => *bytes,
        None => 0,
    }
}
