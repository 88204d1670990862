// The first terminal that matches enough at the start of a text.
ghost use Rattle.std.specs.Prelude.{◌≡◌, ◌<◌, ℕ, IfSome, IsCharBoundary, MatchOption, length, slice_get, Some, option_map};
ghost use Rattle.lw_tokens.specs.NextToken.{IsFirstOver, NoneOver, lengths};
ghost use Rattle.lw_tokens.specs.Matching.{match_length};
ghost use Rattle.lw_matching.specs.Known.{Tried};
ghost use Rattle.lw_lexer.specs.Known.{AreKnownAt, IsKnownAt};
ghost use Rattle.lw_lexer.specs.Longer.{over};

use lw_matchers::TerminalMatcher;
use lw_matching::lengths::KnownLengths;

/// The first terminal that matches more than so many bytes at the start of the text: its place among
/// the terminals and how many bytes it matches. What is known is of a whole text, whose rest from the place `at` on this is.
pub(crate) fn first_terminal(
    matchers: &mut Vec<TerminalMatcher<'_>>,
    known: &mut Vec<KnownLengths<'_>>,
    text: &str,
    at: usize,
    least: usize,
) -> Option<(usize, usize)>
    requires known { AreKnownAt matchers.old.items text.now at known.old.items }
    ensures first { MatchOption result (NoneOver least (lengths matchers.old.items text.now)) (λ found.
        IsFirstOver least (lengths matchers.old.items text.now) found.0 found.1) }
    ensures boundary { IfSome result (λ found. IsCharBoundary text.now found.1) }
    ensures inside { IfSome result (λ found. found.0 < length matchers.old.items) }
    ensures same { matchers.new.items ≡ matchers.old.items }
    ensures known { known.new.items ≡ known.old.items }
{
    for i in 0..matchers.len() {
        if let Some(bytes) = matches_over(&mut matchers[i], known, i, text, at, least) {
            return Some((i, bytes));
        }
    }
    None
}

// How many bytes the terminal at the place `i` matches, where they are more than these.
fn matches_over(
    matcher: &mut TerminalMatcher<'_>,
    known: &mut Vec<KnownLengths<'_>>,
    i: usize,
    text: &str,
    at: usize,
    least: usize,
) -> Option<usize>
    requires known { (one : Tried) → slice_get known.old.items i ≡ Some one → IsKnownAt text.now at matcher.old one }
    ensures over { result ≡ over least (match_length matcher.old.pattern text.now) }
    ensures boundary { IfSome result (IsCharBoundary text.now) }
    ensures same { matcher.new ≡ matcher.old }
    ensures known { known.new.items ≡ known.old.items }
{
    match length_at(matcher, known, i, text, at) {
        Some(bytes) if least < bytes => Some(bytes),
        _ => None,
    }
}

// How many bytes the terminal at the place `i` matches.
fn length_at(
    matcher: &mut TerminalMatcher<'_>,
    known: &mut Vec<KnownLengths<'_>>,
    i: usize,
    text: &str,
    at: usize,
) -> Option<usize>
    requires known { (one : Tried) → slice_get known.old.items i ≡ Some one → IsKnownAt text.now at matcher.old one }
    ensures length { result ≡ match_length matcher.old.pattern text.now }
    ensures boundary { IfSome result (IsCharBoundary text.now) }
    ensures same { matcher.new ≡ matcher.old }
    ensures known { known.new.items ≡ known.old.items }
{
    if i < known.len() {
        known_length(matcher, &mut known[i], text, at)
    } else {
        matcher.match_length(text)
    }
}

// How many bytes the terminal matches: as it is known, or as a search finds it.
fn known_length(
    matcher: &mut TerminalMatcher<'_>,
    known: &mut KnownLengths<'_>,
    text: &str,
    at: usize,
) -> Option<usize>
    requires known { IsKnownAt text.now at matcher.old known.old }
    ensures length { result ≡ match_length matcher.old.pattern text.now }
    ensures boundary { IfSome result (IsCharBoundary text.now) }
    ensures same { matcher.new ≡ matcher.old }
    ensures known { known.new ≡ known.old }
{
    match known.length_at(at) {
        Some(bytes) => bytes,
        None => {
            let bytes = matcher.match_length(text);
            known.note_search(at, bytes);
            bytes
        }
    }
}
