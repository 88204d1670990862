// The longest keyword at the start of a text.
ghost use Rattle.std.specs.Prelude.{◌≡◌, ◌<◌, IfSome, IsCharBoundary, MatchOption};
ghost use Rattle.lw_tokens.specs.NextToken.{IsLongest, HasNone};
ghost use Rattle.lw_lexer.specs.Longer.{is_longer, longer_of};

use lw_base::Name;
use lw_matchers::TokenSet;

/// The longest of the keywords that the text begins with: its place among them and its length. Only
/// those that begin with the text's first byte are looked at.
pub(crate) fn longest_keyword(set: &TokenSet, text: &str) -> Option<(usize, usize)>
    ensures longest { MatchOption result (HasNone set.now.lexicon.keywords text.now) (λ found.
        IsLongest set.now.lexicon.keywords text.now found.0 found.1) }
    ensures boundary { IfSome result (λ found. IsCharBoundary text.now found.1) }
    ensures filled { IfSome result (λ found. 0 < found.1) }
    ensures numbered { IfSome result (λ found. found.0 < 65535) }
{
    let keywords = set.keywords();
    let first = text.as_bytes().first()?;
    let mut best: Option<(usize, usize)> = None;
    for place in set.keywords_starting(*first) {
        best = longer(best, *place, &keywords[*place], text);
    }
    best
}

// The longer of the best keyword so far and this one, where the text begins with it.
#[tactic(auto, using(crate::proofs::KeywordLemmas::seams))]
fn longer(
    best: Option<(usize, usize)>,
    k: usize,
    keyword: &Name,
    text: &str,
) -> Option<(usize, usize)>
    ensures longer { result ≡ longer_of text.now k keyword.now best }
    ensures boundary { IfSome best (λ found. IsCharBoundary text.now found.1)
        → IfSome result (λ found. IsCharBoundary text.now found.1) }
{
    let keyword = keyword.bytes();
    if text.as_bytes().starts_with(keyword) && is_longer(keyword.len(), &best) {
        Some((k, keyword.len()))
    } else {
        best
    }
}

fn is_longer(length: usize, best: &Option<(usize, usize)>) -> bool
    ensures { result ≡ is_longer length best.now }
{
    match best {
        Some((_, most)) => *most < length,
        None => true,
    }
}
