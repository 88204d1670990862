// How many tokens of a text's cut stand.
ghost use Rattle.std.specs.Prelude.{◌≡◌, ℕ, ◌≤◌, All, length, drop, IsTrue, IsCharBoundary};
ghost use Rattle.lw_matching.specs.Stays.{NoneBegun, is_begun};
ghost use Rattle.lw_matching.specs.Front.{FrontStays, TerminalsStay, counted};

use crate::Walker;
use lw_base::{Name, Token};
use regex_nfa::Nfa;

/// How many tokens of the cut of the text stand, whatever bytes follow the text: those before the first of which that is not known, in the
/// steps that the walker has.
pub fn sure_tokens(
    keywords: &[Name],
    nfas: &[Nfa],
    text: &str,
    tokens: &[Token],
    walker: &mut Walker,
) -> usize
    requires { All (λ t. IsCharBoundary text.now t.span.start) tokens.now }
    ensures within { result ≤ length tokens.now }
    ensures stays { FrontStays keywords.now nfas.now text.now tokens.now result }
    ensures left { walker.new ≤ walker.old }
{
    for i in 0..tokens.len() {
        let token = tokens[i];
        let rest = &text[token.span.start as usize..];
        if !token_stays(keywords, nfas, rest, token.kind.0 as usize, walker) {
            return i;
        }
    }
    tokens.len()
}

// Whether the token of this kind at the start of the text stays, whatever bytes follow the text.
pub(crate) fn token_stays(
    keywords: &[Name],
    nfas: &[Nfa],
    text: &str,
    kind: usize,
    walker: &mut Walker,
) -> bool
    ensures keywords { IsTrue result → NoneBegun keywords.now text.now }
    ensures terminals { IsTrue result → TerminalsStay nfas.now text.now (counted (length keywords.now) (length nfas.now) kind) }
    ensures left { walker.new ≤ walker.old }
{
    let asked = asked(keywords.len(), nfas.len(), kind);
    none_begun(keywords, text) && terminals_stay(nfas, text, asked, walker)
}

// How many terminals are asked for a token of the kind.
fn asked(keywords: usize, terminals: usize, kind: usize) -> usize
    ensures { result ≡ counted keywords terminals kind }
{
    if kind < keywords {
        terminals
    } else if kind - keywords < terminals {
        kind - keywords + 1
    } else {
        terminals
    }
}

// Whether no keyword goes on behind the text.
pub(crate) fn none_begun(keywords: &[Name], text: &str) -> bool
    ensures { IsTrue result → NoneBegun keywords.now text.now }
{
    for keyword in keywords {
        if begins_longer(keyword, text) {
            return false;
        }
    }
    true
}

// Whether the whole text begins a longer keyword.
fn begins_longer(keyword: &Name, text: &str) -> bool
    ensures { result ≡ is_begun keyword.now text.now }
{
    let keyword = keyword.bytes();
    let text = text.as_bytes();
    keyword.starts_with(text) && !text.starts_with(keyword)
}

// Whether each of the first so many terminals matches the same, whatever bytes follow the text.
pub(crate) fn terminals_stay(nfas: &[Nfa], text: &str, count: usize, walker: &mut Walker) -> bool
    requires { count ≤ length nfas.now }
    ensures stay { IsTrue result → TerminalsStay nfas.now text.now count }
    ensures left { walker.new ≤ walker.old }
{
    for j in 0..count {
        match walker.foreseen_length(&nfas[j], text) {
            Some(_) => {}
            None => return false,
        }
    }
    true
}
