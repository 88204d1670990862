// The keywords that may be written.
ghost use Rattle.std.specs.Prelude.{ℕ, ◌≡◌, ◌≢◌, ◌↔◌, ◌-◌, ◌≤◌, ◌++◌, ◌∷◌, [], List, AllPairs, Contains, IfOk, IsTrue, length};
ghost use Rattle.lw_base.specs.declared.limits.TheConstants.{LONGEST_TEXT};
ghost use Rattle.lw_grammar.specs.Kinds.{Kinds};
ghost use Rattle.lw_look.specs.Supplied.{IsSupplied};
ghost use Rattle.lw_places.specs.Offers.{IsKeywordNext, visible_token};
ghost use Rattle.lw_places.specs.Words.{BeginsBy};
ghost use Rattle.lw_program.specs.Says.{Task};
ghost use Rattle.lw_tokens.specs.Cut.{IsCut};
ghost use Rattle.lw_tokens.specs.Lexicon.{Lexicon};
ghost use Rattle.lw_complete.specs.Typing.{AreReadings, CutsBehind, IsTypedBy, grammar_of};

use crate::typing::Typing;
use lw_base::{KindId, Name, NoMemory, Span, Token};
use lw_lexer::recut::Recutter;
use lw_matchers::TokenSet;
use lw_viable::Fronts;
use std::alloc::Global;

/// The keywords that begin with the word, are one token in its place, and with which some sentence goes on, each once.
pub(crate) fn keywords(
    alloc: Global,
    typing: &Typing<'_>,
    recutter: &mut Recutter<'_>,
    fronts: &mut Fronts<'_>,
) -> Result<Vec<Name>, NoMemory>
    requires known { (of : Kinds) × (lexicon : Lexicon) × (tasks : List Task) × IsTypedBy of lexicon typing.now × AreReadings of tasks typing.now fronts.old
        × IsSupplied (grammar_of typing.now) of × CutsBehind lexicon typing.now recutter.old }
    ensures keywords { (of : Kinds) (lexicon : Lexicon) (tasks : List Task) → IsTypedBy of lexicon typing.now → AreReadings of tasks typing.now fronts.old →
        IsSupplied (grammar_of typing.now) of →
        IfOk result (λ found. (text : List ℕ) → Contains found.items text ↔
        (BeginsBy typing.now.word.now text × IsKeywordNext (grammar_of typing.now) of lexicon typing.now.front.now typing.now.tokens.now text)) }
    ensures apart { IfOk result (λ found. AllPairs (λ one other. one ≢ other) found.items) }
    ensures same { fronts.new ≡ fronts.old }
    ensures kept { recutter.new ≡ recutter.old }
{
    let set = typing.language.tokens().set();
    let expected = fronts.expected(alloc, kind_count(set))?;
    let mut found = Vec::new(alloc);
    'kinds: for kind in &expected {
        if let Some(keyword) = set.keywords().get(kind.0 as usize) {
            if is_next(alloc, typing, recutter, *kind, keyword)? {
                found.push(keyword.copy(alloc)?)?;
            }
        }
    }
    Ok(found)
}

/// How many kinds of tokens there are.
fn kind_count(set: &TokenSet) -> usize
    ensures count { result ≡ length set.now.texts }
    ensures few { result ≤ 65535 }
{
    set.keywords();
    let mut count = 0;
    'kinds: while count < 65535 && set.has_kind(KindId(count as u16)) {
        count += 1;
    }
    count
}

/// Whether the keyword begins with the word, and is one token of the kind behind the text before it.
fn is_next(
    alloc: Global,
    typing: &Typing<'_>,
    recutter: &mut Recutter<'_>,
    kind: KindId,
    keyword: &Name,
) -> Result<bool, NoMemory>
    requires known { (of : Kinds) × (lexicon : Lexicon) × IsTypedBy of lexicon typing.now × CutsBehind lexicon typing.now recutter.old }
    ensures next { (of : Kinds) (lexicon : Lexicon) → IsTypedBy of lexicon typing.now →
        IfOk result (λ is. IsTrue is ↔ (BeginsBy typing.now.word.now keyword.now × IsCut lexicon (typing.now.front.now ++ keyword.now)
        (typing.now.tokens.now ++ visible_token kind.0 (length typing.now.front.now) (length keyword.now) ∷ []))) }
    ensures kept { recutter.new ≡ recutter.old }
{
    if !keyword.text().starts_with(typing.word) {
        return Ok(false);
    }
    match recutter.cut(alloc, keyword.text())? {
        Some(recut) => Ok(is_alone(recut.added(), last_token(kind, &recut.text, keyword))),
        None => Ok(false),
    }
}

/// The tokens are this one alone.
fn is_alone(tokens: &[Token], token: Token) -> bool
    ensures { IsTrue result ↔ (tokens.now ≡ token ∷ []) }
{
    matches!(tokens, [one] if *one == token)
}

/// The visible token of this kind that the keyword is at the end of a text.
fn last_token(kind: KindId, text: &Name, keyword: &Name) -> Token
    requires { (length keyword.now ≤ length text.now) × (length text.now ≤ LONGEST_TEXT) }
    ensures { result ≡ visible_token kind.0 (length text.now - length keyword.now) (length keyword.now) }
{
    let bytes = keyword.bytes().len();
    let start = text.bytes().len() - bytes;
    Token {
        kind,
        span: Span {
            start: start as u32,
            end: (start + bytes) as u32,
        },
        hidden: false,
    }
}
