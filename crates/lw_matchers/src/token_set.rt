// The kinds of tokens of a language.
ghost use Rattle.std.specs.Prelude.{◌≡◌, IfOk, map};

use crate::make::{keyword_texts, make_terminals};
use crate::starting::by_first_byte;
use crate::{MakeTokensFault, Terminal, TerminalMatcher, TerminalSource};
use lw_base::{Items, KindId, Name, NoMemory};
use lw_io::Patterns;
use lw_matching::nfas_of;
use regex_nfa::Nfa;
use std::alloc::Global;
use std::marker::Model;

/// The kinds of tokens of a language, seen as what texts are cut by and the text by which each kind is
/// told. The keywords come first, then the terminals.
pub struct TokenSet {
    keywords: Vec<Name>,
    terminals: Vec<Terminal>,
    texts: Vec<Name>,
    // for each byte the places of the keywords that begin with it
    starting: Vec<Items<usize>>,
}

impl Drop for TokenSet {
    // In one place, so that whoever drops such a value sees one call and not the drops of all its parts.
    fn drop(self) {
        let TokenSet {
            keywords: _,
            terminals: _,
            texts: _,
            starting: _,
        } = self;
    }
}

impl Model for TokenSet {
    ghost use Rattle.lw_matchers.specs.TokenKinds.{TokenKinds, AreTokenKinds};
    ghost use Rattle.lw_matchers.specs.Starting.{IsByFirstByte};

    ghost Value = { TokenKinds };

    ghost view = { λ s. record {
      lexicon = record { keywords = s.keywords.items; terminals = s.terminals.items };
      texts = s.texts.items;
    } };

    ghost invariant = { λ s. AreTokenKinds (record {
      lexicon = record { keywords = s.keywords.items; terminals = s.terminals.items };
      texts = s.texts.items;
    }) × IsByFirstByte s.keywords.items s.starting.items };
}

impl TokenSet {
    ghost use Rattle.std.specs.Prelude.{◌≡◌, ◌↔◌, ℕ, ◌+◌, ◌<◌, ◌≤◌, All, Any, IsTrue, IfOk, IfSome, OnOk, Ok, Err, length, map, slice_get, Some, None};
    ghost use Rattle.lw_matching.specs.Nfas.{AreNfas};
    ghost use Rattle.lw_io.specs.Patterns.{anchored, RegexRefuses};
    ghost use Rattle.lw_tokens.specs.Keywords.{AreKeywords};
    ghost use Rattle.lw_matchers.specs.TokenKinds.{AreTokenKinds};
    ghost use Rattle.lw_matchers.specs.Starting.{AreStarting};
    ghost use Rattle.lw_matchers.specs.Made.{token_kinds_of, AreUsable, AreUnlisted, IsRefusedAt, MatchesEmptyAt, CountsRefusals, KeepsRefused};

    /// The kinds of these keywords and terminals. The patterns are made in order, and the first that is
    /// refused or matches the empty text decides. Where the answer is not `Refused`, the count of refusals
    /// and the text last refused are as they were.
    pub fn make<P: Patterns>(
        alloc: Global,
        keywords: Vec<Name>,
        terminals: Vec<TerminalSource>,
        patterns: &mut P,
    ) -> Result<TokenSet, MakeTokensFault>
        requires keywords { AreKeywords keywords.items }
        requires few { length keywords.items + length terminals.items ≤ 65535 }
        ensures made { IfOk result (λ set. set ≡ token_kinds_of keywords.items terminals.items) }
        ensures usable { OnOk result (AreUsable terminals.items) }
        ensures unlisted { OnOk result (AreUnlisted (P.listed patterns.old) terminals.items) }
        ensures refused { (i : ℕ) → result ≡ Err (MakeTokensFault.Refused i)
            → IsRefusedAt (P.listed patterns.old) terminals.items (P.last_refused patterns.new) i }
        ensures empty_match { (i : ℕ) → result ≡ Err (MakeTokensFault.EmptyMatch i)
            → MatchesEmptyAt (P.listed patterns.old) terminals.items i }
        ensures count { CountsRefusals (P.count patterns.old) (P.count patterns.new) result }
        ensures last { KeepsRefused (P.last_refused patterns.old) (P.last_refused patterns.new) result }
    {
        let starting = by_first_byte(alloc, keywords.as_slice())?;
        let mut texts = keyword_texts(alloc, keywords.as_slice(), terminals.len())?;
        let terminals = make_terminals(alloc, terminals, &mut texts, patterns)?;
        Ok(TokenSet {
            keywords,
            terminals,
            texts,
            starting,
        })
    }

    /// The automata of the terminals' patterns, in order, or None where a pattern has none.
    pub fn nfas(&self, alloc: Global) -> Result<Option<Vec<Nfa>>, NoMemory>
        ensures made { IfOk result (λ found. IfSome found (λ nfas. AreNfas self.now.lexicon.terminals nfas.items)) }
        ensures none { result ≡ Ok None → Any (λ pattern. RegexRefuses (anchored pattern)) (map (λ form. form.pattern) self.now.lexicon.terminals) }
    {
        let patterns = patterns_of(alloc, self.terminals())?;
        nfas_of(alloc, patterns.as_slice())
    }

    /// The keywords, in the order of kinds.
    pub fn keywords(&self) -> &[Name]
        ensures keywords { result.now ≡ self.now.lexicon.keywords }
        ensures kinds { AreTokenKinds self.now }
    {
        self.keywords.as_slice()
    }

    /// The places of the keywords that begin with this byte.
    pub fn keywords_starting(&self, byte: u8) -> &[usize]
        ensures starting { AreStarting self.now.lexicon.keywords byte result.now }
        ensures within { All (λ k. k < length self.now.lexicon.keywords) result.now }
    {
        self.starting[byte as usize].as_slice()
    }

    /// The terminals, in the order of kinds.
    pub fn terminals(&self) -> &[Terminal]
        ensures { result.now ≡ self.now.lexicon.terminals }
    {
        self.terminals.as_slice()
    }

    /// What finds the matches of the terminals, in the order of kinds.
    pub fn matchers(&self, alloc: Global) -> Result<Vec<TerminalMatcher<'_>>, NoMemory>
        ensures terminals { IfOk result (λ matchers. matchers.items ≡ self.now.lexicon.terminals) }
        ensures kinds { AreTokenKinds self.now }
    {
        let mut matchers = Vec::with_capacity(alloc, self.terminals.len())?;
        for terminal in &self.terminals {
            matchers.push(terminal.matcher(alloc)?)?;
        }
        Ok(matchers)
    }

    /// Whether this is the number of a kind.
    pub fn has_kind(&self, kind: KindId) -> bool
        ensures { IsTrue result ↔ (kind.0 < length self.now.texts) }
    {
        (kind.0 as usize) < self.texts.len()
    }

    /// The text by which a kind is told: a keyword's text in single quotes, or a terminal's name.
    pub fn kind_text(&self, kind: KindId) -> &Name
        requires { kind.0 < length self.now.texts }
        ensures { slice_get self.now.texts kind.0 ≡ Some result.now }
    {
        &self.texts[kind.0 as usize]
    }
}

/// The patterns of these terminals.
fn patterns_of(alloc: Global, terminals: &[Terminal]) -> Result<Vec<Name>, NoMemory>
    ensures { IfOk result (λ patterns. patterns.items ≡ map (λ form. form.pattern) terminals.now) }
{
    let mut patterns = Vec::with_capacity(alloc, terminals.len())?;
    for terminal in terminals {
        patterns.push(terminal.pattern().copy(alloc)?)?;
    }
    Ok(patterns)
}
