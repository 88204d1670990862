// Texts cut into tokens.
ghost use Rattle.std.specs.Prelude.{◌≡◌, ◌+◌, ◌<◌, ◌≤◌, List, Option, IfOk, IfSome, Err, ℕ, All, ◌++◌, IsCharBoundary, length, encode_utf8, drop, option_map};
ghost use Rattle.lw_base.specs.declared.limits.TheConstants.{LONGEST_TEXT};
ghost use Rattle.std.specs.Char.{IsScalar};
ghost use Rattle.lw_base.specs.declared.token.Span.{Span};
ghost use Rattle.lw_base.specs.declared.token.Token.{Token};
ghost use Rattle.lw_tokens.specs.Cut.{IsCut, HasNoTokenAt, IsCharacterAt};
ghost use Rattle.lw_tokens.specs.NextToken.{IsNextToken};
ghost use Rattle.lw_lexer.specs.declared.next.Next.{Next};
ghost use Rattle.lw_lexer.specs.Place.{next_of};
ghost use Rattle.lw_lexer.specs.TokenPlaces.{IsTokenPlace};
ghost use Rattle.lw_lexer.specs.Fronts.{AreFronts};
ghost use Rattle.lw_lexer.specs.Known.{AreInTurn};

use crate::front::Front;
use crate::known::known_lengths;
use crate::next::{Next, next_token};
use crate::{LexFault, LexerTables};
use lw_base::{Items, Name, NoMemory, Span, Token};
use lw_matchers::{TerminalMatcher, TokenSet};
use regex_nfa::Nfa;
use std::alloc::Global;
use std::marker::Model;

/// What cuts texts into tokens, seen as the set of these. What it learns of the patterns while it cuts one text serves for the next, so
/// that many short texts are best cut by one.
#[derive(Drop)]
pub struct Lexer<'s> {
    alloc: Global,
    set: &'s TokenSet,
    fronts: &'s [Items<Front>],
    nfas: &'s [Nfa],
    matchers: Vec<TerminalMatcher<'s>>,
}

impl<'s> Model for Lexer<'s> {
    ghost use Rattle.std.specs.Prelude.{◌≡◌};
    ghost use Rattle.lw_matchers.specs.TokenKinds.{TokenKinds, AreTokenKinds};
    ghost use Rattle.lw_lexer.specs.Fronts.{AreFronts};
    ghost use Rattle.lw_lexer.specs.Known.{AreInTurn};

    ghost Value = { TokenKinds };

    ghost view = { λ l. l.set.now };

    ghost invariant = { λ l. (l.matchers.items ≡ l.set.now.lexicon.terminals) × AreTokenKinds l.set.now
        × AreFronts l.set.now.lexicon l.fronts.now
        × AreInTurn l.set.now.lexicon.terminals l.nfas.now };
}

impl<'s> Lexer<'s> {
    /// What cuts texts by the set of these tables.
    pub fn new(alloc: Global, tables: &'s LexerTables) -> Result<Lexer<'s>, NoMemory>
        ensures { IfOk result (λ lexer. lexer ≡ tables.now) }
    {
        Lexer::over(alloc, tables.set(), tables.fronts(), tables.nfas())
    }

    /// What cuts texts by this set, of which these fronts are known, and these automata of the terminals, or none.
    pub(crate) fn over(
        alloc: Global,
        set: &'s TokenSet,
        fronts: &'s [Items<Front>],
        nfas: &'s [Nfa],
    ) -> Result<Lexer<'s>, NoMemory>
        requires fronts { AreFronts set.now.lexicon fronts.now }
        requires nfas { AreInTurn set.now.lexicon.terminals nfas.now }
        ensures { IfOk result (λ lexer. lexer ≡ set.now) }
    {
        let matchers = set.matchers(alloc)?;
        Ok(Lexer {
            alloc,
            set,
            fronts,
            nfas,
            matchers,
        })
    }

    /// The tokens of the text. Where the text has no token at some place, the first such place is refused.
    ///
    /// At each token the patterns of which a match may begin with its first byte are tried once at its start, and of the keywords those
    /// that begin with that byte. That is linear in the length of the text where no pattern looks much further than it matches. Where one
    /// does, as `a*b` over a row of `a`, which it reads to its end at each letter, its matches at all places of the text are found at once
    /// when that has been seen some times, see [`KnownLengths`](lw_matching::lengths::KnownLengths): linear as well, and eight bytes of memory for
    /// each byte of the text. A pattern with another assertion than that of the start, as `\b` or `$`, has no such table, nor has one that
    /// there is no memory for: there it is quadratic, for as long as the row is.
    pub fn cut(&mut self, alloc: Global, text: &Name) -> Result<Vec<Token>, LexFault>
        requires { length text.now ≤ LONGEST_TEXT }
        ensures cut { IfOk result (λ tokens. IsCut self.old.lexicon text.now tokens.items) }
        ensures places { IfOk result (λ tokens. All (IsTokenPlace text.now) tokens.items) }
        ensures no_token { (s : Span) → result ≡ Err (LexFault.NoToken s) → HasNoTokenAt self.old.lexicon text.now s.start }
        ensures character { (s : Span) → result ≡ Err (LexFault.NoToken s) → IsCharacterAt text.now s }

        // The cut is the only one, and no text has both a cut and a place without a token.
        ensures one_cut { IfOk result (λ tokens. (others : List Token) → IsCut self.old.lexicon text.now others → others ≡ tokens.items) }
        ensures no_fault { IfOk result (λ _. (at : ℕ) → ¬ HasNoTokenAt self.old.lexicon text.now at) }
        ensures no_cut { (s : Span) → result ≡ Err (LexFault.NoToken s) → (tokens : List Token) → ¬ IsCut self.old.lexicon text.now tokens }
        ensures one_place { (s : Span) → result ≡ Err (LexFault.NoToken s) → (at : ℕ)
            → HasNoTokenAt self.old.lexicon text.now at → at ≡ s.start }
        ensures same { self.new ≡ self.old }
    {
        let text = text.text();
        let mut known = known_lengths(alloc, self.set, self.nfas, text)?;
        let mut tokens = Vec::new(alloc);
        let mut at = 0;
        'cutting: while at < text.len() {
            let rest = &text[at..];
            let Some(next) = next_token(
                self.set,
                self.fronts,
                &mut self.matchers,
                &mut known,
                rest,
                at,
            ) else {
                return Err(LexFault::NoToken(span_of(at, first_character(rest))));
            };
            let token = Token {
                kind: next.kind,
                hidden: next.hidden,
                span: span_of(at, next.bytes),
            };
            tokens.push(token)?;
            at += next.bytes;
        }
        Ok(tokens)
    }

    /// The token at the start of the text, where one stands there.
    pub fn next(&mut self, text: &str) -> Option<Next>
        ensures next { IsNextToken self.old.lexicon text.now (option_map next_of result) }
        ensures one { (other : Option Next) → IsNextToken self.old.lexicon text.now (option_map next_of other) → other ≡ result }
        ensures boundary { IfSome result (λ next. IsCharBoundary text.now next.bytes) }
        ensures some { IfSome result (λ next. 0 < next.bytes) }
        ensures same { self.new ≡ self.old }
    {
        let mut known = Vec::new(self.alloc);
        next_token(
            self.set,
            self.fronts,
            &mut self.matchers,
            &mut known,
            text,
            0,
        )
    }
}

fn span_of(start: usize, bytes: usize) -> Span
    requires { start + bytes ≤ LONGEST_TEXT }
    ensures { result ≡ record { start = start; end = start + bytes } }
{
    Span {
        start: start as u32,
        end: (start + bytes) as u32,
    }
}

// How many bytes the first character of the text takes.
fn first_character(text: &str) -> usize
    requires { 0 < length text.now }
    ensures { (c : ℕ) × IsScalar c × (rest : List ℕ) × (text.now ≡ encode_utf8 c ++ rest) × (result ≡ length (encode_utf8 c)) }
{
    match text.chars().next() {
        Some(c) => c.len_utf8(),
        None => 0,
    }
}
