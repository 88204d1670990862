// The end of a text, from which it is cut again.
ghost use Rattle.std.specs.Prelude.{ℕ, ◌≡◌, ◌≤◌, ◌<◌, ◌++◌, List, All, IfOk, IfSome, IsCharBoundary, IsTrue, MatchOption, Ok, length, option_map, take};
ghost use Rattle.lw_base.specs.declared.limits.TheConstants.{LONGEST_TEXT};
ghost use Rattle.lw_base.specs.declared.token.Token.{Token as AToken};
ghost use Rattle.lw_matching.specs.Nfas.{AreNfas};
ghost use Rattle.lw_lexer.specs.Place.{next_of};
ghost use Rattle.lw_lexer.specs.TokenPlaces.{IsTokenPlace};
ghost use Rattle.lw_matching.specs.Front.{end_from};
ghost use Rattle.lw_tokens.specs.Cut.{IsCut, IsCutTo};
ghost use Rattle.lw_tokens.specs.Lexicon.{Lexicon};
ghost use Rattle.lw_lexer.specs.Recut.{IsCrossed, IsEndOf, IsRecut, IsSurePlace, StaysNext, added_behind};
ghost use Rattle.lw_lexer.specs.declared.recut.seam.Seam.TheVariants.{Meets, Crossed};

use crate::recut::recut::Recut;
use crate::recut::seam::{Meeting, Seam, compare};
use crate::{LexFault, Lexer, LexerTables, Next};
use lw_base::{LONGEST_TEXT, Name, NoMemory, Token};
use lw_matching::Walker;
use lw_matching::sure::{next_stays, sure_tokens};
use regex_nfa::Nfa;
use std::alloc::Global;
use std::marker::Model;

/// How many steps the walks over a text take at most, beside so many for each of its bytes.
const LEAST_STEPS: u32 = 100000;

const STEPS_A_BYTE: u32 = 64;

/// How many bytes are looked at of what follows.
const LOOKED_AT: usize = 64;

/// Cuts texts that begin with one text, seen as the end of that text from where its tokens may change with what follows.
#[derive(Drop)]
pub struct Recutter<'a> {
    lexer: Lexer<'a>,
    keywords: &'a [Name],
    // None where a pattern has none
    nfas: Option<Vec<Nfa>>,
    text: Name,
    tokens: Vec<Token>,
    from: usize,
}

impl<'a> Model for Recutter<'a> {
    ghost use Rattle.lw_lexer.specs.Recut.{IsReady, RecutterParts};

    ghost Value = { RecutterParts };

    ghost view = { λ r. record { lexicon = r.lexer.lexicon; text = r.text; tokens = r.tokens.items; from = r.from } };

    ghost invariant = { λ r. IsReady r.lexer.lexicon r.keywords.now r.nfas };
}

impl<'a> Recutter<'a> {
    /// For texts that begin with this one, of which these are the tokens by the set of these tables.
    pub fn of(
        alloc: Global,
        tables: &'a LexerTables,
        front: &Name,
        tokens: &[Token],
    ) -> Result<Recutter<'a>, NoMemory>
        requires short { length front.now ≤ LONGEST_TEXT }
        requires cut { IsCut tables.now.lexicon front.now tokens.now }
        requires places { All (IsTokenPlace front.now) tokens.now }
        ensures lexicon { IfOk result (λ made. made.lexicon ≡ tables.now.lexicon) }
        ensures end { IfOk result (λ made. IsEndOf made front.now tokens.now) }
        ensures own { IfOk result (λ made. IsCut made.lexicon made.text made.tokens) }
    {
        let set = tables.set();
        let keywords = set.keywords();
        let nfas = set.nfas(alloc)?;
        let from = sure_place(alloc, keywords, &nfas, front, tokens);
        let text = Name::from_text(alloc, &front.text()[from..])?;
        let mut lexer = Lexer::new(alloc, tables)?;
        let tokens = own_tokens(alloc, &mut lexer, &text)?;
        Ok(Recutter {
            lexer,
            keywords,
            nfas,
            text,
            tokens,
            from,
        })
    }

    /// The end of the text with more behind it, where the text with that is cut into its own tokens and others; what is longer than a text
    /// may be is want of memory.
    pub fn cut(&mut self, alloc: Global, more: &str) -> Result<Option<Recut>, NoMemory>
        ensures added { (front : List ℕ) (tokens : List AToken) → IsEndOf self.old front tokens → IfOk result (λ found. MatchOption found
            ((others : List AToken) → ¬ IsCut self.old.lexicon (front ++ more.now) (tokens ++ others))
            (λ it. IsCut self.old.lexicon (front ++ more.now) (tokens ++ added_behind it)
            × ((others : List AToken) → IsCut self.old.lexicon (front ++ more.now) (tokens ++ others) → others ≡ added_behind it))) }
        ensures recut { IfOk result (λ found. IfSome found (IsRecut self.old more.now)) }
        ensures same { self.new ≡ self.old }
    {
        let text = with_behind(alloc, &self.text, more)?;
        if LONGEST_TEXT < text.bytes().len() {
            return Err(NoMemory);
        }
        let tokens = match self.lexer.cut(alloc, &text) {
            Ok(tokens) => tokens,
            Err(LexFault::NoToken(_)) => return Ok(None),
            Err(LexFault::NoMemory) => return Err(NoMemory),
        };
        if !tokens.starts_with(self.tokens.as_slice()) {
            return Ok(None);
        }
        Ok(Some(Recut {
            text,
            tokens,
            tail: self.tokens.len(),
            from: self.from,
        }))
    }

    /// What is known of the cut of the whole text, where the rest follows what was put behind its end.
    pub fn seam(&mut self, alloc: Global, it: &Recut, rest: &str) -> Result<Seam, NoMemory>
        requires { (more : List ℕ) × IsRecut self.old more it.now }
        ensures meets { (front more : List ℕ) (tokens : List AToken) → result ≡ Ok Meets → IsEndOf self.old front tokens → All (λ b. b < 256) more →
            IsRecut self.old more it.now →
            IsCutTo self.old.lexicon (front ++ more ++ rest.now) (length (front ++ more)) (tokens ++ added_behind it.now) }
        ensures crossed { (front more : List ℕ) (tokens : List AToken) → result ≡ Ok Crossed → IsEndOf self.old front tokens → All (λ b. b < 256) more →
            IsRecut self.old more it.now → IsCrossed self.old.lexicon (front ++ more ++ rest.now) (length (front ++ more)) }
        ensures same { self.new ≡ self.old }
    {
        if rest.is_empty() {
            return Ok(Seam::Meets);
        }
        let Some(nfas) = &self.nfas else {
            return Ok(Seam::Unknown);
        };
        let text = with_behind(alloc, &it.text, beginning(rest))?;
        let mut walker = Walker::new(alloc, LEAST_STEPS);
        Ok(seam_of(
            &mut self.lexer,
            self.keywords,
            nfas.as_slice(),
            it,
            text.text(),
            &mut walker,
        ))
    }
}

/// What is known of the cut of a text that begins with this one, whatever follows, at the end of what was put behind the end of a text.
fn seam_of(
    lexer: &mut Lexer<'_>,
    keywords: &[Name],
    nfas: &[Nfa],
    it: &Recut,
    text: &str,
    walker: &mut Walker,
) -> Seam
    requires cut { IsCut lexer.old.lexicon it.now.text it.now.tokens.items }
    requires places { All (IsTokenPlace it.now.text) it.now.tokens.items }
    requires begins { (behind : List ℕ) × (text.now ≡ it.now.text ++ behind) }
    ensures meets { (more : List ℕ) → result ≡ Meets → keywords.now ≡ lexer.old.lexicon.keywords → AreNfas lexer.old.lexicon.terminals nfas.now →
        All (λ b. b < 256) (text.now ++ more) → IsCutTo lexer.old.lexicon (text.now ++ more) (length it.now.text) it.now.tokens.items }
    ensures crossed { (more : List ℕ) → result ≡ Crossed → keywords.now ≡ lexer.old.lexicon.keywords → AreNfas lexer.old.lexicon.terminals nfas.now →
        All (λ b. b < 256) (text.now ++ more) → IsCrossed lexer.old.lexicon (text.now ++ more) (length it.now.text) }
    ensures same { lexer.new ≡ lexer.old }
{
    let end = it.text.bytes().len();
    'tokens: for token in &it.tokens {
        let start = token.span.start as usize;
        let behind = &text[start..];
        let found = lexer.next(behind);
        if !stays(keywords, nfas, behind, &found, walker) {
            return Seam::Unknown;
        }
        match compare(&found, *token, end - start) {
            Meeting::Same => {}
            Meeting::Across => return Seam::Crossed,
            Meeting::Other => return Seam::Unknown,
        }
    }
    Seam::Meets
}

/// Where the tokens end that stand whatever follows the text. Where nothing is known of the patterns, or there is no memory, at its start.
fn sure_place(
    alloc: Global,
    keywords: &[Name],
    nfas: &Option<Vec<Nfa>>,
    front: &Name,
    tokens: &[Token],
) -> usize
    requires short { length front.now ≤ LONGEST_TEXT }
    requires places { All (IsTokenPlace front.now) tokens.now }
    ensures boundary { IsCharBoundary front.now result }
    ensures sure { (lexicon : Lexicon) → lexicon.keywords ≡ keywords.now → IfSome nfas.now (λ nfas. AreNfas lexicon.terminals nfas.items) →
        IsCut lexicon front.now tokens.now → IsSurePlace lexicon front.now tokens.now result }
{
    let text = front.text();
    let Some(nfas) = nfas else {
        return 0;
    };
    let mut walker = Walker::new(alloc, steps_for(text.len()));
    let count = sure_tokens(keywords, nfas.as_slice(), text, tokens, &mut walker);
    end_of(tokens, count)
}

fn steps_for(bytes: usize) -> u32
    requires { bytes ≤ LONGEST_TEXT }
{
    let steps = (bytes as u32).saturating_mul(STEPS_A_BYTE);
    steps.saturating_add(LEAST_STEPS)
}

/// Where the first so many tokens end.
fn end_of(tokens: &[Token], count: usize) -> usize
    requires { count ≤ length tokens.now }
    ensures { result ≡ end_from 0 (take count tokens.now) }
{
    match count.checked_sub(1) {
        Some(last) => tokens[last].span.end as usize,
        None => 0,
    }
}

/// The tokens of a text that has a cut.
fn own_tokens(alloc: Global, lexer: &mut Lexer<'_>, text: &Name) -> Result<Vec<Token>, NoMemory>
    requires short { length text.now ≤ LONGEST_TEXT }
    requires cut { (tokens : List AToken) × IsCut lexer.old.lexicon text.now tokens }
    ensures cut { IfOk result (λ tokens. IsCut lexer.old.lexicon text.now tokens.items) }
    ensures same { lexer.new ≡ lexer.old }
{
    match lexer.cut(alloc, text) {
        Ok(tokens) => Ok(tokens),
        Err(LexFault::NoToken(_)) => unreachable!(),
        Err(LexFault::NoMemory) => Err(NoMemory),
    }
}

/// A text with more behind it.
fn with_behind(alloc: Global, text: &Name, more: &str) -> Result<Name, NoMemory>
    ensures { IfOk result (λ whole. whole ≡ text.now ++ more.now) }
{
    let mut whole = String::with_capacity(alloc, text.bytes().len() + more.len())?;
    whole.push_str(text.text())?;
    whole.push_str(more)?;
    Ok(Name::from_string(whole))
}

/// The first bytes of a text, as many as are looked at; no character is split.
fn beginning(text: &str) -> &str
    ensures { (others : List ℕ) × (text.now ≡ result.now ++ others) }
{
    &text[..text.floor_char_boundary(LOOKED_AT)]
}

/// Whether this token at the start of the text, or that none stands there, stays so whatever follows.
fn stays(
    keywords: &[Name],
    nfas: &[Nfa],
    text: &str,
    found: &Option<Next>,
    walker: &mut Walker,
) -> bool
    ensures { IsTrue result → StaysNext keywords.now nfas.now text.now (option_map next_of found.now) }
{
    next_stays(keywords, nfas, text, found.map(|next| next.kind), walker)
}
