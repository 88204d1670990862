// The fronts that a set of tokens knows.
ghost use Rattle.std.specs.Prelude.{◌≡◌, ◌↔◌, ◌<◌, ◌∷◌, ◌++◌, [], ℕ, IfOk, IfSome, IsTrue, All, false, slice_index_or, Some};
ghost use Rattle.lw_matching.specs.Nfas.{AreNfas};
ghost use Rattle.lw_lexer.specs.Fronts.{AreEnds, AreFronts, IsEnd, IsFront};

use crate::Lexer;
use crate::front::Front;
use crate::next::Next;
use lw_base::{Items, Name, NoMemory};
use lw_matchers::TokenSet;
use lw_matching::Walker;
use lw_matching::sure::next_stays;
use regex_nfa::Nfa;
use std::alloc::Global;
use std::marker::Model;

/// How many steps are taken at most to find out about all fronts of a set.
const STEPS: u32 = 1 << 20;

/// The fronts of a set by their first byte. These are the automata of its patterns.
pub(crate) fn fronts_of<'s>(
    alloc: Global,
    set: &'s TokenSet,
    nfas: &'s [Nfa],
) -> Result<Vec<Items<Front>>, NoMemory>
    requires { AreNfas set.now.lexicon.terminals nfas.now }
    ensures { IfOk result (λ table. AreFronts set.now.lexicon table.items) }
{
    let none = Vec::new(alloc);
    let mut finder = Finder {
        set,
        lexer: Lexer::over(alloc, set, none.as_slice(), nfas)?,
        nfas,
        walker: Walker::new(alloc, STEPS),
    };
    let mut table = Vec::with_capacity(alloc, 256)?;
    for byte in 0..256usize {
        let fronts = finder.starting_with(alloc, byte as u8)?;
        table.push(Items::from_vec(fronts))?;
    }
    Ok(table)
}

/// What finds the fronts of a set, seen as that set.
#[derive(Drop)]
struct Finder<'s> {
    set: &'s TokenSet,
    lexer: Lexer<'s>,
    nfas: &'s [Nfa],
    walker: Walker,
}

impl<'s> Model for Finder<'s> {
    ghost use Rattle.std.specs.Prelude.{◌≡◌};
    ghost use Rattle.lw_matching.specs.Nfas.{AreNfas};
    ghost use Rattle.lw_matchers.specs.TokenKinds.{TokenKinds};

    ghost Value = { TokenKinds };

    ghost view = { λ f. f.set.now };

    ghost invariant = { λ f. (f.lexer ≡ f.set.now) × AreNfas f.set.now.lexicon.terminals f.nfas.now };
}

impl Finder<'_> {
    /// The fronts that begin with the byte.
    fn starting_with(&mut self, alloc: Global, byte: u8) -> Result<Vec<Front>, NoMemory>
        ensures fronts { IfOk result (λ fronts. All (IsFront self.old.lexicon) fronts.items) }
        ensures same { self.new ≡ self.old }
    {
        let set = self.set;
        let mut fronts = Vec::new(alloc);
        for place in set.keywords_starting(byte) {
            let text = set.keywords()[*place].copy(alloc)?;
            if let Some(front) = self.front(alloc, text)? {
                fronts.push(front)?;
            }
        }
        if fronts.is_empty() && byte.is_ascii() {
            if let Some(front) = self.blank(alloc, byte)? {
                fronts.push(front)?;
            }
        }
        Ok(fronts)
    }

    /// The front of this byte alone, where it is a token that the parser skips.
    fn blank(&mut self, alloc: Global, byte: u8) -> Result<Option<Front>, NoMemory>
        requires { byte < 128 }
        ensures front { IfOk result (λ found. IfSome found (IsFront self.old.lexicon)) }
        ensures same { self.new ≡ self.old }
    {
        let text = with_byte(alloc, "", byte)?;
        match self.lexer.next(text.text()) {
            Some(own) if own.hidden => self.front(alloc, text),
            _ => Ok(None),
        }
    }

    /// The front of this text, where all of it is a token.
    fn front(&mut self, alloc: Global, text: Name) -> Result<Option<Front>, NoMemory>
        ensures front { IfOk result (λ found. IfSome found (IsFront self.old.lexicon)) }
        ensures same { self.new ≡ self.old }
    {
        match self.lexer.next(text.text()) {
            Some(own) if own.bytes == text.bytes().len() => {
                let ends = self.ends(alloc, &text, own)?;
                Ok(Some(Front {
                    text,
                    next: own,
                    ends,
                }))
            }
            _ => Ok(None),
        }
    }

    /// A flag for each byte: where it is on, this is the next token of each text that begins with the text and goes on with the byte.
    fn ends(&mut self, alloc: Global, text: &Name, own: Next) -> Result<[bool; 256], NoMemory>
        ensures ends { IfOk result (AreEnds self.old.lexicon text.now own) }
        ensures same { self.new ≡ self.old }
    {
        let mut ends = no_flags();
        for byte in 0..128u8 {
            if may_end(own, byte) && self.ends_before(alloc, text, own, byte)? {
                ends[byte as usize] = true;
            }
        }
        Ok(ends)
    }

    /// Whether it is known that this is the next token of each text that begins with the text and goes on with the byte.
    fn ends_before(
        &mut self,
        alloc: Global,
        text: &Name,
        own: Next,
        byte: u8,
    ) -> Result<bool, NoMemory>
        requires { byte < 128 }
        ensures ends { IfOk result (λ is. IsTrue is → IsEnd self.old.lexicon text.now own byte) }
        ensures same { self.new ≡ self.old }
    {
        let longer = with_byte(alloc, text.text(), byte)?;
        let found = self.lexer.next(longer.text());
        if !is_found(&found, own) {
            return Ok(false);
        }
        Ok(next_stays(
            self.set.keywords(),
            self.nfas,
            longer.text(),
            Some(own.kind),
            &mut self.walker,
        ))
    }
}

/// Whether it is worth a try if the token ends before this byte: any may come behind a blank, and white space or punctuation behind a word.
fn may_end(own: Next, byte: u8) -> bool {
    own.hidden || byte.is_ascii_whitespace() || byte.is_ascii_punctuation()
}

fn is_found(found: &Option<Next>, own: Next) -> bool
    ensures { IsTrue result ↔ (found.now ≡ Some own) }
{
    *found == Some(own)
}

/// No flag is on.
fn no_flags() -> [bool; 256]
    ensures { (byte : ℕ) → slice_index_or result byte false ≡ false }
{
    [false; 256]
}

/// The text with a byte behind it.
fn with_byte(alloc: Global, text: &str, byte: u8) -> Result<Name, NoMemory>
    requires { byte < 128 }
    ensures { IfOk result (λ longer. longer ≡ text.now ++ byte ∷ []) }
{
    let mut longer = String::with_capacity(alloc, text.len() + 1)?;
    longer.push_str(text)?;
    longer.push(char::from(byte))?;
    Ok(Name::from_string(longer))
}
