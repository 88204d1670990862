// What is left to read of a grammar file.
ghost use Rattle.std.specs.Prelude.{◌≡◌, ◌+◌, ◌<◌, ◌≤◌, ◌==◌, List, length, drop, if◌then◌else◌, IsTrue, OnOk};
ghost use Rattle.lw_gramread.specs.Lexemes.{primitive_of};
ghost use Rattle.lw_gramread.specs.Steps.{ReadsAs, sees, sees_reserved, sees_word, sees_name, sees_text, sees_regex, next_operator, next_primitive, sees_primitive, symbol, reserved, free_word, feature, text, regex, primitive};

use crate::lexeme::{Lexeme, Reserved};
use lw_base::{Name, NoMemory, Span};
use lw_gramlex::Symbol;
use lw_grammar::{Op, Primitive};
use std::alloc::{AllocError, AllocFailed, Global};
use std::marker::Model;

/// How deep parentheses may nest.
pub(crate) const DEEPEST: usize = 64;

/// Why reading stopped. What is left begins with the token at which it did.
#[derive(Clone, Copy)]
pub(crate) enum Stop {
    /// The token cannot follow, or the file ends too early.
    Unexpected(Spot),
    /// A parenthesis that is opened inside as many as may be open.
    TooDeep,
    NoMemory,
}

/// What has been read where a token cannot follow, as far as the forms that are left out ask for it.
#[derive(Clone, Copy)]
pub(crate) enum Spot {
    Elsewhere,
    /// Directly behind the type of an attribute.
    Attribute,
    /// Directly behind the name of a parser rule that begins with its name.
    FirstName,
    /// Directly behind the name of another parser rule.
    RuleName,
    /// Directly behind the type of a parser rule.
    RuleType,
    /// Elsewhere in a parser rule.
    Rule,
    /// In a terminal.
    Terminal,
}

impl From<NoMemory> for Stop {
    ghost use Rattle.lw_gramread.specs.declared.reader.left.Stop.TheVariants.{NoMemory as no_memory};

    ghost from_gives = { λ _ stop. stop ≡ no_memory };

    fn from(_: NoMemory) -> Self {
        Stop::NoMemory
    }
}

impl From<AllocError> for Stop {
    ghost use Rattle.lw_gramread.specs.declared.reader.left.Stop.TheVariants.{NoMemory as no_memory};

    ghost from_gives = { λ _ stop. stop ≡ no_memory };

    fn from(_: AllocError) -> Self {
        Stop::NoMemory
    }
}

impl<T: Drop> From<AllocFailed<T>> for Stop {
    ghost use Rattle.lw_gramread.specs.declared.reader.left.Stop.TheVariants.{NoMemory as no_memory};

    ghost from_gives = { λ _ stop. stop ≡ no_memory };

    fn from(_: AllocFailed<T>) -> Self {
        Stop::NoMemory
    }
}

/// The tokens that are left.
#[derive(Drop)]
pub(crate) struct Left<'t> {
    lexemes: &'t [Lexeme],
}

impl<'t> Model for Left<'t> {
    ghost use Rattle.std.specs.Prelude.{List};
    ghost use Rattle.lw_gramread.specs.declared.lexeme.Lexeme.{Lexeme};

    ghost Value = { List Lexeme };

    ghost view = { λ l. l.lexemes.now };
}

impl<'t> Left<'t> {
    pub fn new(lexemes: &'t [Lexeme]) -> Left<'t>
        ensures { result ≡ lexemes.now }
    {
        Left { lexemes }
    }

    /// The tokens that are left.
    pub fn rest(&self) -> &'t [Lexeme]
        ensures { result.now ≡ self.now }
    {
        self.lexemes
    }

    pub fn is_empty(&self) -> bool
        ensures { result ≡ (length self.now == 0) }
    {
        self.lexemes.is_empty()
    }

    /// Whether this symbol comes next.
    #[tactic(auto, unfolding(crate::specs::Steps::same_symbol))]
    pub fn sees(&self, symbol: Symbol) -> bool
        ensures { result ≡ sees symbol self.now }
    {
        match self.lexemes {
            [Lexeme::Sign(found, _), ..] => *found == symbol,
            _ => false,
        }
    }

    /// Whether this reserved word comes next.
    #[tactic(auto, unfolding(crate::specs::Steps::same_reserved))]
    pub fn sees_reserved(&self, word: Reserved) -> bool
        ensures { result ≡ sees_reserved word self.now }
    {
        match self.lexemes {
            [Lexeme::Word(_, Some(found), _), ..] => *found == word,
            _ => false,
        }
    }

    /// Whether any word comes next.
    pub fn sees_word(&self) -> bool
        ensures { result ≡ sees_word self.now }
    {
        matches!(self.lexemes, [Lexeme::Word(_, _, _), ..])
    }

    /// Whether a word that is not reserved comes next.
    pub fn sees_name(&self) -> bool
        ensures { result ≡ sees_name self.now }
    {
        matches!(self.lexemes, [Lexeme::Word(_, None, _), ..])
    }

    /// Whether a string comes next.
    pub fn sees_text(&self) -> bool
        ensures { result ≡ sees_text self.now }
    {
        matches!(self.lexemes, [Lexeme::Text(_, _), ..])
    }

    /// Whether a regular expression without flags comes next.
    pub fn sees_regex(&self) -> bool
        ensures { result ≡ sees_regex self.now }
    {
        matches!(self.lexemes, [Lexeme::Regex(_, _), ..])
    }

    /// Passes over the next token, where there is one.
    pub fn skip(&mut self)
        ensures { self.new ≡ drop 1 self.old }
    {
        if let [_, rest @ ..] = self.lexemes {
            self.lexemes = rest;
        }
    }

    /// Whether this symbol comes next. It is passed over.
    pub fn takes(&mut self, symbol: Symbol) -> bool
        ensures seen { result ≡ sees symbol self.old }
        ensures left { self.new ≡ (if sees symbol self.old then drop 1 self.old else self.old) }
        ensures taken { IsTrue result → length self.new < length self.old }
    {
        let seen = self.sees(symbol);
        if seen {
            self.skip();
        }
        seen
    }

    /// Whether this reserved word comes next. It is passed over.
    pub fn takes_reserved(&mut self, word: Reserved) -> bool
        ensures seen { result ≡ sees_reserved word self.old }
        ensures left { self.new ≡ (if sees_reserved word self.old then drop 1 self.old else self.old) }
        ensures taken { IsTrue result → length self.new < length self.old }
    {
        let seen = self.sees_reserved(word);
        if seen {
            self.skip();
        }
        seen
    }

    /// This symbol, by its place.
    #[tactic(auto, unfolding(crate::specs::Steps::symbol, crate::specs::Steps::same_symbol))]
    pub fn symbol(&mut self, wanted: Symbol, spot: Spot) -> Result<Span, Stop>
        ensures reads { ReadsAs (symbol wanted spot self.old) result self.new }
        ensures shorter { length self.new ≤ length self.old }
        ensures taken { OnOk result (length self.new < length self.old) }
    {
        match self.lexemes {
            [Lexeme::Sign(found, span), rest @ ..] if *found == wanted => {
                self.lexemes = rest;
                Ok(*span)
            }
            _ => Err(Stop::Unexpected(spot)),
        }
    }

    /// This reserved word.
    #[tactic(auto, unfolding(crate::specs::Steps::reserved))]
    pub fn reserved(&mut self, word: Reserved, spot: Spot) -> Result<(), Stop>
        ensures reads { ReadsAs (reserved word spot self.old) result self.new }
        ensures shorter { length self.new ≤ length self.old }
        ensures taken { OnOk result (length self.new < length self.old) }
    {
        if self.takes_reserved(word) {
            Ok(())
        } else {
            Err(Stop::Unexpected(spot))
        }
    }

    /// A word that is not reserved: its name and its place.
    #[tactic(auto, unfolding(crate::specs::Steps::free_word))]
    pub fn name(&mut self, alloc: Global, spot: Spot) -> Result<(Name, Span), Stop>
        ensures reads { ReadsAs (free_word spot self.old) result self.new }
        ensures shorter { length self.new ≤ length self.old }
        ensures taken { OnOk result (length self.new < length self.old) }
    {
        match self.lexemes {
            [Lexeme::Word(name, None, span), rest @ ..] => {
                let name = name.copy(alloc)?;
                self.lexemes = rest;
                Ok((name, *span))
            }
            _ => Err(Stop::Unexpected(spot)),
        }
    }

    /// Any word: its name and its place.
    #[tactic(auto, unfolding(crate::specs::Steps::feature))]
    pub fn feature(&mut self, alloc: Global, spot: Spot) -> Result<(Name, Span), Stop>
        ensures reads { ReadsAs (feature spot self.old) result self.new }
        ensures shorter { length self.new ≤ length self.old }
        ensures taken { OnOk result (length self.new < length self.old) }
    {
        match self.lexemes {
            [Lexeme::Word(name, _, span), rest @ ..] => {
                let name = name.copy(alloc)?;
                self.lexemes = rest;
                Ok((name, *span))
            }
            _ => Err(Stop::Unexpected(spot)),
        }
    }

    /// A string: its value and its place.
    #[tactic(auto, unfolding(crate::specs::Steps::text))]
    pub fn text(&mut self, alloc: Global, spot: Spot) -> Result<(Name, Span), Stop>
        ensures reads { ReadsAs (text spot self.old) result self.new }
        ensures shorter { length self.new ≤ length self.old }
        ensures taken { OnOk result (length self.new < length self.old) }
    {
        match self.lexemes {
            [Lexeme::Text(value, span), rest @ ..] => {
                let value = value.copy(alloc)?;
                self.lexemes = rest;
                Ok((value, *span))
            }
            _ => Err(Stop::Unexpected(spot)),
        }
    }

    /// A regular expression without flags: the text between its slashes, and its place.
    #[tactic(auto, unfolding(crate::specs::Steps::regex))]
    pub fn regex(&mut self, alloc: Global, spot: Spot) -> Result<(Name, Span), Stop>
        ensures reads { ReadsAs (regex spot self.old) result self.new }
        ensures shorter { length self.new ≤ length self.old }
        ensures taken { OnOk result (length self.new < length self.old) }
    {
        match self.lexemes {
            [Lexeme::Regex(pattern, span), rest @ ..] => {
                let pattern = pattern.copy(alloc)?;
                self.lexemes = rest;
                Ok((pattern, *span))
            }
            _ => Err(Stop::Unexpected(spot)),
        }
    }

    /// The word of a primitive.
    #[tactic(auto, unfolding(crate::specs::Steps::primitive))]
    pub fn primitive(&mut self, spot: Spot) -> Result<Primitive, Stop>
        ensures reads { ReadsAs (primitive spot self.old) result self.new }
        ensures shorter { length self.new ≤ length self.old }
        ensures taken { OnOk result (length self.new < length self.old) }
    {
        match self.next_primitive() {
            Some(primitive) => {
                self.skip();
                Ok(primitive)
            }
            None => Err(Stop::Unexpected(spot)),
        }
    }

    // The primitive whose word comes next, if one does.
    fn next_primitive(&self) -> Option<Primitive>
        ensures { result ≡ next_primitive self.now }
    {
        match self.lexemes {
            [Lexeme::Word(_, Some(word), _), ..] => primitive_of(*word),
            _ => None,
        }
    }

    /// The operator of an assignment that comes next, if one does.
    pub fn next_operator(&self) -> Option<Op>
        ensures { result ≡ next_operator self.now }
    {
        match self.lexemes {
            [Lexeme::Sign(Symbol::Equals, _), ..] => Some(Op::One),
            [Lexeme::Sign(Symbol::PlusEquals, _), ..] => Some(Op::Add),
            [Lexeme::Sign(Symbol::QuestionEquals, _), ..] => Some(Op::Flag),
            _ => None,
        }
    }

    /// Whether the word of a primitive comes next.
    pub fn sees_primitive(&self) -> bool
        ensures { result ≡ sees_primitive self.now }
    {
        self.next_primitive().is_some()
    }
}

// The primitive that a reserved word means.
fn primitive_of(word: Reserved) -> Option<Primitive>
    ensures { result ≡ primitive_of word }
{
    match word {
        Reserved::Text => Some(Primitive::Text),
        Reserved::Number => Some(Primitive::Number),
        Reserved::Boolean => Some(Primitive::Boolean),
        Reserved::BigInt => Some(Primitive::BigInt),
        Reserved::Date => Some(Primitive::Date),
        _ => None,
    }
}
