// What the visible tokens of a grammar file say.
ghost use Rattle.std.specs.Prelude.{◌≡◌, IfOk};
ghost use Rattle.lw_gramlex.specs.Places.{IsPlace, IsOfKind};
ghost use Rattle.lw_gramlex.specs.Values.{part_of};
ghost use Rattle.lw_gramread.specs.Lexemes.{reserved_of, lexeme_of, place_of};

use lw_base::{Name, NoMemory, Span};
use lw_gramlex::{FileKind, FileToken, Symbol, regex_text, string_value, word_name};
use std::alloc::Global;

/// A visible token of a grammar file with what it says, and where it stands.
#[derive(Drop)]
pub enum Lexeme {
    /// A word: its name, and which reserved word it is, where it is one.
    Word(Name, Option<Reserved>, Span),
    /// A string, by its value.
    Text(Name, Span),
    /// A regular expression without flags: the text between its slashes.
    Regex(Name, Span),
    /// A regular expression with flags. It can follow nowhere.
    Flagged(Span),
    Sign(Symbol, Span),
    /// A character where no token stands. It can follow nowhere.
    Other(Span),
}

/// A word that means itself, unless it is written with `^`.
#[derive(Clone, Copy, Debug, PartialEq, Eq)]
pub enum Reserved {
    Entry,
    Extends,
    Fragment,
    Grammar,
    Hidden,
    Import,
    Infer,
    Infers,
    Interface,
    Returns,
    Terminal,
    Type,
    Current,
    /// `string`
    Text,
    /// `number`
    Number,
    /// `boolean`
    Boolean,
    /// `bigint`
    BigInt,
    /// `Date`
    Date,
}

impl Lexeme {
    /// Where the token stands.
    pub fn span(&self) -> Span
        ensures { result ≡ place_of self.now }
    {
        match self {
            Lexeme::Word(_, _, span)
            | Lexeme::Text(_, span)
            | Lexeme::Regex(_, span)
            | Lexeme::Flagged(span)
            | Lexeme::Sign(_, span)
            | Lexeme::Other(span) => *span,
        }
    }
}

/// What a token says that was cut from the file. The one error is want of memory.
pub(crate) fn lexeme_of(alloc: Global, file: &Name, token: &FileToken) -> Result<Lexeme, NoMemory>
    requires place { IsPlace file.now token.now.span }
    requires form { IsOfKind token.now.kind (part_of file.now token.now.span) }
    ensures { IfOk result (λ lexeme. lexeme ≡ lexeme_of file.now token.now) }
{
    let text = token.text(file);
    let span = token.span;
    match token.kind {
        FileKind::Word => {
            let reserved = reserved_of(text);
            Ok(Lexeme::Word(Name::from_text(alloc, word_name(text))?, reserved, span))
        }
        FileKind::Text => Ok(Lexeme::Text(string_value(alloc, text)?, span)),
        FileKind::Regex(0) => {
            let pattern = Name::from_text(alloc, regex_text(text, 0))?;
            Ok(Lexeme::Regex(pattern, span))
        }
        FileKind::Regex(_) => Ok(Lexeme::Flagged(span)),
        FileKind::Symbol(symbol) => Ok(Lexeme::Sign(symbol, span)),
        FileKind::Other => Ok(Lexeme::Other(span)),
    }
}

// Which reserved word a word's token is, if it is one.
fn reserved_of(token: &str) -> Option<Reserved>
    ensures { result ≡ reserved_of token.now }
{
    match token {
        "entry" => Some(Reserved::Entry),
        "extends" => Some(Reserved::Extends),
        "fragment" => Some(Reserved::Fragment),
        "grammar" => Some(Reserved::Grammar),
        "hidden" => Some(Reserved::Hidden),
        "import" => Some(Reserved::Import),
        "infer" => Some(Reserved::Infer),
        "infers" => Some(Reserved::Infers),
        "interface" => Some(Reserved::Interface),
        "returns" => Some(Reserved::Returns),
        "terminal" => Some(Reserved::Terminal),
        "type" => Some(Reserved::Type),
        "current" => Some(Reserved::Current),
        "string" => Some(Reserved::Text),
        "number" => Some(Reserved::Number),
        "boolean" => Some(Reserved::Boolean),
        "bigint" => Some(Reserved::BigInt),
        "Date" => Some(Reserved::Date),
        _ => None,
    }
}
