// The tokens of a grammar file.
use lw_base::Span;

/// A token of a grammar file, and where it stands.
#[derive(Clone, Copy, Debug, PartialEq, Eq)]
pub struct FileToken {
    pub kind: FileKind,
    pub span: Span,
}

/// What a token is.
#[derive(Clone, Copy, Debug, PartialEq, Eq)]
pub enum FileKind {
    /// A word, reserved or not, with or without a `^` before it.
    Word,
    /// A string in single or double quotes.
    Text,
    /// A regular expression, and how many letters of flags stand behind it.
    Regex(u32),
    Symbol(Symbol),
    /// A character where no token stands. It can follow nowhere.
    Other,
}

/// A symbol, named for its characters.
#[derive(Clone, Copy, Debug, PartialEq, Eq)]
pub enum Symbol {
    DotDot,
    PlusEquals,
    QuestionEquals,
    FatArrow,
    ThinArrow,
    Colon,
    Semicolon,
    Question,
    Star,
    Plus,
    Bar,
    OpenParenthesis,
    CloseParenthesis,
    OpenBracket,
    CloseBracket,
    OpenBrace,
    CloseBrace,
    Comma,
    Dot,
    At,
    Equals,
    Less,
    Greater,
    Ampersand,
    Exclamation,
}
