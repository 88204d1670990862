// Terminals, and what their bodies are made of.
use lw_base::{Boxed, Items, Name, Span};

/// The values that are no nodes.
#[derive(Clone, Copy, Debug, PartialEq, Eq)]
pub enum Primitive {
    /// `string`
    Text,
    /// `number`
    Number,
    /// `boolean`
    Boolean,
    /// `bigint`
    BigInt,
    /// `Date`
    Date,
}

/// A terminal. The span is that of its name.
#[derive(Drop)]
pub struct Terminal {
    pub name: Name,
    pub file: u16,
    pub span: Span,
    /// The parser skips tokens of a hidden terminal.
    pub is_hidden: bool,
    /// A fragment is no token by itself: other terminals call it.
    pub is_fragment: bool,
    pub gives: Primitive,
    pub body: TermElement,
}

/// A part of a terminal's body.
#[derive(Drop)]
pub enum TermElement {
    /// This very text.
    Literal(Name, Span),
    /// One character from the first to the second.
    Range(Name, Name, Span),
    /// A regular expression: the text between its slashes, as written.
    Pattern(Name, Span),
    /// A call of a terminal.
    Call(Name, Span),
    /// Parts in a row, two or more.
    Group(Items<TermElement>),
    /// Alternatives, two or more.
    Choice(Items<TermElement>),
    /// `?`
    Maybe(Boxed<TermElement>),
    /// `*`
    Many(Boxed<TermElement>),
    /// `+`
    Some1(Boxed<TermElement>),
}
