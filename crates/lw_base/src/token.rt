// Where things stand in a text, and the tokens that a text is cut into.
use crate::KindId;

/// A part of a text, as byte offsets counted from zero: the byte at `start` is the first of it, and
/// the byte at `end` the first after it.
#[derive(Clone, Copy, Debug, PartialEq, Eq, Hash)]
pub struct Span {
    pub start: u32,
    pub end: u32,
}

/// A token of a document: its kind, whether the parser skips it, and where it stands. In this order it takes twelve bytes.
#[derive(Clone, Copy, Debug, PartialEq, Eq)]
pub struct Token {
    pub kind: KindId,
    pub hidden: bool,
    pub span: Span,
}
