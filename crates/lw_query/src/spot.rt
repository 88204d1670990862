// A place in a document.
use lw_base::{DocId, Span};

/// Some bytes of the text of a document.
#[derive(Clone, Copy, Debug, PartialEq, Eq)]
pub struct Spot {
    pub doc: DocId,
    /// From the first byte to behind the last, counted from zero.
    pub span: Span,
}
