// Why a rename is refused.
use lw_base::{Name, NodeId, RefId, Span};

/// Why a rename is refused: what is told is the first that stands against it.
#[derive(Debug, Drop)]
pub enum RenameFault {
    /// Nothing is meant at the place.
    NoName,
    /// The document at this address could not be read any more.
    NotParsed(Name),
    /// The document at this address would have another shape at this node.
    Shape(Name, NodeId),
    /// A reference of the document at this address would lead to another node: its number, and where it stands in the text as it is now;
    /// where it leads now and where it would lead, each by address and node, or nowhere.
    Rebound {
        uri: Name,
        reference: RefId,
        span: Span,
        before: Option<(Name, NodeId)>,
        after: Option<(Name, NodeId)>,
    },
    /// There was no memory.
    NoMemory,
}
