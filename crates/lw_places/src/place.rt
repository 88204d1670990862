// What stands at a place of a document.
use lw_base::{NodeId, RefId};

/// What stands at a place of a document: a name or a reference.
#[derive(Clone, Copy, Debug, PartialEq, Eq)]
pub enum Place {
    /// The name of this node.
    Named(NodeId),
    /// This reference.
    Refers(RefId),
}
