// What an index is asked and answers.
use lw_base::{DocId, Items, Name, NodeId, TypeId};

/// A node that a document offers to all documents, by a name.
#[derive(Debug, Drop, PartialEq)]
pub struct Export {
    pub name: Name,
    pub type_id: TypeId,
    pub node: NodeId,
}

/// A node of a document.
#[derive(Clone, Copy, Debug, PartialEq, Eq)]
pub struct Target {
    pub doc: DocId,
    pub node: NodeId,
}

/// Where a reference leads.
#[derive(Clone, Copy, Debug, PartialEq, Eq)]
pub enum Answer {
    Found(Target),
    /// Nothing fits.
    Missing,
}

/// A document of an index: its URI and what it exports.
#[derive(Debug, Drop)]
pub struct Document {
    pub uri: Name,
    pub exports: Items<Export>,
}

/// What a document no longer exports. Only tests look at it.
#[derive(Debug, Drop)]
pub struct Delta {
    pub doc: DocId,
    /// All that it exported before, in the order in which it was given.
    pub gone: Items<Export>,
}
