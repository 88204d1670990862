// What names a reference among all documents.
use lw_base::{DocId, RefId};

/// A reference of a document: the document's number, and the reference's number in it.
#[derive(Clone, Copy, Debug, PartialEq, Eq, PartialOrd, Ord)]
pub struct SlotId {
    pub doc: DocId,
    pub reference: RefId,
}
