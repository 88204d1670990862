//! Where the references of each document lead, found both ways.
//!
//! A tree's references are numbered in the order of its text, and linking gives each an [`Answer`]: the node that it leads to, or that
//! there is none. A [`RefIndex`] is given these answers document by document. It says where a reference leads, and the other way round
//! which references lead to a node, wherever they stand: that is what "find references" and a rename ask.
//!
//! Its model is the map from the number of each document to the answers that it was given last, in the order of its references
//! (`specs/Led.antt`). Nothing else is seen of it. It knows no trees and no texts, and takes any answers; a number that is removed may be
//! given again.
//!
//! It promises that [`RefIndex::set`], [`RefIndex::remove`] and [`RefIndex::clear`] change what they name and nothing else; that
//! [`RefIndex::answers`] and [`RefIndex::answer`] give back what was given; that [`RefIndex::of`] answers every reference that leads to a
//! node and no other, each once, in the order of documents and of references (`specs/Users.antt`); and that nothing changes where memory
//! is refused.
//!
//! [`RefIndex::set`] puts in the answers of one document, in place of what it had. [`RefIndex::answer`] is none where
//! a reference was given none.
//!
//! Each document has beside its answers a second list of those that lead somewhere, in the order of what they lead to, so that those of
//! one node are found by halving. A set of pairs says which documents lead into which. So [`RefIndex::of`] looks at no document but
//! those with references into the document of the node. Documents are linked often and asked for seldom: [`RefIndex::set`] brings one
//! list into order, and touches the set of pairs once for each document that is led to. A reference that leads somewhere takes 24 bytes, one
//! that leads nowhere 12, and a pair of documents some 16.
mod leads;
mod refs;
mod slot;
mod users;
mod uses;

pub use refs::RefIndex;
pub use slot::SlotId;
