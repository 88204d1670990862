//! The rename of what stands at a place, over all documents of a built workspace.
//!
//! [`rename`] is given the documents as a build left them, in the order of addresses ([`View`]), a place and a new name. It answers which
//! spans of which documents are to be replaced ([`FileSpans`]), or why the rename is refused ([`RenameFault`]): nothing is meant there, an
//! edited document could not be read any more or would have another shape, or a reference, anywhere, would lead to another node.
//!
//! Its model: texts, trees and links stand by address, as `lw_places` and `lw_places::renaming` say what is mentioned and what a rename comes to;
//! views stand for them (`lw_query`). What is replaced stands for mentions (`specs/Grouped.antt`), and a fault for a refusal.
//!
//! It promises exactly what `lw_places::renaming` defines: the spans are all mentions of what is meant, in order, and
//! where it is refused the refusal is the first that stands against it. Every span that is answered stands in its
//! text ([`rename`]). Want of memory may take the place of any answer.
//!
//! Edited documents are read again and no others. Then all documents are linked anew over a new index, and each reference is compared
//! with where it led. So a rename takes time that is linear in all trees and in the edited texts, beside one look-up in the index for
//! each reference that leads out of its document, and memory for the new trees, the index, and the symbols of one tree at a time.
#![tactic(auto)]

mod again;
mod entering;
mod fault;
mod files;
mod leading;
mod meaning;
mod mentions;
mod rebinding;
mod renames;
mod replacing;
mod shape;
mod unlike;

pub use fault::RenameFault;
pub use files::FileSpans;
pub use lw_query::View;
pub use renames::rename;
