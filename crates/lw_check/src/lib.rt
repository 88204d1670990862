//! The diagnostics of a document.
//!
//! Its model: a document is its text, and what it is told is a list of [`Shown`](lw_text::Shown), each
//! with where it begins and ends, its code and its message. Which diagnostics a document has that is read whole is defined in
//! `specs/TreeDiagnostics.antt` of `lw_link_rules`, over the trees of all documents, and how the fault of one that is not in
//! `specs/Faults.antt` there.
//!
//! [`diagnostics`] is given the tree of a document, its symbols, where each of its references leads (`lw_link`), the
//! index of what all documents export, and the types of the grammar. It promises exactly the list that the definition
//! says, for all trees and addresses that the index stands for. Told are each reference that leads nowhere, and each
//! name that an earlier symbol of the same node and type has. Told is each export that another document exports too,
//! with the least address of those documents. Told is each number that is out of range. [`issue_diagnostic`] shows
//! the one fault of a text that is broken, and [`too_large`] is the one entry of a document that is not read, which a
//! caller may know before it has the whole text. The one error of all calls is want of memory. What a command line
//! prints of a document and what an editor is told of it both come from here.
#![tactic(auto)]

mod code;
mod document;
mod duplicates;
mod numbers;
mod rivals;
mod sorting;
mod unresolved;

pub use document::{diagnostics, diagnostics_alone, issue_diagnostic, too_large};
