//! What is told of the documents of a workspace, as relations on their shown texts: links and
//! diagnostics.
//!
//! `specs/Links.antt` says which trees texts have, and what their references lead to, `specs/Faults.antt` how the fault of a text is
//! shown, `specs/TreeDiagnostics.antt` what is told of a document that is read whole, and `specs/Diagnostics.antt` which list of
//! diagnostics a document has. They take the shown texts of all documents and nothing that was computed before. What links and checks is
//! held against these definitions.
//!
//! There is no code here but laws of them. By a grammar by which a text is read in one way, a document has one list
//! of each at most ([`one_list`]). They depend on the shown texts alone ([`only_shown_texts_matter`]). Where a text
//! becomes another that is read as something, or goes, another document keeps its links
//! ([`unseen_exports_change_no_links`]). That asks that no reference of it names an export of the text, before or
//! after. [`second_symbols_are_told`] and [`documents_are_told_of_each_other`] show over trees that are written out
//! what is told.
//!
//! In a folder of its own stands:
//!
//! - [`distinct`]: of two diagnostics of one document, either the starts differ or the codes.
#![tactic(auto)]

pub mod distinct;
mod laws;

pub use laws::{
    documents_are_told_of_each_other, one_list, only_shown_texts_matter, second_symbols_are_told,
    unseen_exports_change_no_links,
};
