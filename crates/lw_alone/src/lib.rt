//! The list of diagnostics of a document that is alone.
//!
//! Its model: the shown texts of a workspace are those of one document, at one address (`alone_at` in `lw_link_rules`). [`tell`] reads
//! the text, finds where its references lead, and tells what is wrong. It needs no index of exports: what a document exports beside
//! its root are symbols of the root, which each reference comes by on its way outwards.
//!
//! It promises that the list is the one that `lw_link_rules` gives such a document, whatever its address, and that what the text reads as is
//! told beside it. Want of memory is the only error.
#![tactic(auto)]

mod document;

pub use document::{Told, tell};
