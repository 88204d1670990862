//! Tests of what is kept of documents: trees, symbols, exports and references, links, diagnostics, and what is asked at a place.
//!
//! They show what no clause says: that the calls succeed where there is memory, and what small trees come to that are written by hand.
//! Each module is named by the crate or the folder that it tries, and names public items alone.
#![tactic(auto)]

#[cfg(test)]
mod check;
#[cfg(test)]
mod docs;
#[cfg(test)]
mod index;
#[cfg(test)]
mod link;
#[cfg(test)]
mod query;
#[cfg(test)]
mod refs;
#[cfg(test)]
mod symbols;
#[cfg(test)]
mod tree;
