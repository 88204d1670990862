//! What a text reads as by a grammar: whole, with its tree, or broken with one fault at its exact place.
//!
//! [`Parsed`] is the answer as plain data, and `specs/Reading.antt` says which answer a text has: it is looked at for
//! its length, then cut into tokens, and the visible tokens have to be a sentence, whose marks give the tree. What
//! reads texts is held against this definition; there is no code here but laws of it.
//!
//! A text has one reading at most ([`one_reading`]). That is said of a grammar that has no empty keyword and in which
//! no two sentences have one list of kinds. Two readings of one text are the same fault, or trees of which each
//! reader gives the same. A grammar of which no rule writes an empty keyword has none ([`filled_rules`]). A kind has
//! one text at most ([`one_kind_text`]).
//!
//! In folders of their own stand:
//!
//! - [`marks`]: the tree that the marks of a derivation stand for.
//! - [`rooted`]: each sentence of a grammar without faults has a tree, and one only.
//! - [`outwards`]: what holds of the trees of sentences, and of those of texts, that goes beyond one node.
#![tactic(auto)]

mod laws;
pub mod marks;
pub mod outwards;
mod parsed;
pub mod rooted;

pub use laws::{filled_rules, one_kind_text, one_reading};
pub use lw_tree::Issue;
pub use parsed::Parsed;
