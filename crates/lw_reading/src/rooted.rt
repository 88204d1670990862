//! Each sentence of a grammar without faults has a tree, and one only.
//!
//! `lw_reading::marks` says what marks build: which brackets are open once they are followed, and what is left once
//! these are closed. `lw_grammar::sentences` says which marks are a sentence. The laws of this folder join the two.
//! Whatever the grammar, marks that are followed leave one list of open brackets, and it is closed in one way
//! ([`marks_have_one_tree`]). Where no fault is found in the grammar, the marks of each sentence, read with tokens
//! of its kinds, leave a root, and each beginning of them that is not empty leaves brackets that can be closed
//! ([`each_sentence_has_a_tree`]); `specs/Growing.antt` says both in one line each.
//!
//! That there is a tree needs a grammar without faults: a rule that makes nodes and returns a primitive
//! type has no type for its node, a node that is called where its container holds something already has
//! no place, a fragment that is assigned leaves no value, a type that is not known has no number, and an
//! entry rule that makes no node leaves no root.
//!
//! What a tree holds stands where it was read: where the tokens stand in the text, one behind the other,
//! each node, value and reference stands in the text ([`spans_stand_in_the_text`], `specs/Within.antt`),
//! and each reference in a node of its tree ([`references_stand_in_nodes`]).
//!
//! There is no code here but laws.
mod laws;

pub use laws::{
    each_sentence_has_a_tree, marks_have_one_tree, references_stand_in_nodes,
    spans_stand_in_the_text, tokens_stand_in_a_row,
};
