//! The tree that the marks of a derivation stand for.
//!
//! `specs/Trees.antt` defines the tree that the marks of a derivation stand for, and the tree
//! that is open where a derivation has only begun. There is no code here but laws over grammars
//! that are written out. They have a reference, whole and begun ([`states_and_references`]),
//! and a node that an unassigned call replaces ([`a_call_replaces_the_node`]). They have an
//! action that wraps the node so far ([`an_action_wraps_the_node`]). The value of a data type
//! rule is a text ([`a_data_type_rule_gives_a_text`]), and that of `?=` is no reference
//! ([`a_flag_is_no_reference`]).
mod laws;

pub use laws::{
    a_call_replaces_the_node, a_data_type_rule_gives_a_text, a_flag_is_no_reference,
    an_action_wraps_the_node, states_and_references,
};
