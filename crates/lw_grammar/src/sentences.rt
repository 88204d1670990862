//! What the rules of a grammar may read, as relations on whole lists.
//!
//! `specs/Marks.antt` has the marks of a derivation, `specs/Yields.antt` which marks each form of a
//! rule's body may give, and `specs/Sentences.antt` the sentences of a grammar and what one begins
//! with. They know nothing of characters: a token is its kind. The crates that read, predict and
//! complete are held against these definitions.
//!
//! There is no code here but laws. Some hold of every grammar. A name means at most one rule or
//! terminal, and at most one interface or union ([`one_meaning`]). A rule has one list of leaves at most
//! ([`one_leaves`]), and a grammar one list of kinds ([`one_list_of_kinds`]). A row of keywords yields
//! its tokens ([`keyword_rows`]). What starts a sentence can be cut anywhere, and its front starts one
//! ([`starts_of_sentences`]).
//!
//! The other laws say of grammars that are written out (`specs/Worked.antt`) where the definitions of
//! this folder and of `lw_grammar` hold, and where not. These grammars have fragments
//! ([`fragments_put_in`]), data type rules ([`data_type_rules`]) and cross-references
//! ([`name_rule_of_states`]). They have an interface and a union of one name in both orders
//! ([`first_declaration`]). The rest are [`names_of_states`], [`calls_of_states`], [`kinds_of_states`],
//! [`kinds_of_reached_rules`] and [`inferred_subtypes`].
mod laws;

pub use laws::{
    calls_of_states, data_type_rules, first_declaration, fragments_put_in, inferred_subtypes,
    keyword_rows, kinds_of_reached_rules, kinds_of_states, name_rule_of_states, names_of_states,
    one_leaves, one_list_of_kinds, one_meaning, starts_of_sentences,
};
