//! Whether a name that is tried in a text would be a reference there, and where it would lead, without reading the text.
//!
//! Completion tries many names at one place. Each makes a text of its own, `front ++ name ++ rest`, and a name is
//! offered by what that text reads as: whether it has a tree with a reference that spans just the name, and whether
//! that reference has a target. To read each text is too slow. The laws of this folder say how its tokens, and the
//! tree of the text in which the reference is left blank, answer for it.
//!
//! `specs/Around.antt` says what tokens such a text has, where none reaches over an end of the name. Where these are a
//! sentence in which the tokens of the name are the reference, and span it, the text has such a tree, and that
//! reference leads somewhere just when the blank one does by the name ([`a_name_is_judged_by_the_blank_tree`]). Where
//! no sentence reads them as a reference, or they do not span the name, no tree of the text has a reference there
//! ([`what_no_sentence_reads_is_no_reference`]). None has where a token reaches over the end of the name, or where
//! none stands before it ([`a_token_across_the_end_leaves_no_reference`]).
//!
//! There is no code here but laws.
mod laws;

pub use laws::{
    a_name_is_judged_by_the_blank_tree, a_token_across_the_end_leaves_no_reference,
    what_no_sentence_reads_is_no_reference,
};
