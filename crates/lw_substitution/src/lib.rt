//! Texts that differ in one name have trees that differ in it alone.
//!
//! Completion tries many names in one place of a text. The texts `front ++ name ++ rest` differ in the name alone, and
//! so do their tokens: those of `front` are the same, and those of `rest` say the same at other offsets
//! ([`a_written_name_differs_in_the_reference`]). The laws of this crate say that such a text need not be read again
//! for each name: the tree of the text in which the reference is left blank tells what the trees of all others are
//! ([`a_blank_tree_answers_for_each_name`]).
//!
//! `specs/Tokens.antt` says when tokens of two texts say the same. `specs/Places.antt` says when two texts differ in a
//! reference, which of all references that is, as many stand before it as its place says, and when marks put one there.
//! `specs/Growth.antt` says when what grows from marks is the same but for where things stand and for the name at that
//! place, and `specs/OneName.antt` says so of trees.
//!
//! Where marks are followed over a reference, they are with any other tokens in its place, or with none, and leave
//! brackets that are alike, which close to nodes that are ([`other_names_are_read_alike`]). So where one text has a
//! tree the other has one, and each tree of the one is like each of the other ([`trees_differ_in_one_name`]); that
//! holds for whole texts and for what a sentence begins with. In a grammar without faults the text with a blank
//! reference has such a tree, whatever sentence goes on so ([`blank_references_have_trees`]). The place is the number
//! of references in the tree of what stands before ([`references_before_give_the_place`]), and there stands the
//! reference that was read, with its type and the name that its tokens look up
//! ([`the_reference_stands_at_its_place`]). The other way round, whatever reference a tree has was put there by a mark
//! of the sentence, with its tokens behind that mark ([`each_reference_stands_where_marks_put_it`]). A reference leads
//! somewhere by a name in one of two trees that are alike just when it does in the other
//! ([`alike_trees_answer_alike`]). [`a_longer_name_is_the_only_difference`] shows what this comes to over two texts
//! that are written out (`specs/Worked.antt`).
//!
//! A tree that is opened leaves out a reference that is not finished, with all that stands in it. Its laws ask that
//! the marks go on to a root, as those of a sentence do: then each value stands in a node, and what is left out is
//! left out of both.
//!
//! There is no code here but laws.
//!
//! In a folder of its own stands:
//!
//! - [`tried`]: whether a name that is tried in a text would be a reference there, and where it would lead,
//!   without reading the text.
#![tactic(auto)]

mod laws;
pub mod tried;

pub use laws::{
    a_blank_tree_answers_for_each_name, a_longer_name_is_the_only_difference,
    a_written_name_differs_in_the_reference, alike_trees_answer_alike, blank_references_have_trees,
    each_reference_stands_where_marks_put_it, other_names_are_read_alike,
    references_before_give_the_place, the_reference_stands_at_its_place, trees_differ_in_one_name,
};
