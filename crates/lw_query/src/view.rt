// A document as a build left it.
use lw_base::{DocId, Name};
use lw_index::Answer;
use lw_tree::Tree;

/// A document as a build left it: its number and its address, its text, what that was read as, and where its references lead.
#[derive(Drop)]
pub struct View<'a> {
    pub doc: DocId,
    pub uri: &'a Name,
    pub text: &'a Name,
    /// The tree, where the text is read whole.
    pub tree: Option<&'a Tree>,
    /// One for each reference of the tree.
    pub answers: &'a [Answer],
}
