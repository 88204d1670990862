// A tree as it is built, mark by mark.
use crate::open::Open;
use crate::preorder::Finished;
use lw_base::{Name, NodeId, PropId, Token};
use lw_program::recipes::Recipes;
use lw_tree::{Reference, Value};

/// What the marks followed so far have built. Nodes are named by their places in the order of finishing.
#[derive(Drop)]
pub struct Builder<'a> {
    pub(crate) recipes: &'a Recipes,
    pub(crate) text: &'a Name,
    /// The visible tokens of the text, and how many of them were read.
    pub(crate) visible: &'a [Token],
    pub(crate) read: usize,
    /// The nodes that are finished, and their values.
    pub(crate) finished: Vec<Finished>,
    pub(crate) kept: Vec<(NodeId, PropId, Value)>,
    /// The values of open nodes, those of outer ones first.
    pub(crate) loose: Vec<(PropId, Value)>,
    pub(crate) refs: Vec<Reference>,
    /// What is open, the innermost last.
    pub(crate) brackets: Vec<Open>,
}
