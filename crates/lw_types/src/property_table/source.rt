// A grammar with what is known of its names and rules.
use lw_grammar::Grammar;
use lw_numbers::Numbers;

/// A grammar with the numbers of its names, and which of its rules make nodes.
#[derive(Drop)]
pub(crate) struct Source<'g> {
    pub(crate) g: &'g Grammar,
    pub(crate) numbers: &'g Numbers,
    pub(crate) nodes: &'g [bool],
    /// Which types are those of data type rules.
    pub(crate) texts: &'g [bool],
    /// Which types are those of rules that make nodes.
    pub(crate) made: &'g [bool],
}
