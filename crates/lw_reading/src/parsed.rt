// The answer of reading a text.
use lw_tree::{Issue, Tree};

/// What a text reads as.
#[derive(Drop)]
pub enum Parsed {
    /// The visible tokens are a sentence, and this is its tree.
    Whole(Tree),
    /// They are not, and this is the one fault.
    Broken(Issue),
}
