// What reading by a grammar does, a mark each.
use lw_base::{KindId, RuleId};

/// A mark of a reading. What is put and what is done stands in the grammar and is named by its number.
#[derive(Clone, Copy, Debug, PartialEq, Eq)]
pub enum TreeMark {
    /// A visible token of this kind was read.
    Token(KindId),
    /// The node of this rule begins.
    Open(RuleId),
    /// A node ends.
    Shut,
    /// A value is put into a property: the number is its place among all values that the grammar assigns.
    Put(u32),
    /// The value that is being put has been read.
    End,
    /// The action of this number among all of the grammar.
    Act(u32),
}
