// What becomes of what was read.
use lw_base::{Name, PropId, TypeId};

/// What the text of a token says.
#[derive(Clone, Copy, Debug, PartialEq, Eq)]
pub enum TextForm {
    /// Itself.
    Plain,
    /// Itself without one `^` at its start.
    Identifier,
    /// What stands between its first and its last character, with its escapes read. A text of fewer than two characters is itself.
    Quoted,
}

/// The value that is made of the tokens that were read for it, where no node was finished among them.
#[derive(Debug, Drop)]
pub enum Content {
    /// That something was read.
    Truth,
    /// The keyword's text.
    Keyword(Name),
    /// The tokens' texts, one behind the other, as a text.
    Text(TextForm),
    /// The token's text as a number. A text that says none is kept.
    Number,
    /// A reference that wants a node of this type, by the name that the tokens' texts say.
    Reference(TypeId, TextForm),
}

/// Into which property a value is put, and what it is.
#[derive(Debug, Drop)]
pub struct ValueRecipe {
    pub prop: PropId,
    /// What it is where no node was finished in it. One that was is the value itself.
    pub content: Content,
}

/// What an action makes of the current node: a node of this type, or one of this type that takes it into a property.
#[derive(Clone, Copy, Debug, PartialEq, Eq)]
pub struct ActionRecipe {
    pub type_id: TypeId,
    /// The property that takes the current node, where one does.
    pub put: Option<PropId>,
}
