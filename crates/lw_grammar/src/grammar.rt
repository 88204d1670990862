// A whole grammar: the files that were loaded, joined.
use crate::{Interface, Rule, Terminal, UnionDef};
use lw_base::{Items, Name, Span};

/// A grammar: all that its files declare, the files in the order in which they were loaded, and what
/// a file declares in the order in which it stands there.
pub struct Grammar {
    /// The name that the root file gives it, or the empty text.
    pub name: Name,
    /// The path of each file. A `file` below is a place in this list, counted from zero.
    pub files: Items<Name>,
    pub rules: Items<Rule>,
    pub terminals: Items<Terminal>,
    pub interfaces: Items<Interface>,
    pub unions: Items<UnionDef>,
    pub imports: Items<Import>,
}

impl Drop for Grammar {
    // In one place, so that whoever drops such a value sees one call and not the drops of all its parts.
    fn drop(self) {
        let Grammar {
            name: _,
            files: _,
            rules: _,
            terminals: _,
            interfaces: _,
            unions: _,
            imports: _,
        } = self;
    }
}

/// A file that another one names. The span is that of the path's string.
#[derive(Drop)]
pub struct Import {
    pub path: Name,
    pub file: u16,
    pub span: Span,
}
