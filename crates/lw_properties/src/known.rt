// What is known of a grammar.
use crate::Attributes;
use lw_grammar::Grammar;
use lw_numbers::Numbers;
use lw_numbers::subtypes::Subtypes;

/// What is known of a grammar's names, rules and types.
pub(crate) struct Known<'g> {
    pub(crate) g: &'g Grammar,
    pub(crate) numbers: &'g Numbers,
    pub(crate) nodes: &'g [bool],
    pub(crate) subtypes: &'g Subtypes,
    /// Which types are those of data type rules.
    pub(crate) texts: &'g [bool],
    pub(crate) attributes: Attributes<'g>,
}

impl Drop for Known<'_> {
    // In one place, so that whoever drops such a value sees one call and not the drops of all its parts.
    fn drop(self) {
        let Known {
            g: _,
            numbers: _,
            nodes: _,
            subtypes: _,
            texts: _,
            attributes: _,
        } = self;
    }
}
