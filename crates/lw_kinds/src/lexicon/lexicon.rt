// What the names of a grammar mean.
use crate::KindTable;
use lw_grammar::Grammar;
use lw_numbers::Numbers;
use lw_numbers::name_rules::NameRules;

/// A grammar, and what is known of its names and kinds.
#[derive(Clone, Copy)]
pub struct Lexicon<'g> {
    pub g: &'g Grammar,
    pub numbers: &'g Numbers,
    pub name_rules: &'g NameRules,
    pub kinds: &'g KindTable,
}
