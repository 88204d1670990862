// What is wrong with a grammar that was read.
use lw_base::{Name, Span};

/// A fault of a grammar: its number, where it stands, and the name of the rule, type or property
/// that it speaks of.
#[derive(Drop)]
pub struct GrammarFault {
    pub number: u8,
    pub file: u16,
    pub span: Span,
    pub name: Name,
}
