// What is known of a property.
use lw_base::{Items, PropId};
use lw_grammar::ValueKind;

/// A property of a type.
#[derive(Drop)]
pub struct PropertyInfo {
    pub prop: PropId,
    /// It holds any number of values, and else one.
    pub list: bool,
    /// What the values may be, each once.
    pub values: Items<ValueKind>,
}
