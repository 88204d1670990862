// How large a grammar may be.

/// The greatest size of a grammar: how many imports, rules, elements, values, actions, terminals, terminal
/// elements, interfaces, attributes, unions and members it may have, at every depth.
pub const LARGEST_GRAMMAR: usize = 65_535;
