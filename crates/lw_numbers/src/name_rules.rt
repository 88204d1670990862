//! By which rule a cross-reference is read that writes none.
//!
//! A cross-reference `[T]` that writes no rule reads its text by the rule or terminal that names the
//! nodes of `T`: the one that is called in the first `name=` of a rule whose type is `T` or below it,
//! and of these rules the first in load order that has such a `name=`. The fragments that a rule calls
//! count as parts of its body.
//!
//! Its model: a [`NameRules`] is a list of pairs, a wanted type and the name that its rule calls.
//!
//! It promises that a type has the entry that the definition gives it, and none where there is none.
//! The rule or terminal of a type is answered by [`NameRules::rule_of`]. To find a rule's first
//! `name=` each fragment that the rule puts in is looked into once, so that all rules together take as
//! many steps as the rules and the fragments within each have leaves. It calls itself nowhere, however
//! long a chain of fragments is. Each rule that names its nodes then takes one step for each type that
//! its own is below. A look-up takes constant time, as expected.
mod first_name;
mod name_rules;

pub use name_rules::NameRules;
