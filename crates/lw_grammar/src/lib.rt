//! A grammar as plain data, and what its numbering speaks of.
//!
//! The types say what a grammar file says, each part with the place where it stands. A clause sees
//! them as they are: a list inside is the list of its items and a box is what it holds, at every
//! depth, so that `==` of two grammars in a clause compares what was written and nothing else.
//!
//! Beside the types stand the definitions that the crates above share: the leaves of a rule's body,
//! the first item of a name, subtypes, the rule that a cross-reference without one takes, which rules
//! can be reached, which rules make nodes, the kinds of tokens in their order, and the size.
//!
//! `IsWellFormed` (`specs/WellFormed.antt`) says that each choice in a terminal has a part, and that no
//! rule stands where a terminal stands. `lw_load` promises it of a grammar that is loaded, and
//! `lw_terminals::patterns` goes by it.
//!
//! In folders of their own stand:
//!
//! - [`sentences`]: what the rules of a grammar may read, as relations on whole lists.
//! - [`formed`]: grammars that are well formed, whatever their names mean and whatever their rules read.
#![tactic(auto)]

mod declared_types;
mod fault;
pub mod formed;
mod grammar;
mod rule;
pub mod sentences;
mod terminal;

pub use declared_types::{Attribute, Interface, Member, UnionDef, ValueKind};
pub use fault::GrammarFault;
pub use grammar::{Grammar, Import};
pub use rule::{Action, Element, Op, Rule, RuleResult, Value0};
pub use terminal::{Primitive, TermElement, Terminal};
