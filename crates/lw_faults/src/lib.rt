//! What is wrong with a grammar that was loaded: the 23 faults, each a definition of its own.
//!
//! `specs/Faults.antt` has them by their numbers, in two phases: what names and types are, and then
//! what rules read and do. A fault is told by the number of a file, a place in it and the name that
//! is spoken of. In an order of its own a list holds exactly the faults of a phase.
//!
//! The definitions stand on three pictures of a rule:
//!
//! - `specs/Written.antt` of `lw_grammar`: what is written where. A rule calls names, a type is named, a type is
//!   inferred, each at its place.
//! - `specs/Reads.antt`: how many tokens an element may read, and which calls it may come to before
//!   any token. A call of what is no parser rule reads one.
//! - `specs/Steps.antt`: the ways through a rule, fragments put in. A way is the list of its steps,
//!   which are assignments, actions and calls that are not assigned; of each step it is known in
//!   whose body it is written. What is repeated stands on a way any number of times, so that it comes
//!   behind itself. A step is come to behind what is done before it, whether or not the way has an end:
//!   a fragment that never ends is looked into, and what stands behind a call of it is not come to.
//!
//! `specs/Attributes.antt` adds which attributes a declared type has, and which values one takes. The
//! other files have the faults by their subject.
//!
//! There is no code here but laws and the kinds of faults ([`FaultKind`]), which have the numbers that are told. A grammar has one list of faults in each phase
//! ([`one_list_of_faults`]), and no fault is of both ([`phases`]). The others say of grammars that are
//! written out (`specs/Worked.antt`) where each fault is and how it is told, and of those beside them
//! that they have it not: an action behind an assignment and before it ([`misplaced_actions`]), a rule
//! that calls itself behind a fragment that reads nothing and behind one that reads a token
//! ([`left_recursion`]), and so on.
//!
//! In a folder of its own stands:
//!
//! - [`findings`]: what is found wrong with a grammar: a heap of faults that becomes the one list of them.
#![tactic(auto)]

pub mod findings;
mod kind;
mod laws;

pub use kind::FaultKind;
pub use laws::{
    bad_assignments, bad_calls, circular_calls, circular_types, data_types, duplicates, entries,
    left_recursion, members_of_texts, misplaced_actions, misplaced_calls, mixed_properties,
    name_rules, one_list_of_faults, phases, property_forms, repeated_nothing,
    rules_that_read_nothing, rules_without_end, sizes, types_that_are_not_below,
    unknown_properties, unknown_rules, unknown_types, what_is_declared_once_is_meant,
};
