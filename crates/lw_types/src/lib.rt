//! What is known of the types of a grammar, and what is wrong with them.
//!
//! [`infer`] looks at a grammar that was loaded, and answers its [`Types`], or all faults of the first of the two phases in which faults
//! are looked for: those of names and types. `docs/faults.md` lists them.
//!
//! Its model: a [`Types`] is what crates below found out, of rules ([`RuleFacts`]: the numbers of names, which rules make nodes,
//! what may come before each leaf) and of types ([`TypeFacts`]: which are below which, by which rules cross-references
//! are read that name none).
//!
//! It promises that there are types exactly where the grammar has no fault of this phase, that the faults are else
//! all that there are, each once, in their order, and that what is answered of types is what the definitions say. The
//! faults of names and types are 4 to 6 and 14 to 19 ([`infer`]). Types are asked by their numbers for the name
//! ([`Types::type_name`]) and whether one is the other or below it ([`Types::is_sub`]). The set of those that are is
//! given by [`Types::subs`]. Each part takes expected time linear in the grammar, but for what the crates below say
//! of circles, of chains of types, and of fragments that call each other.
//!
//! In folders of their own stand:
//!
//! - [`naming`]: what is wrong with the names of a grammar.
//! - [`property_table`]: the properties that the types of a grammar have, and what each of them may hold.
#![tactic(auto)]

mod fault;
mod inferring;
pub mod naming;
pub mod property_table;
mod sets;
mod types;

pub use fault::TypeFaults;
pub use inferring::infer;
pub use types::{RuleFacts, TypeFacts, Types};
