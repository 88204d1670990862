//! What is wrong with the properties that the rules of a grammar put values into.
//!
//! A rule that returns a declared type may put values into the properties that the type declares, in their forms;
//! one of an inferred type makes its properties by putting values into them. [`find_property_faults`] finds
//! what does not fit: a property that the declared type has not, a value in another form, a property that is
//! a list here and none there, a node that is not below the type that its rule returns. [`Attributes`] has the
//! properties that declared types have, with those of all that they extend.
//!
//! Its model: [`Attributes`] finds for a type and a name the attribute that the definition gives, or none.
//! Everything is asked of the leaves of rules, each with what may come before it (`lw_flow`).
//!
//! It promises that exactly the faults of the four definitions are found, which are 14 to 17 of `docs/faults.md`
//! ([`find_property_faults`]). That is so whatever else is wrong with the grammar: interfaces that extend
//! themselves and unions that are their own members are looked into once. The attribute of a type is answered by
//! [`Attributes::attribute`].
//!
//! The interfaces above a declared type are searched once for it, and the unions below an attribute once for each
//! value that is held against it. Else the cost is that of the leaves, times the types that may be current there.
#![tactic(auto)]

mod attributes;
mod below;
mod declarations;
mod find;
mod firsts;
mod forms;
mod inferred;
mod kinds;
mod known;
mod lineage;
mod members;
mod mixed;
mod places;
mod puts;
mod questions;
mod rule_types;
mod telling;
mod unknown;

pub use attributes::Attributes;
pub use declarations::{is_declared, union_of};
pub use find::find_property_faults;
pub use inferred::inferred_types;
pub use kinds::{ValueIs, kind_of, type_of};
pub use lineage::lineage as lineage_of;
pub use places::{Place, is_come_to, places as leaf_places};
pub use rule_types::{is_marked, node_types, text_types};
