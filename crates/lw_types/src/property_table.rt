//! The properties that the types of a grammar have, and what each of them may hold.
//!
//! A type that is inferred has the properties that something is put into where it is current: by an
//! assignment, or by an action that puts the node so far into it. A type that an interface declares has
//! its own attributes and those of all that it extends. A union has none. [`PropertyTable`] has the
//! properties of every type, each with its number, whether it is a list, and the kinds of values that it
//! may hold: a primitive, nodes of a type, or references to them.
//!
//! Its model: a [`PropertyTable`] is a list of lists of [`PropertyInfo`], one for each type, by the numbers
//! of types. `specs/Having.antt` says what they are, in the words of the ways through rules and of the
//! lineage of interfaces.
//!
//! It promises the same for every grammar, also for one that has faults: interfaces that extend themselves
//! and unions that are their own members are looked into once, and what names nothing gives no value.
//!
//! [`PropertyTable::of`] gives exactly the properties of each type, in the order in which they are first put
//! in or declared. Each is given with whether it is a list and with the values that it may hold, each once
//! ([`PropertyTable::properties`]). A type has one list of them at most, where it is known what may come
//! before the leaves of rules ([`one_list_of_properties`]). Nothing that is built asks a table yet.
//!
//! Other laws say over small grammars which properties types have and which types are below which. An
//! interface and a union are in [`properties_of_shapes`], a grammar of states in [`properties_of_states`],
//! an action in [`properties_around_an_action`]. The rest are [`properties_of_two_ways`],
//! [`properties_of_united_types`], [`types_below_a_rule`] and [`types_below_a_union`].
//!
//! Properties come in the order in which they are first put in, or declared, and values likewise, each
//! once. The cost is that of one walk over the leaves of all rules, at each times the types that are current
//! there and the values that are put in, and for each interface that of all attributes above it. Look-ups
//! take constant time, as expected.
mod declared;
mod free;
mod gathering;
mod info;
mod laws;
mod members;
mod parts;
mod seeing;
mod source;
mod table;
mod value;

pub use info::PropertyInfo;
pub use laws::{
    one_list_of_properties, properties_around_an_action, properties_of_shapes,
    properties_of_states, properties_of_two_ways, properties_of_united_types, types_below_a_rule,
    types_below_a_union,
};
pub use table::PropertyTable;
