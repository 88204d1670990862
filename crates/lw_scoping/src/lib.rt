//! What the symbols of trees are, and which of them a reference leads to.
//!
//! A symbol is a node with a name (`specs/Symbols.antt`). A reference looks for one of its name, and of a type that it wants, among the
//! symbols of the node that it stands in, then of each container outwards (`specs/Outward.antt`), and takes the first; where there is
//! none, it looks at what all documents export, its own among them, and takes the one of the smallest address, and there of the smallest
//! number. `specs/Links.antt` says so over the trees of documents by their addresses, whatever the types are: a relation tells which type
//! is another or below it.
//!
//! By the laws a document has one list of links at most ([`one_link`]). It depends on nothing but the tables of the
//! trees ([`links_follow_from_tables`]). What a reference finds in its own tree depends on the types that it wants
//! alone ([`own_symbols_follow_from_wanted_types`]). One way leads outwards from each node of a tree in which
//! containers have smaller numbers than what stands in them ([`one_way_leads_out`]).
//! [`inner_symbols_shadow_outer_ones`] and [`smaller_addresses_come_first`] show over trees that are written out what
//! this comes to: what is of a type that is not wanted hides nothing, and a root is no symbol of a node, so that its
//! own document finds it among the exports only. Of exports that fit, the one of the smallest address comes first
//! there, whether it is a root or not.
//!
//! There is no code here but laws.
#![tactic(auto)]

mod laws;

pub use laws::{
    inner_symbols_shadow_outer_ones, links_follow_from_tables, one_link, one_way_leads_out,
    own_symbols_follow_from_wanted_types, smaller_addresses_come_first,
};
