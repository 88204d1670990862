//! What holds of the trees of sentences, and of those of texts, that goes beyond one node.
//!
//! `lw_reading::marks` says what the tree of marks is, whole and opened, `lw_scoping` what the way outwards from a
//! node is, and `lw_reading` which tree a text has. In each such tree containers have smaller numbers than what
//! stands in them, so that one way leads outwards from each node, and there is a root ([`containers_come_first`]);
//! and the types of its nodes and those that its references want are types of the grammar ([`types_are_known`]).
//! [`read_trees`] says all this of the tree of a text, and that each of its references stands in one of its nodes.
//! Whoever finds links and diagnostics in a tree asks for it.
//!
//! There is no code here but laws.
mod laws;

pub use laws::{containers_come_first, read_trees, types_are_known};
