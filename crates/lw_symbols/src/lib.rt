//! The symbols of a tree, and which of them a reference leads to within its own tree.
//!
//! What symbols, exports and links are is said in `lw_scoping`. [`Locals`] has the symbols of each node of one tree, in the order of
//! their numbers ([`Locals::of`]), and finds the first of a node that has a name and a type of a set without going through all of them
//! ([`Locals::first_named`]), or a name and one type ([`Locals::first_of_type`]): symbols stand in the order of the numbers of their
//! names, their containers, their types and their nodes, with where those of near numbers begin, so that one is found by halving a few.
//! [`Locals::crowded`] are the nodes among which doubles are. [`own_answer`] goes outwards from a reference, one such look a level.
//! [`exports`] is what the document of a tree offers to all documents.
//!
//! Locals have no model of their own: `AreLocalsOf` (`specs/Locals.antt`) says that they are those of a tree. A look takes that tree,
//! for names are not kept twice.
//!
//! It promises that each answer is exactly what the definitions say, for every tree. [`own_answer`] asks that containers have smaller
//! numbers than what stands in them, which is so in the trees of sentences (`lw_reading::outwards`).
//!
//! Only [`Locals::of_tree`], [`Locals::crowded`] and [`exports`] take memory, and want of memory is their only error. Locals take, for n
//! nodes, n log n steps, and 4 bytes a node and at most 24 bytes a named one. A look takes constant time in a node without symbols, else
//! time that is logarithmic in the symbols of near numbers for each type that the symbols of this name in the node have, where the names
//! that have one number are few.
#![tactic(auto)]

mod hash;
mod locals;
mod named;
mod own;
mod part;
mod runs;
mod shelves;
mod symbol;

pub use locals::Locals;
pub use named::exports;
pub use own::own_answer;
