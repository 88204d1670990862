//! The leaves of what a grammar writes, as lists of what is lent from it.
//!
//! Much that is asked of a grammar is asked of what its bodies write: which rules are called, which
//! properties are assigned, which types are wanted. The forms around it do not matter there. So each
//! function here goes once through a tree and gives its leaves in the order of the text:
//! [`body_leaves`] those of a rule's body, [`value_parts`] what one assignment reads, [`term_calls`]
//! and [`term_ranges`] the calls and the ranges of a terminal's body. A leaf borrows its texts from
//! the grammar, and nothing is copied.
//!
//! Its model: a leaf stands for what the definitions call a leaf, with the texts that it points to.
//! Read so, each list is, item for item, the list that the definition gives for the same tree.
//!
//! Each call takes time linear in the size of the tree, and memory for the list alone. It fails only
//! where there is no memory.
mod body;
mod terms;
mod value;

pub use body::{BodyLeaf, body_leaves};
pub use terms::{TermRange, term_calls, term_ranges};
pub use value::{ValuePart, value_parts};
