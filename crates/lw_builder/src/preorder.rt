//! Nodes that were finished innermost first, put into preorder.
//!
//! Who builds a tree while a text is read finishes a node after all that stands inside it, and only
//! then may know what the node is put into. So it names nodes by their places in the order of
//! finishing: the containers of nodes, the nodes that hold values and references, and the nodes among
//! the values. Who reads a tree wants numbers in preorder: each container before what is inside it, and
//! what is inside in its order. Then the root is 0, and a node with all inside it is one stretch of
//! numbers. [`in_preorder`] makes the tree of the one from the tables of the other.
//!
//! Its model: `Grown` of `lw_reading::marks`, a node with its type, its span and what was put into it, one after
//! the other. `specs/Finishing.antt` says which list of [`Finished`] nodes such a tree gives as it is
//! finished, `specs/Tables.antt` which values and references. Nothing is said of how the tables were
//! built.
//!
//! It promises that the tables of the tree are those of the same `Grown` counted in preorder: the same
//! nodes at their numbers, at each property of each node the same values in the same order, the
//! references in text order, and the tokens as they were given.
//!
//! How it is made. A node's number is that of its container, and one, and how many were finished inside
//! the container before it: so a pass from the last place to the first finds each number by one sum,
//! since a [`Finished`] node knows how many were finished before the first inside it. Then each node is
//! put at its number, and places are changed into numbers, in values and references where they stand.
//! Values stay in the order of finishing, in which those of one node lie side by side and in their
//! order; the tree sorts them.
//!
//! What it costs: four passes, each linear, and the tree's sort of the values. The sort takes what rises
//! already as it is, and is slowest where nodes nest deeply, since their numbers fall in the order of
//! finishing. Nothing here recurses, however deep nodes nest. It takes memory for the numbers, which is
//! given back, and for the nodes.
mod finished;
mod nodes;
mod numbers;
mod preorder;
mod references;
mod values;

pub use finished::Finished;
pub use preorder::in_preorder;
