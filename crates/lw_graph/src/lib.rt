//! Directed graphs of numbered nodes: what is reached in one, what lies on a circle, and what leads to what.
//!
//! A [`Graph`] is made with so many nodes and gets its edges one by one. It knows nothing of what its
//! nodes stand for. [`Graph::reached`] finds all that walks from some nodes lead to, and
//! [`Graph::circles`] all that walks lead back to; each answers a [`NodeSet`]. [`Graph::successors_first`]
//! lists the nodes so that what edges lead to stands in front, for rounds that go over all of them.
//!
//! Its model: a graph is the number of its nodes and, by node, the list of those that edges lead to from
//! it, of which clauses say only whether there is an edge; a set of nodes is a list of flags, by node.
//!
//! It promises that a [`Graph`] has exactly the edges that were put in ([`Graph::add`]). Both sets are exact:
//! a node is in one where such a walk exists, and nowhere else. Of the list it promises that it has nodes of
//! the graph only; which stands where is tested. Where memory is refused for an edge, the graph stays as it
//! was.
//!
//! What is reached is found in time that is linear in nodes and edges, and so is the list. So are circles in
//! a graph that has none: over and over, nodes are taken away whose successors were all taken away, and there
//! that is each of them. A node that is left lies on a circle or leads to one, and costs a search of its own,
//! so a graph in which many nodes lead to circles takes quadratic time. No call is deeper on the stack for a
//! larger graph.
#![tactic(auto)]

mod circles;
mod ended;
mod front;
mod graph;
mod node_set;
mod order;

pub use graph::Graph;
pub use node_set::NodeSet;
