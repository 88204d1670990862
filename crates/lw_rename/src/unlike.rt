// The first node at which two trees have not the same shape.
ghost use Rattle.std.specs.Prelude.{◌≡◌, ◌<◌, ◌↔◌, ℕ, Some, IsTrue, MatchOption, length};
ghost use Rattle.std.specs.Option.{option_map};
ghost use Rattle.lw_grammar.specs.declared.grammar.Grammar.{Grammar};
ghost use Rattle.lw_numbers.specs.Numbering.{property_names};
ghost use Rattle.lw_places.specs.Shapes.{HaveSameShape, IsFirstUnlike, stands_as as as_it_stands};
ghost use Rattle.lw_rename.specs.Alike.{AreAlikeBut, HaveSameValues, IsFirstApart, IsFirstApartAmong, IsLesserNode, refers_alike};

use crate::shape::have_shapes_of;
use lw_base::{NodeId, PropId};
use lw_tree::{Node, Reference, Tree};

/// The one node stands as the other does: its type, what it stands in, and under which property.
fn stands_alike(one: &Node, other: &Node) -> bool
    ensures { IsTrue result ↔ (as_it_stands one.now ≡ as_it_stands other.now) }
{
    one.type_id == other.type_id && one.container == other.container && one.prop == other.prop
}

/// The one list of nodes is the other.
fn are_same_nodes(one: &[NodeId], other: &[NodeId]) -> bool
    ensures { IsTrue result ↔ (one.now ≡ other.now) }
{
    one == other
}

/// The values of a node under each property below a number have the shapes of those of the node of this number in another tree.
fn have_same_values(one: &Tree, other: &Tree, node: NodeId, props: u16) -> bool
    requires one { node.0 < length one.now.nodes }
    requires other { node.0 < length other.now.nodes }
    ensures { IsTrue result ↔ HaveSameValues one.now other.now node.0 props }
{
    'properties: for p in 0..props {
        if !have_shapes_of(one.values(node, PropId(p)), other.values(node, PropId(p))) {
            return false;
        }
    }
    true
}

/// Both trees have a node of this number, which stands alike in both, with children and values alike.
fn are_alike_but(one: &Tree, other: &Tree, node: NodeId, props: u16) -> bool
    ensures { IsTrue result ↔ AreAlikeBut one.now other.now node.0 props }
{
    if node.0 >= one.len() || node.0 >= other.len() {
        return false;
    }
    stands_alike(one.node(node), other.node(node))
        && are_same_nodes(one.children(node), other.children(node))
        && have_same_values(one, other, node, props)
}

/// The references differ in their names and places at most.
fn refer_alike(one: &Reference, other: &Reference) -> bool
    ensures { IsTrue result ↔ refers_alike one.now other.now }
{
    one.owner == other.owner && one.prop == other.prop && one.want == other.want
}

/// Of the nodes that two references stand in, where these are not alike, the first.
fn first_owner(one: &Reference, other: &Reference) -> Option<NodeId>
    ensures { IsFirstApart (Some one.now) (Some other.now) result }
{
    if refer_alike(one, other) {
        return None;
    }
    Some(NodeId(one.owner.0.min(other.owner.0)))
}

/// The same of the references of one number, where each tree may have none of it.
fn first_at(one: Option<&Reference>, other: Option<&Reference>) -> Option<NodeId>
    ensures { IsFirstApart (option_map (λ r. r.now) one.entry) (option_map (λ r. r.now) other.entry) result }
{
    match (one, other) {
        (Some(one), Some(other)) => first_owner(one, other),
        (Some(one), None) => Some(one.owner),
        (None, Some(other)) => Some(other.owner),
        (None, None) => None,
    }
}

/// The first of two nodes, where there are two.
fn least(one: Option<NodeId>, other: Option<NodeId>) -> Option<NodeId>
    ensures { IsLesserNode one other result }
{
    match (one, other) {
        (Some(one), Some(other)) => Some(NodeId(one.0.min(other.0))),
        (Some(one), None) => Some(one),
        (None, other) => other,
    }
}

/// The first node that has not the same references in two trees.
fn first_apart(one: &[Reference], other: &[Reference]) -> Option<NodeId>
    ensures { IsFirstApartAmong one.now other.now result }
{
    let mut found = None;
    let count = one.len().max(other.len());
    'references: for i in 0..count {
        found = least(found, first_at(one.get(i), other.get(i)));
    }
    found
}

/// The node is the one that is told.
fn is_told(told: Option<NodeId>, node: NodeId) -> bool
    ensures { IsTrue result ↔ (told ≡ Some node) }
{
    match told {
        Some(other) => other == node,
        None => false,
    }
}

/// The first node at which two trees have not the same shape, by the properties below a number. Its time is linear in the trees, and for
/// each node and property logarithmic in all values.
pub(crate) fn first_unlike(one: &Tree, other: &Tree, props: u16) -> Option<NodeId>
    ensures { (g : Grammar) → length (property_names g) ≡ props →
        MatchOption result (HaveSameShape g one.now other.now) (λ n. IsFirstUnlike g one.now other.now n.0) }
{
    let apart = first_apart(one.refs(), other.refs());
    let count = one.len().max(other.len());
    'nodes: for n in 0..count {
        let node = NodeId(n);
        if is_told(apart, node) {
            return Some(node);
        }
        if !are_alike_but(one, other, node, props) {
            return Some(node);
        }
    }
    None
}
