// The named nodes in each node.
ghost use Rattle.std.specs.Prelude.{ℕ, ◌≡◌, ◌<◌, ◌≤◌, ◌+◌, ◌++◌, [], ◌∷◌, filter, IfOk, OnOk, length, map, slice_get, slice_index};
ghost use Rattle.lw_scoping.specs.Symbols.{exports as exports_of, is_named_node};
ghost use Rattle.lw_symbols.specs.Families.{named_before, named_children, named_families};

use crate::part::part;
use lw_base::{NoMemory, NodeId};
use lw_tree::Tree;
use std::alloc::Global;
use std::marker::Model;

/// The named nodes in nodes, seen as a list of them for each node. All of them stand in one list, those of a node side by side.
#[derive(Drop)]
pub(crate) struct NamedChildren {
    /// Where those of each node begin, and last of all where those of the last one end.
    starts: Vec<u32>,
    ids: Vec<NodeId>,
}

impl Model for NamedChildren {
    ghost use Rattle.lw_tree.specs.Children.{AreStretches, Families, stretches};

    ghost Value = { Families };

    ghost view = { λ t. stretches t.starts.items t.ids.items };

    ghost invariant = { λ t. AreStretches t.starts.items t.ids.items };
}

/// Puts the named nodes directly in a node behind those that are there.
fn put_named(tree: &Tree, n: NodeId, ids: &mut Vec<NodeId>) -> Result<(), NoMemory>
    requires { n.0 < length tree.now.nodes }
    ensures { OnOk result (ids.new.items ≡ ids.old.items ++ named_children tree.now n.0) }
{
    for child in tree.children(n) {
        if tree.name(*child).is_some() {
            ids.push(*child)?;
        }
    }
    Ok(())
}

/// The named nodes directly in each node, one behind the other, and where those of each node begin.
fn starts_and_ids(alloc: Global, tree: &Tree) -> Result<(Vec<u32>, Vec<NodeId>), NoMemory>
    ensures one_more { IfOk result (λ table. length table.0.items ≡ length tree.now.nodes + 1) }
    ensures starts { IfOk result (λ table. (n : ℕ) → n ≤ length tree.now.nodes → slice_index table.0.items n ≡ length (named_before tree.now n)) }
    ensures ids { IfOk result (λ table. table.1.items ≡ named_before tree.now (length tree.now.nodes)) }
{
    let mut starts = Vec::new(alloc);
    let mut ids = Vec::new(alloc);
    for number in 0..tree.len() {
        starts.push(ids.len() as u32)?;
        put_named(tree, NodeId(number), &mut ids)?;
    }
    starts.push(ids.len() as u32)?;
    Ok((starts, ids))
}

impl NamedChildren {
    /// Those of the nodes of a tree. It takes two pieces of memory, and a look for the name of each node.
    pub(crate) fn of_tree(alloc: Global, tree: &Tree) -> Result<NamedChildren, NoMemory>
        ensures { IfOk result (λ table. table ≡ named_families tree.now) }
    {
        let (starts, ids) = starts_and_ids(alloc, tree)?;
        Ok(NamedChildren { starts, ids })
    }

    /// Those of this node, in the order of their numbers. Constant time.
    pub(crate) fn at(&self, node: NodeId) -> &[NodeId]
        requires { node.0 < length self.now }
        ensures { slice_get self.now node.0 ≡ Some result.now }
    {
        let start = self.starts[node.0 as usize];
        let end = self.starts[node.0 as usize + 1];
        part(self.ids.as_slice(), start as usize, end as usize)
    }
}

/// The root, where it has a name.
fn named_root(alloc: Global, tree: &Tree) -> Result<Vec<NodeId>, NoMemory>
    requires { 0 < length tree.now.nodes }
    ensures { IfOk result (λ found. map (λ n. n.0) found.items ≡ filter (is_named_node tree.now) (0 ∷ [])) }
{
    let mut found = Vec::new(alloc);
    if tree.name(NodeId(0)).is_some() {
        found.push(NodeId(0))?;
    }
    Ok(found)
}

/// What a document with this tree exports, in the order of their numbers: the root, where it has a name, and the named nodes directly in
/// it. It takes a look for the name of each of these nodes.
pub fn exports(alloc: Global, tree: &Tree) -> Result<Vec<NodeId>, NoMemory>
    requires { 0 < length tree.now.nodes }
    ensures { IfOk result (λ found. map (λ n. n.0) found.items ≡ exports_of tree.now) }
{
    let mut found = named_root(alloc, tree)?;
    put_named(tree, NodeId(0), &mut found)?;
    Ok(found)
}
