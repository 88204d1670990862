// A tree with its nodes in preorder.
ghost use Rattle.std.specs.Prelude.{◌<◌, ◌^◌, length, IfOk};
ghost use Rattle.lw_reading.specs.Grown.{Grown};
ghost use Rattle.lw_reading.specs.Trees.{parts_of_tree};
ghost use Rattle.lw_tree.specs.Parts.{SameTables, Tile};
ghost use Rattle.lw_builder.specs.Tables.{AreTablesOf};

use crate::preorder::Finished;
use crate::preorder::nodes::nodes_by_number;
use crate::preorder::numbers::numbers;
use crate::preorder::references::references_by_number;
use crate::preorder::values::values_by_number;
use lw_base::{NoMemory, NodeId, PropId, Token};
use lw_tree::{Reference, Tree, Value};
use std::alloc::Global;

/// The tree whose tables, in the order of finishing, are these: `finished` has the nodes, `values` each
/// value with its property and the place of the node that holds it, where a `Child` is a place too, and
/// `refs` the references in text order with the places of the nodes that they stand in. `name` is the
/// number of the property `name`, where the grammar has one. In the tree each place has become a number:
/// each container comes before what is inside it, and what is inside in its order.
///
/// The only error is that memory is refused; what was given is then gone. Linear but for the sort of the
/// values.
pub fn in_preorder(
    alloc: Global,
    finished: Vec<Finished>,
    values: Vec<(NodeId, PropId, Value)>,
    refs: Vec<Reference>,
    tokens: Vec<Token>,
    name: Option<PropId>,
) -> Result<Tree, NoMemory>
    requires tables { (x : Grown) × AreTablesOf x finished.items values.items refs.items }
    requires room { length finished.items < 2 ^ 32 }
    requires tokens { Tile 0 tokens.items }
    ensures { (x : Grown) → AreTablesOf x finished.items values.items refs.items → IfOk result (λ tree. SameTables tree (parts_of_tree x tokens.items name)) }
{
    let numbers = numbers(alloc, finished.as_slice())?;
    let nodes = nodes_by_number(alloc, finished.as_slice(), numbers.as_slice())?;
    let values = values_by_number(numbers.as_slice(), values);
    let refs = references_by_number(numbers.as_slice(), refs);
    Tree::new(alloc, nodes, values, refs, tokens, name)
}
