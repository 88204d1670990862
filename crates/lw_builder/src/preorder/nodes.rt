// Nodes put at their numbers.
ghost use Rattle.std.specs.Prelude.{◌≡◌, ℕ, ◌<◌, length, IfOk, IfSome};
ghost use Rattle.lw_reading.specs.Grown.{Grown, nodes as nodes_of_tree};
ghost use Rattle.lw_builder.specs.Finishing.{AreNumbered, IsFinishedTree, is_finished_tree_of, renumbered as renumbered_by};

use crate::preorder::Finished;
use lw_base::{NoMemory, NodeId, Span, TypeId};
use lw_tree::Node;
use std::alloc::Global;

/// A container's number in place of its place.
fn renumbered(numbers: &[u32], container: Option<NodeId>) -> Option<NodeId>
    requires { IfSome container (λ above. above.0 < length numbers.now) }
    ensures { result ≡ renumbered_by numbers.now container }
{
    match container {
        None => None,
        Some(above) => Some(NodeId(numbers[above.0 as usize])),
    }
}

const BLANK: Node = Node {
    type_id: TypeId(0),
    container: None,
    prop: None,
    span: Span { start: 0, end: 0 },
};

/// The nodes, each at its number and with its container named by number.
pub fn nodes_by_number(
    alloc: Global,
    finished: &[Finished],
    numbers: &[u32],
) -> Result<Vec<Node>, NoMemory>
    requires finished { IsFinishedTree finished.now }
    requires numbered { AreNumbered finished.now numbers.now }
    ensures { (x : Grown) → is_finished_tree_of x finished.now → IfOk result (λ v. v.items ≡ nodes_of_tree None None 0 x) }
{
    let mut nodes = vec![in alloc; BLANK; finished.len()]?;
    for place in 0..finished.len() {
        let one = &finished[place];
        let container = renumbered(numbers, one.node.container);
        nodes[numbers[place] as usize] = Node {
            container,
            ..one.node
        };
    }
    Ok(nodes)
}
