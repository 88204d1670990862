// What a document puts into the index.
ghost use Rattle.std.specs.Prelude.{◌≡◌, ◌<◌, IfOk, MatchOption, None, length};
ghost use Rattle.lw_scoping.specs.Symbols.{IsNamedNode};
ghost use Rattle.lw_tree.specs.Parts.{name_of};
ghost use Rattle.lw_link.specs.Indexed.{AreEntriesOf};

use lw_base::{NoMemory, NodeId};
use lw_index::Export;
use lw_symbols::exports;
use lw_tree::Tree;
use std::alloc::Global;

/// A node as the index keeps it, where it has a name. The name is copied.
fn export_of(alloc: Global, tree: &Tree, n: NodeId) -> Result<Option<Export>, NoMemory>
    requires { n.0 < length tree.now.nodes }
    ensures { IfOk result (λ found. MatchOption found
        (name_of tree.now n.0 ≡ None)
        (λ export. (export.node ≡ n) × IsNamedNode tree.now export.node.0 export.name export.type_id.0)) }
{
    match tree.name(n) {
        None => Ok(None),
        Some((name, _)) => Ok(Some(Export {
            name: name.copy(alloc)?,
            type_id: tree.node(n).type_id,
            node: n,
        })),
    }
}

/// What a document with this tree exports, as the index keeps it, in the order of nodes. The names are copied; want of memory is the
/// only error.
pub fn entries(alloc: Global, tree: &Tree) -> Result<Vec<Export>, NoMemory>
    requires { 0 < length tree.now.nodes }
    ensures { IfOk result (λ found. AreEntriesOf tree.now found.items) }
{
    let mut found = Vec::new(alloc);
    let nodes = exports(alloc, tree)?;
    for node in &nodes {
        if let Some(export) = export_of(alloc, tree, *node)? {
            found.push(export)?;
        }
    }
    Ok(found)
}
