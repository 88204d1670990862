// What all documents export once some were read again.
ghost use Rattle.std.specs.Prelude.{◌≡◌, IfOk, length};
ghost use Rattle.std.specs.Option.{option_map};
ghost use Rattle.lw_link.specs.Indexed.{AreEntriesAt};
ghost use Rattle.lw_rename.specs.Afterwards.{AreApart, later};
ghost use Rattle.lw_rename.specs.Entries.{AreRooted, HasRoot, IsIndexAfter};

use lw_base::NoMemory;
use lw_index::{Export, Index};
use lw_link::entries;
use lw_query::View;
use lw_tree::Tree;
use std::alloc::Global;

/// The tree that a document has then: the new one, where there is one.
pub(crate) fn tree_after<'t>(old: Option<&'t Tree>, new: &'t Option<Tree>) -> Option<&'t Tree>
    ensures { option_map (λ tree. tree.now) result ≡ later new.now (option_map (λ tree. tree.now) old.entry) }
{
    match new {
        Some(tree) => Some(tree),
        None => old,
    }
}

/// What a document exports.
fn exports_of(alloc: Global, tree: Option<&Tree>) -> Result<Vec<Export>, NoMemory>
    requires { HasRoot (option_map (λ tree. tree.now) tree) }
    ensures { IfOk result (λ exports. AreEntriesAt (option_map (λ tree. tree.now) tree.entry) exports.items) }
{
    match tree {
        Some(tree) => entries(alloc, tree),
        None => Ok(Vec::new(alloc)),
    }
}

/// The index of what all documents export.
pub(crate) fn index_after(
    alloc: Global,
    views: &[View<'_>],
    trees: &[Option<Tree>],
) -> Result<Index, NoMemory>
    requires long { length trees.now ≡ length views.now }
    requires apart { AreApart views.now }
    requires rooted { AreRooted views.now trees.now }
    ensures { IfOk result (IsIndexAfter views.now trees.now (length views.now)) }
{
    let mut index = Index::new(alloc);
    'entering: for i in 0..views.len() {
        let view = &views[i];
        let exports = exports_of(alloc, tree_after(view.tree, &trees[i]))?;
        index.set(view.doc, view.uri, exports)?;
    }
    Ok(index)
}
