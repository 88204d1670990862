// Where names and references stand.
ghost use Rattle.std.specs.Prelude.{◌≡◌, if◌then◌else◌};
ghost use Rattle.lw_query.specs.Spots.{slot_spot, target_spot};

use crate::{Spot, Views};
use lw_index::Target;
use lw_index::refs::SlotId;

/// Where the name of a node stands, if it has one.
pub(crate) fn name_spot<V: Views>(v: &V, target: Target) -> Option<Spot>
    ensures { result ≡ target_spot (V.tree_at v.now target.doc.0) target }
{
    match v.tree(target.doc) {
        None => None,
        Some(tree) if target.node.0 < tree.len() => match tree.name(target.node) {
            Some((_, span)) => Some(Spot {
                doc: target.doc,
                span,
            }),
            None => None,
        },
        Some(_) => None,
    }
}

/// The same where the declaration counts.
pub(crate) fn declared_spot<V: Views>(v: &V, target: Target, declaration: bool) -> Option<Spot>
    ensures { result ≡ (if declaration then target_spot (V.tree_at v.now target.doc.0) target else None) }
{
    if declaration {
        name_spot(v, target)
    } else {
        None
    }
}

/// Where a reference stands, if there is one of this number.
pub(crate) fn use_spot<V: Views>(v: &V, slot: SlotId) -> Option<Spot>
    ensures { result ≡ slot_spot (V.tree_at v.now slot.doc.0) slot }
{
    match v.tree(slot.doc) {
        None => None,
        Some(tree) => match tree.refs().get(slot.reference.0 as usize) {
            Some(reference) => Some(Spot {
                doc: slot.doc,
                span: reference.span,
            }),
            None => None,
        },
    }
}
