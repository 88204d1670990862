// Spots in the order of the addresses of their documents.
ghost use Rattle.std.specs.Prelude.{◌≡◌, Some, OnOk, IfOk, map};
ghost use Rattle.std.specs.List.Sorted.{IsStrictlySortedBy};
ghost use Rattle.lw_query.specs.Gathered.{AreSpotsOf, PutsSpots, key_cmp, spot_of_key};
ghost use Rattle.lw_query.specs.Spots.{IsSpotOfMention, IsSpotOfSlot};

use crate::spots::{declared_spot, use_spot};
use crate::{Spot, Views};
use lw_base::{DocId, Items, Name, NoMemory, Span};
use lw_index::Target;
use lw_index::refs::{RefIndex, SlotId};
use std::alloc::Global;
use std::collections::BTreeSet;

/// Spots by the address of the document, the first byte, and the one behind the last; with the number of the document. No address is copied.
type Keys<'a> = BTreeSet<(&'a Name, u32, u32, u32)>;

/// Puts in a spot, where there is one and its document has an address.
fn put<'a, V: Views>(v: &'a V, spot: Option<Spot>, keys: &mut Keys<'a>) -> Result<(), NoMemory>
    ensures { OnOk result (PutsSpots (V.Stands v.now) (λ s. spot ≡ Some s) keys.old.keys keys.new.keys) }
{
    if let Some(spot) = spot {
        if let Some(uri) = v.uri(spot.doc) {
            keys.insert((uri, spot.span.start, spot.span.end, spot.doc.0))?;
        }
    }
    Ok(())
}

/// Puts in where each of these references stands. For n references n log n comparisons of addresses.
fn put_uses<'a, V: Views>(v: &'a V, slots: &[SlotId], keys: &mut Keys<'a>) -> Result<(), NoMemory>
    ensures { OnOk result (PutsSpots (V.Stands v.now) (IsSpotOfSlot (V.tree_at v.now) slots.now) keys.old.keys keys.new.keys) }
{
    for slot in slots {
        put(v, use_spot(v, *slot), keys)?;
    }
    Ok(())
}

/// The spots in their order.
fn spots_of(alloc: Global, keys: &Keys) -> Result<Vec<Spot>, NoMemory>
    ensures spots { IfOk result (λ spots. spots.items ≡ map spot_of_key keys.now.keys) }
    ensures ordered { IsStrictlySortedBy key_cmp keys.now.keys }
{
    let spot = |key: &(&Name, u32, u32, u32)| Spot {
        doc: DocId(key.3),
        span: Span {
            start: key.1,
            end: key.2,
        },
    };
    Ok(keys.iter().map(spot).collect(alloc)?)
}

/// Where a node is mentioned: by the references that lead to it, and by its name where the declaration counts. Each once, in the order of
/// addresses and of bytes.
pub(crate) fn gather<V: Views>(
    alloc: Global,
    v: &V,
    refs: &RefIndex,
    target: Target,
    declaration: bool,
) -> Result<Items<Spot>, NoMemory>
    ensures { IfOk result (AreSpotsOf (V.Stands v.now) (IsSpotOfMention (V.tree_at v.now) refs.now declaration target)) }
{
    let slots = refs.of(target)?;
    let mut keys = BTreeSet::new(alloc);
    put(v, declared_spot(v, target, declaration), &mut keys)?;
    put_uses(v, slots.as_slice(), &mut keys)?;
    Ok(Items::from_vec(spots_of(alloc, &keys)?))
}
