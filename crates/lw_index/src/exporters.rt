// The documents that export one name, by the type that they export and by URI.
ghost use Rattle.std.specs.Prelude.{◌≡◌, ◌≢◌, ℕ, ◌≤◌, ◌<◌, min, List, MatchOption, IsTrue, OnOk, OnErr};
ghost use Rattle.std.specs.Option.{option_map_or};
ghost use Rattle.lw_base.specs.declared.numbers.NodeId.{NodeId};
ghost use Rattle.lw_index.specs.declared.parts.Target.{Target};
ghost use Rattle.lw_index.specs.Slots.{slot_in, target_in, filled};
ghost use Rattle.lw_index.specs.Turns.{reserved, emptied, offered, swept, TurnsAt};
ghost use Rattle.lw_index.specs.Least.{seen, IsAmongWanted, IsLeastFound, IsLesserOf};

use crate::parts::Target;
use lw_base::{DocId, Name, NoMemory, NodeId, TypeId, TypeSet};
use std::alloc::Global;
use std::cmp::Ordering;
use std::collections::BTreeMap;

/// A type and a URI.
pub(crate) type Place = (u16, Name);

/// What stands at a place: a document, and the least of its nodes that it exports there. A slot without a node is kept free for one.
#[derive(Clone, Copy)]
pub(crate) struct Slot {
    pub(crate) doc: DocId,
    pub(crate) node: Option<NodeId>,
}

/// The slots of one name.
pub(crate) type Exporters = BTreeMap<Place, Slot>;

/// Makes sure that there is a slot at a place. What is filled stays. Where memory is refused nothing changes.
pub(crate) fn reserve(
    exporters: &mut Exporters,
    alloc: Global,
    place: &Place,
    doc: DocId,
) -> Result<(), NoMemory>
    ensures made { OnOk result (TurnsAt (reserved doc) place.now exporters.old exporters.new) }
    ensures refused { OnErr result (exporters.new.entries ≡ exporters.old.entries) }
{
    if exporters.contains_key(place) {
        return Ok(());
    }
    let uri = place.1.copy(alloc)?;
    exporters.insert((place.0, uri), Slot { doc, node: None })?;
    Ok(())
}

/// Takes the node out of the slot at a place, if there is one.
pub(crate) fn withdraw(exporters: &mut Exporters, place: &Place)
    ensures { TurnsAt emptied place.now exporters.old exporters.new }
{
    if let Some(slot) = exporters.get_mut(place) {
        slot.node = None;
    }
}

/// The lesser of a node and one that was there before, if there was one.
fn lesser_node(before: Option<NodeId>, node: NodeId) -> NodeId
    ensures { result.0 ≡ option_map_or (λ (n : NodeId). min n.0 node.0) before node.0 }
{
    match before {
        Some(other) => NodeId(other.0.min(node.0)),
        None => node,
    }
}

/// Puts a node into the slot at a place. Of two nodes the lesser stays.
pub(crate) fn offer(exporters: &mut Exporters, place: &Place, doc: DocId, node: NodeId)
    ensures { TurnsAt (offered doc node) place.now exporters.old exporters.new }
{
    if let Some(slot) = exporters.get_mut(place) {
        let least = lesser_node(slot.node, node);
        *slot = Slot {
            doc,
            node: Some(least),
        };
    }
}

/// Takes the slot at a place away where it is free.
pub(crate) fn sweep(exporters: &mut Exporters, place: &Place)
    ensures { TurnsAt swept place.now exporters.old exporters.new }
{
    let free = match exporters.get(place) {
        Some(slot) => slot.node.is_none(),
        None => false,
    };
    if free {
        exporters.remove(place);
    }
}

/// The least type from this one on for which there is a slot.
fn next_type(exporters: &Exporters, alloc: Global, from: u16) -> Option<u16>
    ensures { MatchOption result ((t : ℕ) (u : List ℕ) → from ≤ t → slot_in exporters.now (t, u) ≡ None)
        (λ next. (from ≤ next) × ((t : ℕ) (u : List ℕ) → from ≤ t → t < next → slot_in exporters.now (t, u) ≡ None)) }
{
    let start = (from, Name::from_string(String::new(alloc)));
    match exporters.range(start..).next() {
        Some((place, _)) => Some(place.0),
        None => None,
    }
}

/// The greatest type for which there is a slot.
fn last_type(exporters: &Exporters) -> Option<u16>
    ensures { MatchOption result ((t : ℕ) (u : List ℕ) → slot_in exporters.now (t, u) ≡ None)
        (λ last. (t : ℕ) (u : List ℕ) → last < t → slot_in exporters.now (t, u) ≡ None) }
{
    match exporters.last_key_value() {
        Some((place, _)) => Some(place.0),
        None => None,
    }
}

/// The target in a slot, where there is one and it is not in a certain document.
fn target_of(slot: &Slot, except: Option<DocId>) -> Option<Target>
    ensures { MatchOption result ((x : Target) → target_in slot.now ≡ Some x → except ≡ Some x.doc)
        (λ x. (target_in slot.now ≡ Some x) × (except ≢ Some x.doc)) }
{
    let node = slot.node?;
    if except == Some(slot.doc) {
        return None;
    }
    Some(Target {
        doc: slot.doc,
        node,
    })
}

/// The first filled slot of a type, by URI, that is not a certain document's.
pub(crate) fn first_of_type<'a>(
    exporters: &'a Exporters,
    alloc: Global,
    wanted: u16,
    except: Option<DocId>,
) -> Option<(&'a Name, Target)>
    ensures { IsLeastFound (λ uri x. (filled (slot_in exporters.now (wanted, uri)) ≡ Some x) × (except ≢ Some x.doc)) (seen result) }
{
    let start = (wanted, Name::from_string(String::new(alloc)));
    for (place, slot) in exporters.range(start..) {
        if place.0 != wanted {
            return None;
        }
        if let Some(target) = target_of(slot, except) {
            return Some((&place.1, target));
        }
    }
    None
}

/// Of two targets, each beside the URI of its document, the first one by URI and node.
fn lesser<'a>(
    one: Option<(&'a Name, Target)>,
    other: Option<(&'a Name, Target)>,
) -> Option<(&'a Name, Target)>
    ensures { IsLesserOf (seen one.entry) (seen other.entry) (seen result) }
{
    match (one, other) {
        (Some((uri, target)), Some((other_uri, other_target))) => {
            let first = match uri.cmp(other_uri) {
                Ordering::Less => true,
                Ordering::Equal => target.node.0 <= other_target.node.0,
                Ordering::Greater => false,
            };
            if first {
                Some((uri, target))
            } else {
                Some((other_uri, other_target))
            }
        }
        (Some(found), None) => Some(found),
        (None, found) => found,
    }
}

/// The first of the filled slots of wanted types, by URI and node, that is not a certain document's.
pub(crate) fn first_wanted<'a>(
    exporters: &'a Exporters,
    alloc: Global,
    types: &TypeSet,
    except: Option<DocId>,
) -> Option<(&'a Name, Target)>
    ensures { IsLeastFound (IsAmongWanted exporters.now types.now except) (seen result) }
{
    let Some(last) = last_type(exporters) else {
        return None;
    };
    let mut best = None;
    let mut from = 0;
    while let Some(found) = next_type(exporters, alloc, from) {
        if types.holds(TypeId(found)) {
            best = lesser(best, first_of_type(exporters, alloc, found, except));
        }
        if found >= last {
            return best;
        }
        from = found + 1;
    }
    best
}
