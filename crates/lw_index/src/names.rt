// The exporters of all names.
ghost use Rattle.std.specs.Prelude.{◌≡◌, OnOk, OnErr, List, ℕ};
ghost use Rattle.lw_index.specs.Slots.{Place, slot_at};
ghost use Rattle.lw_index.specs.Turns.{reserved, emptied, offered, swept, TurnsOf, TurnsAll, AreFilledAlike};

use crate::exporters::{self, Exporters, Place};
use crate::parts::Export;
use lw_base::{DocId, Name, NoMemory, NodeId};
use std::alloc::Global;
use std::collections::BTreeMap;

pub(crate) type Names = BTreeMap<Name, Exporters>;

/// Makes sure that there is a slot for a name at a place.
fn reserve(
    names: &mut Names,
    alloc: Global,
    name: &Name,
    place: &Place,
    doc: DocId,
) -> Result<(), NoMemory>
    ensures made { OnOk result (TurnsOf (reserved doc) name.now place.now names.old names.new) }
    ensures refused { OnErr result ((n : List ℕ) (p : Place) → slot_at names.new n p ≡ slot_at names.old n p) }
{
    if let Some(exporters) = names.get_mut(name) {
        return exporters::reserve(exporters, alloc, place, doc);
    }
    let mut exporters = BTreeMap::new(alloc);
    exporters::reserve(&mut exporters, alloc, place, doc)?;
    names.insert(name.copy(alloc)?, exporters)?;
    Ok(())
}

fn withdraw(names: &mut Names, name: &Name, place: &Place)
    ensures { TurnsOf emptied name.now place.now names.old names.new }
{
    if let Some(exporters) = names.get_mut(name) {
        exporters::withdraw(exporters, place);
    }
}

fn offer(names: &mut Names, name: &Name, place: &Place, doc: DocId, node: NodeId)
    ensures { TurnsOf (offered doc node) name.now place.now names.old names.new }
{
    if let Some(exporters) = names.get_mut(name) {
        exporters::offer(exporters, place, doc, node);
    }
}

fn sweep(names: &mut Names, name: &Name, place: &Place)
    ensures { TurnsOf swept name.now place.now names.old names.new }
{
    let empty = match names.get_mut(name) {
        Some(exporters) => {
            exporters::sweep(exporters, place);
            exporters.is_empty()
        }
        None => false,
    };
    if empty {
        names.remove(name);
    }
}

/// Makes sure that there is a slot for each export of a document. Where memory is refused, some may have been made.
pub(crate) fn reserve_all(
    names: &mut Names,
    alloc: Global,
    place: &mut Place,
    doc: DocId,
    exports: &[Export],
) -> Result<(), NoMemory>
    ensures made { OnOk result (TurnsAll (λ _. reserved doc) place.old.1 exports.now names.old names.new) }
    ensures refused { OnErr result (AreFilledAlike names.old names.new) }
    ensures uri { place.new.1 ≡ place.old.1 }
{
    for export in exports {
        place.0 = export.type_id.0;
        reserve(names, alloc, &export.name, &*place, doc)?;
    }
    Ok(())
}

pub(crate) fn withdraw_all(names: &mut Names, place: &mut Place, exports: &[Export])
    ensures turned { TurnsAll (λ _. emptied) place.old.1 exports.now names.old names.new }
    ensures uri { place.new.1 ≡ place.old.1 }
{
    for export in exports {
        place.0 = export.type_id.0;
        withdraw(names, &export.name, &*place);
    }
}

pub(crate) fn offer_all(names: &mut Names, place: &mut Place, doc: DocId, exports: &[Export])
    ensures turned { TurnsAll (λ x. offered doc x.node) place.old.1 exports.now names.old names.new }
    ensures uri { place.new.1 ≡ place.old.1 }
{
    for export in exports {
        place.0 = export.type_id.0;
        offer(names, &export.name, &*place, doc, export.node);
    }
}

pub(crate) fn sweep_all(names: &mut Names, place: &mut Place, exports: &[Export])
    ensures turned { TurnsAll (λ _. swept) place.old.1 exports.now names.old names.new }
    ensures uri { place.new.1 ≡ place.old.1 }
{
    for export in exports {
        place.0 = export.type_id.0;
        sweep(names, &export.name, &*place);
    }
}
