// What documents other than one export.
ghost use Rattle.std.specs.Prelude.{◌↔◌, IfOk, IsTrue};
ghost use Rattle.lw_index.specs.Elsewhere.{AreElsewhere, IsElsewhere};
ghost use Rattle.lw_index.specs.Others.{AreOthers, HasOther, IsOthers};

use super::Index;
use crate::exporters::{Exporters, first_wanted};
use crate::names::Names;
use lw_base::{DocId, Name, NoMemory, TypeSet};
use std::alloc::Global;

/// Whether a document other than this one is among exporters of wanted types.
fn has_other(exporters: &Exporters, alloc: Global, except: DocId, types: &TypeSet) -> bool
    ensures { IsTrue result ↔ HasOther exporters.now except types.now }
{
    first_wanted(exporters, alloc, types, Some(except)).is_some()
}

/// The names that documents other than this one export with a wanted type.
fn names_of_others(
    names: &Names,
    alloc: Global,
    except: DocId,
    types: &TypeSet,
) -> Result<Vec<Name>, NoMemory>
    ensures { IfOk result (λ found. AreOthers names.now except types.now found.items) }
{
    let mut found = Vec::new(alloc);
    for (name, exporters) in names {
        if has_other(exporters, alloc, except, types) {
            found.push(name.copy(alloc)?)?;
        }
    }
    Ok(found)
}

/// Whether a document other than this one exports this name with a wanted type.
fn is_of_others(names: &Names, alloc: Global, except: DocId, name: &Name, types: &TypeSet) -> bool
    ensures { IsTrue result ↔ IsOthers names.now except types.now name.now }
{
    match names.get(name) {
        Some(exporters) => has_other(exporters, alloc, except, types),
        None => false,
    }
}

impl Index {
    /// The names that documents other than this one export with a type of the set, in the order of their bytes, each once. Want of memory
    /// is the only error. It counts no step. The time is that of a walk over all names that are exported anywhere, and for each type with
    /// which one of them is exported of two look-ups among its exporters. Each name that is answered is copied.
    pub fn names(
        &self,
        alloc: Global,
        except: DocId,
        types: &TypeSet,
    ) -> Result<Vec<Name>, NoMemory>
        ensures { IfOk result (λ names. AreElsewhere self.now except.0 types.now names.items) }
    {
        names_of_others(&self.names, alloc, except, types)
    }

    /// Whether a document other than this one exports this name with a type of the set. It counts no step. The time is that of one look-up
    /// of the name, and for each type with which it is exported of two look-ups among its exporters, however many these are.
    pub fn is_exported_elsewhere(&self, except: DocId, name: &Name, types: &TypeSet) -> bool
        ensures { IsTrue result ↔ IsElsewhere self.now except.0 types.now name.now }
    {
        is_of_others(&self.names, self.alloc, except, name, types)
    }
}
