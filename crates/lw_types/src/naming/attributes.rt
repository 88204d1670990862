// Attributes that have the name of one before them in their interface.
ghost use Rattle.std.specs.Prelude.{◌≡◌, Contains, OnOk, bytes_eq};
ghost use Rattle.indexmap.specs.IndexSet.{insert_key};
ghost use Rattle.lw_faults.specs.Faults.{fault};
ghost use Rattle.lw_faults.specs.Finding.{Finds, OfSome, OneIf};
ghost use Rattle.lw_types.specs.Attributes.{RepeatsAttribute};

use crate::naming::names::put_name;
use indexmap::IndexSet;
use lw_base::{Name, NoMemory};
use lw_faults::FaultKind;
use lw_faults::findings::Findings;
use lw_grammar::{Attribute, Interface};
use std::alloc::Global;

/// Finds each second attribute of one name in these interfaces.
pub(crate) fn find_second_attributes(
    alloc: Global,
    interfaces: &[Interface],
    found: &mut Findings,
) -> Result<(), NoMemory>
    ensures { OnOk result (Finds (OfSome RepeatsAttribute interfaces.now) found.old found.new) }
{
    for interface in interfaces {
        find_repeated(alloc, interface, found)?;
    }
    Ok(())
}

fn find_repeated(alloc: Global, interface: &Interface, found: &mut Findings) -> Result<(), NoMemory>
    ensures { OnOk result (Finds (RepeatsAttribute interface.now) found.old found.new) }
{
    let mut names = IndexSet::new(alloc);
    for attribute in interface.attributes.as_slice() {
        meet(alloc, interface.file, attribute, &mut names, found)?;
    }
    Ok(())
}

/// Finds the attribute where one of its name was met, and puts its name to those.
fn meet(
    alloc: Global,
    file: u16,
    attribute: &Attribute,
    names: &mut IndexSet<Name>,
    found: &mut Findings,
) -> Result<(), NoMemory>
    ensures told { OnOk result (Finds (OneIf (Contains names.old.keys attribute.now.name) (fault 4 file attribute.now.span attribute.now.name)) found.old found.new) }
    ensures named { OnOk result (names.new.keys ≡ insert_key bytes_eq names.old.keys attribute.now.name) }
{
    let is_second = names.contains(&attribute.name);
    put_name(alloc, &attribute.name, names)?;
    if !is_second {
        return Ok(());
    }
    found.add(
        alloc,
        FaultKind::Duplicate,
        file,
        attribute.span,
        &attribute.name,
    )
}
