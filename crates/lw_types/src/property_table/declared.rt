// The properties of types that interfaces declare.
ghost use Rattle.std.specs.Prelude.{◌++◌, ◌∷◌, [], List, OnOk, IfOk};
ghost use Rattle.lw_grammar.specs.declared.declared_types.Attribute.{Attribute};
ghost use Rattle.lw_types.specs.Having.{AreDeclaredProperties, AreDeclaredIn};
ghost use Rattle.lw_types.specs.Seeing.{IsPropertySource};

use crate::property_table::PropertyInfo;
use crate::property_table::gathering::Gathering;
use crate::property_table::members::member_values;
use crate::property_table::source::Source;
use lw_base::{Name, NoMemory};
use lw_grammar::Attribute;
use lw_properties::lineage_of;
use std::alloc::Global;

/// The properties of the type of this name: its own attributes, and those of all that it extends, of each name the first.
pub(crate) fn declared_properties(
    alloc: Global,
    source: &Source<'_>,
    name: &Name,
) -> Result<Vec<PropertyInfo>, NoMemory>
    requires { IsPropertySource source.now }
    ensures { IfOk result (λ infos. AreDeclaredProperties source.now.g.now name.now infos.items) }
{
    let order = lineage_of(alloc, source.g, source.numbers, name)?;
    let mut gathering = Gathering::new(alloc);
    for interface in order.iter() {
        put_attributes(
            alloc,
            source,
            interface.attributes.as_slice(),
            &mut gathering,
        )?;
    }
    gathering.infos(alloc)
}

/// Puts in the attributes whose names are not there yet.
fn put_attributes(
    alloc: Global,
    source: &Source<'_>,
    attributes: &[Attribute],
    gathering: &mut Gathering,
) -> Result<(), NoMemory>
    requires { IsPropertySource source.now }
    ensures { OnOk result ((before : List Attribute) → AreDeclaredIn source.now.g.now before [] gathering.old →
        AreDeclaredIn source.now.g.now (before ++ attributes.now) [] gathering.new) }
{
    for attribute in attributes {
        put_attribute(alloc, source, attribute, gathering)?;
    }
    Ok(())
}

fn put_attribute(
    alloc: Global,
    source: &Source<'_>,
    attribute: &Attribute,
    gathering: &mut Gathering,
) -> Result<(), NoMemory>
    requires { IsPropertySource source.now }
    ensures { OnOk result ((before : List Attribute) → AreDeclaredIn source.now.g.now before [] gathering.old →
        AreDeclaredIn source.now.g.now (before ++ attribute.now ∷ []) [] gathering.new) }
{
    match source.numbers.prop(&attribute.name) {
        Some(prop) => {
            if gathering.has(prop) {
                return Ok(());
            }
            let values = member_values(alloc, source, attribute.members.as_slice())?;
            gathering.put(alloc, prop, attribute.list, values.as_slice())
        }
        None => Ok(()),
    }
}
