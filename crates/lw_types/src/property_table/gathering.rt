// The properties of one type, as they are met.
ghost use Rattle.std.specs.Prelude.{◌≡◌, [], OnOk, IfOk, map};
ghost use Rattle.std.specs.List.{list_any};
ghost use Rattle.lw_types.specs.Gathered.{info_of, has_prop, JoinsValues, PutsIntoProperty, value_kinds};

use crate::property_table::PropertyInfo;
use crate::property_table::value::{Value, kinds, put_kinds};
use indexmap::{IndexMap, IndexSet};
use lw_base::{NoMemory, PropId};
use lw_grammar::ValueKind;
use std::alloc::Global;
use std::marker::Model;

/// What is met of a property.
#[derive(Drop)]
pub(crate) struct Met {
    pub(crate) list: bool,
    pub(crate) values: IndexSet<Value>,
}

/// The properties of a type that are met so far, in order.
#[derive(Drop)]
pub(crate) struct Gathering {
    props: IndexMap<u16, Met>,
}

impl Model for Gathering {
    ghost use Rattle.std.specs.Prelude.{List, map};
    ghost use Rattle.lw_types.specs.declared.property_table.info.PropertyInfo.{PropertyInfo};
    ghost use Rattle.lw_types.specs.Gathered.{info_of};

    ghost Value = { List PropertyInfo };

    ghost view = { λ a. map info_of a.props.entries };
}

impl Gathering {
    pub(crate) fn new(alloc: Global) -> Gathering
        ensures { result ≡ [] }
    {
        Gathering {
            props: IndexMap::new(alloc),
        }
    }

    /// Whether the property was met, in expected constant time.
    pub(crate) fn has(&self, prop: PropId) -> bool
        ensures { result ≡ has_prop self.now prop.0 }
    {
        self.props.contains_key(&prop.0)
    }

    /// These values are met of the property, which is a list or not where it is met first.
    pub(crate) fn put(
        &mut self,
        alloc: Global,
        prop: PropId,
        list: bool,
        values: &[ValueKind],
    ) -> Result<(), NoMemory>
        ensures { OnOk result (PutsIntoProperty prop.0 list values.now self.old self.new) }
    {
        match self.props.get_index_of(&prop.0) {
            Some(at) => put_kinds(&mut self.props[at].values, values),
            None => {
                let met = first_met(alloc, list, values)?;
                self.props.insert(prop.0, met)?;
                Ok(())
            }
        }
    }

    /// The properties, in order.
    pub(crate) fn infos(&self, alloc: Global) -> Result<Vec<PropertyInfo>, NoMemory>
        ensures { IfOk result (λ infos. infos.items ≡ self.now) }
    {
        met_infos(alloc, &self.props)
    }
}

/// The properties of these numbers, of which this is met, in order.
fn met_infos(alloc: Global, props: &IndexMap<u16, Met>) -> Result<Vec<PropertyInfo>, NoMemory>
    ensures { IfOk result (λ infos. infos.items ≡ map info_of props.now.entries) }
{
    let mut infos = Vec::new(alloc);
    for at in 0..props.len() {
        if let Some((prop, met)) = props.get_index(at) {
            infos.push(info(alloc, *prop, met)?)?;
        }
    }
    Ok(infos)
}

/// What is met where these values are the first.
fn first_met(alloc: Global, list: bool, values: &[ValueKind]) -> Result<Met, NoMemory>
    ensures list { IfOk result (λ met. met.list ≡ list) }
    ensures values { IfOk result (λ met. JoinsValues [] values.now (value_kinds met.values.keys)) }
{
    let mut set = IndexSet::new(alloc);
    put_kinds(&mut set, values)?;
    Ok(Met { list, values: set })
}

fn info(alloc: Global, prop: u16, met: &Met) -> Result<PropertyInfo, NoMemory>
    ensures { IfOk result (λ info. info ≡ info_of (prop, met.now)) }
{
    Ok(PropertyInfo {
        prop: PropId(prop),
        list: met.list,
        values: kinds(alloc, met.values.as_slice())?,
    })
}
