// The properties of all types.
ghost use Rattle.std.specs.Prelude.{◌≡◌, ◌<◌, ◌≤◌, Some, IfOk, MatchBool, length, map, slice_get};
ghost use Rattle.lw_grammar.specs.Size.{size};
ghost use Rattle.lw_numbers.specs.Tables.{AreNumbersOf};
ghost use Rattle.lw_numbers.specs.Kinship.{AreNodeRules};
ghost use Rattle.lw_flow.specs.Recorded.{AreWaysOf};
ghost use Rattle.lw_types.specs.Having.{ArePropertyTableOf};
ghost use Rattle.lw_types.specs.Seeing.{IsPropertySource, AreFreeTypes, AreSeenProperties, AreUnfreeProperties};

use crate::property_table::PropertyInfo;
use crate::property_table::declared::declared_properties;
use crate::property_table::free::free_types;
use crate::property_table::gathering::Gathering;
use crate::property_table::seeing::gather;
use crate::property_table::source::Source;
use lw_base::{Name, NoMemory, TypeId};
use lw_flow::Ways;
use lw_grammar::Grammar;
use lw_numbers::{Declares, Numbers};
use lw_properties::{node_types, text_types};
use std::alloc::Global;
use std::marker::Model;

/// The properties of the types of a grammar.
#[derive(Drop)]
pub struct PropertyTable {
    types: Vec<Vec<PropertyInfo>>,
}

impl Model for PropertyTable {
    ghost use Rattle.std.specs.Prelude.{List, map};
    ghost use Rattle.lw_types.specs.declared.property_table.info.PropertyInfo.{PropertyInfo};

    ghost Value = { List (List PropertyInfo) };

    ghost view = { λ a. map (λ infos. infos.items) a.types.items };
}

impl PropertyTable {
    /// Those of all types of a grammar, by the numbers of types.
    pub fn of(
        alloc: Global,
        g: &Grammar,
        numbers: &Numbers,
        nodes: &[bool],
        ways: &Ways,
    ) -> Result<PropertyTable, NoMemory>
        requires numbers { AreNumbersOf g.now numbers.now }
        requires nodes { AreNodeRules g.now nodes.now }
        requires ways { AreWaysOf g.now ways.now }
        requires small { size g.now ≤ 65535 }
        ensures { IfOk result (ArePropertyTableOf g.now) }
    {
        let texts = text_types(alloc, g, numbers, nodes)?;
        let made = node_types(alloc, g, numbers, nodes)?;
        let free = free_types(alloc, g, numbers, ways)?;
        let source = Source {
            g,
            numbers,
            nodes,
            texts: texts.as_slice(),
            made: made.as_slice(),
        };
        let gatherings = gather(alloc, &source, ways, free.as_slice())?;
        let types = properties(alloc, &source, free.as_slice(), gatherings.as_slice())?;
        Ok(PropertyTable { types })
    }

    /// How many types there are. Their numbers are those below.
    pub fn type_count(&self) -> usize
        ensures { result ≡ length self.now }
    {
        self.types.len()
    }

    /// The properties of the type of this number.
    pub fn properties(&self, t: TypeId) -> &[PropertyInfo]
        requires { t.0 < length self.now }
        ensures { slice_get self.now t.0 ≡ Some result.now }
    {
        self.types[t.0 as usize].as_slice()
    }
}

/// The properties of each type, where this is what is gathered of the free ones.
fn properties(
    alloc: Global,
    source: &Source<'_>,
    free: &[bool],
    gatherings: &[Gathering],
) -> Result<Vec<Vec<PropertyInfo>>, NoMemory>
    requires source { IsPropertySource source.now }
    requires free { AreFreeTypes source.now.g.now free.now }
    requires all { length gatherings.now ≡ length free.now }
    ensures { IfOk result (λ types. AreSeenProperties source.now.g.now gatherings.now (length source.now.numbers.now.types) (map (λ infos. infos.items) types.items)) }
{
    let mut types = Vec::new(alloc);
    for number in 0..source.numbers.type_count() {
        let name = source.numbers.type_name(TypeId(number as u16));
        let infos = type_properties(alloc, source, free[number], &gatherings[number], name)?;
        types.push(infos)?;
    }
    Ok(types)
}

/// The properties of a type: those that are gathered if it is free, and else those that are declared.
fn type_properties(
    alloc: Global,
    source: &Source<'_>,
    is_free: bool,
    gathering: &Gathering,
    name: &Name,
) -> Result<Vec<PropertyInfo>, NoMemory>
    requires { IsPropertySource source.now }
    ensures { IfOk result (λ infos. MatchBool is_free (infos.items ≡ gathering.now) (AreUnfreeProperties source.now.g.now name.now infos.items)) }
{
    if is_free {
        gathering.infos(alloc)
    } else {
        unfree_properties(alloc, source, name)
    }
}

/// The properties of a type that is not inferred, or declared.
fn unfree_properties(
    alloc: Global,
    source: &Source<'_>,
    name: &Name,
) -> Result<Vec<PropertyInfo>, NoMemory>
    requires { IsPropertySource source.now }
    ensures { IfOk result (λ infos. AreUnfreeProperties source.now.g.now name.now infos.items) }
{
    match source.numbers.declared(source.g, name) {
        Declares::Interface(_, _) => declared_properties(alloc, source, name),
        Declares::Union(_, _) => Ok(Vec::new(alloc)),
        Declares::Nothing => Ok(Vec::new(alloc)),
    }
}
