// From a grammar to its types.
ghost use Rattle.std.specs.Prelude.{◌≤◌, IfErr, IfOk, OnOk};
ghost use Rattle.lw_grammar.specs.Size.{size};
ghost use Rattle.lw_faults.specs.Faults.{AreTypeFaults};
ghost use Rattle.lw_types.specs.Inferred.{AreTypesOf, CausesNoTypes, HasNoTypeFault};

use crate::naming::find_name_faults;
use crate::{TypeFaults, Types};
use lw_base::{Items, NoMemory};
use lw_faults::findings::Findings;
use lw_grammar::{Grammar, GrammarFault};
use lw_properties::find_property_faults;
use std::alloc::Global;

/// The types of a grammar, or all that is wrong with its names and types.
pub fn infer(alloc: Global, g: &Grammar) -> Result<Types, TypeFaults>
    requires { size g.now ≤ 65535 }
    ensures types { IfOk result (AreTypesOf g.now) }
    ensures none { OnOk result (HasNoTypeFault g.now) }
    ensures faults { IfErr result (CausesNoTypes g.now) }
{
    let types = Types::of(alloc, g)?;
    let found = find_type_faults(alloc, g, &types)?;
    if !found.is_empty() {
        return Err(TypeFaults::Faults(found));
    }
    Ok(types)
}

/// All faults of this phase, in their order.
fn find_type_faults(
    alloc: Global,
    g: &Grammar,
    types: &Types,
) -> Result<Items<GrammarFault>, NoMemory>
    requires types { AreTypesOf g.now types.now }
    requires small { size g.now ≤ 65535 }
    ensures { IfOk result (AreTypeFaults g.now) }
{
    let mut found = Findings::new(alloc);
    find_name_faults(alloc, g, types.numbers(), types.name_rules(), &mut found)?;
    find_property_faults(
        alloc,
        g,
        types.numbers(),
        types.nodes(),
        types.subtypes(),
        types.ways(),
        &mut found,
    )?;
    found.into_list(alloc)
}
