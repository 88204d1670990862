// All faults of names.
ghost use Rattle.std.specs.Prelude.{◌≤◌, ◌⊎◌, OnOk};
ghost use Rattle.lw_grammar.specs.Size.{size};
ghost use Rattle.lw_numbers.specs.Tables.{AreNumbersOf};
ghost use Rattle.lw_numbers.specs.NameTable.{AreNameRulesOf};
ghost use Rattle.lw_faults.specs.Names.{Duplicate, UnknownRule, UnknownType, NoNameRule};
ghost use Rattle.lw_faults.specs.Circles.{CircularType};
ghost use Rattle.lw_faults.specs.Finding.{Finds, IsFaultOf};

use crate::naming::attributes::find_second_attributes;
use crate::naming::names::KnownNames;
use lw_base::NoMemory;
use lw_faults::findings::Findings;
use lw_grammar::Grammar;
use lw_numbers::Numbers;
use lw_numbers::name_rules::NameRules;
use std::alloc::Global;

/// Finds the faults of a grammar that are about its names: 4 duplicate, 5 unknown rule, 6 unknown type,
/// 18 no name rule and 19 circular type.
pub fn find_name_faults(
    alloc: Global,
    g: &Grammar,
    numbers: &Numbers,
    name_rules: &NameRules,
    found: &mut Findings,
) -> Result<(), NoMemory>
    requires numbered { AreNumbersOf g.now numbers.now }
    requires ruled { AreNameRulesOf g.now name_rules.now }
    requires small { size g.now ≤ 65535 }
    ensures { OnOk result (Finds (λ f. IsFaultOf 4 (Duplicate g.now) f ⊎ IsFaultOf 5 (UnknownRule g.now) f ⊎ IsFaultOf 6 (UnknownType g.now) f ⊎ IsFaultOf 18 (NoNameRule g.now) f ⊎ IsFaultOf 19 (CircularType g.now) f) found.old found.new) }
{
    let names = KnownNames::of(alloc, g, numbers, name_rules)?;
    names.find_second_declarations(alloc, found)?;
    names.find_wrong(alloc, found)?;
    find_second_attributes(alloc, g.interfaces.as_slice(), found)?;
    names.find_interface_circles(alloc, found)?;
    names.find_union_circles(alloc, found)?;
    names.find_extending_others(alloc, found)
}
