// The types that are inferred.
ghost use Rattle.std.specs.Prelude.{◌≡◌, ◌↔◌, ℕ, List, IfOk, OnOk, Contains, map};
ghost use Rattle.lw_grammar.specs.Written.{IsInferredType};
ghost use Rattle.lw_faults.specs.Finding.{Finds, OfSome};
ghost use Rattle.lw_numbers.specs.Parts.{leaf_of};
ghost use Rattle.lw_properties.specs.Places.{spot_of, ArePlacesOf};
ghost use Rattle.lw_properties.specs.Mixing.{RuleInfers, LeafInfers, InfersAt};

use crate::places::Place;
use indexmap::IndexSet;
use lw_base::{Name, NoMemory};
use lw_grammar::{Grammar, Rule, RuleResult};
use lw_numbers::leaves::BodyLeaf;
use std::alloc::Global;

/// The names of the types that a grammar infers, of which these are the places of all leaves.
pub fn inferred_types(
    alloc: Global,
    g: &Grammar,
    places: &[Place<'_>],
) -> Result<IndexSet<Name>, NoMemory>
    requires { ArePlacesOf g.now (map spot_of places.now) }
    ensures { IfOk result (λ inferred. (name : List ℕ) → Contains inferred.keys name ↔ IsInferredType g.now name) }
{
    let mut names = IndexSet::new(alloc);
    put_results(alloc, &mut names, g.rules.as_slice())?;
    put_actions(alloc, &mut names, places)?;
    Ok(names)
}

/// Puts in the names of the types that the results of rules infer.
fn put_results(alloc: Global, names: &mut IndexSet<Name>, rules: &[Rule]) -> Result<(), NoMemory>
    ensures { OnOk result (Finds (OfSome RuleInfers rules.now) names.old.keys names.new.keys) }
{
    for rule in rules {
        put_result(alloc, names, rule)?;
    }
    Ok(())
}

fn put_result(alloc: Global, names: &mut IndexSet<Name>, rule: &Rule) -> Result<(), NoMemory>
    ensures { OnOk result (Finds (RuleInfers rule.now) names.old.keys names.new.keys) }
{
    if rule.is_fragment {
        return Ok(());
    }
    match &rule.result {
        RuleResult::Own => put_name(alloc, names, &rule.name),
        RuleResult::Infers(name, _) => put_name(alloc, names, name),
        RuleResult::Returns(_, _) => Ok(()),
        RuleResult::Gives(_) => Ok(()),
    }
}

/// Puts in the names of the types that actions infer.
fn put_actions(
    alloc: Global,
    names: &mut IndexSet<Name>,
    places: &[Place<'_>],
) -> Result<(), NoMemory>
    ensures { OnOk result (Finds (OfSome InfersAt (map spot_of places.now)) names.old.keys names.new.keys) }
{
    for place in places {
        put_action(alloc, names, place.leaf)?;
    }
    Ok(())
}

fn put_action(alloc: Global, names: &mut IndexSet<Name>, leaf: BodyLeaf<'_>) -> Result<(), NoMemory>
    ensures { OnOk result (Finds (LeafInfers (leaf_of leaf.entry)) names.old.keys names.new.keys) }
{
    match leaf {
        BodyLeaf::Act(action) => {
            if action.infers {
                put_name(alloc, names, &action.type_name)?;
            }
            Ok(())
        }
        BodyLeaf::Assign(_, _, _, _) => Ok(()),
        BodyLeaf::Call(_, _) => Ok(()),
        BodyLeaf::Keyword(_, _) => Ok(()),
    }
}

fn put_name(alloc: Global, names: &mut IndexSet<Name>, name: &Name) -> Result<(), NoMemory>
    ensures { OnOk result (Finds (λ other. other ≡ name.now) names.old.keys names.new.keys) }
{
    names.insert(name.copy(alloc)?)?;
    Ok(())
}
