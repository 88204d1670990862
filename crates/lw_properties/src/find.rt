// What is wrong with the properties of a grammar.
ghost use Rattle.std.specs.Prelude.{◌⊎◌, ◌≤◌, OnOk, map};
ghost use Rattle.lw_grammar.specs.Size.{size};
ghost use Rattle.lw_faults.specs.Properties.{UnknownProperty, WrongPropertyForm, MixedProperty, NotASubtype};
ghost use Rattle.lw_faults.specs.Finding.{Finds, IsFaultOf};
ghost use Rattle.lw_numbers.specs.Tables.{AreNumbersOf};
ghost use Rattle.lw_numbers.specs.Kinship.{AreNodeRules, AreSubtypesOf};
ghost use Rattle.lw_flow.specs.Recorded.{AreWaysOf};
ghost use Rattle.lw_properties.specs.Asked.{IsKnownIn};
ghost use Rattle.lw_properties.specs.Places.{ArePlacesOf, spot_of};

use crate::Attributes;
use crate::below::find_not_below;
use crate::forms::find_wrong_forms;
use crate::known::Known;
use crate::mixed::find_mixed_properties;
use crate::places::{Place, places};
use crate::rule_types::text_types;
use crate::unknown::find_unknown_properties;
use lw_base::NoMemory;
use lw_faults::findings::Findings;
use lw_flow::Ways;
use lw_grammar::Grammar;
use lw_numbers::Numbers;
use lw_numbers::subtypes::Subtypes;
use std::alloc::Global;

/// Finds the faults 14 to 17: unknown properties, wrong forms of properties, mixed properties, and
/// nodes of types that are not below the type of their rule.
pub fn find_property_faults<'g>(
    alloc: Global,
    g: &'g Grammar,
    numbers: &'g Numbers,
    nodes: &'g [bool],
    subtypes: &'g Subtypes,
    ways: &'g Ways,
    found: &mut Findings,
) -> Result<(), NoMemory>
    requires numbers { AreNumbersOf g.now numbers.now }
    requires nodes { AreNodeRules g.now nodes.now }
    requires subtypes { AreSubtypesOf g.now subtypes.now }
    requires ways { AreWaysOf g.now ways.now }
    requires small { size g.now ≤ 65535 }
    ensures { OnOk result (Finds (λ f. IsFaultOf 14 (UnknownProperty g.now) f ⊎ IsFaultOf 15 (WrongPropertyForm g.now) f
        ⊎ IsFaultOf 16 (MixedProperty g.now) f ⊎ IsFaultOf 17 (NotASubtype g.now) f) found.old found.new) }
{
    let attributes = Attributes::of(alloc, g, numbers)?;
    let texts = text_types(alloc, g, numbers, nodes)?;
    let places = places(alloc, g, ways)?;
    let known = Known {
        g,
        numbers,
        nodes,
        subtypes,
        texts: texts.as_slice(),
        attributes,
    };
    find_at(alloc, &known, places.as_slice(), found)
}

/// Finds those at the places of all leaves.
fn find_at(
    alloc: Global,
    known: &Known<'_>,
    places: &[Place<'_>],
    found: &mut Findings,
) -> Result<(), NoMemory>
    requires known { IsKnownIn known.now }
    requires places { ArePlacesOf known.now.g.now (map spot_of places.now) }
    ensures { OnOk result (Finds (λ f. IsFaultOf 14 (UnknownProperty known.now.g.now) f ⊎ IsFaultOf 15 (WrongPropertyForm known.now.g.now) f
        ⊎ IsFaultOf 16 (MixedProperty known.now.g.now) f ⊎ IsFaultOf 17 (NotASubtype known.now.g.now) f) found.old found.new) }
{
    find_unknown_properties(alloc, known, places, found)?;
    find_wrong_forms(alloc, known, places, found)?;
    find_mixed_properties(alloc, known, places, found)?;
    find_not_below(alloc, known, places, found)
}
