// Properties that declared types do not have.
ghost use Rattle.std.specs.Prelude.{◌↔◌, IsTrue, OnOk, map};
ghost use Rattle.lw_faults.specs.Properties.{UnknownProperty};
ghost use Rattle.lw_faults.specs.Finding.{Finds, IsFaultOf};
ghost use Rattle.lw_properties.specs.Asked.{IsKnownIn, LacksProperty};
ghost use Rattle.lw_properties.specs.Places.{spot_of, ArePlacesOf, IsComeTo};
ghost use Rattle.lw_properties.specs.Told.{UnknownAt, UnknownPut};

use crate::known::Known;
use crate::places::{Place, is_come_to};
use crate::questions::{Question, holds_of_some, lacks};
use crate::telling::{Spoken, tell_if};
use lw_base::{Name, NoMemory};
use lw_faults::FaultKind;
use lw_faults::findings::Findings;
use lw_flow::Before;
use lw_grammar::Action;
use lw_numbers::leaves::BodyLeaf;
use std::alloc::Global;

/// Finds what puts something into a property that the declared type does not have.
pub(crate) fn find_unknown_properties(
    alloc: Global,
    known: &Known<'_>,
    places: &[Place<'_>],
    found: &mut Findings,
) -> Result<(), NoMemory>
    requires known { IsKnownIn known.now }
    requires places { ArePlacesOf known.now.g.now (map spot_of places.now) }
    ensures { OnOk result (Finds (IsFaultOf 14 (UnknownProperty known.now.g.now)) found.old found.new) }
{
    for place in places {
        unknown_at(alloc, known, place, found)?;
    }
    Ok(())
}

fn unknown_at(
    alloc: Global,
    known: &Known<'_>,
    place: &Place<'_>,
    found: &mut Findings,
) -> Result<(), NoMemory>
    requires { IsKnownIn known.now }
    ensures { OnOk result (Finds (UnknownAt known.now.g.now (spot_of place.now)) found.old found.new) }
{
    match place.leaf {
        BodyLeaf::Assign(name, _, _, span) => {
            let types = place.before.current.as_slice();
            let so = holds_of_some(alloc, known, Question::Lacks(name), types)?;
            let file = place.rule.file;
            tell_if(
                alloc,
                found,
                so,
                FaultKind::UnknownProperty,
                &Spoken { file, span, name },
            )
        }
        BodyLeaf::Act(action) => unknown_put(alloc, known, place, action, found),
        BodyLeaf::Call(_, _) => Ok(()),
        BodyLeaf::Keyword(_, _) => Ok(()),
    }
}

fn unknown_put(
    alloc: Global,
    known: &Known<'_>,
    place: &Place<'_>,
    action: &Action,
    found: &mut Findings,
) -> Result<(), NoMemory>
    requires { IsKnownIn known.now }
    ensures { OnOk result (Finds (UnknownPut known.now.g.now place.now.rule.now place.now.before.now action.now action.now.put) found.old found.new) }
{
    match &action.put {
        Some((name, _)) => {
            let so = is_lacking(known, place.before, &action.type_name, name);
            let (file, span) = (place.rule.file, action.span);
            tell_if(
                alloc,
                found,
                so,
                FaultKind::UnknownProperty,
                &Spoken { file, span, name },
            )
        }
        None => Ok(()),
    }
}

/// Whether some way comes there, and the declared type lacks the property.
fn is_lacking(known: &Known<'_>, before: &Before, type_name: &Name, property: &Name) -> bool
    requires { IsKnownIn known.now }
    ensures { IsTrue result ↔ (IsComeTo before.now × LacksProperty known.now.g.now type_name.now property.now) }
{
    is_come_to(before) && lacks(known, type_name, property)
}
