// Properties that are put into in another form than they have.
ghost use Rattle.std.specs.Prelude.{◌↔◌, IsTrue, IfOk, OnOk, map};
ghost use Rattle.lw_faults.specs.Properties.{WrongPropertyForm};
ghost use Rattle.lw_faults.specs.Finding.{Finds, IsFaultOf};
ghost use Rattle.lw_properties.specs.Asked.{IsKnownIn};
ghost use Rattle.lw_properties.specs.Places.{spot_of, ArePlacesOf};
ghost use Rattle.lw_properties.specs.Told.{MisformedAt, MisformedPut, PutMisfits, IsPutRefused};

use crate::declarations::is_declared;
use crate::known::Known;
use crate::places::{Place, is_come_to};
use crate::questions::{Question, holds_of_some};
use crate::telling::{Spoken, tell_if};
use lw_base::{Name, NoMemory};
use lw_faults::FaultKind;
use lw_faults::findings::Findings;
use lw_flow::Before;
use lw_grammar::{Action, Attribute};
use lw_numbers::leaves::BodyLeaf;
use std::alloc::Global;

/// Finds what is put in that has not the form of the declared property.
pub(crate) fn find_wrong_forms(
    alloc: Global,
    known: &Known<'_>,
    places: &[Place<'_>],
    found: &mut Findings,
) -> Result<(), NoMemory>
    requires known { IsKnownIn known.now }
    requires places { ArePlacesOf known.now.g.now (map spot_of places.now) }
    ensures { OnOk result (Finds (IsFaultOf 15 (WrongPropertyForm known.now.g.now)) found.old found.new) }
{
    for place in places {
        wrong_form_at(alloc, known, place, found)?;
    }
    Ok(())
}

fn wrong_form_at(
    alloc: Global,
    known: &Known<'_>,
    place: &Place<'_>,
    found: &mut Findings,
) -> Result<(), NoMemory>
    requires { IsKnownIn known.now }
    ensures { OnOk result (Finds (MisformedAt known.now.g.now (spot_of place.now)) found.old found.new) }
{
    match place.leaf {
        BodyLeaf::Assign(name, op, value, span) => {
            let types = place.before.current.as_slice();
            let so = holds_of_some(alloc, known, Question::Misfits(name, op, value), types)?;
            let file = place.rule.file;
            tell_if(
                alloc,
                found,
                so,
                FaultKind::WrongPropertyForm,
                &Spoken { file, span, name },
            )
        }
        BodyLeaf::Act(action) => wrong_put(alloc, known, place, action, found),
        BodyLeaf::Call(_, _) => Ok(()),
        BodyLeaf::Keyword(_, _) => Ok(()),
    }
}

fn wrong_put(
    alloc: Global,
    known: &Known<'_>,
    place: &Place<'_>,
    action: &Action,
    found: &mut Findings,
) -> Result<(), NoMemory>
    requires { IsKnownIn known.now }
    ensures { OnOk result (Finds (MisformedPut known.now.g.now place.now.rule.now place.now.before.now action.now action.now.put) found.old found.new) }
{
    match &action.put {
        Some((name, list)) => {
            let so = put_misfits(alloc, known, place.before, &action.type_name, name, *list)?;
            let (file, span) = (place.rule.file, action.span);
            tell_if(
                alloc,
                found,
                so,
                FaultKind::WrongPropertyForm,
                &Spoken { file, span, name },
            )
        }
        None => Ok(()),
    }
}

/// Whether the node so far does not go into the property, at the end of a list or not.
fn put_misfits(
    alloc: Global,
    known: &Known<'_>,
    before: &Before,
    type_name: &Name,
    property: &Name,
    list: bool,
) -> Result<bool, NoMemory>
    requires { IsKnownIn known.now }
    ensures { IfOk result (λ so. IsTrue so ↔ PutMisfits known.now.g.now before.now type_name.now property.now list) }
{
    if !is_declared(known.g, known.numbers, type_name) {
        return Ok(false);
    }
    match known.attributes.attribute(type_name, property) {
        Some(attribute) => is_put_refused(alloc, known, before, attribute, list),
        None => Ok(false),
    }
}

fn is_put_refused(
    alloc: Global,
    known: &Known<'_>,
    before: &Before,
    attribute: &Attribute,
    list: bool,
) -> Result<bool, NoMemory>
    requires { IsKnownIn known.now }
    ensures { IfOk result (λ so. IsTrue so ↔ IsPutRefused known.now.g.now before.now attribute.now list) }
{
    if is_come_to(before) && attribute.list != list {
        return Ok(true);
    }
    let types = before.current.as_slice();
    holds_of_some(alloc, known, Question::IsRefused(attribute), types)
}
